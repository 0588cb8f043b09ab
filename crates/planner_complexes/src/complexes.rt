// The calls on cell lists.
ghost use Rattle.std.specs.Prelude.{◌≡◌, length};
ghost use Rattle.complex.specs.Room.{need_of};
ghost use Rattle.complex.specs.Cells.{cells_of};
ghost use Rattle.complex.specs.Skeleton.{edges_of, border_of};
ghost use Rattle.skeleton.specs.Promise.{Listed, FacetsListed, RecordsListed};
ghost use Rattle.skeleton.specs.Parts.{edge_need};
ghost use Rattle.orientation.specs.Promise.{Orientation};
ghost use Rattle.orientation_by.specs.Promise.{OrientBy};
ghost use Rattle.planner_passing.specs.Said.{Said, counted_code, coherence_code, coherence_looks, verdict_code};

use planner_passing::said;

// The cells, d+1 vertices each, in colex order without repeats: how many. Refused: 1, 2, 3, 4, 6, 5, then 12 where a working list is too short, then 7, 12 where the
// cell list is too short.
#[unsafe(no_mangle)]
pub extern "C" fn planner_cells(
    d: u32,
    words: &[u32],
    cells: &mut [u32],
    keys: &mut [u32],
    rows: &mut [u32],
    spare: &mut [u32],
    counts: &mut [u32],
) -> u64
    ensures { Said counted_code (λ a. Listed (need_of d (length words.now)) (cells_of d words.now) d words.now a cells.old cells.new
        keys.old keys.new rows.old rows.new spare.old spare.new counts.old
        counts.new) result }
{
    said::counted(skeleton::cells(d, words, cells, keys, rows, spare, counts))
}

// The edges, two vertices each, the lower first, in colex order without repeats: how many. Refused as `planner_cells` is, with its own need of working room.
#[unsafe(no_mangle)]
pub extern "C" fn planner_edges(
    d: u32,
    words: &[u32],
    edges: &mut [u32],
    keys: &mut [u32],
    rows: &mut [u32],
    spare: &mut [u32],
    counts: &mut [u32],
) -> u64
    ensures { Said counted_code (λ a. Listed (edge_need d (length words.now)) (edges_of (cells_of d words.now)) d words.now a edges.old
        edges.new keys.old keys.new rows.old rows.new spare.old spare.new
        counts.old counts.new) result }
{
    said::counted(skeleton::edges(d, words, edges, keys, rows, spare, counts))
}

// The facets, d vertices each, in colex order without repeats, and in the table four numbers for each: its lower cell, the position dropped there, its other cell and the
// position dropped there, or 4294967295 twice where it lies in one cell. How many. Refused as `planner_cells` is, 12 also where the table is too short.
#[unsafe(no_mangle)]
pub extern "C" fn planner_facets(
    d: u32,
    words: &[u32],
    facets: &mut [u32],
    table: &mut [u32],
    keys: &mut [u32],
    rows: &mut [u32],
    spare: &mut [u32],
    counts: &mut [u32],
) -> u64
    ensures { Said counted_code (λ a. FacetsListed d words.now a facets.old facets.new table.old table.new keys.old
        keys.new rows.old rows.new spare.old spare.new counts.old counts.new) result }
{
    said::counted(skeleton::facets(d, words, facets, table, keys, rows, spare, counts))
}

// The facets, d vertices each, in colex order without repeats, and in `records` five numbers for each: its lower cell and the induced sign there, 1 for + and 2 for -, its
// other cell and the induced sign there, or 4294967295 and 0 where it lies in one cell, and 1: sorted cells agree on every facet. How many. Refused as `planner_facets` is.
#[unsafe(no_mangle)]
pub extern "C" fn planner_facet_records(
    d: u32,
    words: &[u32],
    facets: &mut [u32],
    records: &mut [u32],
    keys: &mut [u32],
    rows: &mut [u32],
    spare: &mut [u32],
    counts: &mut [u32],
) -> u64
    ensures { Said counted_code (λ a. RecordsListed d words.now a facets.old facets.new records.old records.new
        keys.old keys.new rows.old rows.new spare.old spare.new counts.old
        counts.new) result }
{
    said::counted(skeleton::facet_records(d, words, facets, records, keys, rows, spare, counts))
}

// The facets in one cell, d vertices each, in colex order: how many. Refused as `planner_cells` is.
#[unsafe(no_mangle)]
pub extern "C" fn planner_border(
    d: u32,
    words: &[u32],
    border: &mut [u32],
    keys: &mut [u32],
    rows: &mut [u32],
    spare: &mut [u32],
    counts: &mut [u32],
) -> u64
    ensures { Said counted_code (λ a. Listed (need_of d (length words.now)) (border_of d (cells_of d words.now)) d words.now a border.old
        border.new keys.old keys.new rows.old rows.new spare.old spare.new
        counts.old counts.new) result }
{
    said::counted(skeleton::border(d, words, border, keys, rows, spare, counts))
}

// One sign a cell, +1 or -1, coherent, +1 at the lowest cell of each piece: how many. Refused: 1, 2, 3, 4, 6, 5, then 12 where a working list is too short, then 7,
// 13 where no coherent signs exist, 12 where the sign list is too short.
#[unsafe(no_mangle)]
pub extern "C" fn planner_orientation(
    d: u32,
    words: &[u32],
    signs: &mut [i32],
    keys: &mut [u32],
    rows: &mut [u32],
    spare: &mut [u32],
    counts: &mut [u32],
) -> u64
    ensures { Said coherence_code (λ a. Orientation d words.now a signs.old signs.new keys.old keys.new rows.old rows.new
        spare.old spare.new counts.old counts.new) result }
{
    said::counted(orientation::counted(orientation::orientation(
        d, words, signs, keys, rows, spare, counts,
    )))
}

// The same with the facet looks of the walk, in `looks`: on success d + 1 a cell, none in dimension 0; on 13 those up to the conflict. Another refusal leaves `looks`.
#[unsafe(no_mangle)]
pub extern "C" fn planner_orientation_looks(
    d: u32,
    words: &[u32],
    signs: &mut [i32],
    keys: &mut [u32],
    rows: &mut [u32],
    spare: &mut [u32],
    counts: &mut [u32],
    looks: &mut [u32; 1],
) -> u64
    ensures { Said coherence_code (λ a. Orientation d words.now a signs.old signs.new keys.old keys.new rows.old rows.new
        spare.old spare.new counts.old counts.new × (looks.new ≡ coherence_looks a looks.old)) result }
{
    let said = orientation::orientation(d, words, signs, keys, rows, spare, counts);
    said::coherence(said, looks)
}

// 1 exactly if the signs are coherent, else 0; in dimension 0 always 0. Refused: 1, 2, 3, 4, 6, 5, then 12 where a working list is too short, then 7, 14 where the
// sign list is not one +1 or -1 for each cell.
#[unsafe(no_mangle)]
pub extern "C" fn planner_orient_by(
    d: u32,
    words: &[u32],
    signs: &[i32],
    keys: &mut [u32],
    rows: &mut [u32],
    spare: &mut [u32],
    counts: &mut [u32],
) -> u64
    ensures { Said verdict_code (λ a. OrientBy d words.now signs.now a keys.old keys.new rows.old rows.new spare.old
        spare.new counts.old counts.new) result }
{
    said::verdict(orientation_by::orient_by(d, words, signs, keys, rows, spare, counts))
}
