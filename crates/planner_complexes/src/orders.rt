// The calls on orders of the cells.
ghost use Rattle.ordering.specs.Promise.{Ordering, Induced};
ghost use Rattle.ordering_records.specs.Promise.{RecordsWith};
ghost use Rattle.planner_passing.specs.Said.{Said, counted_code, ordered_code, verdict_code};

use planner_passing::said;

// The order's words by cell: how many cells, with 2^31 more where they agree on every facet of two cells. Refused: 1, 2, 3, 4, 6, 5, then 12 where a working list is too
// short, then 7, 16 where the order's words are not one for each cell, 12 where the result list is too short.
#[unsafe(no_mangle)]
pub extern "C" fn planner_ordering(
    d: u32,
    words: &[u32],
    order: &[u32],
    listed: &mut [u32],
    keys: &mut [u32],
    rows: &mut [u32],
    spare: &mut [u32],
    counts: &mut [u32],
) -> u64
    ensures { Said ordered_code (λ a. Ordering d words.now order.now a listed.old listed.new keys.old keys.new
        rows.old rows.new spare.old spare.new counts.old counts.new) result }
{
    said::ordered(ordering::ordering(d, words, order, listed, keys, rows, spare, counts))
}

// 1 exactly if the signs of the order's words are coherent, else 0; in dimension 0 always 0. Refused: 1, 2, 3, 4, 6, 5, then 12 where a working list is too short, then 7,
// 16 where the order's words are not one for each cell.
#[unsafe(no_mangle)]
pub extern "C" fn planner_induced_orientation(
    d: u32,
    words: &[u32],
    order: &[u32],
    keys: &mut [u32],
    rows: &mut [u32],
    spare: &mut [u32],
    counts: &mut [u32],
) -> u64
    ensures { Said verdict_code (λ a. Induced d words.now order.now a keys.old keys.new rows.old rows.new spare.old
        spare.new counts.old counts.new) result }
{
    said::verdict(ordering::induced_orientation(d, words, order, keys, rows, spare, counts))
}

// The facets, d vertices each, and for each a record of five numbers as `planner_facet_records` has it, but the last is 1 only where the order's words of its cells list the
// facet's vertices in one sequence, else 0; it is 1 where the facet lies in one cell. Refused: 1, 2, 3, 4, 6, 5, then 12 where a working list is too short, then 7, 16 where the
// order's words are not one for each cell, 12 where a result list is too short.
#[unsafe(no_mangle)]
pub extern "C" fn planner_facet_records_with(
    d: u32,
    words: &[u32],
    order: &[u32],
    facets: &mut [u32],
    records: &mut [u32],
    keys: &mut [u32],
    rows: &mut [u32],
    spare: &mut [u32],
    counts: &mut [u32],
) -> u64
    ensures { Said counted_code (λ a. RecordsWith d words.now order.now a facets.old facets.new records.old
        records.new keys.old keys.new rows.old rows.new spare.old spare.new
        counts.old counts.new) result }
{
    said::counted(ordering_records::facet_records_with(
        d, words, order, facets, records, keys, rows, spare, counts,
    ))
}
