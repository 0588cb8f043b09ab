// Follows incidence.rs (`FaceIncidence`, for the faces of dimension 0): the cells at each vertex of a cell list, the index from vertices to cells.
//
// What the working lists hold, one phase after the other:
//   keys     sorted words, facet rows     sorted words     corners (the cells one after the other)
//   rows     cells, mates                 cells            corner numbers by vertex
//   spare    first rows                   first rows       scratch
//   counts   buckets, classes             buckets          buckets
#![tactic(auto)]

ghost use Rattle.std.specs.Prelude.{List, ◌++◌, ◌≡◌, ℕ, suc, ◌+◌, ◌*◌, ◌/◌, ◌<◌, ◌≤◌, length, get_or, take, drop};
ghost use Rattle.lists.specs.Words.{largest_of};
ghost use Rattle.lists.specs.Zero.{AllZero};
ghost use Rattle.complex.specs.Cells.{cells_of};
ghost use Rattle.complex.specs.Room.{need_of};
ghost use Rattle.skeleton.specs.Work.{Working};
ghost use Rattle.lists.specs.Tables.{tab};
ghost use Rattle.complex_incidence.specs.Work.{corners_below, IsBelow, CornerOrder, Sorting, ByVertex, Handing, Handed, Worked};
ghost use Rattle.complex_incidence.specs.Promise.{Indexed};

use lists::largest;
use refusal::{Refusal, Room};

// Whether there is a corner at place i of the order, and its vertex is below v.
fn is_below(v: usize, i: usize, long: usize, corners: &[u32], order: &[u32]) -> bool
    requires { CornerOrder long corners.now order.now }
    ensures { IsBelow v i long corners.now order.now result }
{
    if long <= i {
        return false;
    }
    (corners[order[i] as usize] as usize) < v
}

// Writes how many corners have a vertex below v, for each v up to `vertices`: where the vertex's cells start, and, last, where they end.
fn write_starts(vertices: usize, long: usize, corners: &[u32], order: &[u32], starts: &mut [u32])
    requires { ByVertex vertices long corners.now order.now × (vertices < length starts.old) }
    ensures { starts.new ≡ tab (vertices + 1) (corners_below corners.now long) ++ drop (vertices + 1) starts.old }
{
    let mut i = 0;
    for v in 0..vertices + 1 {
        // Kept: the walk ends at the first corner whose vertex is not below v.
        while is_below(v, i, long, corners, order) {
            i += 1;
        }
        starts[v] = i as u32;
    }
}

// The cell of a corner, n corners a cell.
fn cell_of(n: usize, corner: u32) -> u32
    requires { 0 < n }
    ensures { result ≡ corner / n }
{
    (corner as usize / n) as u32
}

// Writes the cell of each corner, n corners a cell, in the order's sequence.
fn write_cells(n: usize, long: usize, order: &[u32], to: &mut [u32])
    requires { (0 < n) × (long ≤ length order.now) × (long ≤ length to.old) }
    ensures { to.new ≡ tab long (λ i. get_or order.now i 0 / n) ++ drop long to.old }
{
    for i in 0..long {
        to[i] = cell_of(n, order[i]);
    }
}

// Sorts the corners that stand in `rows` by vertex: they go to `keys`, and their numbers, by rising vertex and then by rising number, to `rows`.
fn by_vertex(
    long: usize,
    vertices: usize,
    keys: &mut [u32],
    rows: &mut [u32],
    spare: &mut [u32],
    counts: &mut [u32],
)
    requires { Sorting long vertices keys.old rows.old spare.old counts.old }
    ensures { ByVertex vertices long keys.new rows.new × (take long keys.new ≡ take long rows.old) }
{
    lists::copy(&rows[..long], &mut keys[..long]);
    sorting::sort_rows(keys, 1, long, vertices, rows, spare, counts);
}

// Hands out the cells at each vertex and where they start, from the corners by vertex, or 12 where either list is too short.
fn hand_index(
    n: usize,
    long: usize,
    vertices: usize,
    corners: &[u32],
    order: &[u32],
    touching: &mut [u32],
    starts: &mut [u32],
) -> Result<u32, Refusal>
    requires { (0 < n) × ByVertex vertices long corners.now order.now }
    ensures { (cs : List (List ℕ)) → Handing n long vertices corners.now cs → Handed cs vertices result touching.old touching.new
        starts.old starts.new }
{
    if touching.len() < long {
        return Err(Refusal::TooShort);
    }
    if starts.len() <= vertices {
        return Err(Refusal::TooShort);
    }
    write_cells(n, long, order, touching);
    write_starts(vertices, long, corners, order, starts);
    Ok(vertices as u32)
}

// Hands out the index.
fn list_index(
    d: usize,
    words: &[u32],
    touching: &mut [u32],
    starts: &mut [u32],
    keys: &mut [u32],
    rows: &mut [u32],
    spare: &mut [u32],
    counts: &mut [u32],
) -> Result<u32, Refusal>
    requires { Working (need_of d (length words.now)) d words.now keys.old rows.old spare.old counts.old }
    ensures { Handed (cells_of d words.now) (largest_of words.now + 1) result touching.old touching.new starts.old
        starts.new }
{
    let m = complex_cells::cells(d, words, keys, rows, spare, counts);
    let n = d + 1;
    let long = m * n;
    let vertices = largest(words) as usize + 1;
    by_vertex(long, vertices, keys, rows, spare, counts);
    hand_index(n, long, vertices, keys, rows, touching, starts)
}

// The index, or 7, in working lists of just the sizes that are needed. Nothing is promised of them.
fn index_work(
    d: usize,
    words: &[u32],
    touching: &mut [u32],
    starts: &mut [u32],
    keys: &mut [u32],
    rows: &mut [u32],
    spare: &mut [u32],
    counts: &mut [u32],
) -> Result<u32, Refusal>
    requires { Working (need_of d (length words.now)) d words.now keys.old rows.old spare.old counts.old }
    ensures { Worked d words.now result touching.old touching.new starts.old starts.new }
{
    if !skeleton::sound(d, words, keys, rows, spare, counts) {
        return Err(Refusal::CrowdedFacet);
    }
    list_index(d, words, touching, starts, keys, rows, spare, counts)
}

// The work, and then the working lists are all zero.
fn index_cleared(
    d: usize,
    words: &[u32],
    touching: &mut [u32],
    starts: &mut [u32],
    keys: &mut [u32],
    rows: &mut [u32],
    spare: &mut [u32],
    counts: &mut [u32],
) -> Result<u32, Refusal>
    requires { Working (need_of d (length words.now)) d words.now keys.old rows.old spare.old counts.old }
    ensures work { Worked d words.now result touching.old touching.new starts.old starts.new }
    ensures room { AllZero keys.old keys.new rows.old rows.new spare.old spare.new counts.old
        counts.new }
{
    let said = index_work(d, words, touching, starts, keys, rows, spare, counts);
    lists::clear_four(keys, rows, spare, counts);
    said
}

// The cells at each vertex, rising: those of vertex v stand in `touching` from starts[v] on, up to starts[v + 1]. Says how many vertices there are; `starts` gets one number
// more. Refused: 1, 2, 3, 4, 6, 5, then 12 where a working list is too short (`need_of`), then 7, 12 where either result list is too short. A refusal changes no result;
// from the room's test on what is needed of the working lists is zero at the end.
pub fn incidence(
    d: u32,
    words: &[u32],
    starts: &mut [u32],
    touching: &mut [u32],
    keys: &mut [u32],
    rows: &mut [u32],
    spare: &mut [u32],
    counts: &mut [u32],
) -> Result<u32, Refusal>
    ensures { Indexed d words.now result touching.old touching.new starts.old starts.new keys.old
        keys.new rows.old rows.new spare.old spare.new counts.old counts.new }
{
    complex::check_cells(d, words)?;
    let dim = d as usize;
    let need = complex::need(dim, words.len());
    let have = Room {
        keys: keys.len(),
        rows: rows.len(),
        spare: spare.len(),
        counts: counts.len(),
    };
    if !refusal::has_room(need, have) {
        return Err(Refusal::TooShort);
    }
    let k = need.keys;
    let r = need.rows;
    let s = need.spare;
    let c = need.counts;
    index_cleared(
        dim,
        words,
        touching,
        starts,
        &mut keys[..k],
        &mut rows[..r],
        &mut spare[..s],
        &mut counts[..c],
    )
}
