// From a grid to the words of its cells in the mode of chains: the class of each corner, in the order of the sorted grid cells. Added by the port: the second mode of
// `grid_mesh`, which follows crates/regge/src/mesher/quotient.rs.
//
// What the working lists hold, one phase after the other:
//   keys     words      sorted words     facet rows
//   rows     classes    cells            mates          classes
//   spare               first rows       first rows
//   counts              buckets          classes of facets
#![tactic(auto)]

ghost use Rattle.std.specs.Prelude.{true, false, ◌≡◌, take};
ghost use Rattle.refusal.specs.Says.{fine};
ghost use Rattle.lists.specs.Zero.{AllZero};
ghost use Rattle.grid_mesh.specs.Words.{grid_need};
ghost use Rattle.grid_chained.specs.Shape.{shape_of, need_of};
ghost use Rattle.grid_chained_mesh.specs.Words.{Crowd, CellWords};
ghost use Rattle.grid_chained_mesh.specs.Work.{Working, Laying, Said, Standing, Handed, Worked};

use grid_chained::check;
use quotient::Grid;
use refusal::{MOST_VERTICES, Refusal, Room};

// Writes the words over `words` and says 6 where there are too many classes, else 4 at the first word that names a class twice.
fn checked_words(grid: Grid, words: &mut [u32], room: &mut [u32]) -> Result<(), Refusal>
    requires { Laying grid words.old room.old }
    ensures { Said grid words.new result }
{
    let n = check::points(grid);
    let m = grid_chained_words::lay_words(grid, words, &mut room[..n]);
    if MOST_VERTICES < m {
        return Err(Refusal::TooManyVertices);
    }
    complex::check_cells(grid.d, words)
}

// Whether each facet lies in at most two cells of the words that stand at the front of the keys.
fn uncrowded(
    grid: Grid,
    keys: &mut [u32],
    rows: &mut [u32],
    spare: &mut [u32],
    counts: &mut [u32],
) -> bool
    requires { Standing grid keys.old rows.old spare.old counts.old }
    ensures yes { result ≡ true → Crowd grid (take (need_of grid) keys.old) → ⊥ }
    ensures no { result ≡ false → Crowd grid (take (need_of grid) keys.old) }
{
    let d = grid.d as usize;
    let len = check::need(grid);
    let m = grid_chained_words::cells_in_place(d, len, keys, rows, spare, counts);
    complex_mates::mates(d, m, len, keys, rows, spare, counts)
}

// Writes the words over `words`, where their classes are few enough.
fn hand_words(grid: Grid, words: &mut [u32], room: &mut [u32])
    requires { Laying grid words.old room.old }
    ensures { Handed grid words.new }
{
    let n = check::points(grid);
    grid_chained_words::lay_words(grid, words, &mut room[..n]);
}

// The work of `cell_words`, in working lists of just the sizes that are needed.
fn work(
    grid: Grid,
    words: &mut [u32],
    keys: &mut [u32],
    rows: &mut [u32],
    spare: &mut [u32],
    counts: &mut [u32],
) -> Result<u32, Refusal>
    requires { Working grid keys.old rows.old spare.old counts.old }
    ensures { Worked grid result words.old words.new }
{
    let len = check::need(grid);
    checked_words(grid, &mut keys[..len], rows)?;
    if !uncrowded(grid, keys, rows, spare, counts) {
        return Err(Refusal::CrowdedFacet);
    }
    if words.len() < len {
        return Err(Refusal::TooShort);
    }
    hand_words(grid, &mut words[..len], rows);
    Ok((len / (grid.d as usize + 1)) as u32)
}

// The work, and then the working lists are all zero.
fn cleared(
    grid: Grid,
    words: &mut [u32],
    keys: &mut [u32],
    rows: &mut [u32],
    spare: &mut [u32],
    counts: &mut [u32],
) -> Result<u32, Refusal>
    requires { Working grid keys.old rows.old spare.old counts.old }
    ensures work { Worked grid result words.old words.new }
    ensures room { AllZero keys.old keys.new rows.old rows.new spare.old spare.new counts.old
        counts.new }
{
    let said = work(grid, words, keys, rows, spare, counts);
    lists::clear_four(keys, rows, spare, counts);
    said
}

// What the call needs of its working lists: as much as the first mode.
fn need(grid: Grid) -> Room
    requires { shape_of grid ≡ fine }
    ensures { result ≡ grid_need grid }
{
    complex::need(grid.d as usize, check::need(grid))
}

// The words of the grid's cells by classes, in the order of the sorted grid cells. Refused: 1, 9, 8, 3, then 12 where a working list is too short, 6 by the number of
// classes, 4 at the first word that names a class twice, 7, and 12 where the word list is too short. A refusal changes no word; from the room's test on what is needed
// of the working lists is zero at the end.
pub fn cell_words(
    grid: Grid,
    words: &mut [u32],
    keys: &mut [u32],
    rows: &mut [u32],
    spare: &mut [u32],
    counts: &mut [u32],
) -> Result<u32, Refusal>
    ensures { CellWords grid result words.old words.new keys.old keys.new rows.old rows.new spare.old
        spare.new counts.old counts.new }
{
    check::check(grid)?;
    let need = need(grid);
    let have = Room {
        keys: keys.len(),
        rows: rows.len(),
        spare: spare.len(),
        counts: counts.len(),
    };
    if !refusal::has_room(need, have) {
        return Err(Refusal::TooShort);
    }
    let k = need.keys;
    let r = need.rows;
    let s = need.spare;
    let c = need.counts;
    cleared(
        grid,
        words,
        &mut keys[..k],
        &mut rows[..r],
        &mut spare[..s],
        &mut counts[..c],
    )
}
