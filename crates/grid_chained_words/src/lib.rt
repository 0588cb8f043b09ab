// The words of a grid's cells in the mode of chains: the class of each corner, in the order of the sorted grid cells. The inner steps of the call `cell_words` of this
// mode. Added by the port.
#![tactic(auto)]

ghost use Rattle.std.specs.Prelude.{◌≡◌, take};
ghost use Rattle.grid_chained.specs.Classing.{at};
ghost use Rattle.complex_cells.specs.WorkMade.{Made};
ghost use Rattle.grid_chained_words.specs.Words.{flat_by};
ghost use Rattle.grid_chained_words.specs.WorkWords.{Writing, Sorting, Laying, Laid};

use grid_chained::engines;
use quotient::Grid;
use refusal::MOST_VERTICES;

// Writes the words of all cells, one after the other, over a list of their length: `numbers` has each grid point's class.
pub fn class_words(grid: Grid, numbers: &[u32], words: &mut [u32])
    requires { Writing grid numbers.now words.old }
    ensures { words.new ≡ flat_by grid (at numbers.now) }
{
    let n = grid.d as usize + 1;
    for (i, word) in words.iter_mut().enumerate() {
        let p = grid_words::corner(grid, i / n, i % n);
        *word = numbers[p];
    }
}

// Writes the words by the classes over `words`, where the classes are few enough, and says how many classes there are; `room` has a place for each point.
pub fn lay_words(grid: Grid, words: &mut [u32], room: &mut [u32]) -> usize
    requires { Laying grid words.old room.old }
    ensures { Laid grid result words.new }
{
    let m = engines::numbers(grid, false, room);
    if MOST_VERTICES < m {
        return m;
    }
    class_words(grid, room, words);
    m
}

// Writes the cells of the words that stand at the front of the keys, one after the other, to `rows`, and says how many there are. The keys are sorted on the way.
pub fn cells_in_place(
    d: usize,
    len: usize,
    keys: &mut [u32],
    rows: &mut [u32],
    spare: &mut [u32],
    counts: &mut [u32],
) -> usize
    requires { Sorting d len keys.old rows.old spare.old counts.old }
    ensures { Made d (take len keys.old) result rows.new }
{
    let n = d + 1;
    let count = len / n;
    multiindex::word::sort_words(keys, n, count);
    sorting::sort_rows(keys, n, count, len, rows, spare, counts);
    let m = sorting::distinct(keys, n, count, rows, spare, counts);
    sorting::gather(keys, n, spare, m, rows);
    m
}
