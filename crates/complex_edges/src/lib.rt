// The edges of cells: each pair of vertices of a cell is a row, and the distinct rows in colex order are the edges.
// Follows the 1-skeleton of `Complex::from_cells` and `Complex::edges` (crates/simplicial/src/topology/complex.rs).
#![tactic(auto)]

ghost use Rattle.std.specs.Prelude.{◌≡◌, ℕ, suc, ◌*◌, ◌<◌};
ghost use Rattle.lists.specs.Rows.{cut};
ghost use Rattle.complex.specs.Skeleton.{edges_of};
ghost use Rattle.complex_cells.specs.WorkNamed.{Named};
ghost use Rattle.complex_edges.specs.WorkPairs.{PairAt, Writing, Edging};

// Writes the pairs of the m cells, d·d rows a cell, so that each two vertices of a cell are a row.
fn pair_rows(d: usize, m: usize, cells: &[u32], keys: &mut [u32])
    requires { Writing d m cells.now keys.old }
    ensures { (x : ℕ) → x < m * d * d → PairAt d cells.now keys.new x }
{
    let n = d + 1;
    let total = m * d * d;
    for x in 0..total {
        let block = x / d;
        let from = block / d * n;
        let high = block % d;
        let low = (x % d).min(high);
        let at = x * 2;
        keys[at] = cells[from + low];
        keys[at + 1] = cells[from + high + 1];
    }
}

// The distinct pairs of the m cells in `rows`: their rows stand in `keys`, the lowest row of each, in order, in `spare`. Says how many there are.
pub fn edges(
    d: usize,
    m: usize,
    b: usize,
    keys: &mut [u32],
    rows: &mut [u32],
    spare: &mut [u32],
    counts: &mut [u32],
) -> usize
    requires { Edging d m b keys.old rows.old spare.old counts.old }
    ensures { Named (edges_of (cut (suc d) m rows.old)) 2 result keys.new spare.new }
{
    pair_rows(d, m, rows, keys);
    let total = m * d * d;
    sorting::sort_rows(keys, 2, total, b, rows, spare, counts);
    sorting::distinct(keys, 2, total, rows, spare, counts)
}
