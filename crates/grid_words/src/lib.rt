// From a grid to words. A box of the grid is cut into d! cells, one for each order of the axes: from the box's origin one step along each axis, in that order.
// The corners of a cell are grid points; each is reduced to its vertex, and the cell's word is read off in the order in which its corners were met.
// Follows `FlatQuotient::cell_words` (crates/regge/src/mesher/quotient.rs) and `CartesianTopology::cell_skeleton` (crates/simplicial/src/mesher/grid.rs).
//
// The cells are numbered in colex order of their grid points. Boxes come in the order of their numbers, axis 0 fastest, and inside a box the orders stand from the
// last to the first, so a cell's number tells its box and its order, and nothing has to be sorted.
//
// Every box is the first one moved to its origin, so each point is reduced once, into a table, and each corner is read from it.
#![tactic(auto)]

ghost use Rattle.std.specs.Prelude.{◌≡◌, ℕ, suc, ◌+◌, ◌*◌, ◌<◌, ◌≤◌, length};
ghost use Rattle.refusal.specs.Says.{fine};
ghost use Rattle.quotient.specs.Fold.{product};
ghost use Rattle.quotient.specs.Shape.{cells_on, points_on, check_of, cell_count};
ghost use Rattle.quotient.specs.Points.{points_of, point_of};
ghost use Rattle.grid_words.specs.Cells.{box_at, flat_words};
ghost use Rattle.grid_words.specs.WorkNumbered.{stride_of, corner_of};
ghost use Rattle.grid_words.specs.Work.{vertex_table, reach_long, reach_of, moved_by, box_corners, offset_of, touches_at, Moving, Writing};

use multiindex::permutation;
use quotient::{GluedVertex, Grid, GridVertex};

// The most corners that the cells of one box have together.
const MOST_REACH: usize = 24;

// How many boxes a grid has that is taken.
pub fn boxes(grid: Grid) -> usize
    requires { check_of grid ≡ fine }
    ensures { result ≡ product (cells_on grid) grid.d }
{
    let mut p = 1usize;
    for k in 0..grid.d {
        let a = grid.axis(k);
        p *= a.count as usize;
    }
    p
}

// How many cells a grid has that is taken.
pub fn cells(grid: Grid) -> usize
    requires { check_of grid ≡ fine }
    ensures { result ≡ cell_count grid }
{
    let d = grid.d as usize;
    permutation::count(d) * boxes(grid)
}

// How much a point's number grows with a step along axis a.
fn stride(grid: Grid, a: u32) -> usize
    requires { (check_of grid ≡ fine) × (a ≤ grid.d) }
    ensures { result ≡ stride_of grid a }
{
    let mut s = 1usize;
    for k in 0..a {
        s *= grid.points_on(k);
    }
    s
}

// How many points a grid has that is taken.
pub fn points(grid: Grid) -> usize
    requires { check_of grid ≡ fine }
    ensures { result ≡ points_of grid }
{
    stride(grid, grid.d)
}

// The point at which box b begins.
fn origin(grid: Grid, b: usize) -> usize
    requires { check_of grid ≡ fine }
    ensures { result ≡ point_of grid (box_at grid b) }
{
    let mut s = 1usize;
    let mut x = 0usize;
    let mut rest = b;
    for k in 0..grid.d {
        let a = grid.axis(k);
        let n = a.count as usize;
        x += s * (rest % n);
        s *= grid.points_on(k);
        rest /= n;
    }
    x
}

// How many corners a box has.
fn box_corners(grid: Grid) -> usize
    requires { check_of grid ≡ fine }
    ensures { result ≡ box_corners grid }
{
    let mut n = 1usize;
    for _k in 0..grid.d {
        n += n;
    }
    n
}

// How far from its box's origin corner m of a box lies: a step along each axis whose binary digit of m is 1.
fn offset(grid: Grid, m: usize) -> usize
    requires { check_of grid ≡ fine }
    ensures { result ≡ offset_of grid m }
{
    let mut s = 1usize;
    let mut x = 0usize;
    let mut rest = m;
    for k in 0..grid.d {
        x += s * (rest % 2);
        s *= grid.points_on(k);
        rest /= 2;
    }
    x
}

// Whether a corner of box b is vertex v.
pub fn touches(grid: Grid, b: usize, v: GluedVertex) -> bool
    requires { check_of grid ≡ fine }
    ensures { result ≡ touches_at grid b v.0 }
{
    let n = box_corners(grid);
    let from = origin(grid, b);
    for m in 0..n {
        let c = grid.crossed(GridVertex((from + offset(grid, m)) as u32));
        let p = c.vertex;
        if p.0 == v.0 {
            return true;
        }
    }
    false
}

// The grid point of corner j of cell x.
pub fn corner(grid: Grid, x: usize, j: usize) -> usize
    requires { (check_of grid ≡ fine) × (j ≤ grid.d) }
    ensures { result ≡ corner_of grid x j }
{
    let d = grid.d as usize;
    let n = permutation::count(d);
    let t = n - 1 - x % n;
    let mut v = origin(grid, x / n);
    for i in 0..j {
        let a = permutation::axis(d, t, i);
        v += stride(grid, a as u32);
    }
    v
}

// Writes the vertex of each grid point, by its number.
pub fn vertices(grid: Grid, table: &mut [u32])
    requires { (check_of grid ≡ fine) × (length table.old ≡ points_of grid) }
    ensures { table.new ≡ vertex_table grid }
{
    for v in 0..table.len() {
        let c = grid.crossed(GridVertex(v as u32));
        let p = c.vertex;
        table[v] = p.0;
    }
}

// Writes how far from its box's origin each corner of the box's cells lies: the corners of the first box.
fn reaches(grid: Grid, reach: &mut [u32])
    requires { (check_of grid ≡ fine) × (length reach.old ≡ reach_long grid) }
    ensures { reach.new ≡ reach_of grid }
{
    let n = grid.d as usize + 1;
    for i in 0..reach.len() {
        reach[i] = corner(grid, i / n, i % n) as u32;
    }
}

// Writes, box after box, the vertices of the points that lie so far from the box's origin. A box's origin is one point further than that of the box before it, except where a
// row of axis 0 begins.
pub fn write_boxes(grid: Grid, table: &[u32], reach: &[u32], to: &mut [u32])
    requires { Moving grid table.now reach.now to.old }
    ensures { to.new ≡ moved_by grid reach.now }
{
    let e = reach.len();
    let a = grid.axis(0);
    let row = a.count as usize;
    let mut origin_at = origin(grid, 0);
    let mut b = 0usize;
    let mut x = 0usize;
    let mut r = 0usize;
    for i in 0..to.len() {
        to[i] = table[origin_at + reach[r] as usize];
        r += 1;
        if r < e {
            continue;
        }
        r = 0;
        b += 1;
        x += 1;
        origin_at += 1;
        if x < row {
            continue;
        }
        x = 0;
        origin_at = origin(grid, b);
    }
}

// Writes the words of all cells, one after the other, over a list of their length. The vertex of each point goes to a working list first.
pub fn write_words(grid: Grid, words: &mut [u32], table: &mut [u32])
    requires { Writing grid words.old table.old }
    ensures { words.new ≡ flat_words grid }
{
    let d = grid.d as usize;
    let points = points(grid);
    let corners = permutation::count(d) * (d + 1);
    let mut reach = [0u32; MOST_REACH];
    vertices(grid, &mut table[..points]);
    reaches(grid, &mut reach[..corners]);
    write_boxes(grid, &table[..points], &reach[..corners], words);
}
