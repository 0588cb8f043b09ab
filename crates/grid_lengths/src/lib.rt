// Squared lengths of the edges of a flat grid. An edge is measured before gluing, where its steps along the axes are plain; every cell that has the glued edge
// measures it again, in the order of the cells, and a later value must agree with the one before it.
// Follows `FlatQuotient::edge_lengths_sq` (crates/regge/src/mesher/quotient.rs); the port added the question for one edge.
//
// What the working lists of `edge_lengths_sq` hold, one phase after the other:
//   keys     ends of the edges, sorted
//   rows     the vertex of each point, then visits in the order of their edges    last visit of each edge
//   spare    first visit of each edge
//   counts   buckets                               edge of each visit
#![tactic(auto)]

ghost use Rattle.std.specs.Prelude.{◌≡◌, true, false, ℕ, suc, ◌+◌, ◌-◌, ◌*◌, ◌<◌, ◌≤◌, min, max, length, get_or};
ghost use Rattle.refusal.specs.Says.{fine};
ghost use Rattle.quotient.specs.Shape.{check_of};
ghost use Rattle.quotient.specs.Reduce.{coord_at, vertex_of};
ghost use Rattle.grid_lengths.specs.Edges.{first_end, second_end, edges_each, visits_of, from_at, to_at, spacings_of, square_at, same_ends, visits_edge};
ghost use Rattle.grid_lengths.specs.Settled.{met_by, settle, values_to, edge_values, after_visit, edge_length_of};
ghost use Rattle.grid_lengths.specs.Noted.{ends_of, told, is_length, Noting, Noted, Clashed};
ghost use Rattle.grid_lengths.specs.Lengths.{lengths_need, EdgeLengths};
ghost use Rattle.grid_lengths.specs.Work.{visits_each, end_point, end_reach, Settling, Valued, EndsLent, Working, Classed, Handing, Worked};
ghost use Rattle.lists.specs.Tables.{tab};
ghost use Rattle.lists.specs.Zero.{AllZero};

use grid_sides::{Sides, Steps};
use multiindex::permutation;
use quotient::{GluedVertex, Grid, GridVertex};
use refusal::{Refusal, Room};

// What the question of one edge says: its squared length, the two that clash first, or that there is no such edge.
#[derive(Clone, Copy, Debug, PartialEq)]
pub enum EdgeLength {
    Length(f64),
    Clash(f64, f64),
    NoEdge,
}

const FIRST: [u8; 6] = [0, 0, 1, 0, 1, 2];

const SECOND: [u8; 6] = [1, 2, 2, 3, 3, 3];

// How many edges a cell has.
fn edges_each(d: u32) -> usize
    requires { (1 ≤ d) × (d ≤ 3) }
    ensures { result ≡ edges_each d }
{
    let n = d as usize;
    n * (n + 1) / 2
}

// How many visits of edges there are.
fn visits(grid: Grid) -> usize
    requires { check_of grid ≡ fine }
    ensures { result ≡ visits_of grid }
{
    grid_words::cells(grid) * edges_each(grid.d)
}

// The most visits that one box has.
const MOST_VISITS: usize = 36;

// How many visits a box has: each edge of each of its cells.
fn visits_each(grid: Grid) -> usize
    requires { check_of grid ≡ fine }
    ensures { result ≡ visits_each grid }
{
    permutation::count(grid.d as usize) * edges_each(grid.d)
}

// The corner at which edge e of a cell begins.
fn first_end(e: usize) -> usize
    requires { e < 6 }
    ensures { result ≡ first_end e }
{
    FIRST[e] as usize
}

// The corner at which edge e of a cell ends.
fn second_end(e: usize) -> usize
    requires { e < 6 }
    ensures { result ≡ second_end e }
{
    SECOND[e] as usize
}

// The point from which visit r measures.
fn from_at(grid: Grid, r: usize) -> u32
    requires { (check_of grid ≡ fine) × (r < visits_of grid) }
    ensures { result ≡ from_at grid r }
{
    let k = edges_each(grid.d);
    grid_words::corner(grid, r / k, first_end(r % k)) as u32
}

// The point to which visit r measures.
fn to_at(grid: Grid, r: usize) -> u32
    requires { (check_of grid ≡ fine) × (r < visits_of grid) }
    ensures { result ≡ to_at grid r }
{
    let k = edges_each(grid.d);
    grid_words::corner(grid, r / k, second_end(r % k)) as u32
}

// The spacing of each axis.
fn spacings(grid: Grid) -> Sides
    ensures { result ≡ spacings_of grid }
{
    let s = grid.sides;
    let x = grid.axis(0);
    let y = grid.axis(1);
    let z = grid.axis(2);
    let first = grid_sides::spacing(s.side(0), x.count);
    let second = grid_sides::spacing(s.side(1), y.count);
    let third = grid_sides::spacing(s.side(2), z.count);
    Sides {
        first,
        second,
        third,
    }
}

// Coordinate k of point v: at most the number of cells.
fn along(grid: Grid, v: u32, k: u32) -> u32
    ensures { result ≡ coord_at grid v k }
{
    let a = grid.axis(k);
    let n = a.count;
    let c = grid.coordinate(v, k);
    if c < n as usize { c as u32 } else { n }
}

// The step along axis k from point p to point q.
fn step(grid: Grid, p: u32, q: u32, k: u32) -> u32
    ensures { result ≡ coord_at grid q k - coord_at grid p k }
{
    let a = along(grid, p, k);
    let b = along(grid, q, k);
    if a < b { b - a } else { 0 }
}

// The squared length that visit r measures.
fn measured(grid: Grid, r: usize) -> f64
    requires { (check_of grid ≡ fine) × (r < visits_of grid) }
    ensures { result ≡ square_at grid r }
{
    let p = from_at(grid, r);
    let q = to_at(grid, r);
    let first = step(grid, p, q, 0);
    let second = step(grid, p, q, 1);
    let third = step(grid, p, q, 2);
    let steps = Steps {
        first,
        second,
        third,
    };
    let spacing = spacings(grid);
    spacing.length_sq(grid.d, steps)
}

// Whether the ends a and b are p and q, in either order.
fn same_ends(a: u32, b: u32, p: u32, q: u32) -> bool
    ensures { result ≡ same_ends a b p q }
{
    if smaller(a, b) == smaller(p, q) {
        larger(a, b) == larger(p, q)
    } else {
        false
    }
}

fn smaller(a: u32, b: u32) -> u32
    ensures { result ≡ min a b }
{
    if a < b { a } else { b }
}

fn larger(a: u32, b: u32) -> u32
    ensures { result ≡ max a b }
{
    if a < b { b } else { a }
}

// Whether visit r is one of the edge between a and b.
fn visits_edge(grid: Grid, a: u32, b: u32, r: usize) -> bool
    requires { (check_of grid ≡ fine) × (r < visits_of grid) }
    ensures { result ≡ visits_edge grid a b r }
{
    let begins = grid.crossed(GridVertex(from_at(grid, r)));
    let ends = grid.crossed(GridVertex(to_at(grid, r)));
    let p = begins.vertex;
    let q = ends.vertex;
    same_ends(a, b, p.0, q.0)
}

// What is known of an edge after one value more.
fn meet(known: EdgeLength, later: f64) -> EdgeLength
    ensures { result ≡ met_by known later }
{
    match known {
        EdgeLength::Length(x) => {
            if grid_sides::agree(x, later) {
                EdgeLength::Length(later)
            } else {
                EdgeLength::Clash(x, later)
            }
        }
        EdgeLength::Clash(x, y) => EdgeLength::Clash(x, y),
        EdgeLength::NoEdge => EdgeLength::Length(later),
    }
}

// What is known of the edge between a and b after visit r.
fn visited(grid: Grid, a: u32, b: u32, r: usize, known: EdgeLength) -> EdgeLength
    requires { (check_of grid ≡ fine) × (r < visits_of grid) }
    ensures { result ≡ after_visit grid a b r known }
{
    if visits_edge(grid, a, b, r) {
        meet(known, measured(grid, r))
    } else {
        known
    }
}

// The squared length of the edge between two vertices, or the two that clash first, or that there is no such edge. Refused: 1, 10, 9, 8, 3 and 6.
pub fn edge_length_sq(grid: Grid, from: GluedVertex, to: GluedVertex) -> Result<EdgeLength, Refusal>
    ensures { result ≡ edge_length_of grid from to }
{
    grid.check_with_sides()?;
    Ok(settled(grid, from.0, to.0))
}

// What the first visits of the edge between a and b come to, up to visit `end`, where `known` is what those before visit `start` came to.
fn settled_to(grid: Grid, a: u32, b: u32, start: usize, end: usize, known: EdgeLength) -> EdgeLength
    requires { Settling grid a b start end known }
    ensures { result ≡ settle (values_to grid a b end) }
{
    let mut now = known;
    for r in start..end {
        now = visited(grid, a, b, r, now);
    }
    now
}

// What all visits of the edge between a and b come to. A box of which no corner is a has none of them.
fn settled(grid: Grid, a: u32, b: u32) -> EdgeLength
    requires { check_of grid ≡ fine }
    ensures { result ≡ settle (edge_values grid a b) }
{
    let boxes = grid_words::boxes(grid);
    let each = visits_each(grid);
    let mut known = EdgeLength::NoEdge;
    for x in 0..boxes {
        if !grid_words::touches(grid, x, GluedVertex(a)) {
            continue;
        }
        known = settled_to(grid, a, b, x * each, x * each + each, known);
    }
    known
}

// The grid point at end i: of visit i / 2, where it begins for an even i, where it ends for an odd one.
fn end_point(grid: Grid, i: usize) -> u32
    requires { (check_of grid ≡ fine) × (i < visits_of grid * 2) }
    ensures { result ≡ end_point grid i }
{
    if i % 2 == 0 {
        from_at(grid, i / 2)
    } else {
        to_at(grid, i / 2)
    }
}

// Writes the grid points at the ends of the first box's visits: how far from its box's origin each end lies.
fn reaches(grid: Grid, reach: &mut [u32])
    requires { (check_of grid ≡ fine) × (length reach.old ≡ visits_each grid * 2) }
    ensures { reach.new ≡ end_reach grid }
{
    for i in 0..reach.len() {
        reach[i] = end_point(grid, i);
    }
}

// Writes the ends of the edges of all visits, two a visit, over a list of their length. The vertex of each point goes to a working list first.
fn write_ends(grid: Grid, keys: &mut [u32], table: &mut [u32])
    requires { EndsLent grid keys.old table.old }
    ensures { keys.new ≡ ends_of grid }
{
    let points = grid_words::points(grid);
    let ends = visits_each(grid) * 2;
    let mut reach = [0u32; 2 * MOST_VISITS];
    grid_words::vertices(grid, &mut table[..points]);
    reaches(grid, &mut reach[..ends]);
    grid_words::write_boxes(grid, &table[..points], &reach[..ends], keys);
}

// Writes what each visit of the first box measures.
fn measure(grid: Grid, values: &mut [f64])
    requires { (check_of grid ≡ fine) × (length values.old ≡ visits_each grid) }
    ensures { Valued grid values.new }
{
    for r in 0..values.len() {
        values[r] = measured(grid, r);
    }
}

// The squared length that visit r measures: that of its place in the first box.
fn value(grid: Grid, values: &[f64], r: usize) -> f64
    requires { Valued grid values.now × (r < visits_of grid) }
    ensures { result ≡ square_at grid r }
{
    values[r % values.len()]
}

// What the note of an edge tells: 0 is none, and else it is one more than the number of a visit.
fn told(grid: Grid, values: &[f64], note: u32) -> EdgeLength
    requires { Valued grid values.now × (note ≤ visits_of grid) }
    ensures { result ≡ told grid note }
{
    if note == 0 {
        EdgeLength::NoEdge
    } else {
        EdgeLength::Length(value(grid, values, note as usize - 1))
    }
}

// Whether the value of visit r agrees with what the note of its edge tells.
fn follows(grid: Grid, values: &[f64], note: u32, r: usize) -> bool
    requires { Valued grid values.now × (note ≤ visits_of grid) × (r < visits_of grid) }
    ensures { result ≡ is_length (met_by (told grid note) (square_at grid r)) }
{
    let known = told(grid, values, note);
    let now = meet(known, value(grid, values, r));
    match now {
        EdgeLength::Length(_) => true,
        EdgeLength::Clash(_, _) => false,
        EdgeLength::NoEdge => false,
    }
}

// Notes the last visit of each edge, where the values of one box are at hand; false where two values of an edge clash.
fn note_each(grid: Grid, values: &[f64], total: usize, ids: &[u32], last: &mut [u32]) -> bool
    requires { Valued grid values.now × Noting grid ids.now last.old × (total ≡ visits_of grid) }
    ensures yes { result ≡ true → Noted grid ids.now last.new }
    ensures no { result ≡ false → Clashed grid }
{
    for r in 0..total {
        let id = ids[r] as usize;
        if !follows(grid, values, last[id], r) {
            return false;
        }
        last[id] = r as u32 + 1;
    }
    true
}

// Notes the last visit of each edge; false where two values of an edge clash.
fn note_last(grid: Grid, total: usize, ids: &[u32], last: &mut [u32]) -> bool
    requires { Noting grid ids.now last.old × (total ≡ visits_of grid) }
    ensures yes { result ≡ true → Noted grid ids.now last.new }
    ensures no { result ≡ false → Clashed grid }
{
    let each = visits_each(grid);
    let mut values = [0f64; MOST_VISITS];
    measure(grid, &mut values[..each]);
    note_each(grid, &values[..each], total, ids, last)
}

// Numbers the glued edges, colex: the number of each visit's edge goes to `counts`. Returns how many edges there are.
fn classes(
    grid: Grid,
    keys: &mut [u32],
    rows: &mut [u32],
    spare: &mut [u32],
    counts: &mut [u32],
) -> usize
    requires { Working grid keys.old rows.old spare.old counts.old }
    ensures { Classed grid result counts.new }
{
    let total = visits(grid);
    let ends = total * 2;
    write_ends(grid, keys, rows);
    multiindex::word::sort_words(keys, 2, total);
    sorting::sort_rows(keys, 2, total, ends, rows, spare, counts);
    sorting::distinct(keys, 2, total, rows, spare, counts)
}

// Writes the value of the visit noted for each edge, where the values of one box are at hand.
fn hand_each(grid: Grid, values: &[f64], last: &[u32], lengths: &mut [f64])
    requires { Valued grid values.now × Handing grid (length lengths.old) last.now }
    ensures { lengths.new ≡ tab (length lengths.old) (λ i. square_at grid (get_or last.now i 0 - 1)) }
{
    for i in 0..lengths.len() {
        lengths[i] = value(grid, values, last[i] as usize - 1);
    }
}

// Writes the value of the visit noted for each edge.
fn hand_out(grid: Grid, last: &[u32], lengths: &mut [f64])
    requires { Handing grid (length lengths.old) last.now }
    ensures { lengths.new ≡ tab (length lengths.old) (λ i. square_at grid (get_or last.now i 0 - 1)) }
{
    let each = visits_each(grid);
    let mut values = [0f64; MOST_VISITS];
    measure(grid, &mut values[..each]);
    hand_each(grid, &values[..each], last, lengths);
}

// The work of `edge_lengths_sq`, in working lists of just the sizes that are needed.
fn work(
    grid: Grid,
    lengths: &mut [f64],
    keys: &mut [u32],
    rows: &mut [u32],
    spare: &mut [u32],
    counts: &mut [u32],
) -> Result<u32, Refusal>
    requires { Working grid keys.old rows.old spare.old counts.old }
    ensures { Worked grid result lengths.old lengths.new }
{
    let m = classes(grid, keys, rows, spare, counts);
    let total = visits(grid);
    rows.fill(0);
    if !note_last(grid, total, counts, rows) {
        return Err(Refusal::TwoLengths);
    }
    if lengths.len() < m {
        return Err(Refusal::TooShort);
    }
    hand_out(grid, rows, &mut lengths[..m]);
    Ok(m as u32)
}

// The work, and then the working lists are all zero.
fn cleared(
    grid: Grid,
    lengths: &mut [f64],
    keys: &mut [u32],
    rows: &mut [u32],
    spare: &mut [u32],
    counts: &mut [u32],
) -> Result<u32, Refusal>
    requires { Working grid keys.old rows.old spare.old counts.old }
    ensures work { Worked grid result lengths.old lengths.new }
    ensures room { AllZero keys.old keys.new rows.old rows.new spare.old spare.new counts.old
        counts.new }
{
    let said = work(grid, lengths, keys, rows, spare, counts);
    lists::clear_four(keys, rows, spare, counts);
    said
}

// How long each working list has to be: two ends for each edge of each cell.
fn need(grid: Grid) -> Room
    requires { check_of grid ≡ fine }
    ensures { result ≡ lengths_need grid }
{
    let n = visits(grid) * 2;
    Room {
        keys: n,
        rows: n,
        spare: n,
        counts: n,
    }
}

// The squared length of each edge, colex. Refused: 1, 10, 9, 8, 3, 6, then 12 where a working list is too short, then 15 where an edge gets two lengths, 12 where
// the length list is too short. A refusal changes no length; from the room's test on what is needed of the working lists is zero at the end.
pub fn edge_lengths_sq(
    grid: Grid,
    lengths: &mut [f64],
    keys: &mut [u32],
    rows: &mut [u32],
    spare: &mut [u32],
    counts: &mut [u32],
) -> Result<u32, Refusal>
    ensures { EdgeLengths grid result lengths.old lengths.new keys.old keys.new rows.old rows.new spare.old
        spare.new counts.old counts.new }
{
    grid.check_with_sides()?;
    let need = need(grid);
    let have = Room {
        keys: keys.len(),
        rows: rows.len(),
        spare: spare.len(),
        counts: counts.len(),
    };
    if !refusal::has_room(need, have) {
        return Err(Refusal::TooShort);
    }
    let k = need.keys;
    let r = need.rows;
    let s = need.spare;
    let c = need.counts;
    cleared(
        grid,
        lengths,
        &mut keys[..k],
        &mut rows[..r],
        &mut spare[..s],
        &mut counts[..c],
    )
}
