// The vertex that a grid point becomes, and where it crossed the seam. One pass over the axes takes the point apart: each axis is divided off once at most, and where the
// point lies at a closed axis's far end, that axis is wrapped and its set is turned round. A second pass turns the reversed coordinates, takes the closed ones
// modulo n, and numbers the result in the glued shape.
//
// Two wrapped axes that reflect one axis cancel, so the reversed set is the wrapped axes' sets, joined digit by digit where exactly one of two has it: `^`.
ghost use Rattle.std.specs.Prelude.{◌≡◌, cond, ℕ, ◌-◌, ◌/◌, ◌<◌, ◌≤◌, get_or};
ghost use Rattle.refusal.specs.Limits.{most_vertices};
ghost use Rattle.refusal.specs.Says.{fine};
ghost use Rattle.quotient.specs.Shape.{cells_on, check_of};
ghost use Rattle.quotient.specs.Reduce.{rest_at, coord_at, crossing_of, reduce_of};
ghost use Rattle.quotient.specs.Work.{ends_at, folded_by, number_by, Apart};

use crate::{Axis, Crossing, GluedVertex, Grid, GridVertex, Spread, mask};
use refusal::Refusal;

// What stands for a number past the last grid point: no vertex.
pub const NO_VERTEX: u32 = 4294967295;

impl Axis {
    // Whether the axis is closed and coordinate c lies at its far end.
    fn ends(self, c: u32) -> bool
        ensures { result ≡ ends_at self c }
    {
        let g = self.glue;
        if c == self.count { g.closed() } else { false }
    }
}

// The whole part of x / p. Where x is below p nothing is divided: so it is on the last axis of every point inside the grid, and a division takes longest of all.
fn whole_part(x: u32, p: u32) -> u32
    requires { 0 < p }
    ensures { result ≡ x / p }
{
    if x < p { 0 } else { x / p }
}

// The mask where the test passed, else the empty one.
fn only(passed: bool, m: u8) -> u8
    ensures { result ≡ cond passed m 0 }
{
    if passed { m } else { 0 }
}

// Coordinate c of an axis of n cells, from its other end where it is turned.
fn turned(reversed: bool, n: u32, c: u32) -> u32
    requires { c ≤ n }
    ensures { result ≡ cond reversed (n - c) c }
{
    if reversed { n - c } else { c }
}

impl Grid {
    // What is left of the point's number v once the coordinates below axis k are taken off.
    fn rest(self, v: u32, k: u32) -> usize
        ensures { result ≡ rest_at self v k }
    {
        let mut x = v as usize;
        for j in 0..k {
            x /= self.points_on(j);
        }
        x
    }

    // Coordinate k of grid point v.
    pub fn coordinate(self, v: u32, k: u32) -> usize
        ensures { result ≡ coord_at self v k }
    {
        self.rest(v, k) % self.points_on(k)
    }

    // Grid point v taken apart, in a grid that is taken.
    fn spread(self, v: u32) -> Spread
        requires { check_of self ≡ fine }
        ensures { Apart self v result }
    {
        let mut coordinates = [0u32; crate::AXES];
        let mut rest = v;
        let mut wrapped = 0u8;
        let mut reversed = 0u8;
        for k in 0..self.d {
            let a = self.axis(k);
            let g = a.glue;
            let p = a.count + 1;
            let q = whole_part(rest, p);
            let c = rest - q * p;
            let ends = a.ends(c);
            coordinates[k as usize] = c;
            wrapped += only(ends, 1 << k);
            reversed = reversed ^ only(ends, g.mask());
            rest = q;
        }
        Spread {
            coordinates,
            rest,
            wrapped,
            reversed,
        }
    }

    // Coordinate c of axis k after gluing: turned where the set of mask m has k, then modulo n. It is at most n, so only n itself changes modulo n.
    fn folded(self, m: u8, k: u32, c: u32) -> u32
        requires { c ≤ cells_on self k }
        ensures { result ≡ folded_by self m k c }
    {
        let a = self.axis(k);
        let t = turned(mask::member_of(m, k), a.count, c);
        if a.ends(t) { 0 } else { t }
    }

    // The number in the glued shape of the point with these coordinates, those of the mask m turned, in a grid that is taken.
    fn number(self, m: u8, coordinates: [u32; crate::AXES]) -> usize
        requires { (check_of self ≡ fine) × ((k : ℕ) → k < self.d → get_or coordinates k 0 ≤ cells_on self k) }
        ensures { (result ≡ number_by self m coordinates) × (result < most_vertices) }
    {
        let mut s = 1usize;
        let mut x = 0usize;
        for k in 0..self.d {
            let f = self.folded(m, k, coordinates[k as usize]);
            x += s * (f as usize);
            s *= self.glued_on(k);
        }
        x
    }

    // The crossing of grid point v in a grid that is taken: its vertex with both sets; NO_VERTEX with empty sets past the last point. For the crates above.
    pub fn crossed(self, v: GridVertex) -> Crossing
        requires { check_of self ≡ fine }
        ensures { result ≡ crossing_of self v.0 }
    {
        let w = v.0;
        let s = self.spread(w);
        if s.rest == 0 {
            let coordinates = s.coordinates;
            let reversed = s.reversed;
            let vertex = GluedVertex(self.number(reversed, coordinates) as u32);
            Crossing {
                vertex,
                wrapped: s.wrapped,
                reversed,
            }
        } else {
            let vertex = GluedVertex(NO_VERTEX);
            Crossing {
                vertex,
                wrapped: 0,
                reversed: 0,
            }
        }
    }

    // The vertex that grid point v becomes, with the axes on which it was wrapped and those that came out reversed; NO_VERTEX with empty sets past the last point.
    // 1, 9, 8, 3 and 6 are refused.
    pub fn reduce(self, v: GridVertex) -> Result<Crossing, Refusal>
        ensures { result ≡ reduce_of self v }
    {
        self.check()?;
        Ok(self.crossed(v))
    }
}
