// Sides of a grid, the counts of cells that follow from them, and squared lengths of edges: every operation on floats is rounded once, and the promises name the
// operations in their order.
// Follows `quasi_uniform_counts` (crates/regge/src/mesher.rs), and the sides and lengths of `FlatQuotient` (crates/regge/src/mesher/quotient.rs).
#![tactic(auto)]

ghost use Rattle.std.specs.Prelude.{◌≡◌, ℕ, suc, ◌+◌, ◌*◌, ◌^◌, ◌<◌, ◌≤◌, min, max};
ghost use Rattle.std.specs.Float.{binary64};
ghost use Rattle.grid_sides.specs.Counts.{side_fits, nearest_whole, share, axis_count, larger_of, side_of, unfit, first_bad, longest_of, kept_side, sides_below};
ghost use Rattle.grid_sides.specs.Lengths.{spacing_of, square_of, agrees, step_of, length_sq};

use refusal::MOST_DIMENSION;

// A number for each axis, as its side or its spacing.
#[derive(Clone, Copy)]
pub struct Sides {
    pub first: f64,
    pub second: f64,
    pub third: f64,
}

// A step along each axis.
#[derive(Clone, Copy)]
pub struct Steps {
    pub first: u32,
    pub second: u32,
    pub third: u32,
}

// 2^-100 and 2^100, the bounds of a side.
pub const LEAST_SIDE: f64 = 7.888609052210118e-31;

pub const MOST_SIDE: f64 = 1267650600228229401496703205376.0;

// Whether a side is a number from 2^-100 to 2^100.
pub fn side_fits(x: f64) -> bool
    ensures { result ≡ side_fits x }
{
    if LEAST_SIDE <= x {
        x <= MOST_SIDE
    } else {
        false
    }
}

// The spacing of n cells along a side.
pub fn spacing(side: f64, n: u32) -> f64
    ensures { result ≡ spacing_of side n }
{
    side / (n as f64)
}

// One axis's part of a squared length.
pub fn square(step: u32, spacing: f64) -> f64
    ensures { result ≡ square_of step spacing }
{
    let x = (step as f64) * spacing;
    x * x
}

// extent / longest * n, rounded twice.
fn shared(extent: f64, longest: f64, n: u32) -> f64
    ensures { result ≡ share extent longest n }
{
    extent / longest * (n as f64)
}

// Whether two squared lengths of an edge agree.
pub fn agree(known: f64, later: f64) -> bool
    ensures { result ≡ agrees known later }
{
    let e = known - later;
    let bound = 1e-12 * later;
    if e < 0.0 { -e <= bound } else { e <= bound }
}

// The whole number nearest to x, halves away from zero; 0 for a negative number and a NaN, 2^63 for that and more.
fn nearest_whole(x: f64) -> u64
    ensures { result ≡ nearest_whole x }
{
    if x >= 0.5 {
        if x < 9223372036854775808.0 {
            let h = std::num::truncating_f64_to_u64(x + x);
            h / 2 + h % 2
        } else {
            9223372036854775808
        }
    } else {
        0
    }
}

// The count of cells of an axis, rounded twice and then to a whole number, at least 1, raised to the floor.
pub fn count(extent: f64, longest: f64, n: u32, floor: u32) -> u64
    ensures { result ≡ axis_count extent longest n floor }
{
    let w = nearest_whole(shared(extent, longest, n));
    at_least(at_least(w, 1), floor as u64)
}

// w raised to the floor.
fn at_least(w: u64, floor: u64) -> u64
    ensures { result ≡ max w floor }
{
    if w < floor { floor } else { w }
}

// The larger of two numbers.
fn larger(a: f64, b: f64) -> f64
    ensures { result ≡ larger_of a b }
{
    if a < b { b } else { a }
}

impl Sides {
    // The side of axis i; past the last 0.
    pub fn side(self, i: u32) -> f64
        ensures { result ≡ side_of self i }
    {
        if i < 1 {
            self.first
        } else if i < 2 {
            self.second
        } else if i < MOST_DIMENSION {
            self.third
        } else {
            0.0
        }
    }

    // The side of axis i where it is below d, else 1.
    fn kept(self, d: u32, i: u32) -> f64
        ensures { result ≡ kept_side self d i }
    {
        if i < d { self.side(i) } else { 1.0 }
    }

    // The sides of the axes below d, and 1 for each other.
    pub fn below(self, d: u32) -> Sides
        ensures { result ≡ sides_below self d }
    {
        let first = self.kept(d, 0);
        let second = self.kept(d, 1);
        let third = self.kept(d, 2);
        Sides {
            first,
            second,
            third,
        }
    }

    // Whether side i is refused.
    fn refuses(self, i: u32) -> bool
        ensures { result ≡ unfit self i }
    {
        if side_fits(self.side(i)) { false } else { true }
    }

    // The least axis below d whose side is refused, or d.
    pub fn bad_side(self, d: u32) -> u32
        ensures { result ≡ first_bad self d }
    {
        for i in 0..d {
            if self.refuses(i) {
                return i;
            }
        }
        d
    }

    // The longest of the sides below d.
    pub fn longest(self, d: u32) -> f64
        ensures { result ≡ longest_of self d }
    {
        let mut x = self.side(0);
        for i in 1..d {
            x = larger(x, self.side(i));
        }
        x
    }

    // The squared length of a step in a grid of dimension d with these spacings, axis 0 first.
    pub fn length_sq(self, d: u32, step: Steps) -> f64
        ensures { result ≡ length_sq self step d }
    {
        let mut x = square(step.along(0), self.side(0));
        for i in 1..d {
            x += square(step.along(i), self.side(i));
        }
        x
    }
}

impl Steps {
    // The step along axis i; past the last 0.
    pub fn along(self, i: u32) -> u32
        ensures { result ≡ step_of self i }
    {
        if i < 1 {
            self.first
        } else if i < 2 {
            self.second
        } else if i < MOST_DIMENSION {
            self.third
        } else {
            0
        }
    }
}
