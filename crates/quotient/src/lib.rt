// Grids whose axes are glued: a box of cells with one gluing for each axis, and the one rule that says which vertex a grid point becomes.
// Follows `FlatQuotient` and `Identification` (crates/regge/src/mesher/quotient.rs).
//
// An axis of n cells has n + 1 points. Left open it keeps them all; closed, its last point is its first one again, and n are left. A twisted axis is closed and
// turns the axes of its set round on the way: coordinate c becomes n - c. Rings, Moebius bands, tori and Klein bottles are this one construction with
// different gluings; no call knows them by name except the makers.
//
// A grid is plain data that a caller fills in freely, so every call checks it again and says document 01's refusal where it is refused.
// Entries past d are not looked at, and a set counts only on a twisted axis. In the order of the modules:
//   check       `check` asks 1, 9, 8, 3, 6 and `check_with_sides` 1, 10, 9, 8, 3, 6; `nvertices` counts
//   reduce      `reduce` leads from a grid point to its vertex, and tells where it crossed the seam
//   preserving  `is_orientation_preserving`
//   makers      `torus`, `klein`, `quasi_uniform`, `moebius`
#![tactic(auto)]

pub mod check;
pub mod gluing;
pub mod makers;
pub mod mask;
pub mod preserving;
pub mod reduce;

use grid_sides::Sides;
use refusal::MOST_DIMENSION;

// The most axes that a grid has.
const AXES: usize = MOST_DIMENSION as usize;

// How an axis's two ends are glued: not at all, by a shift, or by a shift that reflects a set of axes, given as a mask.
#[derive(Clone, Copy)]
pub enum Glue {
    Open,
    Periodic,
    Twisted(u8),
}

// An axis: its cells, and how its ends are glued.
#[derive(Clone, Copy)]
pub struct Axis {
    pub count: u32,
    pub glue: Glue,
}

// A grid of dimension d: its axes and their sides. `axis(i)` and `sides.side(i)` read them by number.
#[derive(Clone, Copy)]
pub struct Grid {
    pub d: u32,
    pub first: Axis,
    pub second: Axis,
    pub third: Axis,
    pub sides: Sides,
}

// A gluing for each axis.
#[derive(Clone, Copy)]
pub struct Glues {
    pub first: Glue,
    pub second: Glue,
    pub third: Glue,
}

// The number of a point of the grid, axis 0 varying fastest.
#[derive(Clone, Copy)]
pub struct GridVertex(pub u32);

// The number of a vertex after gluing. Only `reduce`, and `crossed` below it, lead from a grid point to its vertex.
#[derive(Clone, Copy)]
pub struct GluedVertex(pub u32);

// How a point went across the seam: its vertex, the closed axes on which it was wrapped, and the axes that came out reversed, each set as a mask.
#[derive(Clone, Copy)]
pub struct Crossing {
    pub vertex: GluedVertex,
    pub wrapped: u8,
    pub reversed: u8,
}

// How many cells and vertices a grid has, each at most one more than its limit.
#[derive(Clone, Copy)]
struct Sizes {
    cells: usize,
    vertices: usize,
}

// A grid point taken apart: its coordinates, what is left of its number above them, and the two sets of its crossing.
#[derive(Clone, Copy)]
struct Spread {
    coordinates: [u32; AXES],
    rest: u32,
    wrapped: u8,
    reversed: u8,
}
