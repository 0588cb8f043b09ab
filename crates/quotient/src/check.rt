// Whether a grid is taken: document 01's numbers for a grid, in their order, and how many vertices it has.
ghost use Rattle.std.specs.Prelude.{◌≡◌, ◌+◌, ◌*◌, ◌≤◌, ◌<◌, ◌^◌, min};
ghost use Rattle.quotient.specs.Shape.{reflects_badly, falls_short, cell_count, vertices_of, bad_reflection, short_axis, check_within, check_of, sides_check_of, nvertices_of};
ghost use Rattle.quotient.specs.Work.{shape_count, count_within, FewWithin};

use crate::{Grid, Sizes, mask};
use refusal::Refusal;

// The product, or `cap` where it is larger.
fn capped(a: usize, b: usize, cap: usize) -> usize
    requires { (a ≤ cap) × (cap < 2 ^ 31) × (b ≤ 2 ^ 32) }
    ensures { result ≡ min (a * b) cap }
{
    let p = a * b;
    if p < cap { p } else { cap }
}

impl Grid {
    // Whether axis i reflects itself, or one outside the grid.
    fn reflects_badly(self, i: u32) -> bool
        ensures { result ≡ reflects_badly self i }
    {
        let d = self.d;
        let a = self.axis(i);
        let g = a.glue;
        mask::bad_set(d, i, g.mask())
    }

    // Whether axis i has too few cells.
    fn falls_short(self, i: u32) -> bool
        ensures { result ≡ falls_short self i }
    {
        let a = self.axis(i);
        a.too_few()
    }

    // The least axis that refusal 9 names, or d.
    pub fn bad_reflection(self) -> u32
        ensures { result ≡ bad_reflection self }
    {
        let d = self.d;
        for i in 0..d {
            if self.reflects_badly(i) {
                return i;
            }
        }
        d
    }

    // The least axis that refusal 8 names, or d.
    fn short_axis(self) -> u32
        ensures { result ≡ short_axis self }
    {
        let d = self.d;
        for i in 0..d {
            if self.falls_short(i) {
                return i;
            }
        }
        d
    }

    // The numbers of cells and of vertices after gluing, each at most one more than its limit.
    fn sizes(self, cells: usize, vertices: usize) -> Sizes
        requires { FewWithin cells vertices }
        ensures { (result.cells ≡ min (cell_count self) (cells + 1)) × (result.vertices ≡ min (vertices_of self) (vertices + 1)) }
    {
        let mut n = 1usize;
        let mut m = 1usize;
        for i in 0..self.d {
            let a = self.axis(i);
            let q = capped(n, a.count as usize, cells + 1);
            m = capped(m, self.glued_on(i), vertices + 1);
            n = capped(q, i as usize + 1, cells + 1);
        }
        Sizes {
            cells: n,
            vertices: m,
        }
    }

    // How many vertices the grid has after gluing, in a dimension that is taken; 9, 8, 3 and 6 are refused, in this order, 3 and 6 beyond these limits.
    fn shape(self, cells: usize, vertices: usize) -> Result<u32, Refusal>
        requires { FewWithin cells vertices }
        ensures { result ≡ shape_count cells vertices self }
    {
        let d = self.d;
        let b = self.bad_reflection();
        if b < d {
            return Err(Refusal::BadReflection(b));
        }
        let s = self.short_axis();
        if s < d {
            return Err(Refusal::ShortAxis(s));
        }
        let n = self.sizes(cells, vertices);
        if cells < n.cells {
            return Err(Refusal::TooManyCells);
        }
        if vertices < n.vertices {
            return Err(Refusal::TooManyVertices);
        }
        Ok(n.vertices as u32)
    }

    // How many vertices the grid has after gluing; 1, 9, 8, 3 and 6 are refused, in this order, 1, 3 and 6 beyond these limits.
    fn count_within(self, dimension: u32, cells: usize, vertices: usize) -> Result<u32, Refusal>
        requires { FewWithin cells vertices }
        ensures { result ≡ count_within dimension cells vertices self }
    {
        let d = self.d;
        if d < 1 {
            return Err(Refusal::BadDimension);
        }
        if dimension < d {
            return Err(Refusal::BadDimension);
        }
        self.shape(cells, vertices)
    }

    // How many vertices the grid has after gluing; 1, 9, 8, 3 and 6 are refused, in this order.
    pub fn nvertices(self) -> Result<u32, Refusal>
        ensures { result ≡ nvertices_of self }
    {
        self.count_within(
            refusal::MOST_DIMENSION,
            refusal::MOST_CELLS,
            refusal::MOST_VERTICES,
        )
    }

    // Whether the grid is taken within limits of a caller's own: 1, 9, 8, 3 and 6, in this order. For the crates above.
    pub fn check_within(self, dimension: u32, cells: usize, vertices: usize) -> Result<(), Refusal>
        requires { FewWithin cells vertices }
        ensures { result ≡ check_within dimension cells vertices self }
    {
        self.count_within(dimension, cells, vertices)?;
        Ok(())
    }

    // Whether the grid is taken where its sides are not asked for: 1, 9, 8, 3 and 6, in this order.
    pub fn check(self) -> Result<(), Refusal>
        ensures { result ≡ check_of self }
    {
        self.check_within(
            refusal::MOST_DIMENSION,
            refusal::MOST_CELLS,
            refusal::MOST_VERTICES,
        )
    }

    // Whether the grid is taken with its sides: 1, 10, 9, 8, 3 and 6, in this order.
    pub fn check_with_sides(self) -> Result<(), Refusal>
        ensures { result ≡ sides_check_of self }
    {
        let d = self.d;
        if d < 1 {
            return Err(Refusal::BadDimension);
        }
        if refusal::MOST_DIMENSION < d {
            return Err(Refusal::BadDimension);
        }
        let s = self.sides;
        let b = s.bad_side(d);
        if b < d {
            return Err(Refusal::BadSide(b));
        }
        self.shape(refusal::MOST_CELLS, refusal::MOST_VERTICES)?;
        Ok(())
    }
}
