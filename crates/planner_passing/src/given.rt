// How a grid is given: a count and a gluing for each axis, and a list of sides.
ghost use Rattle.std.specs.Prelude.{◌≡◌};
ghost use Rattle.planner_passing.specs.Given.{glue_of, axis_given, sides_given, grid_given, plain_given, entry, side_given, glues_given, glue_code, axes_of};

use grid_sides::Sides;
use quotient::{Axis, Glue, Glues, Grid};

// The mask of every axis: it reflects its own axis too, so no grid with it is taken.
const EVERY_AXIS: u8 = 255;

// A gluing from its number: 0 is open, 256 periodic, from 512 on twisted over the mask above 512; a mask from 256 on names an axis that no grid has, and counts as every axis.
pub fn glue(code: u32) -> Glue
    ensures { result ≡ glue_of code }
{
    if code < 256 {
        return Glue::Open;
    }
    if code < 512 {
        return Glue::Periodic;
    }
    if code < 768 {
        return Glue::Twisted((code - 512) as u8);
    }
    Glue::Twisted(EVERY_AXIS)
}

// Number i of a list, and 0 past its end.
fn number(list: &[u32], i: usize) -> u32
    ensures { result ≡ entry list.now i }
{
    if i < list.len() { list[i] } else { 0 }
}

// The axis whose count and gluing stand at these two places of the list.
fn axis(axes: &[u32], count: usize, gluing: usize) -> Axis
    ensures { result ≡ axis_given axes.now count gluing }
{
    let n = number(axes, count);
    let code = number(axes, gluing);
    let g = glue(code);
    Axis { count: n, glue: g }
}

// Side i of the list, and 0 past its end.
fn side(list: &[f64], i: usize) -> f64
    ensures { result ≡ side_given list.now i }
{
    if i < list.len() { list[i] } else { 0.0 }
}

// The sides.
pub fn sides(list: &[f64]) -> Sides
    ensures { result ≡ sides_given list.now }
{
    Sides {
        first: side(list, 0),
        second: side(list, 1),
        third: side(list, 2),
    }
}

// The grid without sides, for the calls that read none.
pub fn plain(d: u32, axes: &[u32]) -> Grid
    ensures { result ≡ plain_given d axes.now }
{
    Grid {
        d: d,
        first: axis(axes, 0, 1),
        second: axis(axes, 2, 3),
        third: axis(axes, 4, 5),
        sides: Sides {
            first: 0.0,
            second: 0.0,
            third: 0.0,
        },
    }
}

// The grid.
pub fn grid(d: u32, axes: &[u32], lengths: &[f64]) -> Grid
    ensures { result ≡ grid_given d axes.now lengths.now }
{
    Grid {
        d: d,
        first: axis(axes, 0, 1),
        second: axis(axes, 2, 3),
        third: axis(axes, 4, 5),
        sides: sides(lengths),
    }
}

// A gluing for each axis from its number.
pub fn glues(codes: &[u32]) -> Glues
    ensures { result ≡ glues_given codes.now }
{
    let a = number(codes, 0);
    let b = number(codes, 1);
    let c = number(codes, 2);
    Glues {
        first: glue(a),
        second: glue(b),
        third: glue(c),
    }
}

// The number of a gluing.
fn code(g: Glue) -> u32
    ensures { result ≡ glue_code g }
{
    match g {
        Glue::Open => 0,
        Glue::Periodic => 256,
        Glue::Twisted(m) => 512 + (m as u32),
    }
}

// Writes a grid's counts and gluings.
pub fn hand_out(g: Grid, axes: &mut [u32; 6])
    ensures { axes.new ≡ axes_of g }
{
    let a = g.first;
    let b = g.second;
    let c = g.third;
    let p = a.glue;
    let q = b.glue;
    let r = c.glue;
    let x = code(p);
    let y = code(q);
    let z = code(r);
    *axes = [a.count, x, b.count, y, c.count, z];
}
