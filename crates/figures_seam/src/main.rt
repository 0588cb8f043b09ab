// Points across the seam, run: the refusal's number and place, or 0, the vertex, and the wrapped and the reversed axes as masks.
#![tactic(auto)]

use arrayvec::ArrayString;
use grid_sides::Sides;
use quotient::{Axis, Glue, Grid, GridVertex};
use replay_reading::printing::numbers;
use std::fmt::Write;

fn axis(count: u32, glue: Glue) -> Axis {
    Axis { count, glue }
}

fn grid(d: u32, first: Axis, second: Axis, third: Axis) -> Grid {
    Grid {
        d,
        first,
        second,
        third,
        sides: Sides {
            first: 1.0,
            second: 1.0,
            third: 1.0,
        },
    }
}

fn point(g: Grid, v: u32) {
    let mut text = ArrayString::<32>::new();
    let _ = write!(text, "{v}");
    io::write_all(1, text.as_bytes());
    io::write_all(1, b":");
    match g.reduce(GridVertex(v)) {
        Err(why) => numbers(&[why.number(), why.place()], 2),
        Ok(class) => {
            numbers(&[0, class.vertex.0], 2);
            numbers(&[class.wrapped, class.reversed], 2);
        }
    }
    io::write_all(1, b"\n");
}

fn points(g: Grid, vertices: &[u32]) {
    for &v in vertices {
        point(g, v);
    }
}

fn main() {
    let none = axis(0, Glue::Open);
    // 3×1, axis 0 twisted over 1: two points that wrap, and one past the last
    let band = grid(2, axis(3, Glue::Twisted(2)), axis(1, Glue::Open), none);
    points(band, &[2, 3, 7, 8, 4294967295]);
    // 3×2: axis 1 is reversed although its coordinate is its own mirror
    let wide = grid(2, axis(3, Glue::Twisted(2)), axis(2, Glue::Open), none);
    points(wide, &[7]);
    // 3×3×1, axes 0 and 1 twisted over 2: where both wrap they cancel
    let twice = axis(3, Glue::Twisted(4));
    let solid = grid(3, twice, twice, axis(1, Glue::Open));
    points(solid, &[3, 12, 15]);
    // 3×3, each axis twisted over the other: wrapped is what the point as given is
    let tangled = grid(
        2,
        axis(3, Glue::Twisted(2)),
        axis(3, Glue::Twisted(1)),
        none,
    );
    points(tangled, &[3, 7, 12, 13, 15]);
    // refused: 1, 9, 8, 3 and 6
    point(grid(0, none, none, none), 0);
    for (count, glue) in [
        (3, Glue::Twisted(1)),
        (2, Glue::Periodic),
        (4097, Glue::Open),
        (4096, Glue::Open),
    ] {
        point(grid(1, axis(count, glue), none, none), 0);
    }
}
