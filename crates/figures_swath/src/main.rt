// Swaths, run: the refusal's number and place, or 0 and 0, and the list of five numbers afterwards, which held 6 in every place.
#![tactic(auto)]

use grid_sides::Sides;
use quotient::{Axis, Glue, Grid};
use refusal::Refusal;
use replay_reading::printing::numbers;

fn axis(count: u32, glue: Glue) -> Axis {
    Axis { count, glue }
}

// A grid of two axes.
fn sheet(d: u32, first: Axis, second: Axis) -> Grid {
    Grid {
        d,
        first,
        second,
        third: axis(0, Glue::Open),
        sides: Sides {
            first: 1.0,
            second: 1.0,
            third: 1.0,
        },
    }
}

// The refusal's number and place, or 0 and 0.
fn told(said: Result<(), Refusal>) -> (u32, u32) {
    match said {
        Ok(()) => (0, 0),
        Err(why) => (why.number(), why.place()),
    }
}

// One call with the first `room` of five numbers lent.
fn line(grid: Grid, points: &[u32], room: usize) {
    let mut glued = [6u32; 5];
    let (number, place) = told(grid_swath::swath(grid, points, &mut glued[..room.min(5)]));
    numbers(&[number, place], 2);
    io::write_all(1, b" :");
    numbers(&glued, 5);
    io::write_all(1, b"\n");
}

fn main() {
    // 3×1, axis 0 twisted over 1: points inside and outside, an empty list, a list too short, one that is longer
    let open = axis(1, Glue::Open);
    let band = sheet(2, axis(3, Glue::Twisted(2)), open);
    line(band, &[0, 7, 8, 4, 4294967295], 5);
    line(band, &[], 0);
    line(band, &[1, 2], 1);
    line(band, &[1, 2], 2);
    line(band, &[3], 5);
    line(sheet(2, axis(3, Glue::Periodic), open), &[3, 7], 2);
    // refused before the list is looked at: 1, 9, 8, 3 and 6
    line(sheet(0, open, open), &[1, 2], 1);
    line(sheet(2, axis(3, Glue::Twisted(1)), open), &[], 0);
    line(sheet(2, axis(2, Glue::Periodic), open), &[1, 2], 1);
    line(sheet(1, axis(4097, Glue::Open), open), &[1], 1);
    line(sheet(1, axis(4096, Glue::Open), open), &[1], 1);
}
