// Draws bands and prints the files, or the refusals, in document 02's order of checks.
#![tactic(auto)]

use arrayvec::ArrayString;
use grid_sides::Sides;
use quotient::{Axis, Glue, Grid};
use refusal::Refusal;
use std::fmt::Write;

// The standard output.
const STDOUT_FILENO: i32 = 1;

// A grid of n times m cells, axis 0 glued so and axis 1 so.
fn grid(d: u32, n: u32, around: Glue, m: u32, up: Glue) -> Grid {
    Grid {
        d,
        first: Axis {
            count: n,
            glue: around,
        },
        second: Axis { count: m, glue: up },
        third: Axis {
            count: 0,
            glue: Glue::Open,
        },
        sides: Sides {
            first: 1.0,
            second: 1.0,
            third: 1.0,
        },
    }
}

// Prints `refused` and the number.
fn refused(number: u32) {
    let mut line = ArrayString::<32>::new();
    let _ = writeln!(line, "refused {number}");
    io::write_all(STDOUT_FILENO, line.as_bytes());
}

// Prints what the call says: the file, or the refusal.
fn show(said: Result<u32, Refusal>, bytes: &[u8]) {
    match said {
        Ok(n) => {
            if let Some(file) = bytes.get(..n as usize) {
                io::write_all(STDOUT_FILENO, file);
            }
        }
        Err(why) => refused(why.number()),
    }
}

// Draws into the first `most` bytes, with the first `room` numbers of each working list, and prints what is said.
fn draw(g: Grid, south: i32, north: i32, most: usize, room: usize) {
    let mut bytes = [0u8; 2800];
    let mut keys = [7u32; 128];
    let mut rows = [7u32; 128];
    let mut spare = [7u32; 128];
    let mut counts = [7u32; 128];
    let most = most.min(2800);
    let room = room.min(128);
    let said = file_geojson::geojson(
        g,
        south,
        north,
        &mut bytes[..most],
        &mut keys[..room],
        &mut rows[..room],
        &mut spare[..room],
        &mut counts[..room],
    );
    show(said, &bytes);
}

// The same with room enough for each of the bands here.
fn ample(g: Grid, south: i32, north: i32) {
    draw(g, south, north, 2800, 128);
}

fn main() {
    let band = grid(2, 3, Glue::Periodic, 1, Glue::Open);
    ample(band, 0, 60);
    ample(band, -90, 90);
    ample(grid(2, 3, Glue::Twisted(0), 2, Glue::Open), -60, 60);
    ample(grid(2, 7, Glue::Periodic, 1, Glue::Open), -1, 1);
    draw(band, 0, 60, 1164, 128);
    // 12: one byte too few; then too little room, even for another kind of grid
    draw(band, 0, 60, 1163, 128);
    draw(grid(1, 3, Glue::Periodic, 0, Glue::Open), 0, 60, 2800, 5);
    // 7 before 18
    ample(grid(2, 3, Glue::Twisted(2), 3, Glue::Twisted(1)), 0, 60);
    // 18
    ample(grid(1, 3, Glue::Periodic, 0, Glue::Open), 0, 60);
    ample(grid(2, 3, Glue::Open, 1, Glue::Open), 0, 0);
    ample(grid(2, 3, Glue::Twisted(2), 1, Glue::Open), 0, 60);
    ample(grid(2, 3, Glue::Periodic, 3, Glue::Periodic), 0, 60);
    // 19
    ample(band, 0, 0);
    ample(band, 60, 0);
    ample(band, -91, 0);
    ample(band, 0, 91);
    ample(band, -2147483648, 2147483647);
    // 1, 9, 8
    ample(grid(0, 3, Glue::Periodic, 1, Glue::Open), 0, 60);
    ample(grid(2, 3, Glue::Twisted(1), 1, Glue::Open), 0, 60);
    ample(grid(2, 2, Glue::Periodic, 1, Glue::Open), 0, 60);
}
