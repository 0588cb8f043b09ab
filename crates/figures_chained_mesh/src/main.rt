// Figures of the words of honest gluing: what the call says (a count, or the number of a refusal and its place), the word list afterwards, and the working lists'
// least and greatest numbers afterwards. Before the call the word list is full of 777 and the working lists of 5.
#![tactic(auto)]

use grid_sides::Sides;
use quotient::{Axis, Glue, Grid};
use refusal::Refusal;
use replay_reading::printing::numbers;

fn write_said(said: Result<u32, Refusal>) {
    match said {
        Ok(n) => {
            io::write_all(1, b"count");
            numbers(&[n], 1);
        }
        Err(why) => {
            io::write_all(1, b"refused");
            numbers(&[why.number(), why.place()], 2);
        }
    }
    io::write_all(1, b"\n");
}

// The least and the greatest number of a list.
fn write_ends(list: &[u32]) {
    let least = list.iter().copied().min().unwrap_or(9999);
    let greatest = list.iter().copied().max().unwrap_or(0);
    numbers(&[least, greatest], 2);
}

fn axis(count: u32, glue: Glue) -> Axis {
    Axis { count, glue }
}

fn grid(d: u32, first: Axis, second: Axis, third: Axis) -> Grid {
    Grid {
        d,
        first,
        second,
        third,
        sides: Sides {
            first: 1.0,
            second: 1.0,
            third: 1.0,
        },
    }
}

// The call on a grid with lists of these lengths, and what it leaves.
fn show(g: Grid, words: usize, keys: usize, rows: usize, spare: usize, counts: usize) {
    let mut some_words = [777u32; 36];
    let mut some_keys = [5u32; 8192];
    let mut some_rows = [5u32; 8192];
    let mut some_spare = [5u32; 8192];
    let mut some_counts = [5u32; 8192];
    let words = &mut some_words[..words.min(36)];
    let keys = &mut some_keys[..keys.min(8192)];
    let rows = &mut some_rows[..rows.min(8192)];
    let spare = &mut some_spare[..spare.min(8192)];
    let counts = &mut some_counts[..counts.min(8192)];
    write_said(grid_chained_mesh::cell_words(g, words, keys, rows, spare, counts));
    io::write_all(1, b"words");
    numbers(words, words.len());
    io::write_all(1, b"\n");
    io::write_all(1, b"room");
    write_ends(keys);
    write_ends(rows);
    write_ends(spare);
    write_ends(counts);
    io::write_all(1, b"\n");
}

fn main() {
    let none = axis(0, Glue::Open);
    let one = axis(1, Glue::Open);
    // 3 x 3, twisted over each other: a facet in three cells.
    let plane = grid(
        2,
        axis(3, Glue::Twisted(2)),
        axis(3, Glue::Twisted(1)),
        none,
    );
    show(plane, 2, 108, 54, 54, 54);
    // 4 x 4, twisted over each other: a facet in three cells again.
    let larger_plane = grid(
        2,
        axis(4, Glue::Twisted(2)),
        axis(4, Glue::Twisted(1)),
        none,
    );
    show(larger_plane, 2, 192, 96, 96, 96);
    // 3 x 1 x 3, axis 0 twisted over 2, axis 2 over both others: word 1 names a class twice.
    let solid = grid(3, axis(3, Glue::Twisted(4)), one, axis(3, Glue::Twisted(3)));
    show(solid, 2, 648, 216, 216, 216);
    // 3 x 1, axis 0 periodic: document 01's words.
    let ring = grid(2, axis(3, Glue::Periodic), one, none);
    show(ring, 18, 36, 18, 18, 18);
    // 3 x 2, axis 0 twisted over 1.
    let band = grid(2, axis(3, Glue::Twisted(2)), axis(2, Glue::Open), none);
    show(band, 36, 72, 36, 36, 36);
    // 3 x 1, axis 0 twisted over 1; the list is one number too long.
    let small_band = grid(2, axis(3, Glue::Twisted(2)), one, none);
    show(small_band, 19, 36, 18, 18, 18);
    // 3 x 1, axis 0 periodic; the list is one number too short.
    show(ring, 17, 36, 18, 18, 18);
    // 3 x 1, axis 0 periodic; one working list is one number too short.
    show(ring, 18, 36, 18, 18, 17);
    // 3 x 1, axis 0 periodic; the keys are one number longer than needed.
    show(ring, 18, 37, 18, 18, 18);
    // 4,097 classes.
    let long_line = grid(1, axis(4096, Glue::Open), none, none);
    show(long_line, 2, 8192, 8192, 8192, 8192);
    // 4,097 classes, and one working list is one number too short: the room is tested first.
    show(long_line, 2, 8192, 8192, 8191, 8192);
    // 3 x 1 x 3 as above, and one working list is one number too short.
    show(solid, 2, 648, 215, 216, 216);
    // An axis that reflects itself.
    let self_reflected = grid(2, axis(3, Glue::Twisted(1)), one, none);
    show(self_reflected, 2, 36, 18, 18, 18);
    // A closed axis of two cells.
    show(grid(1, axis(2, Glue::Periodic), none, none), 2, 4, 4, 4, 4);
    // No dimension.
    show(grid(0, none, none, none), 2, 1, 1, 1, 1);
    // 2 cells in a row.
    show(grid(1, axis(2, Glue::Open), none, none), 4, 4, 4, 4, 4);
}
