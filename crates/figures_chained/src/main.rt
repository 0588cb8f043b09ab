// Figures of honest gluing: the number of classes and each point's class, by the quick engine and by the plain one; and refusals.
#![tactic(auto)]

use grid_chained::{ClassVertex, calls};
use grid_sides::Sides;
use quotient::{Axis, Glue, Grid, GridVertex};
use refusal::Refusal;
use replay_reading::printing::numbers;

fn write_refusal(why: Refusal) {
    io::write_all(1, b" refused");
    numbers(&[why.number(), why.place()], 2);
}

fn write_counted(said: Result<u32, Refusal>) {
    match said {
        Ok(n) => numbers(&[n], 1),
        Err(why) => write_refusal(why),
    }
}

fn write_classed(said: Result<ClassVertex, Refusal>) {
    match said {
        Ok(class) => numbers(&[class.0], 1),
        Err(why) => write_refusal(why),
    }
}

fn axis(count: u32, glue: Glue) -> Axis {
    Axis { count, glue }
}

fn grid(d: u32, first: Axis, second: Axis, third: Axis) -> Grid {
    Grid {
        d,
        first,
        second,
        third,
        sides: Sides {
            first: 1.0,
            second: 1.0,
            third: 1.0,
        },
    }
}

// The count of classes, the class of point 1 and of a point past the last.
fn ask(g: Grid, past: u32, room: &mut [u32]) {
    io::write_all(1, b"nvertices");
    write_counted(calls::nvertices(g, room));
    io::write_all(1, b", point 1");
    write_classed(calls::reduce(g, GridVertex(1), room));
    io::write_all(1, b", past the last");
    write_classed(calls::reduce(g, GridVertex(past), room));
    io::write_all(1, b"\n");
}

// The call's name, what it says, and the list of classes.
fn list(name: &[u8], said: Result<u32, Refusal>, classes: &[u32]) {
    io::write_all(1, name);
    write_counted(said);
    io::write_all(1, b":");
    numbers(classes, classes.len());
    io::write_all(1, b"\n");
}

// All calls, with lists for so many points and so much room.
fn show(g: Grid, past: u32, points: usize, room: usize) {
    let mut classes = [777u32; 82];
    let mut closed = [777u32; 82];
    let mut work = [5u32; 8192];
    let classes = &mut classes[..points.min(82)];
    let closed = &mut closed[..points.min(82)];
    let work = &mut work[..room.min(8192)];
    ask(g, past, work);
    list(b"classes", calls::classes(g, classes, work), classes);
    list(
        b"closed_classes",
        calls::closed_classes(g, closed, work),
        closed,
    );
}

fn main() {
    let none = axis(0, Glue::Open);
    // 3 x 3, twisted over each other; the room is just enough.
    let plane = grid(
        2,
        axis(3, Glue::Twisted(2)),
        axis(3, Glue::Twisted(1)),
        none,
    );
    show(plane, 16, 17, 54);
    // 3 x 2, axis 0 twisted over 1.
    let band = grid(2, axis(3, Glue::Twisted(2)), axis(2, Glue::Open), none);
    show(band, 12, 13, 36);
    // 3 x 1 x 3, axis 0 twisted over 2, axis 2 over both others.
    let solid = grid(
        3,
        axis(3, Glue::Twisted(4)),
        axis(1, Glue::Open),
        axis(3, Glue::Twisted(3)),
    );
    show(solid, 32, 33, 216);
    // 8 x 8, twisted over each other.
    let large_plane = grid(
        2,
        axis(8, Glue::Twisted(2)),
        axis(8, Glue::Twisted(1)),
        none,
    );
    show(large_plane, 81, 82, 384);
    // One number of room too few.
    show(plane, 16, 17, 53);
    // One place too few in the lists.
    show(plane, 4294967295, 15, 54);
    // An axis that reflects itself.
    let self_reflected = grid(
        2,
        axis(3, Glue::Twisted(1)),
        axis(3, Glue::Twisted(1)),
        none,
    );
    show(self_reflected, 16, 2, 54);
    // A closed axis of two cells.
    show(grid(1, axis(2, Glue::Periodic), none, none), 3, 2, 54);
    // No dimension.
    show(grid(0, none, none, none), 1, 2, 54);
    // 4,097 classes.
    show(grid(1, axis(4096, Glue::Open), none, none), 4097, 2, 8192);
    // 4,096 classes: too many for the lists.
    show(
        grid(1, axis(4096, Glue::Periodic), none, none),
        4097,
        2,
        8192,
    );
}
