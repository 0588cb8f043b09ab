// The requests, each one call. A call's number says which:
//   1 torus, 2 klein, 3 moebius, 4 quasi_uniform; 5 reduce, 6 nvertices, 7 is_orientation_preserving; 8 orientation; 9 cells, 10 edges, 11 border, 12 facets, 13 ordering,
//   14 induced_orientation, 15 cell_words, 16 triangulate_ordered; 17 orient_by; 18 edge_lengths_sq; 19 edge_length_sq
use crate::{listing, show};
use planner_complexes::complexes::{planner_orient_by, planner_orientation};
use planner_grids::grids::{
    planner_is_orientation_preserving, planner_klein, planner_moebius, planner_nvertices,
    planner_quasi_uniform, planner_reduce, planner_torus,
};
use planner_grids::lengths::{planner_edge_length_sq, planner_edge_lengths_sq};
use replay_reading::printing::{floats, numbers};

// A side from its numerator and denominator.
fn side(list: &[u32], top: usize, bottom: usize) -> f64 {
    if top < list.len() && bottom < list.len() {
        f64::from(list[top]) / f64::from(list[bottom])
    } else {
        0.0
    }
}

// One call of a maker.
fn make(kind: u64, a: u32, b: u32, gluings: &[u32], sides: &[f64; 3]) {
    let mut axes = [7u32; 6];
    let said = match kind {
        1 => planner_torus(a, b, sides, &mut axes),
        2 => planner_klein(a, b, sides, &mut axes),
        3 => planner_moebius(b, sides[0], sides[1], &mut axes),
        _ => planner_quasi_uniform(a, b, gluings, sides, &mut axes),
    };
    show::answer(said);
    numbers(&axes, 6);
    show::end();
}

// One question of a grid.
fn ask(kind: u64, a: u32, b: u32, axes: &[u32]) {
    show::answer(match kind {
        5 => planner_reduce(a, b, axes),
        6 => planner_nvertices(a, axes),
        _ => planner_is_orientation_preserving(a, axes),
    });
    show::end();
}

fn orient(d: u32, words: &[u32]) {
    let mut signs = [7i32; 128];
    let mut keys = [7u32; 640];
    let mut rows = [7u32; 128];
    let mut spare = [7u32; 128];
    let mut counts = [7u32; 128];
    let said = planner_orientation(
        d,
        words,
        &mut signs,
        &mut keys,
        &mut rows,
        &mut spare,
        &mut counts,
    );
    show::answer(said);
    show::signs(&signs, show::rows(said));
    show::end();
}

// The sign that a number stands for: 1 is +1, 2 is -1, and 3 is no sign.
fn sign(n: u32) -> i32 {
    match n {
        1 => 1,
        2 => -1,
        _ => 3,
    }
}

// Writes the signs that the numbers stand for.
fn read_signs(numbers: &[u32], signs: &mut [i32]) {
    for (to, &n) in signs.iter_mut().zip(numbers) {
        *to = sign(n);
    }
}

// The test of a caller's signs.
fn test_signs(d: u32, words: &[u32], signs: &[i32]) {
    let mut keys = [7u32; 640];
    let mut rows = [7u32; 128];
    let mut spare = [7u32; 128];
    let mut counts = [7u32; 128];
    let said = planner_orient_by(
        d,
        words,
        signs,
        &mut keys,
        &mut rows,
        &mut spare,
        &mut counts,
    );
    show::answer(said);
    show::end();
}

// The test of as many signs as there are numbers.
fn orient_by(d: u32, words: &[u32], numbers: &[u32]) {
    let mut signs = [7i32; 128];
    read_signs(numbers, &mut signs);
    if let Some(signs) = signs.get(..numbers.len()) {
        test_signs(d, words, signs);
    }
}

// The lengths of all edges.
fn lengths(d: u32, axes: &[u32], sides: &[f64; 3]) {
    let mut lengths = [7.0; 324];
    let mut keys = [7u32; 648];
    let mut rows = [7u32; 648];
    let mut spare = [7u32; 648];
    let mut counts = [7u32; 648];
    let said = planner_edge_lengths_sq(
        d,
        axes,
        sides,
        &mut lengths,
        &mut keys,
        &mut rows,
        &mut spare,
        &mut counts,
    );
    show::answer(said);
    floats(&lengths, show::rows(said));
    show::end();
}

// One edge: its ends are the first two numbers, the axes come after them.
fn edge(d: u32, list: &[u32], sides: &[f64; 3]) {
    let [from, to, axes @ ..] = list else {
        return;
    };
    let mut squares = [7.0; 2];
    let said = planner_edge_length_sq(d, *from, *to, axes, sides, &mut squares);
    show::answer(said);
    floats(&squares, 2);
    show::end();
}

// The call with this number: its numbers, the list that it reads first, and a second list.
pub(crate) fn call(kind: u64, a: u32, b: u32, first: &[u32], second: &[u32]) {
    let sides = [side(second, 0, 1), side(second, 2, 3), side(second, 4, 5)];
    match kind {
        0..=4 => make(kind, a, b, first, &sides),
        5..=7 => ask(kind, a, b, first),
        8 => orient(a, first),
        9..=16 => listing::list(kind, a, first, second),
        17 => orient_by(a, first, second),
        18 => lengths(a, first, &sides),
        _ => edge(a, first, &sides),
    }
}
