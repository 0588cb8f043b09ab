// What a call said and handed out, on standard output.
use arrayvec::ArrayString;
use refine_results::Refinement;
use refusal::Refusal;
use replay_reading::printing::{floats, numbers};
use std::fmt::Write;

// How many children and births were handed out, and how many numbers a word has.
#[derive(Clone, Copy)]
pub(crate) struct Sizes {
    pub(crate) children: usize,
    pub(crate) births: usize,
    pub(crate) width: usize,
}

// A bar, and the first n numbers of the list.
fn part(list: &[u32], n: usize) {
    io::write_all(1, b" |");
    numbers(list, n);
}

// A bar, and the first n whole numbers of the list, each one piece with its space.
fn whole_part(list: &[i32], n: usize) {
    io::write_all(1, b" |");
    for x in list.iter().take(n) {
        let mut text = ArrayString::<32>::new();
        let _ = write!(text, " {x}");
        io::write_all(1, text.as_bytes());
    }
}

// A bar, and the bit patterns of the first n numbers of the list.
fn float_part(list: &[f64], n: usize) {
    io::write_all(1, b" |");
    floats(list, n);
}

// How many numbers a word has.
fn width(d: u32) -> usize {
    if refusal::MOST_DIMENSION < d {
        return 1;
    }
    d as usize + 1
}

// The largest of the numbers.
fn largest(words: &[u32]) -> u32 {
    words.iter().copied().max().unwrap_or(0)
}

// How many of the vertices are new.
fn born(vertices: u32, top: u32) -> usize {
    vertices.saturating_sub(top).saturating_sub(1) as usize
}

// The refusal's number and place, or 0 and how many children and vertices there are.
pub(crate) fn answer(said: Result<Refinement, Refusal>, d: u32, words: &[u32]) -> Sizes {
    match said {
        Err(why) => {
            let mut text = ArrayString::<32>::new();
            let _ = write!(text, "{}", why.number());
            io::write_all(1, text.as_bytes());
            numbers(&[why.place()], 1);
            Sizes {
                children: 0,
                births: 0,
                width: 1,
            }
        }
        Ok(Refinement { children, vertices }) => {
            io::write_all(1, b"0");
            numbers(&[children, vertices], 2);
            Sizes {
                children: children as usize,
                births: born(vertices, largest(words)),
                width: width(d),
            }
        }
    }
}

// The children: cells, words, parents, Jacobians as floats and in whole numbers.
pub(crate) fn children(
    s: Sizes,
    cells: &[u32],
    words: &[u32],
    parents: &[u32],
    jacobians: &[f64],
    whole: &[i32],
) {
    let corners = s.children.saturating_mul(s.width);
    let entries = s.children.saturating_mul(9);
    part(cells, corners);
    part(words, corners);
    part(parents, s.children);
    float_part(jacobians, entries);
    whole_part(whole, entries);
}

// The births: vertices, weights, shares; and the line's end.
pub(crate) fn births(s: Sizes, vertices: &[u32], weights: &[u32], shares: &[f64]) {
    let corners = s.births.saturating_mul(s.width);
    part(vertices, corners);
    part(weights, corners);
    float_part(shares, corners);
    io::write_all(1, b"\n");
}
