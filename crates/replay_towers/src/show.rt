// The lines that are written.
use crate::tower::Counts;
use arrayvec::ArrayString;
use std::fmt::{Display, Write};

// A number and what it counts.
fn count<T: Display>(n: &T, what: &[u8]) {
    let mut text = ArrayString::<32>::new();
    let _ = write!(text, "{n}");
    io::write_all(1, b", ");
    io::write_all(1, text.as_bytes());
    io::write_all(1, what);
}

// What was tried, to the line's end.
pub(crate) fn counts(c: Counts) {
    count(&c.pairs, b" pairs");
    count(&c.vertices, b" vertices");
    count(&c.words, b" words");
    count(&c.faults, b" faults\n");
}

// How a complex's line begins.
pub(crate) fn begin(name: &[u8], d: u32, cells: usize) {
    let mut text = ArrayString::<32>::new();
    let _ = write!(text, "{d}");
    io::write_all(1, name);
    io::write_all(1, b": dimension ");
    io::write_all(1, text.as_bytes());
    count(&cells, b" cells");
}
