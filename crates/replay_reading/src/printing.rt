// How the programs of the gate print what was handed out, piece by piece: an output that takes no more keeps what it took before.
use arrayvec::ArrayString;
use std::fmt::{Display, Write};

// A space and a number.
fn number<T: Display>(x: &T) {
    let mut text = ArrayString::<32>::new();
    let _ = write!(text, "{x}");
    io::write_all(1, b" ");
    io::write_all(1, text.as_bytes());
}

// The first n numbers of the list.
pub fn numbers<T: Display>(list: &[T], n: usize) {
    for x in list.iter().take(n) {
        number(x);
    }
}

// The bit pattern of a number.
fn bits(x: f64) -> u64 {
    if x.is_nan() { 0 } else { x.to_bits() }
}

// The bit patterns of the first n numbers of the list.
pub fn floats(list: &[f64], n: usize) {
    for &x in list.iter().take(n) {
        number(&bits(x));
    }
}
