// What a call said, and the signs that it handed out, on standard output.
use arrayvec::ArrayString;
use replay_reading::printing::numbers;
use std::fmt::Write;

// The first n signs of the list.
pub(crate) fn signs(list: &[i32], n: usize) {
    for &sign in list.iter().take(n) {
        io::write_all(1, if sign == 1 { b" +" } else { b" -" });
    }
}

// The refusal's number and place, or 0 and the answer.
pub(crate) fn answer(said: u64) {
    let mut text = ArrayString::<32>::new();
    let _ = write!(text, "{}", said / 4294967296);
    io::write_all(1, text.as_bytes());
    numbers(&[said % 4294967296], 1);
}

// How many rows were handed out.
pub(crate) fn rows(said: u64) -> usize {
    if said < 4294967296 {
        return (said % 2147483648) as usize;
    }
    0
}

pub(crate) fn end() {
    io::write_all(1, b"\n");
}
