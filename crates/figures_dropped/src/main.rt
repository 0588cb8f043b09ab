// Cells dropped from small meshes, run: for each what is said, the words that stay and the old numbers, in lists that held sevens; and the refusals in the order of checks.
#![tactic(auto)]

use arrayvec::ArrayString;
use complex_dropped::Dropped;
use refusal::Refusal;
use std::fmt::Write;

// The numbers, each by itself and with nothing between them.
fn digits(numbers: &[u32]) {
    for n in numbers {
        let mut text = ArrayString::<32>::new();
        let _ = write!(text, "{n}");
        io::write_all(1, text.as_bytes());
    }
}

// What is said.
fn head(said: Result<Dropped, Refusal>) {
    let mut text = ArrayString::<32>::new();
    let _ = match said {
        Ok(dropped) => {
            io::write_all(1, b"kept ");
            write!(text, "{} {} ", dropped.words, dropped.vertices)
        }
        Err(why) => {
            io::write_all(1, b"refused ");
            write!(text, "{:02} ", why.number())
        }
    };
    io::write_all(1, text.as_bytes());
}

// One call that hands out to these two lists and works in the third, and what it says.
fn call(d: u32, words: &[u32], gone: &[u32], kept: &mut [u32], old: &mut [u32], spare: &mut [u32]) {
    let mut keys = [7u32; 64];
    let mut rows = [7u32; 32];
    let mut counts = [7u32; 32];
    head(complex_dropped::drop_cells(
        d,
        words,
        gone,
        kept,
        old,
        &mut keys,
        &mut rows,
        spare,
        &mut counts,
    ));
}

// One call with result lists of nine numbers and of `most`, at most six.
fn hand_out(d: u32, words: &[u32], gone: &[u32], most: usize) {
    let mut kept = [7u32; 9];
    let mut numbers = [7u32; 6];
    let old = &mut numbers[..most.min(6)];
    let mut spare = [7u32; 32];
    call(d, words, gone, &mut kept, old, &mut spare);
    digits(&kept);
    io::write_all(1, b" ");
    digits(old);
    io::write_all(1, b"\n");
}

fn line(d: u32, words: &[u32], gone: &[u32]) {
    hand_out(d, words, gone, 6);
}

// The same with a list of two old numbers.
fn few_old(d: u32, words: &[u32], gone: &[u32]) {
    hand_out(d, words, gone, 2);
}

// The same with a working list of eight numbers, and what stands in it afterwards.
fn little_room(d: u32, words: &[u32], gone: &[u32]) {
    let mut kept = [7u32; 9];
    let mut old = [7u32; 6];
    let mut spare = [7u32; 8];
    call(d, words, gone, &mut kept, &mut old, &mut spare);
    digits(&spare);
    io::write_all(1, b"\n");
}

fn main() {
    line(2, &[0, 1, 2, 1, 2, 3, 2, 3, 4], &[0]);
    line(2, &[0, 1, 2, 1, 2, 3, 2, 3, 4], &[1]);
    line(2, &[2, 3, 4, 2, 1, 0, 3, 1, 2], &[0]);
    line(1, &[0, 1, 0, 1, 1, 2], &[1, 1]);
    line(2, &[0, 1, 2, 1, 2, 3, 2, 3, 4], &[0, 3]);
    line(2, &[0, 1, 2], &[0, 1]);
    line(2, &[0, 1, 2], &[0]);
    line(2, &[0, 1, 2, 0, 1, 3, 0, 1, 4], &[5]);
    line(2, &[0, 1, 3], &[0]);
    line(0, &[0, 1, 2, 3, 4, 5], &[4, 1]);
    line(1, &[0, 1, 1, 2, 2, 3, 3, 4, 4, 5, 5, 6], &[5]);
    line(1, &[0, 1, 1, 2, 2, 3, 3, 4, 4, 5, 5, 6], &[]);
    line(3, &[0, 1, 2, 3, 3, 2, 4, 1], &[0]);
    few_old(1, &[0, 1, 1, 2], &[0]);
    few_old(1, &[0, 1, 1, 2], &[]);
    line(9, &[0, 1, 2], &[0]);
    line(2, &[0, 1], &[0]);
    line(1, &[0, 1, 2, 2], &[9]);
    line(1, &[0, 70000], &[9]);
    little_room(2, &[0, 1, 2, 0, 1, 3, 0, 1, 4], &[5]);
    little_room(1, &[0, 1, 1, 2], &[1]);
}
