// Prints boundary operators as Matrix Market files, or the refusals, in the order of checks.
#![tactic(auto)]

use arrayvec::ArrayString;
use refusal::Refusal;
use std::fmt::Write;

// The standard output.
const STDOUT_FILENO: i32 = 1;

// Prints `refused` and the number.
fn refused(number: u32) {
    let mut line = ArrayString::<32>::new();
    let _ = writeln!(line, "refused {number}");
    io::write_all(STDOUT_FILENO, line.as_bytes());
}

// Prints what the call says: the file, or the refusal.
fn show(said: Result<u32, Refusal>, bytes: &[u8]) {
    match said {
        Ok(n) => {
            if let Some(file) = bytes.get(..n as usize) {
                io::write_all(STDOUT_FILENO, file);
            }
        }
        Err(why) => refused(why.number()),
    }
}

// Writes the operator into the first `most` bytes, with the first `room` numbers of each working list, and prints what is said.
fn operator(d: u32, k: u32, words: &[u32], most: usize, room: usize) {
    let mut bytes = [0u8; 1024];
    let mut keys = [7u32; 128];
    let mut rows = [7u32; 128];
    let mut spare = [7u32; 128];
    let mut counts = [7u32; 128];
    let most = most.min(1024);
    let room = room.min(128);
    let said = file_market::matrix_market(
        d,
        k,
        words,
        &mut bytes[..most],
        &mut keys[..room],
        &mut rows[..room],
        &mut spare[..room],
        &mut counts[..room],
    );
    show(said, &bytes);
}

// The torus of seven vertices: triangles i, i + 1, i + 3 and i, i + 2, i + 3, counted around.
fn torus(k: u32) {
    let words = [
        0u32, 1, 3, 1, 2, 4, 2, 3, 5, 3, 4, 6, 4, 5, 0, 5, 6, 1, 6, 0, 2, 0, 2, 3, 1, 3, 4, 2, 4,
        5, 3, 5, 6, 4, 6, 0, 5, 0, 1, 6, 1, 2,
    ];
    operator(2, k, &words, 1024, 128);
}

fn main() {
    let two = [0u32, 1, 2, 1, 2, 3];
    operator(2, 2, &two, 1024, 128);
    operator(2, 1, &two, 1024, 128);
    operator(1, 1, &[0u32, 1], 1024, 128);
    operator(3, 3, &[0u32, 1, 2, 3], 1024, 128);
    torus(2);
    torus(1);
    // the exact fit, then 12: one byte too few, and one number too few of a working list
    operator(2, 2, &two, 93, 12);
    operator(2, 2, &two, 92, 12);
    operator(2, 2, &two, 93, 11);
    // 24: dimension 0, a dimension above that of the cells, points
    operator(2, 0, &two, 0, 128);
    operator(2, 3, &two, 0, 128);
    operator(0, 0, &[0u32], 0, 128);
    // 7 before 24
    operator(2, 3, &[0u32, 1, 2, 0, 1, 3, 0, 1, 4], 0, 128);
    // a cell twice, a word of no full length, a gap
    operator(2, 2, &[0u32, 1, 1], 1024, 128);
    operator(2, 2, &[0u32, 1], 1024, 128);
    operator(1, 1, &[0u32, 2], 1024, 128);
}
