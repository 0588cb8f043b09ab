// Mesh files, one a line in hexadecimal digits: the three figures, cut and damaged ones, and random ones. For each the program writes the refusal's number and place, or 0,
// the dimension, how many cells, births and pairs the file has, and the bytes that writing its lists gives. The file `stdout` has what an independent program says
// (compare/mesh_files.py), so a run that writes anything else is a difference.
#![tactic(auto)]

mod hex;

ghost use Rattle.std.specs.Prelude.{◌≤◌, ◌<◌, length};

use arrayvec::ArrayString;
use file_mesh_read::Reading;
use refusal::Refusal;
use std::fmt::{Display, Write};

// A piece of a line. Each goes out by itself: an output that takes no more keeps what it took before.
fn piece<T: Display + Drop>(x: T) {
    let mut text = ArrayString::<32>::new();
    let _ = write!(text, "{x}");
    io::write_all(1, text.as_bytes());
}

// How many numbers the words of so many cells have.
fn corners(d: u32, cells: usize) -> usize
    requires { cells < 4294967296 }
{
    match d {
        0 => cells,
        1 => cells * 2,
        2 => cells * 3,
        _ => cells * 4,
    }
}

// The refusal's number and place.
fn refused(why: Refusal) {
    piece(why.number());
    piece(" ");
    piece(why.place());
}

// The bytes that writing these lists gives, or the refusal.
fn written(d: u32, words: &[u32], births: &[u32], pairs: &[u32]) {
    let mut bytes = [7u8; 512];
    let mut keys = [7u32; 512];
    let mut rows = [7u32; 256];
    let mut spare = [7u32; 256];
    let mut counts = [7u32; 256];
    let said = file_mesh_write::write_mesh(
        d,
        words,
        births,
        pairs,
        &mut bytes,
        &mut keys,
        &mut rows,
        &mut spare,
        &mut counts,
    );
    match said {
        Ok(n) => {
            for byte in bytes.iter().take(n as usize) {
                let mut pair = ArrayString::<2>::new();
                let _ = write!(pair, "{byte:02x}");
                io::write_all(1, pair.as_bytes());
            }
        }
        Err(why) => refused(why),
    }
}

// What was read, and the bytes that writing it gives.
fn again(read: Reading, words: &[u32], births: &[u32], pairs: &[u32]) {
    piece("0");
    for n in [read.dimension, read.cells, read.births, read.pairs] {
        piece(" ");
        piece(n);
    }
    piece(" ");
    let words = words.get(..corners(read.dimension, read.cells as usize));
    let births = births.get(..read.births as usize * 3);
    let pairs = pairs.get(..read.pairs as usize * 2);
    if let (Some(words), Some(births), Some(pairs)) = (words, births, pairs) {
        written(read.dimension, words, births, pairs);
    }
}

// What reading the file says.
fn file(bytes: &[u8]) {
    let mut words = [7u32; 256];
    let mut births = [7u32; 256];
    let mut pairs = [7u32; 256];
    let mut keys = [7u32; 512];
    let mut rows = [7u32; 256];
    let mut spare = [7u32; 256];
    let mut counts = [7u32; 256];
    let said = file_mesh_read::read_mesh(
        bytes,
        &mut words,
        &mut births,
        &mut pairs,
        &mut keys,
        &mut rows,
        &mut spare,
        &mut counts,
    );
    match said {
        Err(why) => refused(why),
        Ok(read) => again(read, &words, &births, &pairs),
    }
    piece("\n");
}

// The file in the line that begins at `from`; where the next line begins.
fn line(text: &[u8], from: usize) -> usize
    requires { from < length text.now }
    ensures { (from < result) × (result ≤ length text.now) }
{
    let mut bytes = [0u8; 512];
    let found = hex::line(text, from, &mut bytes);
    file(&bytes[..found.count]);
    text.len().min(found.end + 1)
}

// Every line.
fn lines(text: &[u8]) {
    let mut at = 0;
    // Kept: each line says where the next begins, so there is no range or list to count over.
    while at < text.len() {
        at = line(text, at);
    }
}

fn main() {
    let mut text = io::large_buffer();
    let n = io::read_full(0, &mut text);
    lines(&text[..n]);
}
