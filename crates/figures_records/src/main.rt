// Facet records that are run: the refusal's number, 00 for none, the number of facets, and the first five records: lower cell, induced sign there (1 for +, 2 for -), other cell,
// sign there, whether the cells agree; a minus stands for no cell, a point for a number that was not written.
#![tactic(auto)]

use arrayvec::ArrayString;
use refusal::Refusal;
use std::fmt::Write;

const NO_CELL: u32 = 4294967295;

// What a list of numbers holds before a call.
const UNWRITTEN: u32 = 77;

fn number(said: Result<u32, Refusal>) -> u32 {
    match said {
        Ok(_) => 0,
        Err(why) => why.number(),
    }
}

// A space and a record's numbers, as one piece.
fn five(record: &[u32]) {
    let mut text = ArrayString::<64>::new();
    let _ = write!(text, " ");
    for &n in record {
        let _ = match n {
            NO_CELL => write!(text, "-"),
            UNWRITTEN => write!(text, "."),
            _ => write!(text, "{n}"),
        };
    }
    io::write_all(1, text.as_bytes());
}

fn show(said: Result<u32, Refusal>, records: &[u32]) {
    let mut text = ArrayString::<32>::new();
    let _ = write!(text, "{:02} {:02}", number(said), said.unwrap_or(0));
    io::write_all(1, text.as_bytes());
    for record in records.chunks(5).take(5) {
        five(record);
    }
    io::write_all(1, b"\n");
}

// The records of a list of words.
fn records(d: u32, words: &[u32]) {
    let mut facets = [UNWRITTEN; 32];
    let mut records = [UNWRITTEN; 40];
    let mut keys = [7u32; 64];
    let mut rows = [7u32; 32];
    let mut spare = [7u32; 32];
    let mut counts = [7u32; 32];
    let said = skeleton::facet_records(
        d,
        words,
        &mut facets,
        &mut records,
        &mut keys,
        &mut rows,
        &mut spare,
        &mut counts,
    );
    show(said, &records);
}

// The records of a list of words, by the words of an order.
fn records_with(d: u32, words: &[u32], order: &[u32]) {
    let mut facets = [UNWRITTEN; 32];
    let mut records = [UNWRITTEN; 60];
    let mut keys = [7u32; 128];
    let mut rows = [7u32; 32];
    let mut spare = [7u32; 32];
    let mut counts = [7u32; 32];
    let said = ordering_records::facet_records_with(
        d,
        words,
        order,
        &mut facets,
        &mut records,
        &mut keys,
        &mut rows,
        &mut spare,
        &mut counts,
    );
    show(said, &records);
}

fn main() {
    // two triangles
    records(2, &[0, 1, 2, 1, 2, 3]);
    // the same in another sequence, one of them twice
    records(2, &[3, 2, 1, 0, 1, 2, 1, 3, 2]);
    // a path of two edges
    records(1, &[0, 1, 1, 2]);
    // a ring of three edges
    records(1, &[0, 1, 1, 2, 2, 0]);
    // two tetrahedra
    records(3, &[0, 1, 2, 3, 1, 2, 3, 4]);
    // points
    records(0, &[0, 1]);
    // triangles 012, 013, 014
    records(2, &[0, 1, 2, 0, 1, 3, 0, 1, 4]);
    // a fan of five triangles has more facets than there is room for
    records(2, &[0, 1, 2, 0, 2, 3, 0, 3, 4, 0, 4, 5, 0, 5, 6]);
    // words 0,0,1
    records(2, &[0, 0, 1]);
    // two triangles, whose words read the edge 12 in two sequences
    records_with(2, &[0, 1, 2, 1, 2, 3], &[0, 1, 2, 3, 2, 1]);
    // the Moebius band of 3 x 1 with its own words: they differ on the edge 03 alone
    records_with(
        2,
        &[0, 1, 4, 0, 3, 4, 1, 2, 5, 1, 4, 5, 2, 3, 0, 2, 5, 0],
        &[0, 1, 4, 0, 3, 4, 1, 2, 5, 1, 4, 5, 2, 3, 0, 2, 5, 0],
    );
    // one word too few
    records_with(2, &[0, 1, 2, 1, 2, 3], &[0, 1, 2]);
}
