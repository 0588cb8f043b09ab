// The pattern of a refined cell by both paths, run: on each line the refusal's number, 00 for none, how many corners there are, and a check number of the whole list, first
// from the table where it has the pattern, then by the stepping rule. The port added it.
#![tactic(auto)]

use arrayvec::ArrayString;
use refusal::Refusal;
use std::fmt::Write;

fn number(said: Result<u32, Refusal>) -> u32 {
    match said {
        Ok(_) => 0,
        Err(why) => why.number(),
    }
}

// A number that changes with every number of the list, all below 16, and with its place.
fn check(list: &[u32]) -> u32 {
    let mut sum: u32 = 0;
    for &x in list {
        sum = sum % 1000003 * 31 + x % 16;
    }
    sum % 1000003
}

// What one path says of its list, and what comes after it, as one piece.
fn line(said: Result<u32, Refusal>, list: &[u32], end: &str) {
    let mut text = ArrayString::<32>::new();
    let _ = write!(
        text,
        "{:02} {:04} {:07}{end}",
        number(said),
        said.unwrap_or(0),
        check(list)
    );
    io::write_all(1, text.as_bytes());
}

// Both paths, each into a list that holds sevens.
fn both(d: u32, r: u32) {
    let mut ready = [7u32; 2048];
    let mut steps = [7u32; 2048];
    let said = refine_pattern::corners(d, r, &mut ready);
    let stepping = refine_pattern::corners_stepping(d, r, &mut steps);
    line(said, &ready, " ");
    line(stepping, &steps, "\n");
}

fn main() {
    for d in 0..=3 {
        for r in 1..=5 {
            both(d, r);
        }
    }
    // 11, 11, 1, 3, and a list too short
    for (d, r) in [(2, 0), (2, 65), (4, 2), (3, 17), (2, 64)] {
        both(d, r);
    }
}
