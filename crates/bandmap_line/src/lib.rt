// The line that the program `bandmap` reads: a grid as `bandsum` reads it, then two latitudes in whole degrees, south and north, each after a space, then a line feed. The
// port added it, with the program.
//
// A latitude has an optional minus, at most three digits, no 0 before others, and is not -0. Each part of the line has a function that begins at a position and says what
// it read and where it stopped, or that nothing of the kind stands there. Whatever the bytes are, `read` answers: with the grid and the latitudes, or with 1 where the
// first digit is no grid's dimension, or with 17. Whether the latitudes fit is not asked here.
#![tactic(auto)]

ghost use Rattle.std.specs.Prelude.{◌≡◌, drop};
ghost use Rattle.bandsum_line.specs.Grammar.{and_then};
ghost use Rattle.bandsum_line.specs.WorkParts.{read_of};
ghost use Rattle.bandmap_line.specs.Grammar.{degrees_from, below_zero, above_zero, latitude_from, spaced_from, read_map};

use bandsum_line::Part;
use quotient::Grid;
use refusal::Refusal;

// What the line says: the grid, and south and north in degrees.
#[derive(Clone, Copy)]
pub struct MapLine {
    pub grid: Grid,
    pub south: i32,
    pub north: i32,
}

// The longest line: bandsum's longest without its line feed, two times a space, a minus and three digits, a line feed.
pub const LONGEST: usize = 57;

// The degrees at the position: one to three digits, and no 0 before others.
#[tactic(auto, using(crate::proofs::Parts::degrees_rules))]
fn degrees(bytes: &[u8], at: usize) -> Option<Part<u32>>
    ensures { read_of bytes.now result ≡ degrees_from (drop at bytes.now) }
{
    bandsum_line::count(bytes, at).filter(|count| count.value < 1000)
}

// The latitude whose degrees south stand at the position, after its minus: not 0.
#[tactic(auto, using(crate::proofs::Parts::south_rules))]
fn south(bytes: &[u8], at: usize) -> Option<Part<i32>>
    ensures { read_of bytes.now result ≡ and_then (degrees_from (drop at bytes.now)) below_zero }
{
    let degrees = degrees(bytes, at)?;
    if degrees.value == 0 {
        return None;
    }
    Some(Part {
        value: -(degrees.value as i32),
        end: degrees.end,
    })
}

// The latitude whose degrees north stand at the position.
#[tactic(auto, using(crate::proofs::Parts::north_rules))]
fn north(bytes: &[u8], at: usize) -> Option<Part<i32>>
    ensures { read_of bytes.now result ≡ and_then (degrees_from (drop at bytes.now)) above_zero }
{
    let degrees = degrees(bytes, at)?;
    Some(Part {
        value: degrees.value as i32,
        end: degrees.end,
    })
}

// The latitude at the position.
#[tactic(auto, using(crate::proofs::Parts::signed_rules))]
fn signed(bytes: &[u8], at: usize) -> Option<Part<i32>>
    ensures { read_of bytes.now result ≡ latitude_from (drop at bytes.now) }
{
    if bandsum_line::has(bytes, at, b'-') {
        return south(bytes, at + 1);
    }
    north(bytes, at)
}

// A space and the latitude after it.
#[tactic(auto, using(crate::proofs::Parts::spaced_rules))]
fn spaced(bytes: &[u8], at: usize) -> Option<Part<i32>>
    ensures { read_of bytes.now result ≡ spaced_from (drop at bytes.now) }
{
    if !bandsum_line::has(bytes, at, b' ') {
        return None;
    }
    signed(bytes, at + 1)
}

// The grid and the latitudes that the bytes describe: 1 where the first byte is a digit outside 1 to 3, and 17 for every other line that cannot be read.
#[tactic(auto, using(crate::proofs::Whole::read_rules))]
pub fn read(bytes: &[u8]) -> Result<MapLine, Refusal>
    ensures { result ≡ read_map bytes.now }
{
    if bytes.len() == 0 {
        return Err(Refusal::Unreadable);
    }
    let b = bytes[0];
    if !bandsum_line::is_digit(b) {
        return Err(Refusal::Unreadable);
    }
    let d = (b - 48) as u32;
    if d < 1 {
        return Err(Refusal::BadDimension);
    }
    if refusal::MOST_DIMENSION < d {
        return Err(Refusal::BadDimension);
    }
    let Some(grid) = bandsum_line::grid(d, bytes, 1) else {
        return Err(Refusal::Unreadable);
    };
    let Some(south) = spaced(bytes, grid.end) else {
        return Err(Refusal::Unreadable);
    };
    let Some(north) = spaced(bytes, south.end) else {
        return Err(Refusal::Unreadable);
    };
    if bandsum_line::ends(bytes, north.end) {
        return Ok(MapLine {
            grid: grid.value,
            south: south.value,
            north: north.value,
        });
    }
    Err(Refusal::Unreadable)
}
