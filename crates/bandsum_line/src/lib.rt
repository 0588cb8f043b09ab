// The line that the program reads: a dimension, then for each axis a count and how it is glued, then a line feed.
// The port added it, with the program.
//
// Each part of the line has a function that begins at a position and says what it read and where it stopped, or that nothing of the kind stands there. Whatever the
// bytes are, `read` answers: with the grid, or with 1 where the first digit is no grid's dimension, or with 17.
#![tactic(auto)]

ghost use Rattle.std.specs.Prelude.{◌≡◌, ℕ, ◌<◌, ◌^◌, drop};
ghost use Rattle.bandsum_line.specs.Grammar.{front, is_digit, is_axis_digit, line_ends, digits_from, count_from, set_from, glue_from, glued_from, axis_from, axis_at, grid_from, read_line};
ghost use Rattle.bandsum_line.specs.WorkParts.{begins, read_of};

use grid_sides::Sides;
use quotient::{Axis, Glue, Grid};
use refusal::Refusal;

// What a part of the line says, and where it stopped.
#[derive(Clone, Copy)]
pub struct Part<T> {
    pub value: T,
    pub end: usize,
}

// The longest line: 3, three axes of four digits with eight reflected axes, a line feed.
pub const LONGEST: usize = 47;

// Whether b is a digit.
pub fn is_digit(b: u8) -> bool
    ensures { result ≡ is_digit b }
{
    matches!(b, b'0'..=b'9')
}

// Whether b is a digit from 0 to 7.
fn is_axis_digit(b: u8) -> bool
    ensures { result ≡ is_axis_digit b }
{
    matches!(b, b'0'..=b'7')
}

// Whether byte b stands at the position.
#[tactic(auto, using(crate::proofs::Front::byte_rules))]
pub fn has(bytes: &[u8], at: usize, b: u8) -> bool
    ensures { result ≡ begins b (drop at bytes.now) }
{
    at < bytes.len() && bytes[at] == b
}

// The number whose first digit is n and which goes on at the position, four digits at most.
#[tactic(auto, using(crate::proofs::Numerals::digits_rules))]
fn digits(bytes: &[u8], at: usize, first: u32) -> Part<u32>
    requires { first < 10 }
    ensures { front result.value (drop result.end bytes.now) ≡ digits_from 3 first (drop at bytes.now) }
{
    let mut value = first;
    let mut end = at;
    for _digit in 0..3u32 {
        if end >= bytes.len() {
            return Part { value, end };
        }
        let b = bytes[end];
        if !is_digit(b) {
            return Part { value, end };
        }
        value = value * 10 + u32::from(b - b'0');
        end += 1;
    }
    Part { value, end }
}

// The count at the position: one to four digits, and no 0 before others.
#[tactic(auto, using(crate::proofs::Front::count_rules))]
pub fn count(bytes: &[u8], at: usize) -> Option<Part<u32>>
    ensures { read_of bytes.now result ≡ count_from (drop at bytes.now) }
{
    if at >= bytes.len() {
        return None;
    }
    let b = bytes[at];
    let end = at + 1;
    if b == b'0' {
        return Some(Part { value: 0, end });
    }
    if !is_digit(b) {
        return None;
    }
    Some(digits(bytes, end, u32::from(b - b'0')))
}

// The set of axes at the position, as a mask: distinct digits from 0 to 7.
#[tactic(auto, using(crate::proofs::Numerals::set_rules))]
fn set(bytes: &[u8], at: usize) -> Option<Part<u8>>
    ensures { read_of bytes.now result ≡ set_from 0 (drop at bytes.now) }
{
    let mut value = 0u8;
    for end in at..bytes.len() {
        let b = bytes[end];
        if !is_axis_digit(b) {
            return Some(Part { value, end });
        }
        let axis = b - b'0';
        if quotient::mask::member_of(value, u32::from(axis)) {
            return None;
        }
        value += 1 << axis;
    }
    let end = bytes.len();
    Some(Part { value, end })
}

// How an axis is glued: O, P, or T with its set.
#[tactic(auto, using(crate::proofs::Front::glue_rules))]
fn glue(bytes: &[u8], at: usize) -> Option<Part<Glue>>
    ensures { read_of bytes.now result ≡ glue_from (drop at bytes.now) }
{
    if at >= bytes.len() {
        return None;
    }
    let end = at + 1;
    match bytes[at] {
        b'O' => Some(Part {
            value: Glue::Open,
            end,
        }),
        b'P' => Some(Part {
            value: Glue::Periodic,
            end,
        }),
        b'T' => {
            let set = set(bytes, end)?;
            Some(Part {
                value: Glue::Twisted(set.value),
                end: set.end,
            })
        }
        _ => None,
    }
}

// The axis of n cells whose gluing, after a space, stands at the position.
#[tactic(auto, using(crate::proofs::Front::glued_rules))]
fn glued(bytes: &[u8], at: usize, n: u32) -> Option<Part<Axis>>
    ensures { read_of bytes.now result ≡ glued_from n (drop at bytes.now) }
{
    if !has(bytes, at, b' ') {
        return None;
    }
    let glue = glue(bytes, at + 1)?;
    Some(Part {
        value: Axis {
            count: n,
            glue: glue.value,
        },
        end: glue.end,
    })
}

// The axis at the position: a space and its count, then a space and how it is glued.
#[tactic(auto, using(crate::proofs::Front::axis_rules))]
fn axis(bytes: &[u8], at: usize) -> Option<Part<Axis>>
    ensures { read_of bytes.now result ≡ axis_from (drop at bytes.now) }
{
    if !has(bytes, at, b' ') {
        return None;
    }
    let n = count(bytes, at + 1)?;
    glued(bytes, n.end, n.value)
}

// Axis i of a grid of dimension d at the position; past d nothing is read.
#[tactic(auto, using(crate::proofs::Front::axis_at_rules))]
fn axis_at(d: u32, i: u32, bytes: &[u8], at: usize) -> Option<Part<Axis>>
    ensures { read_of bytes.now result ≡ axis_at d i (drop at bytes.now) }
{
    if i < d {
        return axis(bytes, at);
    }
    Some(Part {
        value: Axis {
            count: 0,
            glue: Glue::Open,
        },
        end: at,
    })
}

// The grid of dimension d whose axes stand at the position.
#[tactic(auto, using(crate::proofs::Front::grid_rules))]
pub fn grid(d: u32, bytes: &[u8], at: usize) -> Option<Part<Grid>>
    ensures { read_of bytes.now result ≡ grid_from d (drop at bytes.now) }
{
    let first = axis_at(d, 0, bytes, at)?;
    let second = axis_at(d, 1, bytes, first.end)?;
    let third = axis_at(d, 2, bytes, second.end)?;
    let sides = Sides {
        first: 1.0,
        second: 1.0,
        third: 1.0,
    };
    let value = Grid {
        d,
        first: first.value,
        second: second.value,
        third: third.value,
        sides,
    };
    Some(Part {
        value,
        end: third.end,
    })
}

// Whether one line feed stands at the position, and nothing after it.
#[tactic(auto, using(crate::proofs::Front::end_rules))]
pub fn ends(bytes: &[u8], at: usize) -> bool
    ensures { result ≡ line_ends (drop at bytes.now) }
{
    if at >= bytes.len() {
        return false;
    }
    bytes.len() - at == 1 && bytes[at] == b'\n'
}

// The grid that the bytes describe: 1 where the first byte is a digit outside 1 to 3, and 17 for every other line that cannot be read.
#[tactic(auto, using(crate::proofs::Numerals::read_rules))]
pub fn read(bytes: &[u8]) -> Result<Grid, Refusal>
    ensures { result ≡ read_line bytes.now }
{
    if bytes.len() == 0 {
        return Err(Refusal::Unreadable);
    }
    let b = bytes[0];
    if !is_digit(b) {
        return Err(Refusal::Unreadable);
    }
    let d = (b - 48) as u32;
    if d < 1 {
        return Err(Refusal::BadDimension);
    }
    if refusal::MOST_DIMENSION < d {
        return Err(Refusal::BadDimension);
    }
    let Some(grid) = grid(d, bytes, 1) else {
        return Err(Refusal::Unreadable);
    };
    if ends(bytes, grid.end) {
        return Ok(grid.value);
    }
    Err(Refusal::Unreadable)
}
