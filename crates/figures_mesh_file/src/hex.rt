// Bytes as hexadecimal digits in a text.
ghost use Rattle.std.specs.Prelude.{◌≤◌, length};

// How many bytes a line has, and where it ends.
#[derive(Clone, Copy)]
pub(crate) struct Found {
    pub(crate) count: usize,
    pub(crate) end: usize,
}

// The value of a digit.
fn value(digit: u8) -> u8 {
    if digit <= b'9' {
        digit % 16
    } else {
        (digit % 16 + 9) % 16
    }
}

// The byte of two digits.
fn byte(high: u8, low: u8) -> u8 {
    value(high) % 16 * 16 + value(low) % 16
}

// The bytes of the line that begins at `from` go to the list, as far as it is long enough.
pub(crate) fn line(text: &[u8], from: usize, to: &mut [u8]) -> Found
    requires { from ≤ length text.now }
    ensures count_in_bounds { result.count ≤ length to.new }
    ensures from_le_end { from ≤ result.end }
    ensures end_in_bounds { result.end ≤ length text.now }
{
    let mut end = from;
    for i in 0..to.len() {
        if text.len() - end < 2 {
            return Found { count: i, end };
        }
        if text[end] == b'\n' {
            return Found { count: i, end };
        }
        to[i] = byte(text[end], text[end + 1]);
        end += 2;
    }
    Found {
        count: to.len(),
        end,
    }
}
