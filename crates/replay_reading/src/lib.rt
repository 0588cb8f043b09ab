// Added by the port: how the programs that replay stored requests read them and print the answers; some of the figures print by it too. Numbers in a text are decimal, with anything but digits between them.
#![tactic(auto)]

pub mod printing;

ghost use Rattle.std.specs.Prelude.{◌≤◌, ◌<◌, length};

// A number, and where it ends.
#[derive(Clone, Copy)]
pub struct Found {
    pub value: u64,
    pub end: usize,
}

// How many numbers a list has, and where it ends.
#[derive(Clone, Copy)]
pub struct Listed {
    pub count: usize,
    pub end: usize,
}

// Whether the byte is a digit.
fn digit(b: u8) -> bool {
    matches!(b, b'0'..=b'9')
}

// Where the byte first stands, or the text's length.
pub fn place(text: &[u8], byte: u8) -> usize
    ensures { result ≤ length text.now }
{
    text.iter().position(|b| *b == byte).unwrap_or(text.len())
}

// Where the line that begins at `from` ends: past its line feed.
pub fn line_end(text: &[u8], from: usize) -> usize
    requires { from < length text.now }
    ensures { (from < result) × (result ≤ length text.now) }
{
    for i in from..text.len() {
        if text[i] == b'\n' {
            return i + 1;
        }
    }
    text.len()
}

// Where the first digit stands from `from` on, or the text's length.
fn skip(text: &[u8], from: usize) -> usize
    requires { from ≤ length text.now }
    ensures { result ≤ length text.now }
{
    for i in from..text.len() {
        if digit(text[i]) {
            return i;
        }
    }
    text.len()
}

// The value with one more digit; past what 64 bits hold it stays.
fn more(value: u64, b: u8) -> u64 {
    if value < 1844674407370955161 {
        if b < 48 {
            return value;
        }
        return value * 10 + u64::from((b - 48) % 10);
    }
    value
}

// The number that begins at the first digit from `from` on, 0 where there is none.
pub fn number(text: &[u8], from: usize) -> Found
    requires { from ≤ length text.now }
    ensures { result.end ≤ length text.now }
{
    let mut value = 0;
    for end in skip(text, from)..text.len() {
        if !digit(text[end]) {
            return Found { value, end };
        }
        value = more(value, text[end]);
    }
    Found {
        value,
        end: text.len(),
    }
}

// The lower 32 bits.
pub fn low(x: u64) -> u32 {
    (x % 4294967296) as u32
}

// A count and as many numbers after it go to the list, as far as it is long enough.
pub fn list(text: &[u8], from: usize, to: &mut [u32]) -> Listed
    requires { from ≤ length text.now }
    ensures count_in_bounds { result.count ≤ length to.new }
    ensures end_in_bounds { result.end ≤ length text.now }
{
    let first = number(text, from);
    let mut end = first.end;
    for i in 0..to.len() {
        if i as u64 >= first.value {
            return Listed { count: i, end };
        }
        let next = number(text, end);
        to[i] = low(next.value);
        end = next.end;
    }
    Listed {
        count: to.len(),
        end,
    }
}
