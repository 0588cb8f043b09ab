// Bytes written one after another into a lent byte list, from a place on: single bytes, constant words, numbers in decimal, numbers with six decimals. The port added
// this crate; its calls are for the crates that write files, not for users.
//
// Every call takes a place and says the next one. What falls past the list's end is counted and not stored, so the calls that write a file also measure it: lent an
// empty list, they only say where the file would end.
#![tactic(auto)]

ghost use Rattle.std.specs.Prelude.{[], ◌∷◌, ◌+◌, ◌*◌, ◌<◌, ◌≤◌, length};
ghost use Rattle.text.specs.Decimal.{digits_down, decimal};
ghost use Rattle.file_writing.specs.Wrote.{farthest, Wrote};
ghost use Rattle.file_writing.specs.Six.{million, six_decimals};

// One byte.
pub fn byte(to: &mut [u8], at: usize, b: u8) -> usize
    requires { at < farthest }
    ensures { Wrote (b ∷ []) at to.old result to.new }
{
    if at < to.len() {
        to[at] = b;
        return at + 1;
    }
    at + 1
}

// The bytes of a word.
pub fn word(to: &mut [u8], at: usize, w: &[u8]) -> usize
    requires { at + length w.now ≤ farthest }
    ensures { Wrote w.now at to.old result to.new }
{
    let mut next = at;
    for &b in w {
        next = byte(to, next, b);
    }
    next
}

// The digits of n from 10 to the power k down.
pub fn digits(to: &mut [u8], at: usize, n: u32, k: u32) -> usize
    requires { (at + 10 ≤ farthest) × (k < 10) }
    ensures { Wrote (digits_down k n) at to.old result to.new }
{
    let mut next = at;
    for j in (1..=k).rev() {
        let digit = 48 + (n / text::power(j) % 10) as u8;
        next = byte(to, next, digit);
    }
    byte(to, next, 48 + (n % 10) as u8)
}

// The number n in decimal.
pub fn number(to: &mut [u8], at: usize, n: u32) -> usize
    requires { at + 10 ≤ farthest }
    ensures { Wrote (decimal n) at to.old result to.new }
{
    digits(to, at, n, text::top(n))
}

// A number of millionths, as a whole number, a point and six decimals.
pub fn six_decimals(to: &mut [u8], at: usize, millionths: u64) -> usize
    requires { (at + 21 ≤ farthest) × (millionths < farthest * million) }
    ensures { Wrote (six_decimals millionths) at to.old result to.new }
{
    let point = number(to, at, (millionths / 1000000) as u32);
    let decimals = byte(to, point, b'.');
    digits(to, decimals, (millionths % 1000000) as u32, 5)
}
