// A short text that is written byte by byte, and numbers in decimal: what a program prints.
// The port added it, with the program.
#![tactic(auto)]

ghost use Rattle.std.specs.Prelude.{◌≡◌, [], ◌∷◌, ◌+◌, ◌<◌, ◌≤◌, ◌^◌, length};
ghost use Rattle.text.specs.Decimal.{digits_down, decimal, line_of};
ghost use Rattle.text.specs.Adds.{holding, Adds, size};

// A text: its bytes, zeros past its length.
#[derive(Clone, Copy)]
pub struct Text {
    pub bytes: [u8; 128],
    pub len: usize,
}

// 10 to the power k.
pub fn power(k: u32) -> u32
    requires { k < 10 }
    ensures { result ≡ 10 ^ k }
{
    10u32.pow(k)
}

// The power of ten at which the digits of n begin.
pub fn top(n: u32) -> u32
    ensures bound { result < 10 }
    ensures begins { digits_down result n ≡ decimal n }
{
    for k in (1..10u32).rev() {
        if n >= power(k) {
            return k;
        }
    }
    0
}

impl Text {
    // No byte yet.
    pub fn empty() -> Text
        ensures { result ≡ holding [] }
    {
        Text {
            bytes: [0u8; 128],
            len: 0,
        }
    }

    // One byte more.
    pub fn push(mut self, b: u8) -> Text
        requires { self.len < size }
        ensures { Adds (b ∷ []) self result }
    {
        let at = self.len;
        self.bytes[at] = b;
        self.len = at + 1;
        self
    }

    // The bytes of a word more.
    pub fn word(self, w: &[u8]) -> Text
        requires { self.len + length w.now ≤ size }
        ensures { Adds w.now self result }
    {
        let mut t = self;
        for &b in w {
            t = t.push(b);
        }
        t
    }

    // The digits of n from 10 to the power k down.
    fn digits(self, n: u32, k: u32) -> Text
        requires { (self.len + 10 ≤ size) × (k < 10) }
        ensures { Adds (digits_down k n) self result }
    {
        let mut t = self;
        for j in (1..k + 1).rev() {
            t = t.push(b'0' + (n / power(j) % 10) as u8);
        }
        t.push(b'0' + (n % 10) as u8)
    }

    // The number n in decimal.
    pub fn number(self, n: u32) -> Text
        requires { self.len + 10 ≤ size }
        ensures { Adds (decimal n) self result }
    {
        self.digits(n, top(n))
    }

    // A line: a word, the number n and a line feed.
    pub fn line(self, w: &[u8], n: u32) -> Text
        requires { self.len + length w.now + 11 ≤ size }
        ensures { Adds (line_of w.now n) self result }
    {
        let a = self.word(w);
        let b = a.number(n);
        b.push(b'\n')
    }
}
