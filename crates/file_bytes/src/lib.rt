// Numbers of two and four bytes, the lowest byte first, in lent byte lists. The port added it.
//
// A function that writes begins at the start of the list that it is lent, and leaves what comes after its own bytes.
#![tactic(auto)]

ghost use Rattle.std.specs.Prelude.{◌≡◌, ◌+◌, ◌*◌, ◌<◌, ◌≤◌, length, take, drop};
ghost use Rattle.refusal.specs.Lent.{onto};
ghost use Rattle.file_bytes.specs.Bytes.{little, said, fours, fours_of};

// The number in the two bytes at a position.
pub fn two(from: &[u8], at: usize) -> u32
    requires { at + 2 ≤ length from.now }
    ensures number { result ≡ said (take 2 (drop at from.now)) }
    ensures small { result < 65536 }
{
    let next = at + 1;
    from[at] as u32 + 256 * from[next] as u32
}

// The number in the four bytes at a position.
pub fn four(from: &[u8], at: usize) -> u32
    requires { at + 4 ≤ length from.now }
    ensures { result ≡ said (take 4 (drop at from.now)) }
{
    two(from, at) + 65536 * two(from, at + 2)
}

// Reads as many numbers of four bytes as `to` takes.
pub fn read_fours(from: &[u8], to: &mut [u32])
    requires { length to.old * 4 ≤ length from.now }
    ensures { to.new ≡ fours_of (length to.old) from.now }
{
    for (i, n) in to.iter_mut().enumerate() {
        *n = four(from, i * 4);
    }
}

// Writes the two lowest bytes of n.
pub fn put_two(n: u32, to: &mut [u8])
    requires { 2 ≤ length to.old }
    ensures { to.new ≡ onto (little 2 n) to.old }
{
    to[0] = (n % 256) as u8;
    to[1] = (n / 256 % 256) as u8;
}

// Writes the four bytes of n.
pub fn put_four(n: u32, to: &mut [u8])
    requires { 4 ≤ length to.old }
    ensures { to.new ≡ onto (little 4 n) to.old }
{
    to[0] = (n % 256) as u8;
    to[1] = (n / 256 % 256) as u8;
    to[2] = (n / 256 / 256 % 256) as u8;
    to[3] = (n / 256 / 256 / 256 % 256) as u8;
}

// Writes the four bytes of each number.
pub fn put_fours(from: &[u32], to: &mut [u8])
    requires { length from.now * 4 ≤ length to.old }
    ensures { to.new ≡ onto (fours from.now) to.old }
{
    for (i, &n) in from.iter().enumerate() {
        let at = i * 4;
        put_four(n, &mut to[at..]);
    }
}
