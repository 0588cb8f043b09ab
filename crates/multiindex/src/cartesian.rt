// Lists of digits, the first fastest.
ghost use Rattle.std.specs.Prelude.{◌≡◌, ℕ, ◌<◌, ◌≤◌, ◌^◌, length, get_or};
ghost use Rattle.refusal.specs.Limits.{most_dimension};
ghost use Rattle.multiindex.specs.Cartesian.{most_base, raised};

// Goes on to the next list of digits below n; after the last comes the first again.
pub fn next(digits: &mut [u32], n: u32)
    requires { (j : ℕ) → j < length digits.old → get_or digits.old j 0 < n }
    ensures { digits.new ≡ raised n digits.old }
{
    for digit in digits.iter_mut() {
        let x = *digit + 1;
        if x < n {
            *digit = x;
            return;
        }
        *digit = 0;
    }
}

// How many lists of d digits below n there are.
pub fn count(d: usize, n: usize) -> usize
    requires { (d ≤ most_dimension) × (n ≤ most_base) }
    ensures { result ≡ n ^ d }
{
    n.pow(d as u32)
}
