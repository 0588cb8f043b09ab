// The points that are visited: parents, then children, then corners.
ghost use Rattle.std.specs.Prelude.{◌*◌};
ghost use Rattle.refine_births.specs.WorkVisits.{Visiting, Visited};

use crate::support;

// Writes the row of each visit: the word of its parent with the weights of its row of the pattern.
pub fn write(
    size: usize,
    n: u32,
    m: usize,
    p: usize,
    words: &[u32],
    pattern: &[u32],
    keys: &mut [u32],
)
    requires { Visiting size n m p words.now pattern.now keys.old }
    ensures { Visited size n p words.now pattern.now keys.new (m * p) }
{
    let stride = size + size;
    let total = m * p;
    for x in 0..total {
        let from = x / p * size;
        let until = from + size;
        let at = x % p * size;
        let end = at + size;
        let to = x * stride;
        let past = to + stride;
        support::write(
            &words[from..until],
            &pattern[at..end],
            n,
            &mut keys[to..past],
        );
    }
}
