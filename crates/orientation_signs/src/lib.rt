// Coherent signs over the cells across facets.
// Follows `Complex::compute_orientation` (crates/simplicial/src/topology/orientation.rs): the signs that its walk asks across a facet.
#![tactic(auto)]

ghost use Rattle.std.specs.Prelude.{true, false, ◌≡◌, List, ℕ, suc, ◌+◌, ◌*◌, ◌<◌, ◌≤◌, length, get_or, take};
ghost use Rattle.complex_facets.specs.WorkAcross.{Linked};
ghost use Rattle.orientation_signs.specs.WorkFound.{Searching, Found, mark_number, handed_out};

// What a search for coherent signs comes to: whether it found them, and its facet looks.
// Kept: the looks are told in either case, so neither value hides behind the other.
#[derive(Clone, Copy)]
pub struct Searched {
    pub found: bool,
    pub looks: u32,
}

// Finds coherent signs for m cells from the cell across each of their facets and whether signs differ there: 1 for + and 2 for -, in `marks`. Not found exactly where there
// are none.
pub fn coherent(
    d: usize,
    m: usize,
    other: &[u32],
    flip: &[u32],
    marks: &mut [u32],
    stack: &mut [u32],
) -> Searched
    requires { Searching d m other.now flip.now marks.old stack.old }
    ensures { (cs : List (List ℕ)) → length cs ≡ m → Linked d cs other.now flip.now → Found d cs result.found result.looks marks.new }
{
    let k = complex_mates::slots(d);
    let walked = orientation_walk::walk(m, k, other, flip, marks, stack);
    let looks = walked.looks as u32;
    Searched {
        found: walked.ok,
        looks,
    }
}

// Hands the signs out: +1 for 1, else -1.
pub fn hand_out(marks: &[u32], signs: &mut [i32])
    requires { length signs.old ≤ length marks.now }
    ensures { signs.new ≡ handed_out (take (length signs.old) marks.now) }
{
    for (c, sign) in signs.iter_mut().enumerate() {
        *sign = sign_of(marks[c]);
    }
}

// +1 for 1, else -1.
fn sign_of(mark: u32) -> i32
    ensures { result ≡ mark_number mark }
{
    if mark == 1 {
        return 1;
    }
    -1
}
