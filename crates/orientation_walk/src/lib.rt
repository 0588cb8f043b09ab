// The walk that gives cells coherent signs, over a flat table of neighbours.
// Follows the walk of `Complex::compute_orientation` (crates/simplicial/src/topology/orientation.rs).
#![tactic(auto)]

ghost use Rattle.std.specs.Prelude.{◌≡◌, ℕ, ◌+◌, ◌-◌, ◌*◌, ◌<◌, ◌≤◌, length, get_or, set};
ghost use Rattle.orientation_walk.specs.WorkSigns.{turned, Table};
ghost use Rattle.orientation_walk.specs.WorkSteps.{Ready, Looked, Taking, Took, Draining, Drained, Starting, Walking, Spread, Answer, wiped};

// The mark across a slot, 1 for + and 2 for -: the same at flip 0, else the other one.
pub fn turn(f: u32, s: u32) -> u32
    requires { s ≤ 2 }
    ensures { result ≡ turned f s }
{
    if f == 0 {
        return s;
    }
    3 - s
}

// One look from cell c at slot p. It gives the stack's new height, or None where the neighbour has the wrong sign.
fn look(
    n: usize,
    c: usize,
    p: usize,
    other: &[u32],
    flip: &[u32],
    signs: &mut [u32],
    stack: &mut [u32],
    top: usize,
) -> Option<usize>
    requires { Ready n other.now flip.now c p signs.old stack.old top }
    ensures { Looked other.now flip.now c p signs.old stack.old top signs.new stack.new result }
{
    let j = other[p];
    if j == 4294967295 {
        return Some(top);
    }
    let want = turn(flip[p], signs[c]);
    let at = j as usize;
    let have = signs[at];
    if have == 0 {
        signs[at] = want;
        stack[top] = j;
        return Some(top + 1);
    }
    if have == want {
        return Some(top);
    }
    None
}

// The looks at one cell's slots, from the first to the last. It gives the stack's new height, or the slot of the clash.
fn cell(
    n: usize,
    k: usize,
    c: usize,
    other: &[u32],
    flip: &[u32],
    signs: &mut [u32],
    stack: &mut [u32],
    height: usize,
) -> Result<usize, usize>
    requires { Taking n k other.now flip.now c signs.old stack.old height }
    ensures { Took k other.now flip.now c signs.old stack.old height signs.new stack.new result }
{
    let base = c * k;
    let mut top = height;
    for s in 0..k {
        let Some(next) = look(n, c, base + s, other, flip, signs, stack, top) else {
            return Err(s);
        };
        top = next;
    }
    Ok(top)
}

// Where the walk stops: the cells taken off the stack whole, and the slot of the clash in the next.
#[derive(Clone, Copy, Debug, PartialEq, Eq)]
pub(crate) struct Stop {
    taken: usize,
    slot: usize,
}

// Empties the stack, which has one cell as it begins; the last pushed cell is taken first. It gives how many cells are taken off, or where the walk stops.
fn drain(
    n: usize,
    k: usize,
    other: &[u32],
    flip: &[u32],
    signs: &mut [u32],
    stack: &mut [u32],
) -> Result<usize, Stop>
    requires { Draining n k other.now flip.now signs.old stack.old 1 }
    ensures { Drained k other.now flip.now signs.old stack.old 1 signs.new stack.new result }
{
    let mut top = 1;
    let mut taken = 0;
    // Kept: it empties a stack that each turn fills again, so there is nothing to count through or to go over (the new form is no plainer).
    while 0 < top {
        top -= 1;
        let c = stack[top] as usize;
        match cell(n, k, c, other, flip, signs, stack, top) {
            Ok(height) => top = height,
            Err(slot) => return Err(Stop { taken, slot }),
        }
        taken += 1;
    }
    Ok(taken)
}

// The piece of cell i, which has no sign yet.
fn piece(
    n: usize,
    k: usize,
    i: usize,
    other: &[u32],
    flip: &[u32],
    signs: &mut [u32],
    stack: &mut [u32],
) -> Result<usize, Stop>
    requires { Starting n k other.now flip.now i signs.old stack.old }
    ensures { Drained k other.now flip.now (set signs.old i 1) (set stack.old 0 i) 1 signs.new stack.new result }
{
    signs[i] = 1;
    stack[0] = i as u32;
    drain(n, k, other, flip, signs, stack)
}

// All pieces, each from its lowest cell with no sign.
fn spread(
    n: usize,
    k: usize,
    other: &[u32],
    flip: &[u32],
    signs: &mut [u32],
    stack: &mut [u32],
) -> Result<usize, Stop>
    requires { Walking n k other.now flip.now signs.old stack.old }
    ensures { Spread n k other.now flip.now signs.old stack.old signs.new stack.new result }
{
    let mut taken = 0;
    for i in 0..n {
        if signs[i] != 0 {
            continue;
        }
        match piece(n, k, i, other, flip, signs, stack) {
            Ok(more) => taken += more,
            Err(stop) => {
                return Err(Stop {
                    taken: taken + stop.taken,
                    slot: stop.slot,
                });
            }
        }
    }
    Ok(taken)
}

fn wipe(n: usize, signs: &mut [u32])
    requires { n ≤ length signs.old }
    ensures { signs.new ≡ wiped n signs.old }
{
    signs[..n].fill(0);
}

// Kept: the looks are told in either case, so neither value hides behind the other.
#[derive(Clone, Copy)]
pub struct Walked {
    pub ok: bool,
    pub looks: usize,
}

// Signs for n cells of k slots each, + at the lowest cell of each piece; not ok exactly where no coherent signs exist.
pub fn walk(
    n: usize,
    k: usize,
    other: &[u32],
    flip: &[u32],
    signs: &mut [u32],
    stack: &mut [u32],
) -> Walked
    requires { (Table n k other.now flip.now) × (n ≤ length signs.old) × (n ≤ length stack.old) }
    ensures { Answer n k other.now flip.now signs.old stack.old signs.new stack.new result.ok result.looks }
{
    wipe(n, signs);
    match spread(n, k, other, flip, signs, stack) {
        Ok(taken) => Walked {
            ok: true,
            looks: taken * k,
        },
        Err(stop) => Walked {
            ok: false,
            looks: stop.taken * k + stop.slot + 1,
        },
    }
}
