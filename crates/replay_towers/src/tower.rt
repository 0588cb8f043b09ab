// The law on one complex: refining by a, then by b along the children's own words, against refining once by a·b.
ghost use Rattle.std.specs.Prelude.{◌≡◌, true, ◌+◌, ◌*◌, ◌≤◌, ◌<◌, length};
ghost use Rattle.replay_towers.specs.WorkRows.{Carried};

use crate::calls::Sizes;
use crate::{calls, rows, shares};

// How many pairs a, b were tried, how many vertices and words the renamings carried over, and how many pairs failed.
#[derive(Clone, Copy)]
pub(crate) struct Counts {
    pub(crate) pairs: u64,
    pub(crate) vertices: u64,
    pub(crate) words: u64,
    pub(crate) faults: u64,
}

impl Counts {
    // Nothing tried.
    pub(crate) fn none() -> Counts {
        Counts {
            pairs: 0,
            vertices: 0,
            words: 0,
            faults: 0,
        }
    }

    // A pair that failed.
    pub(crate) fn fault() -> Counts {
        Counts {
            pairs: 1,
            vertices: 0,
            words: 0,
            faults: 1,
        }
    }

    // These and those together.
    pub(crate) fn plus(self, more: Counts) -> Counts {
        Counts {
            pairs: self.pairs.saturating_add(more.pairs),
            vertices: self.vertices.saturating_add(more.vertices),
            words: self.words.saturating_add(more.words),
            faults: self.faults.saturating_add(more.faults),
        }
    }
}

// How many corners m cells have.
fn corners(m: usize, width: usize) -> usize
    requires { (m ≤ 4096) × (width ≤ 4) }
    ensures { (result ≡ m * width) × (result ≤ 16384) }
{
    m * width
}

// One refinement with its table: of n vertices with the table `from`. `to` is all zero before.
fn stage(
    d: u32,
    n: usize,
    given: &[u32],
    order: &[u32],
    r: u32,
    from: &[u32; 131072],
    cells: &mut [u32],
    words: &mut [u32],
    to: &mut [u32; 131072],
) -> Sizes
    requires { (d ≤ 3) × (n ≤ 4096) }
    ensures { (result.cells ≤ 4096) × (result.vertices ≤ 4096) }
{
    let mut vertices = [0u32; 16384];
    let mut weights = [0u32; 16384];
    let made = calls::refined(
        d,
        given,
        order,
        r,
        cells,
        words,
        &mut vertices,
        &mut weights,
    );
    if made.vertices < n {
        return Sizes {
            cells: 0,
            vertices: 0,
        };
    }
    let width = d as usize + 1;
    let len = corners(made.vertices - n, width);
    shares::through(n, r, width, &vertices[..len], &weights[..len], from, to);
    made
}

// Whether the tower's vertices are the single refinement's by their shares, and its words then the single refinement's words.
fn carried(
    width: usize,
    made: Sizes,
    words: &[u32],
    table: &[u32; 131072],
    fine_words: &[u32],
    fine: &[u32; 131072],
) -> bool
    requires { (width ≤ 4) × (made.cells ≤ 4096) × (made.vertices ≤ 4096) × (length words.now ≡ made.cells * width) × (made.cells * width ≤ length fine_words.now) }
    ensures { result ≡ true → Carried width made.vertices made.cells words.now table.now fine_words.now fine.now }
{
    let mut names = [0u32; 4096];
    let mut taken = [0u32; 4096];
    if !rows::matched(32, table, fine, made.vertices, &mut names, &mut taken) {
        return false;
    }
    let n = made.vertices;
    let mut renamed = [0u32; 16384];
    if !rows::rename(words, &names[..n], &mut renamed) {
        return false;
    }
    let mut places = [0u32; 4096];
    let mut hit = [0u32; 4096];
    rows::matched(
        width,
        &renamed,
        fine_words,
        made.cells,
        &mut places,
        &mut hit,
    )
}

// The second step, by b, of n vertices with their table, along the words of the first; and the comparison.
fn second(
    d: u32,
    n: usize,
    given: &[u32],
    order: &[u32],
    b: u32,
    table: &[u32; 131072],
    single: Sizes,
    fine_words: &[u32],
    fine: &[u32; 131072],
) -> Counts
    requires { (d ≤ 3) × (n ≤ 4096) × (single.cells * (d + 1) ≤ length fine_words.now) }
{
    let mut cells = [0u32; 16384];
    let mut words = [0u32; 16384];
    let mut shares = [0u32; 131072];
    let made = stage(
        d,
        n,
        given,
        order,
        b,
        table,
        &mut cells,
        &mut words,
        &mut shares,
    );
    if made.cells != single.cells {
        return Counts::fault();
    }
    if made.vertices != single.vertices {
        return Counts::fault();
    }
    let width = d as usize + 1;
    let len = corners(made.cells, width);
    if !carried(width, made, &words[..len], &shares, fine_words, fine) {
        return Counts::fault();
    }
    Counts {
        pairs: 1,
        vertices: made.vertices as u64,
        words: made.cells as u64,
        faults: 0,
    }
}

// One pair: the first step, by a, and then the second.
fn pair(
    d: u32,
    n: usize,
    given: &[u32],
    order: &[u32],
    a: u32,
    b: u32,
    coarse: &[u32; 131072],
    single: Sizes,
    fine_words: &[u32],
    fine: &[u32; 131072],
) -> Counts
    requires { (d ≤ 3) × (n ≤ 4096) × (single.cells * (d + 1) ≤ length fine_words.now) }
{
    let mut cells = [0u32; 16384];
    let mut words = [0u32; 16384];
    let mut table = [0u32; 131072];
    let made = stage(
        d, n, given, order, a, coarse, &mut cells, &mut words, &mut table,
    );
    if made.cells == 0 {
        return Counts::fault();
    }
    let len = corners(made.cells, d as usize + 1);
    second(
        d,
        made.vertices,
        &cells[..len],
        &words[..len],
        b,
        &table,
        single,
        fine_words,
        fine,
    )
}

// Every pair with a·b = r.
fn pairs(
    d: u32,
    n: usize,
    given: &[u32],
    order: &[u32],
    r: u32,
    coarse: &[u32; 131072],
    single: Sizes,
    fine_words: &[u32],
    fine: &[u32; 131072],
) -> Counts
    requires { (d ≤ 3) × (n ≤ 4096) × (r ≤ 64) × (single.cells * (d + 1) ≤ length fine_words.now) }
{
    let mut counts = Counts::none();
    for a in 1..=r {
        if r % a == 0 {
            counts = counts.plus(pair(
                d,
                n,
                given,
                order,
                a,
                r / a,
                coarse,
                single,
                fine_words,
                fine,
            ));
        }
    }
    counts
}

// Every pair with a·b = r, where the refinement by r is accepted and has at most `most` cells.
fn single(d: u32, n: usize, most: usize, given: &[u32], order: &[u32], r: u32) -> Counts
    requires { (d ≤ 3) × (n ≤ 4096) × (r ≤ 64) }
{
    let mut coarse = [0u32; 131072];
    shares::alone(&mut coarse);
    let mut cells = [0u32; 16384];
    let mut words = [0u32; 16384];
    let mut table = [0u32; 131072];
    let made = stage(
        d, n, given, order, r, &coarse, &mut cells, &mut words, &mut table,
    );
    if made.cells == 0 {
        return Counts::none();
    }
    if most < made.cells {
        return Counts::none();
    }
    let len = corners(made.cells, d as usize + 1);
    pairs(d, n, given, order, r, &coarse, made, &words[..len], &table)
}

// How many cells and vertices the complex has.
pub(crate) fn sizes(d: u32, given: &[u32], order: &[u32]) -> Sizes
    ensures { (result.cells ≤ 4096) × (result.vertices ≤ 4096) }
{
    let mut cells = [0u32; 16384];
    let mut words = [0u32; 16384];
    let mut vertices = [0u32; 16384];
    let mut weights = [0u32; 16384];
    calls::refined(
        d,
        given,
        order,
        1,
        &mut cells,
        &mut words,
        &mut vertices,
        &mut weights,
    )
}

// Every pair with a·b at most 64 of a complex with n vertices, as far as its refinement has at most `most` cells.
pub(crate) fn complex(d: u32, n: usize, most: usize, given: &[u32], order: &[u32]) -> Counts
    requires { (d ≤ 3) × (n ≤ 4096) }
{
    let mut counts = Counts::none();
    for r in 1..=64 {
        counts = counts.plus(single(d, n, most, given, order, r));
    }
    counts
}
