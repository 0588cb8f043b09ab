// The mesh file: a mesh as lists, the rules that a file's mesh keeps, its bytes, and how a file is read. The definitions are in specs/; that reading gives back what was
// written, and that each accepted file is what writing its lists gives, is in proofs/.
//
// The tests of single fields, which the writer and the reader share, are here. The port added it.
#![tactic(auto)]

ghost use Rattle.std.specs.Prelude.{◌≡◌, ◌+◌, ◌≤◌, length, take};
ghost use Rattle.refusal.specs.Limits.{most_dimension};
ghost use Rattle.multiindex.specs.Sort.{sort_word};
ghost use Rattle.complex.specs.Cells.{comes_before};
ghost use Rattle.file_mesh.specs.Rules.{more, number_fits, refinement_fits, run_ends};

use refusal::{MOST_DIMENSION, MOST_REFINEMENT};

// The kinds of a record: specs/File.antt has the same numbers.
pub const HEAD_KIND: u32 = 1;

pub const WORD_KIND: u32 = 2;

pub const BIRTH_KIND: u32 = 3;

pub const END_KIND: u32 = 4;

const CORNERS: usize = MOST_DIMENSION as usize + 1;

// What the births so far settle: the number of the first one, the R of all, and the number that comes next. Before the first birth R is 0.
#[derive(Clone, Copy)]
pub struct Run {
    pub first: u32,
    pub r: u32,
    pub next: usize,
}

// Whether n is a vertex, and the number that comes next.
pub fn number_fits(vertices: usize, run: Run, n: u32) -> bool
    ensures { result ≡ number_fits vertices run n }
{
    let v = n as usize;
    if vertices <= v {
        return false;
    }
    if run.r == 0 {
        return true;
    }
    v == run.next
}

// Whether r is from 2 to 64, and the R of the births before.
pub fn refinement_fits(run: Run, r: u32) -> bool
    ensures { result ≡ refinement_fits run r }
{
    if r < 2 {
        return false;
    }
    if MOST_REFINEMENT < r {
        return false;
    }
    if run.r == 0 {
        return true;
    }
    r == run.r
}

// Whether the births run on to the last vertex, where there are any.
pub fn run_ends(vertices: usize, run: Run) -> bool
    ensures { result ≡ run_ends vertices run }
{
    if run.r == 0 {
        return true;
    }
    run.next == vertices
}

// The run after a birth with number n and refinement r.
pub fn run_on(run: Run, n: u32, r: u32) -> Run
    ensures { result ≡ more run n r }
{
    let next = n as usize + 1;
    if run.r == 0 {
        return Run { first: n, r, next };
    }
    Run {
        first: run.first,
        r,
        next,
    }
}

// Whether the word v comes before the word w, which is as long: the last numbers decide, and where they are equal the ones before.
fn comes_before(v: &[u32], w: &[u32]) -> bool
    requires { length v.now ≤ length w.now }
    ensures { result ≡ comes_before (length v.now) v.now w.now }
{
    for i in (0..v.len()).rev() {
        if v[i] < w[i] {
            return true;
        }
        if w[i] < v[i] {
            return false;
        }
    }
    false
}

// A word sorted, at the front of an array.
fn sorted(w: &[u32]) -> [u32; CORNERS]
    requires { length w.now ≤ most_dimension + 1 }
    ensures { take (length w.now) result ≡ sort_word w.now }
{
    let n = w.len();
    let mut a = [0u32; CORNERS];
    lists::copy(w, &mut a[..n]);
    multiindex::word::sort(&mut a[..n]);
    a
}

// Whether the cell of the word v comes before the cell of the word w, which is as long.
pub fn cell_before(v: &[u32], w: &[u32]) -> bool
    requires { (length v.now ≡ length w.now) × (length w.now ≤ most_dimension + 1) }
    ensures { result ≡ comes_before (length v.now) (sort_word v.now) (sort_word w.now) }
{
    let n = v.len();
    let a = sorted(v);
    let b = sorted(w);
    comes_before(&a[..n], &b[..n])
}
