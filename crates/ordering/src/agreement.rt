// Whether an order agrees on every facet of two cells: the two words, each without the vertex that its cell has not on the facet, are one sequence.
ghost use Rattle.std.specs.Prelude.{true, false, ◌≡◌, [], ℕ, ◌*◌, ◌<◌, get_or};
ghost use Rattle.complex.specs.Facets.{slots};
ghost use Rattle.lists.specs.Words.{same_word, without};
ghost use Rattle.ordering.specs.WorkAgree.{row_word, Reading, Agreeing, AgreesAt, Clash, mark_at, Marking};

// Whether all the numbers are t.
fn only(u: &[u32], t: u32) -> bool
    ensures { result ≡ same_word [] (without t u.now) }
{
    u.iter().all(|&x| x == t)
}

// Whether w without v and u without t are one sequence.
fn same_without(w: &[u32], v: u32, u: &[u32], t: u32) -> bool
    ensures { result ≡ same_word (without v w.now) (without t u.now) }
{
    let mut i = 0;
    let mut j = 0;
    // Kept: i and j rise each at a pace of its own.
    while i < w.len() {
        let x = w[i];
        if x == v {
            i += 1;
            continue;
        }
        if u.len() <= j {
            return false;
        }
        let y = u[j];
        if y == t {
            j += 1;
            continue;
        }
        if x != y {
            return false;
        }
        i += 1;
        j += 1;
    }
    only(&u[j..], t)
}

// Whether the words of the cells of rows x and y agree on their facet: `list` has the words by cell, and behind them the cells. For the crates above.
pub fn row_agrees(d: usize, k: usize, m: usize, list: &[u32], x: usize, y: usize) -> bool
    requires { Reading d k m list.now x y }
    ensures { result ≡ same_word (row_word d k m list.now x) (row_word d k m list.now y) }
{
    let n = d + 1;
    let size = m * n;
    let a = x / k * n;
    let e = a + n;
    let b = y / k * n;
    let f = b + n;
    let v = list[size + a + (d - x % k)];
    let t = list[size + b + (d - y % k)];
    same_without(&list[a..e], v, &list[b..f], t)
}

// Whether the words by cell in `list`, the cells behind them, agree on every facet of two cells, by the table of mates. For the crate's calls.
pub fn agree(d: usize, m: usize, mates: &[u32], list: &[u32]) -> bool
    requires { Agreeing d m mates.now list.now }
    ensures all { result ≡ true → (x : ℕ) → x < m * slots d → AgreesAt d m mates.now list.now x }
    ensures clash { result ≡ false → Clash d m mates.now list.now }
{
    let k = complex_mates::slots(d);
    let total = m * k;
    for x in 0..total {
        let y = mates[x];
        if y == complex_mates::NONE {
            continue;
        }
        if !row_agrees(d, k, m, list, x, y as usize) {
            return false;
        }
    }
    true
}

// Writes the sign of each of m words of n numbers as a mark: 1 for an even number of pairs out of order, 2 for an odd one. For the crate's calls.
pub fn word_marks(n: usize, m: usize, list: &[u32], marks: &mut [u32])
    requires { Marking n m list.now marks.old }
    ensures { (c : ℕ) → c < m → get_or marks.new c 0 ≡ mark_at n list.now c }
{
    for c in 0..m {
        let at = c * n;
        let end = at + n;
        let odd = multiindex::word::odd_pairs(&list[at..end]);
        marks[c] = if odd { 2 } else { 1 };
    }
}
