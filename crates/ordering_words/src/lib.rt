// An order's words by cell: matched to the cells, for sorted and then in order they are the cells, or they are no order.
// Follows `CellOrdering::try_new` (crates/simplicial/src/topology/ordering.rs).
#![tactic(auto)]

ghost use Rattle.std.specs.Prelude.{true, false, ◌≡◌, ◌++◌, ℕ, ◌+◌, ◌*◌, ◌<◌, ◌≤◌, length, get_or, take, drop};
ghost use Rattle.multiindex.specs.Sort.{sort_words};
ghost use Rattle.ordering_words.specs.WorkArrange.{Matching, Matched, Arranging, Arranged};

// Whether all the numbers are below b.
fn all_below(ws: &[u32], b: usize) -> bool
    ensures low { result ≡ true → (i : ℕ) → i < length ws.now → get_or ws.now i 0 < b }
    ensures high { result ≡ false → (i : ℕ) × (i < length ws.now) × (b ≤ get_or ws.now i 0) }
{
    ws.iter().all(|&w| (w as usize) < b)
}

// Writes the m order words of n numbers, each sorted, and behind them the cells.
fn lay_out(n: usize, m: usize, order: &[u32], cells: &[u32], keys: &mut [u32])
    requires { (m * n ≡ length order.now) × (length order.now ≤ length cells.now) × (length order.now + length order.now ≤ length keys.old) }
    ensures { keys.new ≡ sort_words n m (order.now ++ (take (length order.now) cells.now ++ drop (length order.now + length order.now) keys.old)) }
{
    let len = order.len();
    let end = len + len;
    lists::copy(order, &mut keys[..len]);
    lists::copy(&cells[..len], &mut keys[len..end]);
    multiindex::word::sort_words(keys, n, m);
}

// Whether the m order words, sorted and in order, are the m cells in `cells`, which is used up. The cells stand behind the words in `keys` afterwards.
fn matched(
    n: usize,
    m: usize,
    b: usize,
    order: &[u32],
    keys: &mut [u32],
    cells: &mut [u32],
    spare: &mut [u32],
    counts: &mut [u32],
) -> bool
    requires { Matching n m b order.now keys.old cells.old spare.old counts.old }
    ensures { Matched n m order.now cells.old result keys.new spare.new }
{
    let len = order.len();
    let end = len + len;
    lay_out(n, m, order, cells, keys);
    sorting::sort_rows(keys, n, m, b, cells, spare, counts);
    let classes = sorting::distinct(keys, n, m, cells, spare, counts);
    sorting::gather(keys, n, spare, classes, cells);
    if classes != m {
        return false;
    }
    lists::same(&cells[..len], &keys[len..end])
}

// Whether `order` is an order of the m cells in `cells`, whose numbers are below b. If it is, its words by cell stand in `keys`, and behind them the cells.
// The cells stay in `cells`. For the crates above.
pub fn arrange(
    d: usize,
    m: usize,
    b: usize,
    order: &[u32],
    keys: &mut [u32],
    cells: &mut [u32],
    spare: &mut [u32],
    counts: &mut [u32],
) -> bool
    requires { Arranging d m b keys.old cells.old spare.old counts.old }
    ensures { Arranged d m order.now cells.old result keys.new cells.new }
{
    let n = d + 1;
    let len = m * n;
    if order.len() != len {
        return false;
    }
    if !all_below(order, b) {
        return false;
    }
    let fits = matched(n, m, b, order, keys, cells, spare, counts);
    let end = len + len;
    lists::copy(&keys[len..end], &mut cells[..len]);
    if !fits {
        return false;
    }
    sorting::gather(order, n, spare, m, keys);
    true
}
