// The cells of a checked word list.
// Follows `Skeleton::new` (crates/simplicial/src/topology/skeleton.rs): sorted, without repeats.
#![tactic(auto)]

ghost use Rattle.complex_cells.specs.WorkMade.{Making, Made};

// Writes the cells, one after the other, to `rows`, and says how many there are.
pub fn cells(
    d: usize,
    words: &[u32],
    keys: &mut [u32],
    rows: &mut [u32],
    spare: &mut [u32],
    counts: &mut [u32],
) -> usize
    requires { Making d words.now keys.old rows.old spare.old counts.old }
    ensures { Made d words.now result rows.new }
{
    let n = d + 1;
    let len = words.len();
    let count = len / n;
    lists::copy(words, &mut keys[..len]);
    multiindex::word::sort_words(keys, n, count);
    sorting::sort_rows(keys, n, count, len, rows, spare, counts);
    let m = sorting::distinct(keys, n, count, rows, spare, counts);
    sorting::gather(keys, n, spare, m, rows);
    m
}
