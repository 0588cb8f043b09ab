// Rows of numbers of one width, one after the other in a list: which row of one list is which row of another.
ghost use Rattle.std.specs.Prelude.{◌≡◌, true, false, ◌*◌, ◌≤◌, length};
ghost use Rattle.replay_towers.specs.WorkRows.{First, Only, Matched, Renamed};

// The number of the first row from number `from` on that is equal to this one, or the number of rows.
fn first(width: usize, row: &[u32], among: &[u32], count: usize, from: usize) -> usize
    requires { (width ≡ length row.now) × (from ≤ count) × (count * width ≤ length among.now) }
    ensures { First width row.now among.now count from result }
{
    let mut at = from * width;
    for i in from..count {
        let end = at + width;
        if row == &among[at..end] {
            return i;
        }
        at = end;
    }
    count
}

// The number of the only row that is equal to this one; the number of rows where there is none or a second.
fn only(width: usize, row: &[u32], among: &[u32], count: usize) -> usize
    requires { (width ≡ length row.now) × (count * width ≤ length among.now) }
    ensures { Only width row.now among.now count result }
{
    let found = first(width, row, among, count, 0);
    if found >= count {
        return count;
    }
    if first(width, row, among, count, found + 1) < count {
        return count;
    }
    found
}

// Whether each row of a list is one row of the other, and no two the same one: their numbers go to `names`. `taken` is all zero before.
pub(crate) fn matched(
    width: usize,
    rows: &[u32],
    among: &[u32],
    count: usize,
    names: &mut [u32],
    taken: &mut [u32],
) -> bool
    requires { (count * width ≤ length rows.now) × (count * width ≤ length among.now) × (count ≤ 4096) × (count ≤ length names.old) × (count ≤ length taken.old) }
    ensures { result ≡ true → Matched width count rows.now among.now names.new }
{
    let mut at = 0;
    for x in 0..count {
        let end = at + width;
        let y = only(width, &rows[at..end], among, count);
        if y >= count {
            return false;
        }
        if taken[y] != 0 {
            return false;
        }
        taken[y] = 1;
        names[x] = y as u32;
        at = end;
    }
    true
}

// Whether the words have only vertices with a name: the words with the names for the vertices go to `renamed`.
pub(crate) fn rename(words: &[u32], names: &[u32], renamed: &mut [u32]) -> bool
    requires { length words.now ≤ length renamed.old }
    ensures { result ≡ true → Renamed names.now words.now renamed.new }
{
    for (i, &word) in words.iter().enumerate() {
        let v = word as usize;
        if v >= names.len() {
            return false;
        }
        renamed[i] = names[v];
    }
    true
}
