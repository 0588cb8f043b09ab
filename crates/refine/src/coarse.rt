// The coarse cells and the words refined by: their sorted vertices, or a caller's word for each.
ghost use Rattle.std.specs.Prelude.{true, false, ◌≡◌, suc, ◌<◌};
ghost use Rattle.refusal.specs.Limits.{most_vertices};
ghost use Rattle.lists.specs.Words.{largest_of};
ghost use Rattle.complex.specs.Cells.{cells_of};
ghost use Rattle.ordering_words.specs.Order.{Orders};
ghost use Rattle.refine_results.specs.Refined.{coarse, order_words};
ghost use Rattle.refine.specs.WorkReading.{words_along, OrderedBy, Making, Reads};
ghost use Rattle.refine.specs.WorkCoarse.{Listing, Listed, Naming, Named};

use refusal::Refusal;

// How many coarse vertices there are: one more than the largest of the numbers.
pub fn vertices(words: &[u32]) -> u32
    requires { largest_of words.now < most_vertices }
    ensures { result ≡ coarse words.now }
{
    lists::largest(words) + 1
}

// Writes the cells of the words to `cells`: how many there are, or 7.
fn list(
    d: usize,
    words: &[u32],
    cells: &mut [u32],
    keys: &mut [u32],
    rows: &mut [u32],
    spare: &mut [u32],
    counts: &mut [u32],
) -> Result<u32, Refusal>
    requires { Listing d words.now cells.old keys.old rows.old spare.old counts.old }
    ensures { Listed d words.now cells.new result }
{
    let m = complex_cells::cells(d, words, keys, rows, spare, counts);
    let len = m * (d + 1);
    lists::copy(&rows[..len], &mut cells[..len]);
    if !complex_mates::mates(d, m, words.len(), keys, rows, spare, counts) {
        return Err(Refusal::CrowdedFacet);
    }
    Ok(m as u32)
}

// Writes the order's words by cell to `along`; false where it is no order of the cells. The cells stay.
fn ordered(
    d: usize,
    m: usize,
    given: &[u32],
    order: &[u32],
    cells: &mut [u32],
    along: &mut [u32],
    keys: &mut [u32],
    spare: &mut [u32],
    counts: &mut [u32],
) -> bool
    requires { Naming d m given.now cells.old along.old keys.old spare.old counts.old }
    ensures { Named d m given.now (Orders d (cells_of d given.now) order.now) (order_words d given.now order.now) result
        cells.new along.new }
{
    if !ordering_words::arrange(d, m, given.len(), order, keys, cells, spare, counts) {
        return false;
    }
    let len = m * (d + 1);
    lists::copy(&keys[..len], &mut along[..len]);
    true
}

// Writes the words refined by to `along`: the order's where one is given, else the cells themselves; false where it is no order of the cells.
fn name(
    with_order: bool,
    d: usize,
    m: usize,
    given: &[u32],
    order: &[u32],
    cells: &mut [u32],
    along: &mut [u32],
    keys: &mut [u32],
    spare: &mut [u32],
    counts: &mut [u32],
) -> bool
    requires { Naming d m given.now cells.old along.old keys.old spare.old counts.old }
    ensures { Named d m given.now (OrderedBy with_order d given.now order.now) (words_along with_order d given.now order.now) result
        cells.new along.new }
{
    if with_order {
        return ordered(d, m, given, order, cells, along, keys, spare, counts);
    }
    let len = m * (d + 1);
    lists::copy(&cells[..len], &mut along[..len]);
    true
}

// Reads the cells of the words into `cells` and the words refined by into `along`: how many there are, or 7, or 16 where an order is given and is none of the cells.
pub fn read(
    with_order: bool,
    d: usize,
    given: &[u32],
    order: &[u32],
    cells: &mut [u32],
    along: &mut [u32],
    keys: &mut [u32],
    rows: &mut [u32],
    spare: &mut [u32],
    counts: &mut [u32],
) -> Result<u32, Refusal>
    requires { Making d given.now cells.old along.old keys.old rows.old spare.old counts.old }
    ensures { Reads d given.now (OrderedBy with_order d given.now order.now) (words_along with_order d given.now order.now)
        cells.new along.new result }
{
    let m = list(d, given, cells, keys, rows, spare, counts)?;
    if !name(
        with_order, d, m as usize, given, order, cells, along, keys, spare, counts,
    ) {
        return Err(Refusal::BadOrder);
    }
    Ok(m)
}
