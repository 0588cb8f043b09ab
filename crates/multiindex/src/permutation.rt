// Orders of the axes, in the sequence in which all of them are gone through: by the last entry, then by those before it.
ghost use Rattle.std.specs.Prelude.{◌≡◌, ◌<◌, ◌≤◌, length, get_or};
ghost use Rattle.refusal.specs.Limits.{most_dimension};
ghost use Rattle.multiindex.specs.Permutation.{orders, order_of, order_table};

use refusal::MOST_DIMENSION;

// How many numbers the table of orders has.
pub const ORDER_NUMBERS: usize = 18;

// The orders of as many axes as there are dimensions. Those of fewer stand in front: the first entries of the first rows, lowered.
const ORDERS: [u8; ORDER_NUMBERS] = [2, 1, 0, 1, 2, 0, 2, 0, 1, 0, 2, 1, 1, 0, 2, 0, 1, 2];

// How many orders of 0, 1, 2 and more axes there are.
const COUNTS: [u8; MOST_DIMENSION as usize + 1] = [1, 1, 2, 6];

// How many orders of d axes there are.
pub fn count(d: usize) -> usize
    requires { d ≤ most_dimension }
    ensures { result ≡ length (orders d) }
{
    COUNTS[d] as usize
}

// The table of orders, as a value: a loop takes it once, where an entry taken from the constant would copy it each time.
pub fn table() -> [u8; ORDER_NUMBERS]
    ensures { result ≡ order_table }
{
    ORDERS
}

// The entry at place i of order number k of d axes, read from the table.
pub fn axis_in(table: &[u8; ORDER_NUMBERS], d: usize, k: usize, i: usize) -> usize
    requires { (table.now ≡ order_table) × (d ≤ most_dimension) × (k < length (orders d)) × (i < d) }
    ensures { result ≡ get_or (order_of d k) i 0 }
{
    let most = MOST_DIMENSION as usize;
    let at = k * most + i;
    table[at] as usize - (most - d)
}

// The entry at place i of order number k of d axes.
pub fn axis(d: usize, k: usize, i: usize) -> usize
    requires { (d ≤ most_dimension) × (k < length (orders d)) × (i < d) }
    ensures { result ≡ get_or (order_of d k) i 0 }
{
    let table = table();
    axis_in(&table, d, k, i)
}
