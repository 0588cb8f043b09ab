// Added by the port (the Rust collects a skeleton's faces in a set): from the cells down to the faces of any dimension: the faces of dimension e - 1 are the facets of those of dimension e.
//
// What the working lists hold in one step down:
//   keys     the facets of the faces, one row each
//   rows     faces of dimension e, then row numbers, then faces of dimension e - 1
//   spare    the lowest row of each facet
//   counts   buckets, then the facet of each row
#![tactic(auto)]

ghost use Rattle.std.specs.Prelude.{◌≡◌, ℕ, suc, ◌*◌, ◌<◌, ◌≤◌, length};
ghost use Rattle.lists.specs.Rows.{cut};
ghost use Rattle.complex.specs.Facets.{slots};
ghost use Rattle.complex.specs.Skeleton.{facets_of};
ghost use Rattle.complex_mates.specs.Table.{Meeting};
ghost use Rattle.complex_faces.specs.Faces.{faces_of};
ghost use Rattle.complex_descent.specs.Down.{Classed, Descending};

// The distinct facets of the m faces of dimension e in `rows`: their rows stand in `keys`, the lowest row of each, in order, in `spare`, and each row's facet in `counts`.
// Says how many there are.
pub fn classes(
    e: usize,
    m: usize,
    b: usize,
    keys: &mut [u32],
    rows: &mut [u32],
    spare: &mut [u32],
    counts: &mut [u32],
) -> usize
    requires { Meeting e m b keys.old rows.old spare.old counts.old × (m * slots e * e < 4294967296) }
    ensures { Classed e (cut (suc e) m rows.old) result keys.new spare.new counts.new }
{
    let k = complex_mates::slots(e);
    complex_mates::facet_rows(e, k, m, rows, keys);
    let total = m * k;
    sorting::sort_rows(keys, e, total, b, rows, spare, counts);
    sorting::distinct(keys, e, total, rows, spare, counts)
}

// One dimension down: from the m faces of dimension e in `rows` to their facets. Says how many there are.
fn lower(
    e: usize,
    m: usize,
    b: usize,
    keys: &mut [u32],
    rows: &mut [u32],
    spare: &mut [u32],
    counts: &mut [u32],
) -> usize
    requires { Meeting e m b keys.old rows.old spare.old counts.old × (m * slots e * e < 4294967296) × (length (facets_of e (cut (suc e) m rows.old)) * e ≤ length rows.old) }
    ensures { cut e result rows.new ≡ facets_of e (cut (suc e) m rows.old) }
{
    let f = classes(e, m, b, keys, rows, spare, counts);
    sorting::gather(keys, e, spare, f, rows);
    f
}

// From the m cells of dimension d in `rows` to the faces of dimension k. Says how many there are.
pub fn descend(
    d: usize,
    k: usize,
    m: usize,
    b: usize,
    keys: &mut [u32],
    rows: &mut [u32],
    spare: &mut [u32],
    counts: &mut [u32],
) -> usize
    requires { Descending d k m b keys.old rows.old spare.old counts.old }
    ensures { cut (suc k) result rows.new ≡ faces_of (cut (suc d) m rows.old) k }
{
    let mut count = m;
    for e in (k..d).rev() {
        count = lower(e + 1, count, b, keys, rows, spare, counts);
    }
    count
}
