// Follows skeleton.rs (the skeletons of a complex) and adds the boundary operator between two dimensions, which the Rust has elsewhere: the faces of a cell list by dimension.
//
// What the working lists hold, one phase after the other:
//   keys     sorted words, facet rows     facet rows of each dimension     facet rows
//   rows     cells, mates                 faces of each dimension          faces, row numbers
//   spare    first rows                   first rows                       first rows
//   counts   buckets, classes             buckets, classes                 the facet of each row
#![tactic(auto)]

ghost use Rattle.std.specs.Prelude.{List, ◌++◌, ◌≡◌, ℕ, suc, ◌+◌, ◌-◌, ◌*◌, ◌/◌, ◌%◌, ◌<◌, ◌≤◌, length, get_or, drop, pos, negsuc};
ghost use Rattle.refusal.specs.Limits.{most_dimension, many_corners};
ghost use Rattle.lists.specs.Tables.{tab};
ghost use Rattle.lists.specs.Zero.{AllZero};
ghost use Rattle.multiindex.specs.Sign.{induced, sign_number};
ghost use Rattle.complex.specs.Cells.{cells_of};
ghost use Rattle.skeleton.specs.Work.{Working, Handed};
ghost use Rattle.complex_faces.specs.Faces.{faces_of};
ghost use Rattle.complex_faces.specs.Entries.{Entry, entries_of};
ghost use Rattle.complex_boundary.specs.Need.{face_rows, face_keys, face_need};
ghost use Rattle.complex_boundary.specs.Promise.{Faced, Bounded};
ghost use Rattle.complex_boundary.specs.Work.{Reaching, Reached, FacesWorked, EntryLists, EntriesHanded, EntriesWorked};

use refusal::{MOST_DIMENSION, Refusal, Room};

// What `face_rows` and `face_keys` give, for each dimension.
const FACE_ROWS: [u8; MOST_DIMENSION as usize + 1] = [1, 2, 6, 12];

const FACE_KEYS: [u8; MOST_DIMENSION as usize + 1] = [1, 2, 6, 24];

// The most vertices that the faces of one dimension of a cell have together.
fn face_rows(d: usize) -> usize
    requires { d ≤ most_dimension }
    ensures { result ≡ face_rows d }
{
    FACE_ROWS[d] as usize
}

// The most numbers that the facets of the faces of one dimension of a cell have together, and no fewer than the cell's vertices.
fn face_keys(d: usize) -> usize
    requires { d ≤ most_dimension }
    ensures { result ≡ face_keys d }
{
    FACE_KEYS[d] as usize
}

// What both calls need of their working lists, for words with `len` corners.
pub fn need(d: usize, len: usize) -> Room
    requires { (d ≤ most_dimension) × (len < many_corners) }
    ensures { result ≡ face_need d len }
{
    let count = len / (d + 1);
    let wide = face_rows(d) * count;
    let keys = face_keys(d) * count;
    Room {
        keys: keys,
        rows: wide,
        spare: wide,
        counts: wide,
    }
}

// Writes the faces of dimension k, one after the other, to `rows`, and says how many there are.
pub fn reach(
    d: usize,
    k: usize,
    words: &[u32],
    keys: &mut [u32],
    rows: &mut [u32],
    spare: &mut [u32],
    counts: &mut [u32],
) -> usize
    requires { Reaching d k words.now keys.old rows.old spare.old counts.old }
    ensures { Reached d k words.now result keys.new rows.new spare.new counts.new }
{
    let m = complex_cells::cells(d, words, keys, rows, spare, counts);
    complex_descent::descend(d, k, m, words.len(), keys, rows, spare, counts)
}

// Hands out the faces of dimension k.
fn list_faces(
    d: usize,
    k: usize,
    words: &[u32],
    out: &mut [u32],
    keys: &mut [u32],
    rows: &mut [u32],
    spare: &mut [u32],
    counts: &mut [u32],
) -> Result<u32, Refusal>
    requires { Reaching d k words.now keys.old rows.old spare.old counts.old }
    ensures { Handed (faces_of (cells_of d words.now) k) result out.old out.new }
{
    let f = reach(d, k, words, keys, rows, spare, counts);
    let long = f * (k + 1);
    skeleton::hand_out(f, &rows[..long], out)
}

// The faces, or 7, 24, in working lists of just the sizes that are needed. Nothing is promised of them.
fn faces_work(
    d: usize,
    k: usize,
    words: &[u32],
    out: &mut [u32],
    keys: &mut [u32],
    rows: &mut [u32],
    spare: &mut [u32],
    counts: &mut [u32],
) -> Result<u32, Refusal>
    requires { Working (face_need d (length words.now)) d words.now keys.old rows.old spare.old counts.old }
    ensures { FacesWorked d k words.now result out.old out.new }
{
    if !skeleton::sound(d, words, keys, rows, spare, counts) {
        return Err(Refusal::CrowdedFacet);
    }
    if d < k {
        return Err(Refusal::BadFaces);
    }
    list_faces(d, k, words, out, keys, rows, spare, counts)
}

// The work, and then the working lists are all zero.
fn faces_cleared(
    d: usize,
    k: usize,
    words: &[u32],
    out: &mut [u32],
    keys: &mut [u32],
    rows: &mut [u32],
    spare: &mut [u32],
    counts: &mut [u32],
) -> Result<u32, Refusal>
    requires { Working (face_need d (length words.now)) d words.now keys.old rows.old spare.old counts.old }
    ensures work { FacesWorked d k words.now result out.old out.new }
    ensures room { AllZero keys.old keys.new rows.old rows.new spare.old spare.new counts.old
        counts.new }
{
    let said = faces_work(d, k, words, out, keys, rows, spare, counts);
    lists::clear_four(keys, rows, spare, counts);
    said
}

// The faces of dimension k, k+1 vertices each, in colex order; says how many. Refused: 1, 2, 3, 4, 6, 5, then 12 where a working list is too short (`face_need`), then 7, 24
// where k is above d, 12 where the result list is too short. A refusal changes no result; from the room's test on what is needed of the working lists is zero at the end.
pub fn faces(
    d: u32,
    k: u32,
    words: &[u32],
    faces: &mut [u32],
    keys: &mut [u32],
    rows: &mut [u32],
    spare: &mut [u32],
    counts: &mut [u32],
) -> Result<u32, Refusal>
    ensures { Faced d k words.now result faces.old faces.new keys.old keys.new rows.old rows.new
        spare.old spare.new counts.old counts.new }
{
    complex::check_cells(d, words)?;
    let dim = d as usize;
    let need = need(dim, words.len());
    let have = Room {
        keys: keys.len(),
        rows: rows.len(),
        spare: spare.len(),
        counts: counts.len(),
    };
    if !refusal::has_room(need, have) {
        return Err(Refusal::TooShort);
    }
    let a = need.keys;
    let r = need.rows;
    let s = need.spare;
    let c = need.counts;
    faces_cleared(
        dim,
        k as usize,
        words,
        faces,
        &mut keys[..a],
        &mut rows[..r],
        &mut spare[..s],
        &mut counts[..c],
    )
}

// The sign of the facet without position i.
fn sign_of(i: usize) -> i32
    ensures { result ≡ sign_number (induced i) }
{
    if i % 2 == 0 {
        return 1;
    }
    -1
}

// Writes the sign of each entry, n entries a coface.
fn write_signs(n: usize, total: usize, signs: &mut [i32])
    requires { (0 < n) × (total ≤ length signs.old) }
    ensures { signs.new ≡ tab total (λ x. sign_number (induced (x % n))) ++ drop total signs.old }
{
    for x in 0..total {
        signs[x] = sign_of(x % n);
    }
}

// Writes the face of each entry: `ids` has the facets of a coface from the last position dropped to the first.
fn write_faces(k: usize, m: usize, ids: &[u32], faces: &mut [u32])
    requires { (m * (k + 1) < 4294967295) × (k < 4294967295) × (m * (k + 1) ≤ length ids.now) × (m * (k + 1) ≤ length faces.old) }
    ensures { faces.new ≡ tab (m * (k + 1)) (λ x. get_or ids.now (x / (k + 1) * (k + 1) + (k - x % (k + 1))) 0) ++ drop (m * (k + 1)) faces.old }
{
    let n = k + 1;
    let total = m * n;
    for x in 0..total {
        let at = x / n * n + (k - x % n);
        faces[x] = ids[at];
    }
}

// Writes the coface of each entry, n entries a coface.
fn write_cofaces(n: usize, total: usize, cofaces: &mut [u32])
    requires { (0 < n) × (total < 4294967296) × (total ≤ length cofaces.old) }
    ensures { cofaces.new ≡ tab total (λ x. x / n) ++ drop total cofaces.old }
{
    for x in 0..total {
        cofaces[x] = (x / n) as u32;
    }
}

// Hands out the entries of f cofaces of dimension k, or 12 where a result list is too short.
fn hand_entries(
    k: usize,
    f: usize,
    ids: &[u32],
    signs: &mut [i32],
    faces: &mut [u32],
    cofaces: &mut [u32],
) -> Result<u32, Refusal>
    requires { (f * (k + 1) < 4294967295) × (k < 4294967295) × (f * (k + 1) ≤ length ids.now) }
    ensures { (es : List Entry) → EntryLists k f ids.now es → EntriesHanded es result signs.old signs.new faces.old
        faces.new cofaces.old cofaces.new }
{
    let n = k + 1;
    let total = f * n;
    if signs.len() < total {
        return Err(Refusal::TooShort);
    }
    if faces.len() < total {
        return Err(Refusal::TooShort);
    }
    if cofaces.len() < total {
        return Err(Refusal::TooShort);
    }
    write_signs(n, total, signs);
    write_faces(k, f, ids, faces);
    write_cofaces(n, total, cofaces);
    Ok(total as u32)
}

// Hands out the entries of the operator from dimension k to k - 1.
fn list_entries(
    d: usize,
    k: usize,
    words: &[u32],
    signs: &mut [i32],
    faces: &mut [u32],
    cofaces: &mut [u32],
    keys: &mut [u32],
    rows: &mut [u32],
    spare: &mut [u32],
    counts: &mut [u32],
) -> Result<u32, Refusal>
    requires { Reaching d k words.now keys.old rows.old spare.old counts.old × (1 ≤ k) }
    ensures { EntriesHanded (entries_of (cells_of d words.now) k) result signs.old signs.new faces.old faces.new
        cofaces.old cofaces.new }
{
    let f = reach(d, k, words, keys, rows, spare, counts);
    let g = complex_descent::classes(k, f, words.len(), keys, rows, spare, counts);
    hand_entries(k, f, counts, signs, faces, cofaces)
}

// The entries, or 7, 24, in working lists of just the sizes that are needed. Nothing is promised of them.
fn entries_work(
    d: usize,
    k: usize,
    words: &[u32],
    signs: &mut [i32],
    faces: &mut [u32],
    cofaces: &mut [u32],
    keys: &mut [u32],
    rows: &mut [u32],
    spare: &mut [u32],
    counts: &mut [u32],
) -> Result<u32, Refusal>
    requires { Working (face_need d (length words.now)) d words.now keys.old rows.old spare.old counts.old }
    ensures { EntriesWorked d k words.now result signs.old signs.new faces.old faces.new cofaces.old
        cofaces.new }
{
    if !skeleton::sound(d, words, keys, rows, spare, counts) {
        return Err(Refusal::CrowdedFacet);
    }
    if k < 1 {
        return Err(Refusal::BadFaces);
    }
    if d < k {
        return Err(Refusal::BadFaces);
    }
    list_entries(
        d, k, words, signs, faces, cofaces, keys, rows, spare, counts,
    )
}

// The work, and then the working lists are all zero.
fn entries_cleared(
    d: usize,
    k: usize,
    words: &[u32],
    signs: &mut [i32],
    faces: &mut [u32],
    cofaces: &mut [u32],
    keys: &mut [u32],
    rows: &mut [u32],
    spare: &mut [u32],
    counts: &mut [u32],
) -> Result<u32, Refusal>
    requires { Working (face_need d (length words.now)) d words.now keys.old rows.old spare.old counts.old }
    ensures work { EntriesWorked d k words.now result signs.old signs.new faces.old faces.new cofaces.old
        cofaces.new }
    ensures room { AllZero keys.old keys.new rows.old rows.new spare.old spare.new counts.old
        counts.new }
{
    let said = entries_work(
        d, k, words, signs, faces, cofaces, keys, rows, spare, counts,
    );
    lists::clear_four(keys, rows, spare, counts);
    said
}

// The boundary operator from the faces of dimension k to those of dimension k - 1: a sign, a face and a coface for each entry, by rising coface, then by dropped position;
// says how many. Refused as `faces` is, 24 also where k is 0, 12 also where any of the three result lists is too short.
pub fn boundary(
    d: u32,
    k: u32,
    words: &[u32],
    signs: &mut [i32],
    faces: &mut [u32],
    cofaces: &mut [u32],
    keys: &mut [u32],
    rows: &mut [u32],
    spare: &mut [u32],
    counts: &mut [u32],
) -> Result<u32, Refusal>
    ensures { Bounded d k words.now result signs.old signs.new faces.old faces.new cofaces.old
        cofaces.new keys.old keys.new rows.old rows.new spare.old spare.new
        counts.old counts.new }
{
    complex::check_cells(d, words)?;
    let dim = d as usize;
    let need = need(dim, words.len());
    let have = Room {
        keys: keys.len(),
        rows: rows.len(),
        spare: spare.len(),
        counts: counts.len(),
    };
    if !refusal::has_room(need, have) {
        return Err(Refusal::TooShort);
    }
    let a = need.keys;
    let r = need.rows;
    let s = need.spare;
    let c = need.counts;
    entries_cleared(
        dim,
        k as usize,
        words,
        signs,
        faces,
        cofaces,
        &mut keys[..a],
        &mut rows[..r],
        &mut spare[..s],
        &mut counts[..c],
    )
}
