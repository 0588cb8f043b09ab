// Shares of the coarse vertices, whole numbers over the refinement number. A table has a row of 32 shares for each vertex: share v of row x is how much of x is the coarse vertex v.
ghost use Rattle.std.specs.Prelude.{◌≡◌, ◌+◌, ◌*◌, ◌≤◌, ◌<◌, length};

// No share: what a sum comes to that is larger than any share can be.
const NONE: u32 = 4294967295;

// have + weight * share, exactly; NONE where one of the three is larger than any share can be.
fn plus(have: u32, weight: u32, share: u32) -> u32
    ensures { have ≤ 4096 → weight ≤ 64 → share ≤ 4096 → result ≡ have + weight * share }
{
    if 4096 < have {
        return NONE;
    }
    if 64 < weight {
        return NONE;
    }
    if 4096 < share {
        return NONE;
    }
    have + weight * share
}

// Adds weight times row y of `from` to row x of `to`.
fn add_row(weight: u32, y: usize, from: &[u32; 131072], x: usize, to: &mut [u32; 131072])
    requires { (x < 4096) × (y < 4096) }
{
    for v in 0..32 {
        let at = x * 32 + v;
        let share = from[y * 32 + v];
        to[at] = plus(to[at], weight, share);
    }
}

// The rows of the n vertices that stay: each is wholly itself.
fn add_kept(n: usize, r: u32, from: &[u32; 131072], to: &mut [u32; 131072])
    requires { n ≤ 4096 }
{
    for x in 0..n {
        add_row(r, x, from, x, to);
    }
}

// One weight of the birth x.
fn add_weight(x: usize, vertex: u32, weight: u32, from: &[u32; 131072], to: &mut [u32; 131072]) {
    let y = vertex as usize;
    if x < 4096 && y < 4096 {
        add_row(weight, y, from, x, to);
    }
}

// The row of the birth x, which has these weights of these vertices.
fn add_birth(
    x: usize,
    vertices: &[u32],
    weights: &[u32],
    from: &[u32; 131072],
    to: &mut [u32; 131072],
)
    requires { length weights.now ≡ length vertices.now }
{
    for (&vertex, &weight) in vertices.iter().zip(weights) {
        add_weight(x, vertex, weight, from, to);
    }
}

// The rows of the births, numbered from n on.
fn add_births(
    n: usize,
    width: usize,
    vertices: &[u32],
    weights: &[u32],
    from: &[u32; 131072],
    to: &mut [u32; 131072],
)
    requires { (n ≤ 4096) × (0 < width) × (width ≤ 4) × (length weights.now ≡ length vertices.now) × (length vertices.now ≤ 16384) }
{
    let mut x = n;
    let mut at = 0;
    // Kept: tried `chunks_exact` with `zip` and `enumerate`; the proof that n + the birth's place fits did not close.
    while at + width <= vertices.len() {
        let end = at + width;
        add_birth(x, &vertices[at..end], &weights[at..end], from, to);
        x += 1;
        at = end;
    }
}

// The table of a refinement by r of n vertices, whose table is `from`: the shares of its births are multiplied through. `to` is all zero before.
pub(crate) fn through(
    n: usize,
    r: u32,
    width: usize,
    vertices: &[u32],
    weights: &[u32],
    from: &[u32; 131072],
    to: &mut [u32; 131072],
)
    requires { (n ≤ 4096) × (0 < width) × (width ≤ 4) × (length weights.now ≡ length vertices.now) × (length vertices.now ≤ 16384) }
{
    add_kept(n, r, from, to);
    add_births(n, width, vertices, weights, from, to);
}

// The table of the coarse vertices: each is itself, over 1.
pub(crate) fn alone(to: &mut [u32; 131072]) {
    for v in 0..32 {
        to[v * 33] = 1;
    }
}
