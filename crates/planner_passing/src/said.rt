// How an answer is returned: the refusal's number and place, or 0 and the answer, in one number.
ghost use Rattle.std.specs.Prelude.{◌≡◌, ◌+◌, ◌*◌};
ghost use Rattle.planner_passing.specs.Said.{refused_code, counted_code, coherence_code, coherence_looks, verdict_code, reduced_code, reduced_sets, made_code, made_axes, ordered_code, triangulated_code, length_code, length_squares, refined_code, refined_vertices, answer_code, answer_list};

use crate::given;
use grid_lengths::EdgeLength;
use grid_order::Triangulated;
use ordering::Ordered;
use orientation::Coherence;
use quotient::{Crossing, Grid};
use refine_results::Refinement;
use refine_values::{Birth, Child};
use refusal::Refusal;

// A refusal.
pub fn refused(why: Refusal) -> u64
    ensures { result ≡ refused_code why }
{
    (why.number() as u64) * 4294967296 + (why.place() as u64)
}

// A count.
pub fn counted(said: Result<u32, Refusal>) -> u64
    ensures { result ≡ counted_code said }
{
    match said {
        Ok(n) => n as u64,
        Err(why) => refused(why),
    }
}

// Signs, or that there are none: the count without the looks. The looks go to the list; another refusal leaves it as it was.
pub fn coherence(said: Result<Coherence, Refusal>, looks: &mut [u32; 1]) -> u64
    ensures value { result ≡ coherence_code said }
    ensures looks_after { looks.new ≡ coherence_looks said looks.old }
{
    match said {
        Ok(Coherence::Signs(cells, seen)) => {
            looks[0] = seen;
            cells as u64
        }
        Ok(Coherence::OneSided(seen)) => {
            looks[0] = seen;
            refused(Refusal::NoSigns)
        }
        Err(why) => refused(why),
    }
}

// A verdict: 1 for yes.
pub fn verdict(said: Result<bool, Refusal>) -> u64
    ensures { result ≡ verdict_code said }
{
    match said {
        Ok(true) => 1,
        Ok(false) => 0,
        Err(why) => refused(why),
    }
}

// An answer: 0 where nothing is refused.
pub fn answer(said: Result<(), Refusal>) -> u64
    ensures { result ≡ answer_code (λ (fine : Unit {0}). 0) said }
{
    match said {
        Ok(()) => 0,
        Err(why) => refused(why),
    }
}

// A reduced vertex.
pub fn reduced(said: Result<Crossing, Refusal>) -> u64
    ensures { result ≡ reduced_code said }
{
    match said {
        Ok(crossing) => crossing.vertex.0 as u64,
        Err(why) => refused(why),
    }
}

// A reduced vertex, and the wrapped and the reversed axes go to the list. A refusal leaves the list as it was.
pub fn crossed(said: Result<Crossing, Refusal>, sets: &mut [u32; 2]) -> u64
    ensures value { result ≡ reduced_code said }
    ensures sets_after { sets.new ≡ reduced_sets said sets.old }
{
    match said {
        Ok(crossing) => {
            *sets = [crossing.wrapped as u32, crossing.reversed as u32];
            crossing.vertex.0 as u64
        }
        Err(why) => refused(why),
    }
}

// A grid that was made: its counts and gluings go to the list. A refusal leaves the list as it was.
pub fn made(said: Result<Grid, Refusal>, axes: &mut [u32; 6]) -> u64
    ensures value { result ≡ made_code said }
    ensures axes_after { axes.new ≡ made_axes said axes.old }
{
    match said {
        Ok(grid) => {
            given::hand_out(grid, axes);
            0
        }
        Err(why) => refused(why),
    }
}

// A count of cells, with 2^31 more where the order agrees on every facet of two of them.
pub fn ordered(said: Result<Ordered, Refusal>) -> u64
    ensures { result ≡ ordered_code said }
{
    match said {
        Ok(Ordered::Agree(n)) => (n as u64) + 2147483648,
        Ok(Ordered::Differ(n)) => n as u64,
        Err(why) => refused(why),
    }
}

// A count of cells, with 2^31 more where an order is handed out with them.
pub fn triangulated(said: Result<Triangulated, Refusal>) -> u64
    ensures { result ≡ triangulated_code said }
{
    match said {
        Ok(Triangulated::Ordered(n)) => (n as u64) + 2147483648,
        Ok(Triangulated::Unordered(n)) => n as u64,
        Err(why) => refused(why),
    }
}

// One edge: how many squared lengths it has, and these go to the list. 0 is no edge, 1 its length, 2 the two that clash first.
pub fn edge_length(said: Result<EdgeLength, Refusal>, squares: &mut [f64; 2]) -> u64
    ensures value { result ≡ length_code said }
    ensures squares_after { squares.new ≡ length_squares said squares.old }
{
    match said {
        Ok(EdgeLength::NoEdge) => 0,
        Ok(EdgeLength::Length(x)) => {
            squares[0] = x;
            1
        }
        Ok(EdgeLength::Clash(x, y)) => {
            squares[0] = x;
            squares[1] = y;
            2
        }
        Err(why) => refused(why),
    }
}

// A refinement: how many children there are, and the number of vertices goes to the list. A refusal leaves the list as it was.
pub fn refined(said: Result<Refinement, Refusal>, vertices: &mut [u32; 1]) -> u64
    ensures value { result ≡ refined_code said }
    ensures vertices_after { vertices.new ≡ refined_vertices said vertices.old }
{
    match said {
        Ok(made) => {
            vertices[0] = made.vertices;
            made.children as u64
        }
        Err(why) => refused(why),
    }
}

// One child: its parent, and its Jacobian in floats and in whole numbers goes to the lists. A refusal leaves the lists as they were.
pub fn child(said: Result<Child, Refusal>, jacobian: &mut [f64; 9], whole: &mut [i32; 9]) -> u64
    ensures value { result ≡ answer_code (λ (one : Child). one.parent) said }
    ensures jacobian_after { jacobian.new ≡ answer_list (λ (one : Child). one.jacobian) said jacobian.old }
    ensures whole_after { whole.new ≡ answer_list (λ (one : Child). one.whole) said whole.old }
{
    match said {
        Ok(child) => {
            let floats = child.jacobian;
            let wholes = child.whole;
            *jacobian = floats;
            *whole = wholes;
            child.parent as u64
        }
        Err(why) => refused(why),
    }
}

// One birth: how many vertices support it, and these, their weights and their shares go to the lists. A refusal leaves the lists as they were.
pub fn birth(
    said: Result<Birth, Refusal>,
    vertices: &mut [u32; 4],
    weights: &mut [u32; 4],
    shares: &mut [f64; 4],
) -> u64
    ensures value { result ≡ answer_code (λ (one : Birth). one.count) said }
    ensures vertices_after { vertices.new ≡ answer_list (λ (one : Birth). one.vertices) said vertices.old }
    ensures weights_after { weights.new ≡ answer_list (λ (one : Birth). one.weights) said weights.old }
    ensures shares_after { shares.new ≡ answer_list (λ (one : Birth). one.shares) said shares.old }
{
    match said {
        Ok(birth) => {
            let named = birth.vertices;
            let weighed = birth.weights;
            let shared = birth.shares;
            *vertices = named;
            *weights = weighed;
            *shares = shared;
            birth.count as u64
        }
        Err(why) => refused(why),
    }
}
