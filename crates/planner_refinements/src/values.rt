// One child, one birth and one word by number, read from the lists that a refinement or an order handed out.
ghost use Rattle.std.specs.Prelude.{◌≡◌, ℕ};
ghost use Rattle.refine_values.specs.Reading.{child_of, birth_of};
ghost use Rattle.refine_values.specs.declared.Child.{Child};
ghost use Rattle.refine_values.specs.declared.Birth.{Birth};
ghost use Rattle.planner_passing.specs.Said.{answer_code, answer_list};

use planner_passing::said;

// The child of that number: its parent; its Jacobian goes to `jacobian`, and as whole numbers over R to `whole`. Refused: 12 where a list has none of that number.
#[unsafe(no_mangle)]
pub extern "C" fn planner_child_of(
    number: u32,
    parents: &[u32],
    jacobians: &[f64],
    wholes: &[i32],
    jacobian: &mut [f64; 9],
    whole: &mut [i32; 9],
) -> u64
    ensures value { result ≡ answer_code (λ (one : Child). one.parent) (child_of number parents.now jacobians.now wholes.now) }
    ensures jacobian_after { jacobian.new ≡ answer_list (λ (one : Child). one.jacobian) (child_of number parents.now jacobians.now wholes.now) jacobian.old }
    ensures whole_after { whole.new ≡ answer_list (λ (one : Child). one.whole) (child_of number parents.now jacobians.now wholes.now) whole.old }
{
    let one = refine_values::child_of(number, parents, jacobians, wholes);
    said::child(one, jacobian, whole)
}

// The birth of that number, counted from the first new vertex on: how many vertices support it; these, their weights over R and their shares go to the arrays, with
// 4294967295, 0 and 0.0 past them. Refused: 1 where d is more than 3, 12 where a list has none of that number.
#[unsafe(no_mangle)]
pub extern "C" fn planner_birth_of(
    d: u32,
    number: u32,
    birth_vertices: &[u32],
    birth_weights: &[u32],
    birth_shares: &[f64],
    vertices: &mut [u32; 4],
    weights: &mut [u32; 4],
    shares: &mut [f64; 4],
) -> u64
    ensures value { result ≡ answer_code (λ (one : Birth). one.count) (birth_of d number birth_vertices.now birth_weights.now birth_shares.now) }
    ensures vertices_after { vertices.new ≡ answer_list (λ (one : Birth). one.vertices) (birth_of d number birth_vertices.now birth_weights.now birth_shares.now) vertices.old }
    ensures weights_after { weights.new ≡ answer_list (λ (one : Birth). one.weights) (birth_of d number birth_vertices.now birth_weights.now birth_shares.now) weights.old }
    ensures shares_after { shares.new ≡ answer_list (λ (one : Birth). one.shares) (birth_of d number birth_vertices.now birth_weights.now birth_shares.now) shares.old }
{
    let one = refine_values::birth_of(d, number, birth_vertices, birth_weights, birth_shares);
    said::birth(one, vertices, weights, shares)
}
