// The plain engine: each point's label starts as its own number, and the two ends of every step take the lesser of their labels until a round changes nothing.
ghost use Rattle.std.specs.Prelude.{◌≡◌, ◌||◌, ℕ, ◌<◌, length};
ghost use Rattle.refusal.specs.Says.{fine};
ghost use Rattle.quotient.specs.Points.{points_of};
ghost use Rattle.grid_chained.specs.Shape.{shape_of};
ghost use Rattle.grid_chained.specs.Classing.{at};
ghost use Rattle.grid_chained.specs.WorkNumber.{Labelled};
ghost use Rattle.grid_chained.specs.WorkLevel.{Marked, Levelled, Pass};

use crate::step;
use quotient::Grid;

// Gives points p and q the lesser of their labels, and says whether one of them changed.
fn level(labels: &mut [u32], p: usize, q: usize) -> bool
    requires { (p < length labels.old) × (q < length labels.old) }
    ensures { Levelled labels.old p q labels.new result }
{
    let x = labels[p];
    let y = labels[q];
    if x < y {
        labels[q] = x;
        return true;
    }
    if y < x {
        labels[p] = y;
        return true;
    }
    false
}

// Whether one of two labels changed.
fn either(a: bool, b: bool) -> bool
    ensures { result ≡ a || b }
{
    if a { true } else { b }
}

// Levels the two ends of the step along axis a that leaves from point v, if there is one.
fn level_step(grid: Grid, v: u32, a: u32, labels: &mut [u32]) -> bool
    requires { (shape_of grid ≡ fine) × (v < points_of grid) × (a < grid.d) × Marked grid labels.old }
    ensures { Pass grid (λ (x b : ℕ). (x ≡ v) × (b ≡ a)) labels.old labels.new result }
{
    if !step::leaves(grid, v, a) {
        return false;
    }
    let w = step::leads(grid, v, a);
    level(labels, v as usize, w as usize)
}

// Levels the ends of the steps that leave from point v.
fn level_steps(grid: Grid, v: u32, labels: &mut [u32]) -> bool
    requires { (shape_of grid ≡ fine) × (v < points_of grid) × Marked grid labels.old }
    ensures { Pass grid (λ (x b : ℕ). (x ≡ v) × (b < grid.d)) labels.old labels.new result }
{
    let mut changed = false;
    for a in 0..grid.d {
        let now = level_step(grid, v, a, labels);
        changed = either(changed, now);
    }
    changed
}

// One round: levels the ends of every step.
fn round(grid: Grid, labels: &mut [u32]) -> bool
    requires { (shape_of grid ≡ fine) × Marked grid labels.old }
    ensures { Pass grid (λ (x b : ℕ). (x < points_of grid) × (b < grid.d)) labels.old labels.new result }
{
    let mut changed = false;
    for v in 0..labels.len() {
        let moved = level_steps(grid, v as u32, labels);
        changed = either(changed, moved);
    }
    changed
}

// Writes each point's own number as its label.
fn own(labels: &mut [u32])
    requires { length labels.old < 4294967296 }
    ensures { (p : ℕ) → p < length labels.old → at labels.new p ≡ p }
{
    for (v, label) in labels.iter_mut().enumerate() {
        *label = v as u32;
    }
}

// Writes the least point of its class for each point of a grid that is taken, by rounds until one changes nothing.
pub fn plain_labels(grid: Grid, labels: &mut [u32])
    requires { (shape_of grid ≡ fine) × (length labels.old ≡ points_of grid) }
    ensures { Labelled grid labels.new }
{
    own(labels);
    let mut again = true;
    // Kept: the rounds end by what a round says, not by a count, so the new form is no plainer.
    while again {
        again = round(grid, labels);
    }
}
