// Kind 3, fold: the triangle rule's test, what its failure rests on, and the choice that undoing makes.
#![tactic(auto)]

ghost use Rattle.std.specs.Prelude.{◌≡◌, true, ◌&&◌, ◌≢◌, ◌<◌};
ghost use Rattle.bounded.specs.Mask.{bit, mask_of};
ghost use Rattle.problem.specs.Problem.{triangle as triangle_holds, triangle_serves};
ghost use Rattle.problem.specs.Held.{held};
ghost use Rattle.problem.specs.Masks.{state_of};
ghost use Rattle.held.specs.Ready.{Value};
ghost use Rattle.triangle.specs.Parts.{TriangleTried};

use bounded::Set;
use cover::{serving, third_set};
use held::{View, row_among};

// The values of i that serve for value v of another variable j: they are allowed with it and cover it at every item other than i and j.
pub fn triangle_servers(view: View, i: usize, j: usize, v: usize) -> u16
    requires { Value view.table.now j v × (i < 32) × (j ≢ i) }
    ensures { result ≡ mask_of 16 (λ c. (state_of view.entry.state.now).live i c && triangle_serves (held view.entry.table.now) (state_of view.entry.state.now) i j v c) }
{
    let good = row_among(view.table, view.state.domains[i], j, i, v);
    serving(view, third_set(view.state.active, i, j), good, i, j, v).left
}

// Why the triangle rule fails: a value of j that nothing of i serves for, and the variables that break every candidate for it.
#[derive(Clone, Copy)]
pub struct Unserved {
    pub value: usize,
    pub rests: u32,
}

// Tries the triangle of i with another active variable j, where i is active too: why it fails, none where it holds. The highest value of j is
// asked first.
pub fn triangle_rests(view: View, i: usize, j: usize) -> Option<Unserved>
    requires { (i < 32) × (j < 32) × (j ≢ i) × (bit view.state.now.active i ≡ true) × (bit view.state.now.active j ≡ true) }
    ensures { TriangleTried (held view.entry.table.now) (state_of view.entry.state.now) i j result }
{
    let rest = third_set(view.state.active, i, j);
    let mut left = view.state.domains[j];
    while left != 0 {
        let v = left.highest();
        let good = row_among(view.table, view.state.domains[i], j, i, v);
        let found = serving(view, rest, good, i, j, v);
        if found.left == 0 {
            return Some(Unserved {
                value: v,
                rests: found.broken,
            });
        }
        left = left.without(v);
    }
    None
}

// For every value of the other item j, some value of i serves.
pub fn triangle(view: View, i: usize, j: usize) -> bool
    requires { (i < 32) × (j < 32) }
    ensures { result ≡ triangle_holds (held view.entry.table.now) (state_of view.entry.state.now) i j }
{
    if view.state.active.has(i) & (view.state.active.has(j) & (j != i)) {
        triangle_rests(view, i, j).is_none()
    } else {
        false
    }
}
