// Kind 2, snake: the rule's test, what its failure rests on, and the choice that undoing makes.
#![tactic(auto)]

ghost use Rattle.std.specs.Prelude.{◌≡◌, true, ◌&&◌, ◌≢◌, ◌<◌, get_or};
ghost use Rattle.bounded.specs.Mask.{bit, mask_of};
ghost use Rattle.problem.specs.Problem.{snake as snake_holds, snake_serves};
ghost use Rattle.problem.specs.Held.{held};
ghost use Rattle.problem.specs.Masks.{state_of};
ghost use Rattle.problem.specs.Sentences.{Snake};
ghost use Rattle.rests.specs.Rests.{Tried};
ghost use Rattle.held.specs.Ready.{Value};
ghost use Rattle.cover.specs.Words.{others};
ghost use Rattle.snake.specs.Parts.{AtOther};

use bounded::Set;
use cover::{serving, third_set, unserved};
use held::{View, neighbours, row_among};

// The values of another variable j that may take the place of w where i has v: they are allowed with v and cover w at every item other than
// i and j.
pub fn snake_servers(view: View, i: usize, v: usize, j: usize, w: usize) -> u16
    requires { Value view.table.now i v × Value view.table.now j w × (j ≢ i) }
    ensures { result ≡ mask_of 16 (λ c. (state_of view.entry.state.now).live j c && snake_serves (held view.entry.table.now) (state_of view.entry.state.now) i v j w c) }
{
    let good = row_among(view.table, view.state.domains[j], i, j, v);
    serving(view, third_set(view.state.active, i, j), good, j, j, w).left
}

// What the snake rule asks of j, one of `rest`: the active variables other than i. 0 where it asks nothing in vain, else j and the variables
// that break every candidate for one of its values.
fn snake_at(view: View, rest: u32, i: usize, v: usize, j: usize) -> u32
    requires { Value view.table.now i v × (rest ≡ others view.state.now.active i) × (j < 32) × (bit rest j ≡ true) }
    ensures { AtOther (held view.entry.table.now) (state_of view.entry.state.now) i v j result }
{
    let domain = view.state.domains[j];
    let good = row_among(view.table, domain, i, j, v);
    unserved(view, rest.without(j), good, domain, j)
}

// Tries value v of i, which is in its domain: 0 where the snake rule holds, else the variables that its failure rests on. A variable that
// has no block with i bars nothing with v, and is passed over.
pub fn snake_rests(view: View, i: usize, v: usize) -> u32
    requires { (i < 32) × (v < 16) × (bit (get_or view.state.now.domains i 0) v ≡ true) }
    ensures { Tried (held view.entry.table.now) (state_of view.entry.state.now) (λ q. Snake (held view.entry.table.now) q i v) result }
{
    let rest = view.state.active.without(i);
    let mut left = rest & neighbours(view.table, i);
    while left != 0 {
        let j = left.highest();
        let fails = snake_at(view, rest, i, v, j);
        if fails != 0 {
            return fails;
        }
        left = left.without(j);
    }
    0
}

// Value v of i is in its domain, and at every other item each value barred with v has one that may take its place.
pub fn snake(view: View, i: usize, v: usize) -> bool
    requires { (i < 32) × (v < 16) }
    ensures { result ≡ snake_holds (held view.entry.table.now) (state_of view.entry.state.now) i v }
{
    if view.state.domains[i].has(v) {
        snake_rests(view, i, v) == 0
    } else {
        false
    }
}
