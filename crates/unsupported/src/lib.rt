// Kind 1, bare: the test for a value without a support at another variable.
#![tactic(auto)]

ghost use Rattle.std.specs.Prelude.{◌≡◌, not, ◌≢◌, ◌<◌};
ghost use Rattle.problem.specs.Problem.{all_live, unsupported as unsupported_holds};
ghost use Rattle.problem.specs.Held.{held};
ghost use Rattle.problem.specs.Masks.{state_of};
ghost use Rattle.held.specs.Ready.{Value};

use bounded::Set;
use held::{View, row_among};

fn unsupported_at(view: View, i: usize, b: usize, k: usize) -> bool
    requires { Value view.table.now i b × (k < 32) × (k ≢ i) }
    ensures { result ≡ all_live (held view.entry.table.now) (state_of view.entry.state.now) k (λ c. not ((held view.entry.table.now).allowed i b k c)) }
{
    row_among(view.table, view.state.domains[k], i, k, b) == 0
}

// Value b of i has no support at another active variable k.
pub fn unsupported(view: View, i: usize, b: usize, k: usize) -> bool
    requires { (i < 32) × (b < 16) × (k < 32) }
    ensures { result ≡ unsupported_holds (held view.entry.table.now) (state_of view.entry.state.now) i b k }
{
    if view.state.domains[i].has(b) & (view.state.active.has(k) & (k != i)) {
        unsupported_at(view, i, b, k)
    } else {
        false
    }
}
