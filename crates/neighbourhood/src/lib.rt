// Kind 4, cover: the test for a neighbourhood substitution, the values that substitute for one, and what it rests on that none does.
#![tactic(auto)]

ghost use Rattle.std.specs.Prelude.{◌≡◌, true, ◌<◌, get_or};
ghost use Rattle.bounded.specs.Mask.{bit};
ghost use Rattle.problem.specs.Problem.{neighbourhood as neighbourhood_holds, first_break as first_break_at};
ghost use Rattle.problem.specs.Held.{held};
ghost use Rattle.problem.specs.Masks.{state_of};
ghost use Rattle.held.specs.Ready.{Value};
ghost use Rattle.neighbourhood.specs.Parts.{NeighbourhoodTried};

use bounded::Set;
use cover::{Candidates, serving};
use held::View;

// Where the cover of value b of i by value a breaks first, at the other variables.
pub fn first_break(view: View, i: usize, b: usize, a: usize) -> Option<(usize, usize)>
    requires { Value view.table.now i a × Value view.table.now i b }
    ensures { result ≡ first_break_at (held view.entry.table.now) (state_of view.entry.state.now) i b a }
{
    cover::first_break(view, view.state.active.without(i), i, a, i, b)
}

// Values a and b of i differ and are in its domain, and a covers b at every other item.
pub fn neighbourhood(view: View, i: usize, b: usize, a: usize) -> bool
    requires { (i < 32) × (b < 16) × (a < 16) }
    ensures { result ≡ neighbourhood_holds (held view.entry.table.now) (state_of view.entry.state.now) i b a }
{
    let domain = view.state.domains[i];
    if domain.has(b) & (domain.has(a) & (a != b)) {
        first_break(view, i, b, a).is_none()
    } else {
        false
    }
}

// Tries value b of i, which is in its domain: the values that substitute for it; where there is none, that rests on the variables where the
// others break.
pub fn neighbourhood_rests(view: View, i: usize, b: usize) -> Candidates
    requires { Value view.table.now i b × (bit (get_or view.state.now.domains i 0) b ≡ true) }
    ensures { NeighbourhoodTried (held view.entry.table.now) (state_of view.entry.state.now) i b result.left result.broken }
{
    let rest = view.state.active.without(i);
    let others = view.state.domains[i].without(b);
    serving(view, rest, others, i, i, b)
}
