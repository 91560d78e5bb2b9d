// What a step makes of a state: a value removed, a variable eliminated.
#![tactic(auto)]

ghost use Rattle.std.specs.Prelude.{◌≡◌, ◌<◌};
ghost use Rattle.problem.specs.Problem.{remove as removed, eliminate as eliminated};
ghost use Rattle.problem.specs.Held.{held};
ghost use Rattle.problem.specs.Masks.{state_of, masks_of};
ghost use Rattle.problem.specs.Run.{after};
ghost use Rattle.held.specs.Ready.{Near};
ghost use Rattle.steps.specs.Words.{domain_after};
ghost use Rattle.steps.specs.Steps.{Within};

use bounded::Set;
use held::{View, neighbours};
use problem::{Effect, Masks, Record, effect_of};
use support::partners;

// ---- a value removed

// Value b goes off at i.
pub fn remove(view: View, i: usize, b: usize) -> Masks
    requires { (i < 32) × (b < 16) }
    ensures { result ≡ masks_of (removed (held view.entry.table.now) (state_of view.entry.state.now) i b) }
{
    let mut r = *view.state;
    r.domains[i] = view.state.domains[i].without(b);
    r
}

// ---- a variable eliminated

// The domain of j once i is eliminated. A domain that is empty stays so, and where i has a value, so does one that has no block with i.
fn domain_after(view: View, near: u32, i: usize, j: usize) -> u16
    requires { Near view.table.now i near × (i < 32) × (j < 32) }
    ensures { result ≡ domain_after (held view.entry.table.now) (state_of view.entry.state.now) i j }
{
    let domain = view.state.domains[j];
    if (j == i) | (domain == 0) {
        return 0;
    }
    let own = view.state.domains[i];
    if (own != 0) & !near.has(j) {
        return domain;
    }
    partners(view.table, domain, own, i, j)
}

// Item i goes out, and at every other item each value without a support at i.
pub fn eliminate(view: View, i: usize) -> Masks
    requires { i < 32 }
    ensures { result ≡ masks_of (eliminated (held view.entry.table.now) (state_of view.entry.state.now) i) }
{
    let near = neighbours(view.table, i);
    let mut r = *view.state;
    r.active = view.state.active.without(i);
    for other in 0..32 {
        r.domains[other] = domain_after(view, near, i, other);
    }
    r
}

// ---- a step

// The state after a step: a value taken out of a domain; or a variable taken out and, in the same step, each value elsewhere that had no
// support at it.
pub fn apply(view: View, r: Record) -> Masks
    requires { Within r }
    ensures { result ≡ masks_of (after (held view.entry.table.now) (state_of view.entry.state.now) r) }
{
    match effect_of(r) {
        Effect::Removes(i, b) => remove(view, i, b),
        Effect::Eliminates(i) => eliminate(view, i),
    }
}
