// Supports by words: the values of one variable that have a support at another, and those that have one at every other.
#![tactic(auto)]

ghost use Rattle.std.specs.Prelude.{◌≡◌, true, ◌≢◌, ◌<◌};
ghost use Rattle.std.specs.Int.Bits.{bit_and};
ghost use Rattle.problem.specs.Problem.{none_empty};
ghost use Rattle.problem.specs.Held.{held, RowTable};
ghost use Rattle.problem.specs.Masks.{state_of};
ghost use Rattle.held.specs.Ready.{Values};
ghost use Rattle.support.specs.Words.{partners_of, domain_left};

use bounded::{Set, where16};
use held::{View, neighbours, rows_at};

// Of the values `was` of j, those with a support in the set `domain` of another variable i: met with the union of the rows of that set.
// The loop is never left early, and loads each row, so that the compiler can do many at once.
pub fn partners(t: &[u16], was: u16, domain: u16, i: usize, j: usize) -> u16
    requires { RowTable t.now × Values t.now j was × Values t.now i domain × (i < 32) × (j < 32) × (j ≢ i) }
    ensures { result ≡ bit_and was (partners_of (held t.now) domain i j) }
{
    let at = rows_at(t, i, j);
    let mut x: u16 = 0;
    for a in 0..16 {
        x = x | where16(domain, a, t[at + a]);
    }
    was & x
}

// The values of i that have a support at every other active variable, where no active variable is emptied: met with the union of the rows
// of each neighbour. What has no block with i supports all of its values.
pub fn supported(view: View, i: usize) -> u16
    requires { (i < 32) × (none_empty (held view.table.now) (state_of view.state.now) ≡ true) }
    ensures { result ≡ domain_left (held view.entry.table.now) (state_of view.entry.state.now) i }
{
    let mut x = view.state.domains[i];
    let mut rest = (view.state.active & neighbours(view.table, i)).without(i);
    while rest != 0 {
        let k = rest.lowest();
        x = partners(view.table, x, view.state.domains[k], k, i);
        rest = rest.without(k);
    }
    x
}
