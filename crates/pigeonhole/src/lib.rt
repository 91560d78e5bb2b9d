// More variables that must all differ than values for them: such a state has no solution. Consistency of pairs does not see it, and a
// search would go through every order of the values. Crate most_apart looks further and is to take this one's place: other sets, another order.
#![tactic(auto)]

ghost use Rattle.std.specs.Prelude.{◌≢◌, ◌<◌};
ghost use Rattle.problem.specs.Held.{held, RowTable};
ghost use Rattle.problem.specs.Masks.{state_of, sets, Proper};
ghost use Rattle.pigeonhole.specs.Pigeonhole.{ApartIf, AllApart, Rows, Pigeonhole, Unsolved};

use bounded::Set;
use held::{View, row, size};

// ---- variables that are apart

// No value is allowed at i and at j at once.
fn apart_pair(t: &[u16], i: usize, j: usize) -> bool
    requires { RowTable t.now × (i < 32) × (j < 32) × (j ≢ i) }
    ensures { ApartIf (held t.now) i j result }
{
    let n = size(t, i);
    for a in 0..n {
        if row(t, i, j, a).has(a) {
            return false;
        }
    }
    true
}

// The other active variables that are apart from i.
fn apart_from(t: &[u16], active: u32, i: usize) -> u32
    requires { RowTable t.now × (i < 32) }
    ensures { AllApart (held t.now) i result }
{
    let mut rest = active.without(i);
    let mut far = rest;
    while rest != 0 {
        let j = rest.lowest();
        rest = rest.without(j);
        if !apart_pair(t, i, j) {
            far = far.without(j);
        }
    }
    far
}

// The same for every active variable.
fn apart_all(t: &[u16], active: u32) -> [u32; 32]
    requires { RowTable t.now }
    ensures { Rows (held t.now) result }
{
    let mut far = [0u32; 32];
    let mut rest = active;
    while rest != 0 {
        let i = rest.lowest();
        rest = rest.without(i);
        far[i] = apart_from(t, active, i);
    }
    far
}

// ---- more variables than values

// Variables of the set `first` are taken, lowest first, each apart from all that were taken before it, until they are more than the values
// that they have together.
fn overfull_among(active: u32, on: &[u16; 32], far: &[u32; 32], first: u32) -> bool
    requires { Proper (sets active on.now) }
    ensures { Pigeonhole active on.now far.now result }
{
    let mut rest = first & active;
    let mut values: u16 = 0;
    let mut count: u32 = 0;
    while rest != 0 {
        let j = rest.lowest();
        rest = rest.without(j) & far[j];
        values |= on[j];
        count += 1;
        if count > values.count_ones() {
            return true;
        }
    }
    false
}

// Some active variables that must all differ are more than the values that they have together. Looked for from each active variable
// with those that are apart from it.
pub fn overfull(view: View) -> bool
    ensures { Unsolved (held view.entry.table.now) (state_of view.entry.state.now) result }
{
    let active = view.state.active;
    let far = apart_all(view.table, active);
    let mut rest = active;
    while rest != 0 {
        let i = rest.lowest();
        rest = rest.without(i);
        let first = far[i] | (1u32 << i);
        if overfull_among(active, &view.state.domains, &far, first) {
            return true;
        }
    }
    false
}
