// More variables that must all differ than values for them: such a state has no solution. Consistency of pairs does not see it, and a
// search would go through every order of the values. It is to take the place of crate pigeonhole, and no twin of it: which variables are
// apart goes by the sets that are left, and each time the variable is taken that is apart from most.
#![tactic(auto)]

ghost use Rattle.std.specs.Prelude.{◌≡◌, ◌≢◌, ◌-◌, ◌%◌, ◌<◌, T};
ghost use Rattle.bounded.specs.Mask.{bit};
ghost use Rattle.problem.specs.Held.{held, RowTable};
ghost use Rattle.problem.specs.Masks.{state_of, sets, Proper};
ghost use Rattle.held.specs.Ready.{Values};
ghost use Rattle.most_apart.specs.Pigeonhole.{ApartIf, AllApart, Rows, Pigeonhole, Unsolved};

use bounded::Set;
use held::{View, neighbours, rows_at};

// ---- variables that are apart

// No value that both sets have is allowed at i and at j at once. The loop is never left early, and loads each row, so that the compiler can
// do many at once.
fn apart_pair(t: &[u16], x: u16, y: u16, i: usize, j: usize) -> bool
    requires { RowTable t.now × Values t.now i x × Values t.now j y × (i < 32) × (j < 32) × (j ≢ i) }
    ensures { ApartIf (held t.now) x y i j result }
{
    let at = rows_at(t, i, j);
    let mut equal: u16 = 0;
    for a in 0..16 {
        equal |= t[at + a] & (1 << a);
    }
    x & y & equal == 0
}

// The other active variables that are apart from i, looked for among the neighbours: any other allows everything.
fn apart_from(view: View, i: usize) -> u32
    requires { i < 32 }
    ensures { AllApart (held view.entry.table.now) view.entry.state.now.domains i result }
{
    let on = &view.state.domains;
    let mut rest = (view.state.active & neighbours(view.table, i)).without(i);
    let mut far = rest;
    while rest != 0 {
        let j = rest.lowest();
        rest = rest.without(j);
        if !apart_pair(view.table, on[i], on[j], i, j) {
            far = far.without(j);
        }
    }
    far
}

// The same for every active variable.
fn apart_all(view: View) -> [u32; 32]
    ensures { Rows (held view.entry.table.now) view.entry.state.now.domains result }
{
    let mut far = [0u32; 32];
    let mut rest = view.state.active;
    while rest != 0 {
        let i = rest.lowest();
        rest = rest.without(i);
        far[i] = apart_from(view, i);
    }
    far
}

// ---- the variable that is apart from most

// The rank of j: from how many of `rest` it is apart, and in the last five bits 31 - j, so that of equals the lowest has the greatest, and j
// can be read off.
fn rank(far: &[u32; 32], rest: u32, j: usize) -> usize
    requires { j < 32 }
    ensures { 31 - result % 32 ≡ j }
{
    32 * ((far[j] & rest).count_ones() as usize) + (31 - j)
}

// The variable of `rest` that is apart from most of it, and the lowest of these. One that is apart from few would end the growing early.
fn most_apart(far: &[u32; 32], rest: u32) -> usize
    requires { rest ≢ 0 }
    ensures { (result < 32) × T (bit rest result) }
{
    let mut best = 31 - rest.lowest();
    let mut left = rest;
    while left != 0 {
        let j = left.lowest();
        left = left.without(j);
        best = best.max(rank(far, rest, j));
    }
    31 - best % 32
}

// ---- more variables than values

// From i on variables are taken, each apart from all that were taken before it, until they are more than the values that they have together,
// or would not be even with all that are left. The values only grow, so that nothing is missed.
fn overfull_from(active: u32, on: &[u16; 32], far: &[u32; 32], i: usize) -> bool
    requires { Proper (sets active on.now) × (i < 32) × T (bit active i) }
    ensures { Pigeonhole active on.now far.now result }
{
    let mut rest = active.without(i) & far[i];
    let mut values = on[i];
    let mut count: u32 = 1;
    while count + rest.count_ones() > values.count_ones() {
        if count > values.count_ones() {
            return true;
        }
        let j = most_apart(far, rest);
        rest = rest.without(j) & far[j];
        values |= on[j];
        count += 1;
    }
    false
}

// Some active variables that must all differ are more than the values that they have together. Looked for from each active variable.
pub fn overfull(view: View) -> bool
    ensures { Unsolved (held view.entry.table.now) (state_of view.entry.state.now) result }
{
    let active = view.state.active;
    let far = apart_all(view);
    let mut rest = active;
    while rest != 0 {
        let i = rest.lowest();
        rest = rest.without(i);
        if overfull_from(active, &view.state.domains, &far, i) {
            return true;
        }
    }
    false
}
