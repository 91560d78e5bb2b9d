// The first plan of a state, lowest variable first and lowest value first. The order fixes the answer and not the work: on its way down the
// search keeps the values that are left, and turns back where a variable has none.
#![tactic(auto)]

ghost use Rattle.std.specs.Prelude.{◌≡◌, true, ◌<◌};
ghost use Rattle.bounded.specs.Mask.{bit};
ghost use Rattle.problem.specs.Problem.{remove as removed};
ghost use Rattle.problem.specs.Held.{held};
ghost use Rattle.problem.specs.Masks.{state_of, masks_of};
ghost use Rattle.problem.specs.Sentences.{Live};
ghost use Rattle.held.specs.Ready.{Ready};
ghost use Rattle.first_plan.specs.First.{first_plan};
ghost use Rattle.first_plan.specs.Steps.{answer, choose as chosen, NextChoice, Sweeps, Opens};

use bounded::Set;
use held::{View, neighbours, row_among};
use problem::Masks;
use support::partners;

// Whether there is a plan, and the plan. No Option: where there is none, the plan is the one that was given (`first_none_keeps`, Meaning), as
// the definition of `first_plan` says.
#[derive(Clone, Copy)]
pub struct Found {
    pub ok: bool,
    pub plan: [u8; 32],
}

// A choice made, and the variables that lost values.
#[derive(Clone, Copy)]
struct Choice {
    pub changed: u32,
    pub masks: Masks,
}

// ---- a choice made

// Variable i has v: it is active no more, and every other domain loses what is barred with v.
fn choose(t: &[u16], m: Masks, i: usize, v: usize) -> Choice
    requires { Ready t.now m × Live (state_of m) i v }
    ensures { result.masks ≡ masks_of (chosen (held t.now) (state_of m) i v) }
{
    let active = m.active.without(i);
    let mut on = m.domains;
    on[i] = 0;
    let mut rest = active;
    let mut changed = active;
    while rest != 0 {
        let j = rest.lowest();
        rest = rest.without(j);
        let was = m.domains[j];
        let left = row_among(t, was, i, j, v);
        on[j] = left;
        if left == was {
            changed = changed.without(j);
        }
    }
    let masks = Masks {
        active,
        domains: on,
    };
    Choice { changed, masks }
}

// ---- values that no solution has

// At every active neighbour of i, the values without a support at i go off; none where a domain is empty, and else the variables that lost
// any. The neighbours say only where looking for supports is worth it, so nothing rests on them.
fn spread(t: &[u16], m: &mut Masks, i: usize) -> Option<u32>
    requires { Ready t.now m.old × (i < 32) × (bit m.old.active i ≡ true) }
    ensures { Sweeps t.now m.old result m.new }
{
    let domain = m.domains[i];
    if domain == 0 {
        return None;
    }
    let mut rest = (neighbours(t, i) & m.active).without(i);
    let mut changed = rest;
    while rest != 0 {
        let j = rest.lowest();
        rest = rest.without(j);
        let was = m.domains[j];
        let left = partners(t, was, domain, i, j);
        m.domains[j] = left;
        if left == 0 {
            return None;
        }
        if left == was {
            changed = changed.without(j);
        }
    }
    Some(changed)
}

// From the variables `first` on, values without a support go off, and from those that lost any, again: what is left, or none where a domain is
// empty. Each turn but the first 32 follows from a value that went off, so 1024 are enough; nothing rests on that, and the turns are counted
// beside the loop, which goes by the set of what is to do.
fn propagate(t: &[u16], m: Masks, first: u32) -> Option<Masks>
    requires { Ready t.now m }
    ensures { Opens t.now (state_of m) result }
{
    let mut left = m;
    let mut todo = first & m.active;
    let mut turns: usize = 1024;
    while todo != 0 {
        let i = todo.lowest();
        let changed = spread(t, &mut left, i)?;
        if turns == 0 {
            return Some(left);
        }
        todo = (todo.without(i) | changed) & m.active;
        turns -= 1;
    }
    Some(left)
}

// ---- the two ways at a value

// Variable i has v.
fn attempt(t: &[u16], m: Masks, i: usize, v: usize) -> Option<Masks>
    requires { Ready t.now m × Live (state_of m) i v }
    ensures { Opens t.now (chosen (held t.now) (state_of m) i v) result }
{
    let c = choose(t, m, i, v);
    propagate(t, c.masks, c.changed)
}

// Variable i has another value than v.
fn refute(t: &[u16], m: Masks, i: usize, v: usize) -> Option<Masks>
    requires { Ready t.now m × (i < 32) × (v < 16) }
    ensures { Opens t.now (removed (held t.now) (state_of m) i v) result }
{
    let view = View {
        table: t,
        state: &m,
    };
    propagate(t, steps::remove(view, i, v), 1u32 << i)
}

// ---- the search

// State and plan are lent, and the table by a reference to it, so that `tries` has nothing of its own to keep when it calls itself for the
// next value: the compiler makes a jump of that call, and at most 32 calls lie within one another.

// The first plan: the next variable, and its values. The plan is written where there is one, and left as it was where there is none.
#[cycle(pick_tries)]
fn pick(t: &&[u16], m: &mut Masks, plan: &mut [u8; 32]) -> bool
    requires { Ready t.now.now m.old }
    ensures { answer result plan.new ≡ first_plan (held t.now.now) (state_of m.old) plan.old }
{
    let i = m.active.lowest();
    if 32 <= i {
        return true;
    }
    tries(t, m, plan, i)
}

// The same where the next variable is i: the lowest value left of it with the variables after i, or else the values after that one.
#[cycle(pick_tries)]
fn tries(t: &&[u16], m: &mut Masks, plan: &mut [u8; 32], i: usize) -> bool
    requires { Ready t.now.now m.old × NextChoice m.old i }
    ensures { answer result plan.new ≡ first_plan (held t.now.now) (state_of m.old) plan.old }
{
    let state = *m;
    let domain = state.domains[i];
    if domain == 0 {
        return false;
    }
    let v = domain.lowest();
    if let Some(next) = attempt(*t, state, i, v) {
        let mut left = next;
        let was = plan[i];
        plan[i] = v as u8;
        if pick(t, &mut left, plan) {
            return true;
        }
        plan[i] = was;
    }
    let Some(rest) = refute(*t, state, i, v) else {
        return false;
    };
    *m = rest;
    tries(t, m, plan, i)
}

// The first plan of a state, or none. Items out keep what `plan` says of them, and all items do where there is none.
pub fn first_plan(t: &[u16], m: Masks, plan: [u8; 32]) -> Found
    requires { Ready t.now m }
    ensures { result ≡ first_plan (held t.now) (state_of m) plan }
{
    // pruning sees no pigeonhole, and the search would go through every order of its values
    let view = View {
        table: t,
        state: &m,
    };
    if pigeonhole::overfull(view) {
        return Found { ok: false, plan };
    }
    let Some(rest) = propagate(t, m, m.active) else {
        return Found { ok: false, plan };
    };
    let mut left = rest;
    let mut found = plan;
    let ok = pick(&t, &mut left, &mut found);
    Found { ok, plan: found }
}
