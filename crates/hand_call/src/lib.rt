// docs/FORMAT.md, "Taking out by hand": one hand call, its refusals in their order and its snake step.
#![tactic(auto)]

ghost use Rattle.hand.specs.Call.{hand_call};
ghost use Rattle.std.specs.Prelude.{MatchOption, ◌*◌, ◌≡◌, true, ◌<◌, ◌≤◌, ltb};
ghost use Rattle.bounded.specs.Quantifiers.{imp, all_below, lowest};
ghost use Rattle.bounded.specs.Mask.{bit};
ghost use Rattle.problem.specs.Problem.{max_values, state_fits, none_empty, snake as snake_holds};
ghost use Rattle.problem.specs.Masks.{state_of, Proper};
ghost use Rattle.problem.specs.Held.{held, RowTable};
ghost use Rattle.held.specs.Ready.{Ready};
ghost use Rattle.hand.specs.Hand.{call_refused, call_over, call_job};
ghost use Rattle.hand_call.specs.Parts.{fits_at, call_eliminated};

use bounded::Set;
use hand::{CallAnswer, HandRefusal, HandState};
use held::{View, size};
use problem::Masks;

// ---- the refusals

// Every member of x is below z.
fn below(x: u16, z: usize) -> bool
    requires { z ≤ 16 }
    ensures { result ≡ all_below max_values (λ a. imp (bit x a) (ltb a z)) }
{
    (x as usize) < bounded::power(z)
}

// 11 at one variable. An active one is one of the problem's and has values of its own only; another has an empty domain.
fn fits_at(t: &[u16], m: &Masks, n: usize, i: usize) -> bool
    requires { RowTable t.now × Proper m.now × (n ≡ (held t.now).n) × (i < 32) }
    ensures { result ≡ fits_at (held t.now) (state_of m.now) i }
{
    let domain = m.domains[i];
    if m.active.has(i) {
        (i < n) & below(domain, size(t, i))
    } else {
        domain == 0
    }
}

// 11: the state fits the sheet.
fn fits(t: &[u16], m: &Masks) -> bool
    requires { RowTable t.now × Proper m.now }
    ensures { result ≡ state_fits (held t.now) (state_of m.now) }
{
    let n = held::variables(t);
    for i in 0..32 {
        if !fits_at(t, m, n, i) {
            return false;
        }
    }
    true
}

// 12: the item is in. No number but one below 32 can be.
fn is_active(m: Masks, i: u64) -> bool
    ensures { result ≡ bit m.active i }
{
    if i < 32 {
        m.active.has(i as usize)
    } else {
        false
    }
}

// 14: the lowest value for which the snake rule holds, where there is one.
fn lowest_snake(view: View, i: usize) -> Option<usize>
    requires { i < 32 }
    ensures { let l = lowest max_values (snake_holds (held view.entry.table.now) (state_of view.entry.state.now) i) in MatchOption result (l ≡ max_values) (λ v. (v ≡ l) × (v < max_values)) }
{
    for v in 0..16 {
        if snake::snake(view, i, v) {
            return Some(v);
        }
    }
    None
}

// ---- the call

// "A refused hand call answers the state it was given."
fn refused_call(r: HandRefusal, st: HandState) -> CallAnswer
    ensures { result ≡ call_refused r st }
{
    CallAnswer {
        outcome: Err(r),
        state: st,
    }
}

// The snake step for i with v.
fn eliminated(view: View, i: usize, v: usize) -> CallAnswer
    requires { i < 32 }
    ensures { result ≡ call_eliminated (held view.entry.table.now) (state_of view.entry.state.now) i v }
{
    let masks = steps::eliminate(view, i);
    let state = HandState { masks };
    CallAnswer {
        outcome: Ok(v),
        state,
    }
}

// 14, or the step with the lowest fitting v. No View is lent to it: the state is answered whole where it is refused.
fn call_snake(t: &[u16], st: HandState, i: usize) -> CallAnswer
    requires { Ready t.now st.masks × (i < 32) × (bit st.masks.active i ≡ true) × (none_empty (held t.now) (state_of st.masks) ≡ true) }
    ensures { result ≡ call_over (held t.now) st i }
{
    let masks = st.masks;
    let view = View {
        table: t,
        state: &masks,
    };
    match lowest_snake(view, i) {
        Some(v) => eliminated(view, i, v),
        None => refused_call(HandRefusal::Rule, st),
    }
}

// A call with a state that fits: 12, then 13. `named` says that the item is in, `filled` that no item in is without a setting on.
fn call_fitting(t: &[u16], st: HandState, i: u64, named: bool, filled: bool) -> CallAnswer
    requires { Ready t.now st.masks × (named ≡ bit st.masks.active i) × (filled ≡ none_empty (held t.now) (state_of st.masks)) }
    ensures { result ≡ call_over (held t.now) st i }
{
    if !named {
        return refused_call(HandRefusal::Item, st);
    }
    if !filled {
        return refused_call(HandRefusal::Emptied, st);
    }
    call_snake(t, st, i as usize)
}

// A hand call over a filled table: 11, and then what a state that fits comes to. The snake step for the named item with the lowest fitting
// v, or the refusal and the state as it was given.
pub fn call_over(t: &[u16], st: HandState, i: u64) -> CallAnswer
    requires { RowTable t.now }
    ensures { result ≡ call_over (held t.now) st i }
{
    let m = st.masks;
    if !fits(t, &m) {
        return refused_call(HandRefusal::State, st);
    }
    let view = View {
        table: t,
        state: &m,
    };
    call_fitting(t, st, i, is_active(m, i), view.none_empty())
}

// A hand call on a sheet: it is read, its table filled on the way, and the call is over the table.
pub fn hand_call(s: &[u8], st: HandState, i: u64) -> CallAnswer
    ensures { result ≡ call_job s.now st i }
{
    let mut t = table::blank_table();
    match read_sheet::read_table(s, &mut t) {
        Ok(_) => call_over(&t, st, i),
        Err(r) => refused_call(HandRefusal::Sheet(r), st),
    }
}

// ---- from C

// One hand call, the state in and out in one buffer. Bits 0-7: the refusal's number, 0 where the item was taken out; bits 8-15: its
// setting.
pub fn hand_call_bytes(sheet: &[u8], state: &mut [u8], item: u64) -> u64
    ensures answer { result ≡ (hand_call sheet.now state.old item).answer }
    ensures state { state.new ≡ (hand_call sheet.now state.old item).state }
{
    if state.len() != boundary::STATE_LENGTH {
        return boundary::bad_hand_state();
    }
    let masks = boundary::read_state(state);
    let called = hand_call(sheet, HandState { masks }, item);
    match called.outcome {
        Ok(v) => {
            let st = called.state;
            boundary::put_state(state, st.masks);
            256 * v as u64
        }
        Err(r) => u8::from(r) as u64,
    }
}
