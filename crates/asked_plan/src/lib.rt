// The first plan of a state, lowest variable first and lowest value first. The order fixes the answer and not the work: before a value is gone
// into, it is settled whether any plan goes on from it, by the plan that is known or by a question (crate any_plan). So the search never goes
// back, and asks at most one question a value. It is to take the place of the search of crate first_plan, which prunes and goes back: no twin.
#![tactic(auto)]

ghost use Rattle.std.specs.Prelude.{◌≡◌};
ghost use Rattle.problem.specs.Held.{held, RowTable};
ghost use Rattle.problem.specs.Masks.{state_of, masks_of};
ghost use Rattle.problem.specs.Sentences.{Live};
ghost use Rattle.held.specs.Ready.{Ready};
ghost use Rattle.lines.specs.Lines.{Drawn};
ghost use Rattle.first_plan.specs.First.{found, first_plan};
ghost use Rattle.first_plan.specs.Steps.{choose as chosen, NextChoice};
ghost use Rattle.asked_plan.specs.Steps.{Knows, Answered, GoesOn};

use bounded::Set;
use first_plan::Found;
use held::{View, neighbours};
use lines::LINES;
use problem::Masks;
use weights::Weights;

// ---- a choice made

// Variable i has v: it is active no more, and every other domain loses what is barred with v. By the line of v, which says what the table `t`
// says, and in a loop that is never left early, so that the compiler can do many domains at once.
fn choose(t: &[u16], lines: &[u16; LINES], m: Masks, i: usize, v: usize) -> Masks
    requires { Ready t.now m × Live (state_of m) i v × Drawn (held t.now) (state_of m) lines.now }
    ensures { result ≡ masks_of (chosen (held t.now) (state_of m) i v) }
{
    let active = m.active.without(i);
    let p = 512 * i + 32 * v;
    let mut on = m.domains;
    for j in 0..32 {
        on[j] &= lines[p + j];
    }
    on[i] = 0;
    Masks {
        active,
        domains: on,
    }
}

// ---- a question

// How many neighbours each variable has.
fn degrees(t: &[u16], active: u32) -> [u16; 32]
    requires { RowTable t.now }
{
    let mut degrees = [0u16; 32];
    for (i, degree) in degrees.iter_mut().enumerate() {
        *degree = (neighbours(t, i) & active).count_ones() as u16;
    }
    degrees
}

// A plan of the state, as the lowest value of each set, or none where it has none.
fn ask(t: &[u16], lines: &[u16; LINES], m: Masks, weights: &mut Weights) -> Option<[u16; 32]>
    requires { Ready t.now m × Drawn (held t.now) (state_of m) lines.now }
    ensures { Answered (held t.now) (state_of m) result }
{
    let view = View {
        table: t,
        state: &m,
    };
    if !view.none_empty() {
        return None;
    }
    let mut on = m.domains;
    if !any_plan::any_plan(lines, &mut on, weights) {
        return None;
    }
    Some(on)
}

// The state where i has v, if any plan goes on from it: the plan that is known, or one that a question finds.
fn goes_on(
    t: &[u16],
    lines: &[u16; LINES],
    m: Masks,
    known: &mut [u16; 32],
    weights: &mut Weights,
    i: usize,
    v: usize,
) -> Option<Masks>
    requires { Ready t.now m × Live (state_of m) i v × Drawn (held t.now) (state_of m) lines.now × Knows (held t.now) (state_of m) known.old }
    ensures { GoesOn (held t.now) (state_of m) i v result known.new }
{
    let next = choose(t, lines, m, i, v);
    if known[i].lowest() == v {
        return Some(next);
    }
    *known = ask(t, lines, next, weights)?;
    known[i] = 1 << v;
    Some(next)
}

// ---- the search

// State, the plan that is known and the plan that is made are lent, so that neither function has anything of its own to keep when it hands
// over: the compiler makes jumps of these calls. They are no struct: some are only read, and lent together for writing each contract would have
// to say that these stay.

// The first plan of a state that has one: the next variable, and its values.
#[cycle(pick_tries)]
fn pick(
    t: &&[u16],
    lines: &[u16; LINES],
    m: &mut Masks,
    known: &mut [u16; 32],
    weights: &mut Weights,
    plan: &mut [u8; 32],
)
    requires { Ready t.now.now m.old × Drawn (held t.now.now) (state_of m.old) lines.now × Knows (held t.now.now) (state_of m.old) known.old }
    ensures { found plan.new ≡ first_plan (held t.now.now) (state_of m.old) plan.old }
{
    let i = m.active.lowest();
    if 32 <= i {
        return;
    }
    tries(t, lines, m, known, weights, plan, i);
}

// The same where the next variable is i: its lowest value, where a plan goes on from it, with the variables after i; or else the values after
// that one.
#[cycle(pick_tries)]
fn tries(
    t: &&[u16],
    lines: &[u16; LINES],
    m: &mut Masks,
    known: &mut [u16; 32],
    weights: &mut Weights,
    plan: &mut [u8; 32],
    i: usize,
)
    requires { Ready t.now.now m.old × NextChoice m.old i × Drawn (held t.now.now) (state_of m.old) lines.now × Knows (held t.now.now) (state_of m.old) known.old }
    ensures { found plan.new ≡ first_plan (held t.now.now) (state_of m.old) plan.old }
{
    let state = *m;
    let v = state.domains[i].lowest();
    if let Some(next) = goes_on(*t, lines, state, known, weights, i, v) {
        plan[i] = v as u8;
        *m = next;
        pick(t, lines, m, known, weights, plan);
        return;
    }
    let view = View {
        table: *t,
        state: &*m,
    };
    *m = steps::remove(view, i, v);
    tries(t, lines, m, known, weights, plan, i);
}

// The first plan of a state that a question is asked about.
fn first_asked(t: &[u16], m: Masks, plan: [u8; 32]) -> Found
    requires { Ready t.now m }
    ensures { result ≡ first_plan (held t.now) (state_of m) plan }
{
    let mut lines = [65535u16; LINES];
    lines::draw(t, m, &mut lines);
    let mut weights = Weights::new(&degrees(t, m.active));
    let Some(plan_known) = ask(t, &lines, m, &mut weights) else {
        return Found { ok: false, plan };
    };
    let mut known = plan_known;
    let mut left = m;
    let mut found = plan;
    pick(&t, &lines, &mut left, &mut known, &mut weights, &mut found);
    Found {
        ok: true,
        plan: found,
    }
}

// The first plan of a state, or none. Items out keep what `plan` says of them, and all items do where there is none.
pub fn first_plan(t: &[u16], m: Masks, plan: [u8; 32]) -> Found
    requires { Ready t.now m }
    ensures { result ≡ first_plan (held t.now) (state_of m) plan }
{
    // nothing is left to search: no lines are drawn
    if m.active == 0 {
        return Found { ok: true, plan };
    }
    // no question sees a pigeonhole, and it would go through every order of the values
    let view = View {
        table: t,
        state: &m,
    };
    if pigeonhole::overfull(view) {
        return Found { ok: false, plan };
    }
    first_asked(t, m, plan)
}
