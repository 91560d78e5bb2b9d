// A trace gone through from the first state: whether each record is lawful in the state reached, and where they lead.
#![tactic(auto)]

ghost use Rattle.std.specs.Prelude.{◌≡◌, true, false, ◌<◌, T};
ghost use Rattle.problem.specs.Problem.{full, unsupported as unsupported_at, snake as snake_at, triangle as triangle_at, neighbourhood as neighbourhood_at, snake_substitution as substitution_holds, substitution_spares, cover_asked};
ghost use Rattle.problem.specs.Run.{holds as holds_at, lawful as lawful_at, broken_cover, after};
ghost use Rattle.problem.specs.Held.{held, RowTable};
ghost use Rattle.problem.specs.Masks.{state_of, masks_of};
ghost use Rattle.problem.specs.declared.Record.TheVariants.{Neighbourhood};
ghost use Rattle.held.specs.Ready.{Ready};
ghost use Rattle.put_back.specs.PutBack.{unlawful_record, check_trace};
ghost use Rattle.replay.specs.Walk.{checked_from, walk_ended, faulty, going_on, stopped_with, checked_turn};

use bounded::Set;
use held::{View, is_live};
use problem::{Masks, Record, empty_masks};
use put_back::{PutBackRefusal, unlawful_record};
use trace::{RecordRead, moved, peek, placed};

// ---- the answer

// The check's answer: whether the trace is lawful, or its first fault. The state that the records lead to stands beside it: `faulty` of
// specs/Walk.antt says that it is the empty state at a fault.
#[derive(Clone, Copy)]
pub struct TraceEnd {
    pub check: Result<(), PutBackRefusal>,
    pub state: Masks,
}

// ---- one record, with any numbers in its fields

// A function for each rule, and not one over a rule that is lent: each asks other bounds, and its proof cites another law.

fn holds_unsupported(view: View, i: usize, b: usize, k: usize) -> bool
    ensures { result ≡ unsupported_at (held view.entry.table.now) (state_of view.entry.state.now) i b k }
{
    if (i < 32) & ((b < 16) & (k < 32)) {
        unsupported::unsupported(view, i, b, k)
    } else {
        false
    }
}

fn holds_snake(view: View, i: usize, v: usize) -> bool
    ensures { result ≡ snake_at (held view.entry.table.now) (state_of view.entry.state.now) i v }
{
    if (i < 32) & (v < 16) {
        snake::snake(view, i, v)
    } else {
        false
    }
}

fn holds_triangle(view: View, i: usize, j: usize) -> bool
    ensures { result ≡ triangle_at (held view.entry.table.now) (state_of view.entry.state.now) i j }
{
    if (i < 32) & (j < 32) {
        triangle::triangle(view, i, j)
    } else {
        false
    }
}

fn holds_neighbourhood(view: View, i: usize, b: usize, a: usize) -> bool
    ensures { result ≡ neighbourhood_at (held view.entry.table.now) (state_of view.entry.state.now) i b a }
{
    if (i < 32) & ((b < 16) & (a < 16)) {
        neighbourhood::neighbourhood(view, i, b, a)
    } else {
        false
    }
}

fn holds_substitution(view: View, i: usize, b: usize, a: usize) -> bool
    ensures { result ≡ substitution_holds (held view.entry.table.now) (state_of view.entry.state.now) substitution_spares i b a }
{
    if (i < 32) & ((b < 16) & (a < 16)) {
        snake_substitution::snake_substitution(view, i, b, a)
    } else {
        false
    }
}

// The rule of the record's kind holds for its fields.
fn holds(view: View, r: Record) -> bool
    ensures { result ≡ holds_at (held view.entry.table.now) (state_of view.entry.state.now) r }
{
    match r {
        Record::Unsupported(i, b, k) => holds_unsupported(view, i, b, k),
        Record::Snake(i, v) => holds_snake(view, i, v),
        Record::Triangle(i, j) => holds_triangle(view, i, j),
        Record::Neighbourhood(i, b, a) => holds_neighbourhood(view, i, b, a),
        Record::SnakeSubstitution(i, b, a) => holds_substitution(view, i, b, a),
    }
}

// No record is lawful once an active variable has an empty domain.
fn lawful(view: View, r: Record) -> bool
    ensures { result ≡ lawful_at (held view.entry.table.now) (state_of view.entry.state.now) r }
{
    if view.none_empty() {
        holds(view, r)
    } else {
        false
    }
}

// The state after a lawful record.
pub fn after_lawful(view: View, r: Record) -> Masks
    requires { T (lawful_at (held view.table.now) (state_of view.state.now) r) }
    ensures { result ≡ masks_of (after (held view.entry.table.now) (state_of view.entry.state.now) r) }
{
    steps::apply(view, r)
}

// ---- what is named of a record that is not lawful

// All that kind 4 asks but the cover.
fn cover_asked(view: View, i: usize, b: usize, a: usize) -> bool
    ensures { result ≡ cover_asked (held view.entry.table.now) (state_of view.entry.state.now) i b a }
{
    if i < 32 {
        let live = is_live(view.state.active, &view.state.domains, i, a)
            & (is_live(view.state.active, &view.state.domains, i, b) & view.none_empty());
        view.state.active.has(i) & ((a != b) & live)
    } else {
        false
    }
}

fn broken_neighbourhood(view: View, i: usize, b: usize, a: usize) -> Option<(usize, usize)>
    ensures { result ≡ broken_cover (held view.entry.table.now) (state_of view.entry.state.now) (Neighbourhood i b a) }
{
    if cover_asked(view, i, b, a) {
        neighbourhood::first_break(view, i, b, a)
    } else {
        None
    }
}

// Where the record's cover breaks, where it is of kind 4 and asks nothing else in vain, and nothing for every other cause.
fn broken_cover(view: View, r: Record) -> Option<(usize, usize)>
    ensures { result ≡ broken_cover (held view.entry.table.now) (state_of view.entry.state.now) r }
{
    match r {
        Record::Unsupported(_, _, _) => None,
        Record::Snake(_, _) => None,
        Record::Triangle(_, _) => None,
        Record::Neighbourhood(i, b, a) => broken_neighbourhood(view, i, b, a),
        Record::SnakeSubstitution(_, _, _) => None,
    }
}

// ---- the trace

// The answer at a fault.
fn fault(e: PutBackRefusal) -> TraceEnd
    ensures { result ≡ faulty e }
{
    TraceEnd {
        check: Err(e),
        state: empty_masks(),
    }
}

// The answer at a record that is not lawful, after so many that are.
fn unlawful(view: View, r: Record, count: usize) -> TraceEnd
    ensures { result ≡ faulty (unlawful_record count (broken_cover (held view.entry.table.now) (state_of view.entry.state.now) r)) }
{
    fault(unlawful_record(count, broken_cover(view, r)))
}

// A check on its way: its answer so far, whether it goes on, and how many records it has gone over. A flag, as the definitions of
// specs/Walk.antt (`going_on`, `stopped_with`, `checked_turn`) have it.
#[derive(Clone, Copy)]
pub struct Checking {
    pub end: TraceEnd,
    pub on: bool,
    pub count: usize,
}

// On, in a state that so many lawful records lead to.
fn going(m: Masks, count: usize) -> Checking
    ensures { result ≡ going_on m count }
{
    let end = TraceEnd {
        check: Ok(()),
        state: m,
    };
    Checking {
        end,
        on: true,
        count,
    }
}

// At its end, with its answer.
fn stopped(end: TraceEnd) -> Checking
    ensures { result ≡ stopped_with end }
{
    Checking {
        end,
        on: false,
        count: 0,
    }
}

// One turn: what the reader found, in the state so far.
fn check_record(t: &[u16], c: Checking, x: RecordRead) -> Checking
    requires { Ready t.now c.end.state × (c.count < 18446744073709551615) }
    ensures { result ≡ checked_turn (held t.now) c x }
{
    let end = c.end;
    let masks = end.state;
    let view = View {
        table: t,
        state: &masks,
    };
    match x {
        RecordRead::Read { record, next: _ } => {
            if lawful(view, record) {
                going(after_lawful(view, record), c.count + 1)
            } else {
                stopped(unlawful(view, record, c.count))
            }
        }
        RecordRead::End => stopped(end),
        RecordRead::Malformed => stopped(fault(PutBackRefusal::Malformed)),
    }
}

// Record by record from the place after the front, each in the state that the records before it lead to: one reader, which each turn moves.
fn check_records(view: View, trace: &[u8]) -> TraceEnd
    ensures { result ≡ walk_ended (held view.entry.table.now) (state_of view.entry.state.now) (checked_from (held view.entry.table.now) trace.now (state_of view.entry.state.now) 0 1) }
{
    let mut r = placed(trace, 1);
    let mut c = going(*view.state, 0);
    while c.on {
        c = check_record(view.table, c, peek(r));
        r = moved(r);
    }
    c.end
}

// The whole trace from the first state: its front, then its records.
pub fn check_trace(t: &[u16], trace: &[u8], first: Masks) -> TraceEnd
    requires { RowTable t.now × (first ≡ masks_of (full (held t.now))) }
    ensures { result ≡ walk_ended (held t.now) (full (held t.now)) (check_trace (held t.now) trace.now) }
{
    if trace.len() == 0 {
        return fault(PutBackRefusal::TraceFront);
    }
    if trace[0] != 1 {
        return fault(PutBackRefusal::TraceFront);
    }
    let view = View {
        table: t,
        state: &first,
    };
    check_records(view, trace)
}
