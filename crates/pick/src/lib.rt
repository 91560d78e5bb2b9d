// Picking a plan, as a job: the run, the first plan of what it leaves, and that put back.
#![tactic(auto)]

ghost use Rattle.std.specs.Prelude.{◌≡◌, Ok, [], ◌≤◌, ◌<◌, ◌+◌, ◌*◌, length};
ghost use Rattle.boundary.specs.State.{state_length};
ghost use Rattle.pick.specs.Call.{crossed_number, crossed_state, PickFits, pick_call};
ghost use Rattle.problem.specs.Problem.{size_sum};
ghost use Rattle.problem.specs.Held.{held, RowTable};
ghost use Rattle.problem.specs.Masks.{masks_of};
ghost use Rattle.pick.specs.Pick.{pick_number, left_by, run_trace, first_left, plan_left, pick_refused, pick_done, pick_over, pick_job};

use boundary::put_state;
use held::size_sum;
use problem::Masks;
use run::Finished;
use sheet::SheetRefusal;

// Why picking is refused.
#[derive(Clone, Copy, Debug, PartialEq, Eq)]
pub enum PickRefusal {
    Sheet(SheetRefusal),
    Buffer,
    ResultLength,
}

// Whether a plan was put back into the lent plan, or there is none; either with what the run answers.
#[derive(Clone, Copy)]
pub struct Sought {
    pub plan: bool,
    pub run: Finished,
}

// The answer, with the run's last state beside it: `pick_refused` of specs/Pick.antt says that a refused pick has the empty state there.
#[derive(Clone, Copy)]
pub struct Picked {
    pub outcome: Result<Sought, PickRefusal>,
    pub state: Masks,
}

// The format's number for a refusal.
impl From<PickRefusal> for u8 {
    ghost from_gives = { λ r n. n ≡ pick_number r };

    fn from(r: PickRefusal) -> u8 {
        match r {
            PickRefusal::Sheet(s) => u8::from(s),
            PickRefusal::Buffer => 10,
            PickRefusal::ResultLength => 20,
        }
    }
}

// A refused pick answers the reason only.
fn refused(r: PickRefusal) -> Picked
    ensures { result ≡ (pick_refused r [] []).answer }
{
    let state = problem::empty_masks();
    Picked {
        outcome: Err(r),
        state,
    }
}

// The first plan of what the run left, put back into the lent plan by the run's own trace. Where there is none the plan stays as it was.
fn put_first(t: &[u16], last: Masks, trace: &[u8], plan: &mut [u8]) -> bool
    requires { RowTable t.now × ((last ≡ masks_of (left_by (held t.now))) × ((trace.now ≡ run_trace (held t.now)) × (length plan.old ≡ (held t.now).n))) }
    ensures { (result ≡ (first_left (held t.now)).ok) × (plan.new ≡ plan_left (held t.now) plan.old) }
{
    let found = first_plan::first_plan(t, last, [255u8; 32]);
    if !found.ok {
        return false;
    }
    let first = found.plan;
    let n = plan.len();
    // This plan is never refused: it is one of what the run left, and has a byte for each variable.
    let _ = putting_back::put_back_over(t, trace, &first[..n], plan);
    true
}

// The run, and a plan where there is one, over a filled table, with buffers that have the lengths asked for.
fn pick_sized(t: &[u16], trace: &mut [u8], plan: &mut [u8]) -> Picked
    requires { RowTable t.now × ((1 + 5 * size_sum (held t.now) ≤ length trace.old) × (length plan.old ≡ (held t.now).n)) }
    ensures answer { result ≡ (pick_done (held t.now) trace.old plan.old).answer }
    ensures trace { trace.new ≡ (pick_done (held t.now) trace.old plan.old).trace }
    ensures plan { plan.new ≡ (pick_done (held t.now) trace.old plan.old).plan }
{
    let done = waiting_run::run_table(t, trace);
    let state = done.state;
    match done.outcome {
        Ok(run) => {
            let plan = put_first(t, state, &trace[..run.written], plan);
            Picked {
                outcome: Ok(Sought { plan, run }),
                state,
            }
        }
        Err(_) => refused(PickRefusal::Buffer),
    }
}

// Picking over a filled table: the buffers are tested first, the trace's by the sizes and then the plan's by the variables. A refused pick
// leaves both as they were.
pub fn pick_over(t: &[u16], trace: &mut [u8], plan: &mut [u8]) -> Picked
    requires { RowTable t.now }
    ensures answer { result ≡ (pick_over (held t.now) trace.old plan.old).answer }
    ensures trace { trace.new ≡ (pick_over (held t.now) trace.old plan.old).trace }
    ensures plan { plan.new ≡ (pick_over (held t.now) trace.old plan.old).plan }
{
    if trace.len() < 1 + 5 * size_sum(t) {
        return refused(PickRefusal::Buffer);
    }
    if plan.len() != held::variables(t) {
        return refused(PickRefusal::ResultLength);
    }
    pick_sized(t, trace, plan)
}

// Picking: lent a sheet, a trace buffer and a buffer for the plan. A refused pick leaves both as they were.
pub fn pick(s: &[u8], trace: &mut [u8], plan: &mut [u8]) -> Picked
    ensures answer { result ≡ (pick_job s.now trace.old plan.old).answer }
    ensures trace { trace.new ≡ (pick_job s.now trace.old plan.old).trace }
    ensures plan { plan.new ≡ (pick_job s.now trace.old plan.old).plan }
{
    let mut t = table::blank_table();
    match read_sheet::read_table(s, &mut t) {
        Ok(_) => pick_over(&t, trace, plan),
        Err(r) => refused(PickRefusal::Sheet(r)),
    }
}

// ---- from C

// The number of an answer that is no refusal.
fn done_number(found: Sought) -> u64
    requires { PickFits (Ok found) }
    ensures { result ≡ crossed_number (Ok found) }
{
    let run = found.run;
    256 * (run::end_number(run.end) as u64
        + 256
            * (run.steps as u64
                + 65536 * (run.written as u64 + 65536 * bounded::one_if(found.plan) as u64)))
}

// The number of an answer: the refusal's, or the run's own and whether a plan was written.
pub fn picked_number(o: Result<Sought, PickRefusal>) -> u64
    requires { PickFits o }
    ensures { result ≡ crossed_number o }
{
    match o {
        Ok(found) => done_number(found),
        Err(r) => u8::from(r) as u64,
    }
}

// The last state, with a plan and with none; a refusal writes nothing.
pub fn put_picked_state(b: &mut [u8], o: Result<Sought, PickRefusal>, m: Masks)
    requires { length b.old ≡ state_length }
    ensures { b.new ≡ crossed_state o m b.old }
{
    match o {
        Ok(_) => put_state(b, m),
        Err(_) => {}
    }
}

// Picking a plan. As the run's answer, and bit 48: whether a plan was written. The state is written with a plan and with none, the plan
// only with one. A refused pick writes nothing.
pub fn pick_call(sheet: &[u8], trace: &mut [u8], plan: &mut [u8], state: &mut [u8]) -> u64
    ensures answer { result ≡ (pick_call sheet.now trace.old plan.old state.old).answer }
    ensures trace { trace.new ≡ (pick_call sheet.now trace.old plan.old state.old).trace }
    ensures plan { plan.new ≡ (pick_call sheet.now trace.old plan.old state.old).plan }
    ensures state { state.new ≡ (pick_call sheet.now trace.old plan.old state.old).state }
{
    if state.len() != boundary::STATE_LENGTH {
        return boundary::bad_state();
    }
    let done = pick(sheet, trace, plan);
    let outcome = done.outcome;
    let last = done.state;
    put_picked_state(state, outcome, last);
    picked_number(outcome)
}
