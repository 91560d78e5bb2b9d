// Putting back, the format's third job: the lengths, the trace, the plan for the items left, and the records undone.
#![tactic(auto)]

ghost use Rattle.put_back.specs.Call.{put_back_call};
ghost use Rattle.std.specs.Prelude.{◌≡◌, true, false, ◌<◌, ◌≤◌, length};
ghost use Rattle.bounded.specs.Quantifiers.{all_below};
ghost use Rattle.problem.specs.Problem.{full};
ghost use Rattle.problem.specs.PutBack.{plan_of};
ghost use Rattle.problem.specs.Held.{held, RowTable};
ghost use Rattle.problem.specs.Masks.{state_of, masks_of, Proper};
ghost use Rattle.put_back.specs.PutBack.{plan_fits, check_trace, after_check, put_back_over, put_back_job};
ghost use Rattle.replay.specs.Walk.{walk_ended, lawful_end};
ghost use Rattle.putting_back.specs.Plan.{entry_fits, Entries, pair_fits, pairs_of};

use bounded::Set;
use held::{View, is_live};
use problem::Masks;
use put_back::PutBackRefusal;
use replay::check_trace;
use undo::undo_all;

// ---- the plan

// An item in has a setting on, and an item out has 255.
fn entry_fits(m: &Masks, i: usize, v: usize) -> bool
    requires { Proper m.now × (i < 32) }
    ensures { result ≡ entry_fits (state_of m.now) i v }
{
    if m.active.has(i) {
        is_live(m.active, &m.domains, i, v)
    } else {
        v == 255
    }
}

fn entries_fit(m: &Masks, plan: &[u8]) -> bool
    requires { Proper m.now × (length plan.now ≤ 32) }
    ensures { result ≡ all_below (length plan.now) (λ i. entry_fits (state_of m.now) i (plan_of plan.now i)) }
{
    for (i, v) in plan.iter().enumerate() {
        if !entry_fits(m, i, *v as usize) {
            return false;
        }
    }
    true
}

// Two items in have an allowed pair.
fn pair_fits(view: View, plan: &[u8], i: usize, j: usize) -> bool
    requires { Entries view.state.now plan.now × ((i < length plan.now) × (j < length plan.now)) }
    ensures { result ≡ pair_fits (held view.entry.table.now) (state_of view.entry.state.now) (plan_of plan.now) i j }
{
    if view.state.active.has(i) & (view.state.active.has(j) & (i != j)) {
        held::pair_allowed(view.table, i, plan[i] as usize, j, plan[j] as usize)
    } else {
        true
    }
}

fn pairs_of(view: View, plan: &[u8], i: usize) -> bool
    requires { Entries view.state.now plan.now × ((length plan.now ≡ (held view.table.now).n) × (i < length plan.now)) }
    ensures { result ≡ pairs_of (held view.entry.table.now) (state_of view.entry.state.now) (plan_of plan.now) i }
{
    for j in 0..plan.len() {
        if !pair_fits(view, plan, i, j) {
            return false;
        }
    }
    true
}

fn pairs_fit(view: View, plan: &[u8]) -> bool
    requires { Entries view.state.now plan.now × (length plan.now ≡ (held view.table.now).n) }
    ensures { result ≡ all_below (held view.entry.table.now).n (pairs_of (held view.entry.table.now) (state_of view.entry.state.now) (plan_of plan.now)) }
{
    for i in 0..plan.len() {
        if !pairs_of(view, plan, i) {
            return false;
        }
    }
    true
}

// The plan is one for the items left: each entry by itself first, since only a setting on has a row to read.
fn plan_fits(view: View, plan: &[u8]) -> bool
    requires { length plan.now ≡ (held view.table.now).n }
    ensures { result ≡ plan_fits (held view.entry.table.now) (state_of view.entry.state.now) plan.now }
{
    if entries_fit(view.state, plan) {
        pairs_fit(view, plan)
    } else {
        false
    }
}

// ---- the job

// Copies the plan into the result. Not by `copy_from_slice`, which calls memmove: the header promises callers from C that the library calls
// memset and memcpy alone.
fn copy(plan: &[u8], out: &mut [u8])
    requires { length plan.now ≡ length out.old }
    ensures { out.new ≡ plan.now }
{
    for i in 0..plan.len() {
        out[i] = plan[i];
    }
}

// The plan tested against the last state, and the records undone from the first.
fn finish(
    t: &[u16],
    first: Masks,
    last: Masks,
    trace: &[u8],
    plan: &[u8],
    out: &mut [u8],
) -> Result<(), PutBackRefusal>
    requires { RowTable t.now × ((first ≡ masks_of (full (held t.now))) × ((walk_ended (held t.now) (full (held t.now)) (check_trace (held t.now) trace.now) ≡ lawful_end last) × ((length plan.now ≡ (held t.now).n) × (length out.old ≡ (held t.now).n)))) }
    ensures { (result ≡ (after_check (held t.now) plan.now out.old (check_trace (held t.now) trace.now)).answer) × (out.new ≡ (after_check (held t.now) plan.now out.old (check_trace (held t.now) trace.now)).result) }
{
    let left = View {
        table: t,
        state: &last,
    };
    if !plan_fits(left, plan) {
        return Err(PutBackRefusal::Plan);
    }
    copy(plan, out);
    let whole = View {
        table: t,
        state: &first,
    };
    undo_all(whole, trace, out);
    Ok(())
}

// The trace, then the plan, over a filled table, with a plan and a result of a byte for each variable.
fn put_back_sized(
    t: &[u16],
    trace: &[u8],
    plan: &[u8],
    out: &mut [u8],
) -> Result<(), PutBackRefusal>
    requires { RowTable t.now × ((length plan.now ≡ (held t.now).n) × (length out.old ≡ (held t.now).n)) }
    ensures { (result ≡ (after_check (held t.now) plan.now out.old (check_trace (held t.now) trace.now)).answer) × (out.new ≡ (after_check (held t.now) plan.now out.old (check_trace (held t.now) trace.now)).result) }
{
    let first = held::full_masks(t);
    let end = check_trace(t, trace, first);
    end.check?;
    finish(t, first, end.state, trace, plan, out)
}

// Putting back over a filled table: the lengths first, by its variables, then the trace and the plan. The plan of the whole problem from one
// for the variables left. A refusal leaves the result as it was.
pub fn put_back_over(
    t: &[u16],
    trace: &[u8],
    plan: &[u8],
    out: &mut [u8],
) -> Result<(), PutBackRefusal>
    requires { RowTable t.now }
    ensures { (result ≡ (put_back_over (held t.now) trace.now plan.now out.old).answer) × (out.new ≡ (put_back_over (held t.now) trace.now plan.now out.old).result) }
{
    let n = held::variables(t);
    if plan.len() != n {
        return Err(PutBackRefusal::PlanLength);
    }
    if out.len() != n {
        return Err(PutBackRefusal::ResultLength);
    }
    put_back_sized(t, trace, plan, out)
}

// Puts back what a trace took out: the plan of the whole sheet from one for the items left. A refusal leaves the result as it was.
pub fn put_back(s: &[u8], trace: &[u8], plan: &[u8], out: &mut [u8]) -> Result<(), PutBackRefusal>
    ensures { (result ≡ (put_back_job s.now trace.now plan.now out.old).answer) × (out.new ≡ (put_back_job s.now trace.now plan.now out.old).result) }
{
    let mut t = table::blank_table();
    read_sheet::read_table(s, &mut t)?;
    put_back_over(&t, trace, plan, out)
}

// ---- from C

// Putting back. Bits 0-7: the refusal's number, 0 where the result was written. Where it is 17, bits 8-23: the number of the record that is
// not lawful; bits 24-31: the item and bits 32-39: the setting where its cover breaks, 255 for both where none is named.
pub fn put_back_call(sheet: &[u8], trace: &[u8], plan: &[u8], res: &mut [u8]) -> u64
    ensures answer { result ≡ (put_back_call sheet.now trace.now plan.now res.old).answer }
    ensures res { res.new ≡ (put_back_call sheet.now trace.now plan.now res.old).result }
{
    let done = put_back(sheet, trace, plan, res);
    put_back::put_back_answer(done)
}
