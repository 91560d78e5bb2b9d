// The whole text that plan_sheet prints for a sheet, written to the front of a lent buffer: the run's text and the plan's line.
#![tactic(auto)]

ghost use Rattle.std.specs.Prelude.{◌≡◌, ◌+◌, ◌*◌, ◌≤◌, length, replicate};
ghost use Rattle.sheet.specs.Sheet.{layout, Keeps};
ghost use Rattle.sheet.specs.Relation.{problem_of};
ghost use Rattle.buffers.specs.Written.{fronted, written};
ghost use Rattle.fields.specs.Print.{fields_text};
ghost use Rattle.plan_report.specs.Planned.{plan_line, found_line, planned_lines, planned_room, planned_text, Picks};

use fields::{put_byte, put_bytes, put_field};
use problem::{End, Masks};

// ---- the plan's line

// A field for each setting.
fn put_settings(out: &mut [u8], at: usize, plan: &[u8]) -> usize
    requires { at + 6 * length plan.now ≤ length out.old }
    ensures text { (out.new ≡ written out.old at (fields_text plan.now)) × (result ≡ at + length (fields_text plan.now)) }
    ensures within { result ≤ at + 6 * length plan.now }
{
    let mut end = at;
    for k in 0..plan.len() {
        end = put_field(out, end, plan[k] as usize);
    }
    end
}

// "`plan` and the setting of each item, item 0 first".
fn put_plan_line(out: &mut [u8], at: usize, plan: &[u8]) -> usize
    requires { at + (5 + 6 * length plan.now) ≤ length out.old }
    ensures text { (out.new ≡ written out.old at (plan_line plan.now)) × (result ≡ at + length (plan_line plan.now)) }
    ensures within { result ≤ at + (5 + 6 * length plan.now) }
{
    let p = put_bytes(out, at, b"plan");
    let q = put_settings(out, p, plan);
    put_byte(out, q, 10)
}

// The plan's line, or "no plan".
fn put_found_line(out: &mut [u8], at: usize, found: bool, plan: &[u8]) -> usize
    requires { (length plan.now ≤ 32) × (at + 256 ≤ length out.old) }
    ensures text { (out.new ≡ written out.old at (found_line found plan.now)) × (result ≡ at + length (found_line found plan.now)) }
    ensures within { result ≤ at + 256 }
{
    if found {
        return put_plan_line(out, at, plan);
    }
    put_bytes(out, at, b"no plan\n")
}

// ---- the text

// The text of a pick that was not refused: the run's, and the plan's line.
fn put_picked(
    out: &mut [u8],
    s: &[u8],
    trace: &[u8],
    plan: &[u8],
    found: bool,
    end: End,
    steps: usize,
    m: Masks,
) -> usize
    requires { Keeps layout s.now × (Picks (problem_of layout s.now) trace.now plan.now found end steps m × (planned_room ≤ length out.old)) }
    ensures text { (out.new ≡ written out.old 0 (planned_lines s.now)) × (result ≡ length (planned_lines s.now)) }
    ensures within { result ≤ planned_room }
{
    let p = report::put_run(out, s, trace, end, steps, m);
    put_found_line(out, p, found, plan)
}

// The text for a sheet that keeps the layout. The lent plan has 255 for each item, and the trace's buffer is long enough for every sheet: so
// no pick is refused here.
fn put_kept(out: &mut [u8], s: &[u8], plan: &mut [u8]) -> usize
    requires { Keeps layout s.now × ((plan.old ≡ replicate (problem_of layout s.now).n 255) × (planned_room ≤ length out.old)) }
    ensures text { (out.new ≡ written out.old 0 (planned_lines s.now)) × (result ≡ length (planned_lines s.now)) }
    ensures within { result ≤ planned_room }
{
    let mut trace = [0u8; 2561];
    let picked = pick::pick(s, &mut trace, plan);
    match picked.outcome {
        Ok(found) => {
            let run = found.run;
            put_picked(
                out,
                s,
                &trace,
                plan,
                found.plan,
                run.end,
                run.steps,
                picked.state,
            )
        }
        Err(_) => 0,
    }
}

// The text for a buffer with room for it.
fn put_sheet(out: &mut [u8], s: &[u8]) -> usize
    requires { planned_room ≤ length out.old }
    ensures text { (out.new ≡ written out.old 0 (planned_lines s.now)) × (result ≡ length (planned_lines s.now)) }
    ensures within { result ≤ planned_room }
{
    match read_sheet::read_sheet(s) {
        Ok(counts) => {
            let mut plan = [255u8; 32];
            put_kept(out, s, &mut plan[..counts.variables])
        }
        Err(r) => text::put_refused_line(out, 0, u8::from(r) as usize),
    }
}

// The text that plan_sheet prints for the bytes of a sheet, at the front of a buffer of at least 33,024 bytes; in a shorter one nothing. The
// number of bytes written.
pub fn plan_report(s: &[u8], out: &mut [u8]) -> usize
    ensures text { (out.new ≡ fronted (planned_text s.now (length out.old)) out.old) × (result ≡ length (planned_text s.now (length out.old))) }
    ensures within { result ≤ length out.old }
{
    if out.len() < 33024 {
        return 0;
    }
    put_sheet(out, s)
}
