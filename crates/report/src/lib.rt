// The whole text that the program prints for a sheet, written to the front of a lent buffer.
#![tactic(auto)]

ghost use Rattle.std.specs.Prelude.{◌≡◌, ◌+◌, ◌*◌, ◌≤◌, length};
ghost use Rattle.bounded.specs.Quantifiers.{count_below, sum_to};
ghost use Rattle.bounded.specs.Mask.{bit};
ghost use Rattle.problem.specs.Problem.{size_sum};
ghost use Rattle.problem.specs.Masks.{state_of};
ghost use Rattle.buffers.specs.Bytes.{Is};
ghost use Rattle.sheet.specs.Sheet.{layout, Keeps};
ghost use Rattle.sheet.specs.Relation.{problem_of};
ghost use Rattle.buffers.specs.Written.{fronted, written};
ghost use Rattle.fields.specs.Print.{step_lines, run_lines, sheet_lines};
ghost use Rattle.report.specs.Records.{records_in};
ghost use Rattle.report.specs.Report.{report_room, report_text, Ran};

use bounded::Set;
use buffers::byte;
use problem::{End, Masks};
use trace::RecordRead;

// ---- counts of the last state

// How many numbers below n are in a set.
fn count_bits(x: u32, n: usize) -> usize
    requires { n ≤ 32 }
    ensures is { result ≡ count_below n (λ c. bit x c) }
    ensures within { result ≤ n }
{
    let mut sum: usize = 0;
    for c in 0..n {
        sum += bounded::one_if(x.has(c));
    }
    sum
}

// How many values are in the domains.
fn count_values(m: Masks) -> usize
    ensures is { result ≡ sum_to 32 (λ i. count_below 16 ((state_of m).live i)) }
    ensures within { result ≤ 512 }
{
    let mut sum: usize = 0;
    for i in 0..32 {
        sum += count_bits(m.domains[i] as u32, 16);
    }
    sum
}

// ---- the step lines

// A line for each of the records that stand from the place 1 of a trace, at most `steps` of them, numbered from 1.
fn put_steps(out: &mut [u8], at: usize, trace: &[u8], steps: usize) -> usize
    requires { (steps ≤ 512) × (at + 30 * steps ≤ length out.old) }
    ensures text { (out.new ≡ written out.old at (step_lines 1 (records_in steps trace.now 1))) × (result ≡ at + length (step_lines 1 (records_in steps trace.now 1))) }
    ensures within { result ≤ at + 30 * steps }
{
    let mut place: usize = 1;
    let mut end = at;
    for k in 0..steps {
        match trace::record_at(trace, place) {
            RecordRead::Read { record, next } => {
                end = text::put_step_line(out, end, k + 1, record);
                place = next;
            }
            RecordRead::End => return end,
            RecordRead::Malformed => return end,
        }
    }
    end
}

// ---- the text

// The sum of the sizes that a sheet lists.
fn size_sum(s: &[u8]) -> usize
    requires { Keeps layout s.now }
    ensures { Is (size_sum (problem_of layout s.now)) 513 result }
{
    let n = byte(s, 5);
    let mut sum: usize = 0;
    for i in 0..n {
        sum += byte(s, 8 + i);
    }
    sum
}

// The text of a run that was not refused: the first line, the step lines and the last line.
pub fn put_run(out: &mut [u8], s: &[u8], trace: &[u8], end: End, steps: usize, m: Masks) -> usize
    requires { Keeps layout s.now × (Ran (problem_of layout s.now) trace.now end steps m × (report_room ≤ length out.old)) }
    ensures text { (out.new ≡ written out.old 0 (run_lines (problem_of layout s.now))) × (result ≡ length (run_lines (problem_of layout s.now))) }
    ensures within { result ≤ report_room }
{
    let n = s[5] as usize;
    let sum = size_sum(s);
    let variables = count_bits(m.active, 32);
    let values = count_values(m);
    let p = text::put_first_line(out, 0, n, sum);
    let q = put_steps(out, p, trace, steps);
    text::put_last_line(out, q, end, steps, variables, values)
}

// The text for a buffer with room for it. The trace's buffer is long enough for every sheet.
fn put_sheet(out: &mut [u8], s: &[u8]) -> usize
    requires { report_room ≤ length out.old }
    ensures text { (out.new ≡ written out.old 0 (sheet_lines s.now)) × (result ≡ length (sheet_lines s.now)) }
    ensures within { result ≤ report_room }
{
    let mut trace = [0u8; 2561];
    let done = waiting_run::run_sheet(s, &mut trace);
    match done.outcome {
        Ok(run) => put_run(out, s, &trace, run.end, run.steps, done.state),
        Err(r) => text::put_refused_line(out, 0, u8::from(r) as usize),
    }
}

// The text that the program prints for the bytes of a sheet, at the front of a buffer of at least 32,768 bytes; in a shorter one
// nothing. The number of bytes written.
pub fn report(s: &[u8], out: &mut [u8]) -> usize
    ensures text { (out.new ≡ fronted (report_text s.now (length out.old)) out.old) × (result ≡ length (report_text s.now (length out.old))) }
    ensures within { result ≤ length out.old }
{
    if out.len() < 32768 {
        return 0;
    }
    put_sheet(out, s)
}
