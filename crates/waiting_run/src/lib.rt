// The run of the format: step by step to its end, with its trace in a lent buffer. Variables are the format's items, values its settings.
#![tactic(auto)]

ghost use Rattle.run.specs.Call.{run_call};
ghost use Rattle.std.specs.Prelude.{◌≡◌, [], ◌≤◌, ◌+◌, ◌*◌, length, set};
ghost use Rattle.problem.specs.Problem.{size_sum};
ghost use Rattle.problem.specs.Run.{end_of};
ghost use Rattle.problem.specs.Held.{held, RowTable};
ghost use Rattle.problem.specs.Masks.{state_of};
ghost use Rattle.run.specs.Run.{run_refused, run_done, run_over, run_job};

use held::{View, full_masks, size_sum};
use problem::{End, Masks};
use run::{Finished, RunAnswer, RunRefusal};
use waiting::{Memory, ROWS, WAITING};
use waiting_search::{advance, next_step};
use waiting_unsupported::first_unsupported;

// ---- the end

// How a run ends that ends in this state.
fn end_of(view: View) -> End
    ensures { result ≡ end_of (held view.entry.table.now) (state_of view.entry.state.now) }
{
    if !view.none_empty() {
        return End::Impossible;
    }
    if view.state.active == 0 {
        return End::Solved;
    }
    End::Rest
}

// ---- the run

// Byte 0 of a trace: version 1.
fn write_version(b: &mut [u8])
    requires { 1 ≤ length b.old }
    ensures { b.new ≡ set b.old 0 1 }
{
    b[0] = 1;
}

// The run over a filled table, its trace at the front of a buffer with room for the longest. Each step uses up a value, so it ends.
pub fn run_table(t: &[u16], b: &mut [u8]) -> RunAnswer
    requires { RowTable t.now × (1 + 5 * size_sum (held t.now) ≤ length b.old) }
    ensures { (result ≡ (run_done (held t.now) b.old).answer) × (b.new ≡ (run_done (held t.now) b.old).buffer) }
{
    write_version(b);
    let mut state = full_masks(t);
    let mut words = [0u16; 32];
    let first = View {
        table: t,
        state: &state,
    };
    first_unsupported(first, &mut words);
    // Written out, so that it is built where it stays: two copies of it would not fit the stack that the header asks for.
    let mut memory = Memory {
        pending: [65535u16; ROWS],
        waiting: [0u16; WAITING],
    };
    let mut at: usize = 1;
    let mut steps: usize = 0;
    loop {
        let view = View {
            table: t,
            state: &state,
        };
        match next_step(view, &words, &mut memory) {
            Some(r) => {
                at = trace::write_record(b, at, r);
                state = advance(view, &mut words, &mut memory, r);
                steps += 1;
            }
            None => {
                let end = end_of(view);
                return RunAnswer {
                    outcome: Ok(Finished {
                        end,
                        steps,
                        written: at,
                    }),
                    state,
                };
            }
        }
    }
}

// A refused run answers the reason only.
fn refused(r: RunRefusal) -> RunAnswer
    ensures { result ≡ (run_refused r []).answer }
{
    let state = problem::empty_masks();
    RunAnswer {
        outcome: Err(r),
        state,
    }
}

// The run over a filled table: the buffer is tested first, by the table's sizes. A refused run leaves the buffer as it was.
pub fn run_over(t: &[u16], b: &mut [u8]) -> RunAnswer
    requires { RowTable t.now }
    ensures { (result ≡ (run_over (held t.now) b.old).answer) × (b.new ≡ (run_over (held t.now) b.old).buffer) }
{
    if b.len() < 1 + 5 * size_sum(t) {
        return refused(RunRefusal::Buffer);
    }
    run_table(t, b)
}

// The run: lent a sheet and a buffer for the trace. A refused run leaves the buffer as it was.
pub fn run_sheet(s: &[u8], b: &mut [u8]) -> RunAnswer
    ensures { (result ≡ (run_job s.now b.old).answer) × (b.new ≡ (run_job s.now b.old).buffer) }
{
    let mut t = table::blank_table();
    match read_sheet::read_table(s, &mut t) {
        Ok(_) => run_over(&t, b),
        Err(r) => refused(RunRefusal::Sheet(r)),
    }
}

// ---- from C

// The run. Bits 0-7: the refusal's number, 0 where there is none; bits 8-15: the end; bits 16-31: the steps; bits 32-47: the bytes
// written. A refused run writes neither the trace nor the state.
pub fn run_call(sheet: &[u8], trace: &mut [u8], state: &mut [u8]) -> u64
    ensures answer { result ≡ (run_call sheet.now trace.old state.old).answer }
    ensures trace { trace.new ≡ (run_call sheet.now trace.old state.old).trace }
    ensures state { state.new ≡ (run_call sheet.now trace.old state.old).state }
{
    if state.len() != boundary::STATE_LENGTH {
        return boundary::bad_state();
    }
    let done = run_sheet(sheet, trace);
    let outcome = done.outcome;
    let last = done.state;
    run::put_ran_state(state, outcome, last);
    run::ran_number(outcome)
}
