// Runs the bench cases: each line of standard input is a job and its input as hexadecimal digits, and each answer is one line.
// A line that starts with # is passed over. What is written is compared with the file stdout.
//
// How the input is read, and what ends the program, is `cases::run`'s: the longest case is half of the longest line that it takes.
#![tactic(auto)]

use hand::{CallAnswer, HandState, StartAnswer};
use pick::Picked;
use problem::Masks;
use put_back::PutBackRefusal;
use run::{Finished, RunAnswer};
use sheet::{Counts, SheetRefusal};
use std::io;
use std::io::{Input, Write};

// A line `read SHEET`.
fn do_read<W: Write>(answers: &mut W, fields: &[u8]) -> io::Result<()> {
    let mut sheet = [0u8; 65536];
    let n = cases::bytes(fields, &mut sheet);
    show_read(answers, read_sheet::read_sheet(&sheet[..n]))
}

fn show_read<W: Write>(answers: &mut W, a: Result<Counts, SheetRefusal>) -> io::Result<()> {
    match a {
        Ok(counts) => {
            cases::show_number(answers, b"accepted ", counts.variables)?;
            cases::show_number(answers, b" ", counts.blocks)?;
        }
        Err(r) => show_refused(answers, u8::from(r))?,
    }
    cases::show(answers, b"\n")
}

fn show_refused<W: Write>(answers: &mut W, number: u8) -> io::Result<()> {
    cases::show_number(answers, b"refused ", number as usize)
}

// A line `work LENGTH SHEET`: the run with a buffer of so many bytes, four digits.
fn do_work<W: Write>(answers: &mut W, fields: &[u8]) -> io::Result<()> {
    let long = cases::number(fields, 0, 4);
    let mut sheet = [0u8; 65536];
    let n = cases::bytes(&fields[cases::next_field(fields)..], &mut sheet);
    let mut b = [0u8; 4096];
    cases::fill_pattern(&mut b);
    let k = cases::lent(long, &b);
    run_part(answers, &sheet[..n], &mut b[..k])
}

// The run of a sheet with a trace's buffer.
fn run_part<W: Write>(answers: &mut W, s: &[u8], b: &mut [u8]) -> io::Result<()> {
    let a = waiting_run::run_sheet(s, b);
    show_run(answers, a, b)
}

fn show_run<W: Write>(answers: &mut W, a: RunAnswer, b: &[u8]) -> io::Result<()> {
    match a.outcome {
        Ok(run) => show_ran(answers, b"done ", run, a.state)?,
        Err(r) => show_refused(answers, u8::from(r))?,
    }
    cases::show_buffer(answers, b)
}

// A word, and the run's answer behind it.
fn show_ran<W: Write>(answers: &mut W, word: &[u8], run: Finished, m: Masks) -> io::Result<()> {
    cases::show_number(answers, word, run::end_number(run.end) as usize)?;
    let steps = run.steps;
    let written = run.written;
    write!(answers, " {steps} {written} ")?;
    cases::show_masks(answers, m)
}

// A line `star SHEET`: the start.
fn do_start<W: Write>(answers: &mut W, fields: &[u8]) -> io::Result<()> {
    let mut sheet = [0u8; 65536];
    let n = cases::bytes(fields, &mut sheet);
    show_start(answers, start::start(&sheet[..n]))
}

fn show_start<W: Write>(answers: &mut W, a: StartAnswer) -> io::Result<()> {
    match a.outcome {
        Ok(()) => cases::show(answers, b"started")?,
        Err(r) => show_refused(answers, u8::from(r))?,
    }
    show_state(answers, a.state)
}

// The state at the end of an answer's line.
fn show_state<W: Write>(answers: &mut W, s: HandState) -> io::Result<()> {
    write!(answers, " ")?;
    cases::show_masks(answers, s.masks)?;
    writeln!(answers)
}

// A line `hand ITEM STATE SHEET`: the item as 16 digits, the state as 136.
fn do_hand<W: Write>(answers: &mut W, fields: &[u8]) -> io::Result<()> {
    let item = cases::number(fields, 0, 16);
    let more = &fields[cases::next_field(fields)..];
    let masks = cases::masks(more);
    let mut sheet = [0u8; 65536];
    let n = cases::bytes(&more[cases::next_field(more)..], &mut sheet);
    show_call(
        answers,
        hand_call::hand_call(&sheet[..n], HandState { masks }, item),
    )
}

fn show_call<W: Write>(answers: &mut W, a: CallAnswer) -> io::Result<()> {
    match a.outcome {
        Ok(v) => cases::show_number(answers, b"taken ", v)?,
        Err(r) => show_refused(answers, u8::from(r))?,
    }
    show_state(answers, a.state)
}

// A line `back SHEET TRACE PLAN RESULT`: putting back, the result's buffer as it is before.
fn do_back<W: Write>(answers: &mut W, fields: &[u8]) -> io::Result<()> {
    let mut sheet = [0u8; 65536];
    let n = cases::bytes(fields, &mut sheet);
    let more = &fields[cases::next_field(fields)..];
    let mut trace = [0u8; 4096];
    let k = cases::bytes(more, &mut trace);
    back_rest(
        answers,
        &more[cases::next_field(more)..],
        &sheet[..n],
        &trace[..k],
    )
}

// The plan and the result's buffer of a line whose sheet and trace are read.
fn back_rest<W: Write>(answers: &mut W, fields: &[u8], s: &[u8], trace: &[u8]) -> io::Result<()> {
    let mut plan = [0u8; 64];
    let k = cases::bytes(fields, &mut plan);
    let mut out = [0u8; 64];
    let n = cases::bytes(&fields[cases::next_field(fields)..], &mut out);
    back_part(answers, s, trace, &plan[..k], &mut out[..n])
}

// Putting back into a result's buffer.
fn back_part<W: Write>(
    answers: &mut W,
    s: &[u8],
    trace: &[u8],
    plan: &[u8],
    out: &mut [u8],
) -> io::Result<()> {
    let a = putting_back::put_back(s, trace, plan, out);
    show_back(answers, a, out)
}

// What a refusal carries, behind its number: of an unlawful record its number, the item and the setting.
fn show_carried<W: Write>(answers: &mut W, r: PutBackRefusal) -> io::Result<()> {
    match r {
        PutBackRefusal::Unlawful {
            record,
            variable,
            value,
        } => {
            cases::show_number(answers, b" ", record)?;
            cases::show_number(answers, b" ", variable)?;
            cases::show_number(answers, b" ", value)
        }
        PutBackRefusal::Sheet(_) => Ok(()),
        PutBackRefusal::PlanLength => Ok(()),
        PutBackRefusal::ResultLength => Ok(()),
        PutBackRefusal::TraceFront => Ok(()),
        PutBackRefusal::Malformed => Ok(()),
        PutBackRefusal::Plan => Ok(()),
    }
}

fn show_back<W: Write>(
    answers: &mut W,
    a: Result<(), PutBackRefusal>,
    out: &[u8],
) -> io::Result<()> {
    match a {
        Ok(()) => cases::show(answers, b"done")?,
        Err(r) => {
            show_refused(answers, u8::from(r))?;
            show_carried(answers, r)?;
        }
    }
    cases::show_buffer(answers, out)
}

// A line `pick LENGTH SHEET PLAN`: the trace's buffer has so many bytes, four digits, and the plan's buffer is as it is before.
fn do_pick<W: Write>(answers: &mut W, fields: &[u8]) -> io::Result<()> {
    let long = cases::number(fields, 0, 4);
    let more = &fields[cases::next_field(fields)..];
    let mut sheet = [0u8; 65536];
    let n = cases::bytes(more, &mut sheet);
    pick_rest(answers, &more[cases::next_field(more)..], &sheet[..n], long)
}

// The plan's buffer of a line whose sheet is read.
fn pick_rest<W: Write>(answers: &mut W, fields: &[u8], s: &[u8], long: u64) -> io::Result<()> {
    let mut plan = [0u8; 64];
    let n = cases::bytes(fields, &mut plan);
    let mut b = [0u8; 4096];
    cases::fill_pattern(&mut b);
    let k = cases::lent(long, &b);
    pick_part(answers, s, &mut b[..k], &mut plan[..n])
}

// Picking with a trace's and a plan's buffer.
fn pick_part<W: Write>(answers: &mut W, s: &[u8], b: &mut [u8], plan: &mut [u8]) -> io::Result<()> {
    let a = pick::pick(s, b, plan);
    show_pick(answers, a, b, plan)
}

fn show_pick<W: Write>(answers: &mut W, a: Picked, b: &[u8], plan: &[u8]) -> io::Result<()> {
    match a.outcome {
        Ok(found) => {
            let word: &[u8] = if found.plan { b"plan " } else { b"none " };
            show_ran(answers, word, found.run, a.state)?;
        }
        Err(r) => show_refused(answers, u8::from(r))?,
    }
    cases::show(answers, b" ")?;
    cases::show_bytes(answers, b)?;
    cases::show_buffer(answers, plan)
}

fn main(rt: HostRuntime) -> io::Result<()> {
    cases::run(
        &mut rt.reader(),
        &mut io::writer(&rt),
        |answers, job, fields| match job {
            b'r' => do_read(answers, fields),
            b'w' => do_work(answers, fields),
            b's' => do_start(answers, fields),
            b'h' => do_hand(answers, fields),
            b'b' => do_back(answers, fields),
            b'p' => do_pick(answers, fields),
            _ => Ok(()),
        },
    )
}
