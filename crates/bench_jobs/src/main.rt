// Runs the bench cases of the jobs that write a sheet: each line of standard input is a job and its input as hexadecimal digits, and
// each answer is one line. A line that starts with # is passed over. What is written is compared with the file stdout.
//
// How the input is read, and what ends the program, is `cases::run`'s.
#![tactic(auto)]

ghost use Rattle.std.specs.Prelude.{◌≤◌, length};
ghost use Rattle.cases.specs.Counts.{IsPrefixLen};

use std::io;
use std::io::{Input, Write};

// A line `colo CHANNELS LENGTH SIZE HEAD TAIL`: the sheet of a colouring file. The channels are 16 digits, the bytes of the buffer four. The
// file has SIZE bytes, eight digits: those of HEAD, and then those of TAIL again and again.
fn do_colour<W: Write>(answers: &mut W, fields: &[u8]) -> io::Result<()> {
    let channels = cases::number(fields, 0, 16);
    let more = &fields[cases::next_field(fields)..];
    let long = cases::number(more, 0, 4);
    let rest = &more[cases::next_field(more)..];
    let size = cases::number(rest, 0, 8);
    let mut file = [0u8; 65537];
    let n = fill_file(&rest[cases::next_field(rest)..], &mut file, size as usize);
    let mut b = [0u8; 32768];
    cases::fill_pattern(&mut b);
    let k = cases::lent(long, &b);
    colour_part(answers, &file[..n], channels, &mut b[..k])
}

// The file of two fields: how many bytes it has, as many as there is room for.
fn fill_file(fields: &[u8], file: &mut [u8], size: usize) -> usize
    ensures { IsPrefixLen result file.new }
{
    let head = cases::bytes(fields, file);
    let tail = cases::bytes(&fields[cases::next_field(fields)..], &mut file[head..]);
    repeat(file, head + tail, tail, size)
}

// Fills the file from a place on with what stands before the place, so many bytes again and again.
fn repeat(file: &mut [u8], from: usize, period: usize, size: usize) -> usize
    requires period_le_from { period ≤ from }
    requires from_in_bounds { from ≤ length file.old }
    ensures { IsPrefixLen result file.new }
{
    let end = size.min(file.len());
    for at in from..end {
        file[at] = file[at - period];
    }
    end
}

// The sheet of a file, into a buffer.
fn colour_part<W: Write>(
    answers: &mut W,
    file: &[u8],
    channels: u64,
    b: &mut [u8],
) -> io::Result<()> {
    let a = colour::colour(file, channels, b);
    show_answer(answers, a, b)
}

// What a job answers, the bytes written or a refusal, and the buffer that it was lent.
fn show_answer<W: Write, E>(answers: &mut W, a: Result<usize, E>, b: &[u8]) -> io::Result<()>
where
    u8: From<E>,
{
    match a {
        Ok(n) => {
            cases::show_number(answers, b"written ", n)?;
        }
        Err(r) => {
            cases::show_number(answers, b"refused ", u8::from(r) as usize)?;
        }
    }
    cases::show_buffer(answers, b)
}

// A line `move LENGTH SHEET`: the sheet in the other version. The bytes of the target are four digits.
fn do_move<W: Write>(answers: &mut W, fields: &[u8]) -> io::Result<()> {
    let long = cases::number(fields, 0, 4);
    let mut sheet = [0u8; 65536];
    let n = cases::bytes(&fields[cases::next_field(fields)..], &mut sheet);
    let mut b = [0u8; 32768];
    cases::fill_pattern(&mut b);
    let k = cases::lent(long, &b);
    move_part(answers, &sheet[..n], &mut b[..k])
}

// The move of a sheet into a target.
fn move_part<W: Write>(answers: &mut W, s: &[u8], target: &mut [u8]) -> io::Result<()> {
    let a = moved::move_sheet(s, target);
    show_answer(answers, a, target)
}

fn main(rt: HostRuntime) -> io::Result<()> {
    cases::run(
        &mut rt.reader(),
        &mut io::writer(&rt),
        |answers, job, fields| match job {
            b'c' => do_colour(answers, fields),
            b'm' => do_move(answers, fields),
            _ => Ok(()),
        },
    )
}
