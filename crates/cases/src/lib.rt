// A bench program: a text is read in pieces, a line is fields with a space between them, a field is a word or hexadecimal digits. The program
// brings what answers a line (`run`). And what an answer is written with: words, numbers, bytes and states. A line ends with a newline, or
// where the input ends.
#![tactic(auto)]

ghost use Rattle.std.specs.Prelude.{◌≡◌, ◌<◌, ◌≤◌, length, IfSome, IfOk, OnErr};
ghost use Rattle.cases.specs.Counts.{IsPrefixLen};

use problem::Masks;
use std::io;
use std::io::{Read, Write};

// ---- the text

// Reads and runs the input: each line goes to `job`, as the letter that names its job and the fields behind that word. The input is read in
// pieces into 65,536 bytes, so a line has at most that many, its newline included. A longer line ends the program with a line that says so.
pub fn run<R: Read, W: Write, J: Fn(&mut W, u8, &[u8]) -> io::Result<()>>(
    input: &mut R,
    answers: &mut W,
    job: J,
) -> io::Result<()>
    requires { J.IsAlwaysCallable job }
{
    let mut text = [0u8; 65536];
    pieces(input, answers, &mut text, &job)
}

// The pieces in turn. A proved loop has to end, and nothing says that the input does: the turns are more than any run uses up.
fn pieces<R: Read, W: Write, J: Fn(&mut W, u8, &[u8]) -> io::Result<()>>(
    input: &mut R,
    answers: &mut W,
    text: &mut [u8],
    job: &J,
) -> io::Result<()>
    requires { J.IsAlwaysCallable job.now }
{
    let mut held = 0;
    for _ in 0..u64::MAX {
        let n = read_on(input, text, held)?;
        if held < n {
            held = piece(answers, &mut text[..n], job)?;
        } else if n < text.len() {
            // no more can be read: the last line, if it has no newline
            return lines(answers, &text[..n], job);
        } else {
            // the start of a line that does not fit
            return show(answers, b"a line is too long\n");
        }
    }
    Ok(())
}

// Reads on behind the bytes that are held at the front: how many bytes the text has then. As many as before where the input has ended or
// the text is full.
pub fn read_on<R: Read>(input: &mut R, text: &mut [u8], held: usize) -> io::Result<usize>
    requires { held ≤ length text.old }
    ensures ok { IfOk result (λ n. (held ≤ n) × (n ≤ length text.new)) }
    ensures err { OnErr result (length text.new ≡ length text.old) }
{
    let n = whole_input::read_full(input, &mut text[held..])?;
    Ok(held + n)
}

// The lines that end in the text. What is left of it goes to the front: how many bytes these are.
fn piece<W: Write, J: Fn(&mut W, u8, &[u8]) -> io::Result<()>>(
    answers: &mut W,
    text: &mut [u8],
    job: &J,
) -> io::Result<usize>
    requires { J.IsAlwaysCallable job.now }
    ensures { IfOk result (λ k. k ≤ length text.new) }
{
    let end = lines_end(text);
    lines(answers, &text[..end], job)?;
    text.copy_within(end.., 0);
    Ok(text.len() - end)
}

// The place after the last line that ends in the text, 0 where none does.
pub fn lines_end(text: &[u8]) -> usize
    ensures { IsPrefixLen result text.now }
{
    text.iter().rposition(|c| *c == b'\n').map_or(0, |k| k + 1)
}

fn lines<W: Write, J: Fn(&mut W, u8, &[u8]) -> io::Result<()>>(
    answers: &mut W,
    text: &[u8],
    job: &J,
) -> io::Result<()>
    requires { J.IsAlwaysCallable job.now }
{
    for line in text.split_inclusive(|c| *c == b'\n') {
        if let Some((letter, fields)) = job_of(line) {
            job(answers, letter, fields)?;
        }
    }
    Ok(())
}

// ---- a line

// The letter that a line's job begins with, and the fields behind the first space. A line too short for a job's word has none.
fn job_of(line: &[u8]) -> Option<(u8, &[u8])> {
    if line.len() < 5 {
        return None;
    }
    Some((line[0], &line[next_field(line)..]))
}

// The place after the first field and the space behind it.
pub fn next_field(line: &[u8]) -> usize
    ensures { result ≤ length line.now }
{
    line.iter()
        .position(|c| *c == b' ')
        .map_or(line.len(), |k| k + 1)
}

// The value of a hexadecimal digit. A capital letter is none, so this is not std's `to_digit`.
fn digit(c: u8) -> Option<u8>
    ensures { IfSome result (λ d. d < 16) }
{
    match c {
        b'0'..=b'9' => Some(c - b'0'),
        b'a'..=b'f' => Some(c - b'a' + 10),
        _ => None,
    }
}

// The bytes that the line starts with, two digits each, as many as there is room for: how many there are.
pub fn bytes(line: &[u8], out: &mut [u8]) -> usize
    ensures { IsPrefixLen result out.new }
{
    for (n, (x, pair)) in out.iter_mut().zip(line.chunks_exact(2)).enumerate() {
        let (Some(hi), Some(lo)) = (digit(pair[0]), digit(pair[1])) else {
            return n;
        };
        *x = hi * 16 + lo;
    }
    out.len().min(line.len() / 2)
}

// The number of the digits from one place up to another, or up to the first byte that is none: its last sixteen.
pub fn number(line: &[u8], from: usize, to: usize) -> u64 {
    let end = to.min(line.len());
    // a slice from there, since `skip` would go over each byte before it
    line[from.min(end)..end]
        .iter()
        .map_while(|c| digit(*c))
        .fold(0, |x, d| x << 4 | u64::from(d))
}

// The state that the line starts with: eight digits for the active variables, then four for each domain.
pub fn masks(line: &[u8]) -> Masks {
    let mut m = problem::empty_masks();
    m.active = (number(line, 0, 8) % 4294967296) as u32;
    for (i, d) in m.domains.iter_mut().enumerate() {
        *d = (number(line, 8 + 4 * i, 12 + 4 * i) % 65536) as u16;
    }
    m
}

// ---- an answer

pub fn show<W: Write>(answers: &mut W, w: &[u8]) -> io::Result<()> {
    answers.write_all(w)
}

// Words and a number behind them.
pub fn show_number<W: Write>(answers: &mut W, w: &[u8], x: usize) -> io::Result<()> {
    answers.write_all(w)?;
    write!(answers, "{x}")
}

pub fn show_bytes<W: Write>(answers: &mut W, b: &[u8]) -> io::Result<()> {
    for x in b {
        write!(answers, "{x:02x}")?;
    }
    Ok(())
}

// A state as it stands in a line.
pub fn show_masks<W: Write>(answers: &mut W, m: Masks) -> io::Result<()> {
    let active = m.active;
    write!(answers, "{active:08x}")?;
    for d in m.domains {
        write!(answers, "{d:04x}")?;
    }
    Ok(())
}

// The buffer at the end of an answer's line.
pub fn show_buffer<W: Write>(answers: &mut W, b: &[u8]) -> io::Result<()> {
    write!(answers, " ")?;
    show_bytes(answers, b)?;
    writeln!(answers)
}

// How many bytes of a buffer are lent: as many as are asked for, or all that it has.
pub fn lent(asked: u64, b: &[u8]) -> usize
    ensures { IsPrefixLen result b.now }
{
    asked.min(b.len() as u64) as usize
}

// Fills a buffer with a pattern, so that a byte that changes shows.
pub fn fill_pattern(b: &mut [u8]) {
    let mut x: u16 = 11;
    for place in b {
        *place = x as u8;
        x = (x + 37) % 251;
    }
}
