// Writes the sheet of the DIMACS graph colouring file on standard input, or the line that says why there is none. The argument is the number
// of channels.
#![tactic(auto)]

ghost use Rattle.std.specs.Prelude.{◌≡◌, cond, ◌+◌, ◌≤◌, eqb, length, take};
ghost use Rattle.graph.specs.Graph.{file_limit};
ghost use Rattle.colour.specs.Colour.{colour_job};
ghost use Rattle.colour_sheet.specs.Argument.{channels_of};
ghost use Rattle.colour_sheet.specs.Text.{coloured_text};

use std::env::Env;
use std::io;
use std::io::Input;

// The channels that an argument names: it is a number and nothing else.
fn channels_of(word: &[u8]) -> u64
    ensures { result ≡ channels_of word.now }
{
    let n = word.len();
    if 9 < n {
        return 0;
    }
    match read_graph::field_at(word, 0, 10) {
        None => 0,
        Some(d) => whole(n, d.value, d.next),
    }
}

// The number x where it ends with the word, whose n bytes a newline seems to follow.
fn whole(n: usize, x: usize, next: usize) -> u64
    requires { n ≤ 9 }
    ensures { result ≡ cond (eqb next (n + 1)) x 0 }
{
    if next == n + 1 { x as u64 } else { 0 }
}

// The argument of the program. One that is missing, or does not fit, is empty; one that fills the room has too many digits.
fn argument<R: Env>(rt: &R) -> u64 {
    let mut word = [0u8; 10];
    let n = rt.arg(1, &mut word).unwrap_or(0);
    channels_of(&word[..n])
}

// What the program writes for a file and a number of channels, at the front of a buffer: the sheet, or the line of a refusal. How long it is.
fn put_coloured(file: &[u8], channels: u64, out: &mut [u8]) -> usize
    requires { length out.old ≡ 16904 }
    ensures text { take result out.new ≡ coloured_text (colour_job file.now channels out.old) }
    ensures within { result ≤ 16904 }
{
    match colour::colour(file, channels, out) {
        Ok(n) => n,
        Err(r) => text::put_refused_line(out, 0, u8::from(r) as usize),
    }
}

// The sheet of what standard input holds, up to one byte more than a file may have: the buffer for it has just that length.
fn print_sheet<R: Input + Print>(rt: &R, channels: u64, file: &mut [u8]) -> io::Result<()>
    requires { length file.old ≡ file_limit + 1 }
{
    let n = whole_input::read_full(&mut rt.reader(), file)?;
    let mut out = [0u8; 16904];
    let k = put_coloured(&file[..n], channels, &mut out);
    rt.write_all(&out[..k])
}

fn main(rt: HostRuntime) -> io::Result<()> {
    let mut file = [0u8; 65537];
    let channels = argument(&rt);
    print_sheet(&rt, channels, &mut file)
}
