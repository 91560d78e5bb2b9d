// Reads a sheet from standard input and writes it in the other version, or the line that says why it is turned away.
#![tactic(auto)]

ghost use Rattle.std.specs.Prelude.{◌≡◌, ◌≤◌, length, take};
ghost use Rattle.fields.specs.Print.{input_limit};
ghost use Rattle.moved.specs.Move.{move_job};
ghost use Rattle.move_sheet.specs.Text.{moved_text};

use std::io;
use std::io::Input;

// What the program writes for a sheet, at the front of a buffer: the moved sheet, or the line of a refusal. How long it is.
fn put_moved(sheet: &[u8], out: &mut [u8]) -> usize
    requires { length out.old ≡ 16904 }
    ensures text { take result out.new ≡ moved_text (move_job sheet.now out.old) }
    ensures within { result ≤ 16904 }
{
    match moved::move_sheet(sheet, out) {
        Ok(n) => n,
        Err(r) => text::put_refused_line(out, 0, u8::from(r) as usize),
    }
}

// The move of what standard input holds, up to the format's limit: the buffer for it has just that length. The target has room for the
// longest sheet, so that it is never too short.
fn print_moved<R: Input + Print>(rt: &R, sheet: &mut [u8]) -> io::Result<()>
    requires { length sheet.old ≡ input_limit }
{
    let n = whole_input::read_full(&mut rt.reader(), sheet)?;
    let mut out = [0u8; 16904];
    let k = put_moved(&sheet[..n], &mut out);
    rt.write_all(&out[..k])
}

fn main(rt: HostRuntime) -> io::Result<()> {
    let mut sheet = [0u8; 16905];
    print_moved(&rt, &mut sheet)
}
