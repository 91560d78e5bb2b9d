// Reads a sheet from standard input and writes what the run comes to.
#![tactic(auto)]

ghost use Rattle.std.specs.Prelude.{◌≡◌, length};
ghost use Rattle.fields.specs.Print.{input_limit};

use std::io;
use std::io::Input;

// The run of what standard input holds, up to the format's limit: the buffer for it has just that length.
fn print_run<R: Input + Print>(rt: &R, sheet: &mut [u8]) -> io::Result<()>
    requires { length sheet.old ≡ input_limit }
{
    let n = whole_input::read_full(&mut rt.reader(), sheet)?;
    let mut out = [0u8; 32768];
    let k = report::report(&sheet[..n], &mut out);
    rt.write_all(&out[..k])
}

fn main(rt: HostRuntime) -> io::Result<()> {
    let mut sheet = [0u8; 16905];
    print_run(&rt, &mut sheet)
}
