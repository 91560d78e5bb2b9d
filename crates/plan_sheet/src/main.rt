// Reads a sheet from standard input and writes what the run comes to, and a plan.
#![tactic(auto)]

ghost use Rattle.std.specs.Prelude.{◌≡◌, length};
ghost use Rattle.fields.specs.Print.{input_limit};

use std::io;
use std::io::Input;

// The run and a plan of what standard input holds, up to the format's limit: the buffer for it has just that length.
fn print_plan<R: Input + Print>(rt: &R, sheet: &mut [u8]) -> io::Result<()>
    requires { length sheet.old ≡ input_limit }
{
    let n = whole_input::read_full(&mut rt.reader(), sheet)?;
    let mut out = [0u8; 33024];
    let k = plan_report::plan_report(&sheet[..n], &mut out);
    rt.write_all(&out[..k])
}

fn main(rt: HostRuntime) -> io::Result<()> {
    let mut sheet = [0u8; 16905];
    print_plan(&rt, &mut sheet)
}
