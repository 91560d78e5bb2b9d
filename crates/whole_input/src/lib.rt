// The whole of an input, or as much of it as a buffer holds.
#![tactic(auto)]

ghost use Rattle.std.specs.Io.{ReadsAtMost};

use std::io;
use std::io::Read;

// Reads until the buffer is full or the input ends: how many bytes stand at its front then. std's `read_exact` fails where the input ends
// first, and the kit's `io::read_full` takes a read that fails for the end. What a program does with what was read stays with it: a function
// that takes it as a closure would need two clauses for three lines.
pub fn read_full<R: Read>(input: &mut R, buf: &mut [u8]) -> io::Result<usize>
    ensures { ReadsAtMost result buf.new }
{
    let mut done = 0;
    while done < buf.len() {
        let n = input.read(&mut buf[done..])?;
        if n == 0 {
            break;
        }
        done += n;
    }
    Ok(done)
}
