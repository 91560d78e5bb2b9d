// The run, as a job: what it answers, and the format's number for each refusal. The definitions of specs/ say which answer each input gets; a
// crate of an engine proves its code equal to them.
#![tactic(auto)]

ghost use Rattle.std.specs.Prelude.{◌≡◌, ◌+◌, ◌*◌, length};
ghost use Rattle.boundary.specs.State.{state_length};
ghost use Rattle.run.specs.Numbers.{run_refusal_number, end_number};
ghost use Rattle.run.specs.Call.{ran_number, ran_state, RunFits};

use problem::{End, Masks};
use sheet::SheetRefusal;

// Why a run is refused.
#[derive(Clone, Copy, Debug, PartialEq, Eq)]
pub enum RunRefusal {
    Sheet(SheetRefusal),
    Buffer,
}

// What an accepted run answers with: its end, the number of steps, and the bytes written.
#[derive(Clone, Copy)]
pub struct Finished {
    pub end: End,
    pub steps: usize,
    pub written: usize,
}

// The run's answer. The last state stands beside the outcome: `run_refused` of specs/Run.antt says that a refused run has the empty state
// there.
#[derive(Clone, Copy)]
pub struct RunAnswer {
    pub outcome: Result<Finished, RunRefusal>,
    pub state: Masks,
}

// The format's number for a refusal.
impl From<RunRefusal> for u8 {
    ghost from_gives = { λ r n. n ≡ run_refusal_number r };

    fn from(r: RunRefusal) -> u8 {
        match r {
            RunRefusal::Sheet(s) => u8::from(s),
            RunRefusal::Buffer => 10,
        }
    }
}

// The number that stands for an end where an answer is a number: the format names the ends in this order, and so does the type. Rust allows
// no `From` here, since the type is another crate's.
pub fn end_number(e: End) -> u8
    ensures { result ≡ end_number e }
{
    e as u8
}

// ---- from C

// The number of an answer: the refusal's, or the end, the steps and the bytes written.
pub fn ran_number(o: Result<Finished, RunRefusal>) -> u64
    requires { RunFits o }
    ensures { result ≡ ran_number o }
{
    match o {
        Ok(a) => 256
            * (end_number(a.end) as u64 + 256 * (a.steps as u64 + 65536 * a.written as u64)),
        Err(r) => u8::from(r) as u64,
    }
}

// The last state; a refused run writes nothing.
pub fn put_ran_state(b: &mut [u8], o: Result<Finished, RunRefusal>, m: Masks)
    requires { length b.old ≡ state_length }
    ensures { b.new ≡ ran_state o m b.old }
{
    match o {
        Ok(_) => boundary::put_state(b, m),
        Err(_) => {}
    }
}
