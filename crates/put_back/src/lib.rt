// Putting back, as a job: what it answers, the format's number for each refusal, and the number that a call from C answers.
#![tactic(auto)]

ghost use Rattle.std.specs.Prelude.{◌≡◌, ◌+◌, ◌*◌};
ghost use Rattle.put_back.specs.Numbers.{put_back_refusal_number};
ghost use Rattle.put_back.specs.PutBack.{unlawful_record};
ghost use Rattle.put_back.specs.Call.{unlawful_fields, FieldsFit, BackFits, back_number};
ghost use Rattle.put_back.specs.declared.PutBackRefusal.TheVariants.{Sheet};

use sheet::SheetRefusal;

// Why putting back is refused. An unlawful record comes with its number, from 0, and with the variable and the value where its cover
// breaks, 255 for both where none is named.
#[derive(Clone, Copy, Debug, PartialEq, Eq)]
pub enum PutBackRefusal {
    Sheet(SheetRefusal),
    PlanLength,
    ResultLength,
    TraceFront,
    Malformed,
    Unlawful {
        record: usize,
        variable: usize,
        value: usize,
    },
    Plan,
}

// A refusal of the sheet is one of putting back.
impl From<SheetRefusal> for PutBackRefusal {
    ghost from_gives = { λ r e. e ≡ Sheet r };

    fn from(r: SheetRefusal) -> PutBackRefusal {
        PutBackRefusal::Sheet(r)
    }
}

// The format's number for a refusal.
impl From<PutBackRefusal> for u8 {
    ghost from_gives = { λ r n. n ≡ put_back_refusal_number r };

    fn from(r: PutBackRefusal) -> u8 {
        match r {
            PutBackRefusal::Sheet(s) => u8::from(s),
            PutBackRefusal::PlanLength => 18,
            PutBackRefusal::ResultLength => 20,
            PutBackRefusal::TraceFront => 15,
            PutBackRefusal::Malformed => 16,
            PutBackRefusal::Unlawful { .. } => 17,
            PutBackRefusal::Plan => 19,
        }
    }
}

// The refusal of the record with this number, by where its cover breaks.
pub fn unlawful_record(number: usize, found: Option<(usize, usize)>) -> PutBackRefusal
    ensures { result ≡ unlawful_record number found }
{
    match found {
        Some((variable, value)) => PutBackRefusal::Unlawful {
            record: number,
            variable,
            value,
        },
        None => PutBackRefusal::Unlawful {
            record: number,
            variable: 255,
            value: 255,
        },
    }
}

// ---- from C

// The record's number, the variable and the value of an unlawful record.
fn unlawful_fields(r: PutBackRefusal) -> u64
    requires { FieldsFit r }
    ensures { result ≡ unlawful_fields r }
{
    match r {
        PutBackRefusal::Unlawful {
            record,
            variable,
            value,
        } => record as u64 + 65536 * (variable as u64 + 256 * value as u64),
        PutBackRefusal::Sheet(_) => 0,
        PutBackRefusal::PlanLength => 0,
        PutBackRefusal::ResultLength => 0,
        PutBackRefusal::TraceFront => 0,
        PutBackRefusal::Malformed => 0,
        PutBackRefusal::Plan => 0,
    }
}

// The number of an answer: 0, or the refusal's number in the low byte and above it what an unlawful record carries.
pub fn put_back_answer(o: Result<(), PutBackRefusal>) -> u64
    requires { BackFits o }
    ensures { result ≡ back_number o }
{
    match o {
        Ok(()) => 0,
        Err(r) => u8::from(r) as u64 + 256 * unlawful_fields(r),
    }
}
