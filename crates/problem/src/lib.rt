// The types that the definitions of specs/ share with the code, and the state that holds nothing.
#![tactic(auto)]

ghost use Rattle.std.specs.Prelude.{◌≡◌};
ghost use Rattle.problem.specs.Masks.{empty_masks};
ghost use Rattle.problem.specs.Record.{record_of, effect_of, parts_of};

// A state as masks: the variables that are active, and the values in the domain of each.
#[derive(Clone, Copy)]
pub struct Masks {
    pub active: u32,
    pub domains: [u16; 32],
}

// One step, with the fields that its record has after the kind.
#[derive(Clone, Copy)]
pub enum Record {
    Unsupported(usize, usize, usize),
    Snake(usize, usize),
    Triangle(usize, usize),
    Neighbourhood(usize, usize, usize),
    SnakeSubstitution(usize, usize, usize),
}

// A record taken apart: its kind, how many fields it has after that, and these, with 0 for a fourth that is not there.
#[derive(Clone, Copy)]
pub struct Parts {
    pub kind: u8,
    pub count: usize,
    pub item: usize,
    pub third: usize,
    pub fourth: usize,
}

// What a step does: it removes a value of a variable, or eliminates a variable.
#[derive(Clone, Copy)]
pub enum Effect {
    Removes(usize, usize),
    Eliminates(usize),
}

// How a run ends.
#[derive(Clone, Copy)]
pub enum End {
    Impossible,
    Solved,
    Rest,
}

// What a hand call comes to: the value that the variable was eliminated with, or the reason why it was not.
#[derive(Clone, Copy)]
pub enum Call {
    Eliminated(usize),
    Misfit,
    NotActive,
    Emptied,
    NoSnake,
}

// The state with no active variable and every domain empty.
pub fn empty_masks() -> Masks
    ensures { result ≡ empty_masks }
{
    Masks {
        active: 0,
        domains: [0u16; 32],
    }
}

// ---- a record, taken apart and put together

// A kind with two fields, and one with three.
fn two(kind: u8, item: usize, third: usize) -> Parts
    ensures { result ≡ record { kind = kind; count = 2; item = item; third = third; fourth = 0 } }
{
    Parts {
        kind,
        count: 2,
        item,
        third,
        fourth: 0,
    }
}

fn three(kind: u8, item: usize, third: usize, fourth: usize) -> Parts
    ensures { result ≡ record { kind = kind; count = 3; item = item; third = third; fourth = fourth } }
{
    Parts {
        kind,
        count: 3,
        item,
        third,
        fourth,
    }
}

// The kind and the fields of a record.
pub fn parts_of(r: Record) -> Parts
    ensures { result ≡ parts_of r }
{
    match r {
        Record::Unsupported(i, b, k) => three(1, i, b, k),
        Record::Snake(i, v) => two(2, i, v),
        Record::Triangle(i, j) => two(3, i, j),
        Record::Neighbourhood(i, b, a) => three(4, i, b, a),
        Record::SnakeSubstitution(i, b, a) => three(5, i, b, a),
    }
}

// What a record's step does.
pub fn effect_of(r: Record) -> Effect
    ensures { result ≡ effect_of r }
{
    match r {
        Record::Unsupported(i, b, _) => Effect::Removes(i, b),
        Record::Snake(i, _) => Effect::Eliminates(i),
        Record::Triangle(i, _) => Effect::Eliminates(i),
        Record::Neighbourhood(i, b, _) => Effect::Removes(i, b),
        Record::SnakeSubstitution(i, b, _) => Effect::Removes(i, b),
    }
}

// The record of a kind with these fields, a kind of two fields taking no third; of a number that no kind has, none.
pub fn record_of(kind: usize, i: usize, x: usize, y: usize) -> Option<Record>
    ensures { result ≡ record_of kind i x y }
{
    match kind {
        1 => Some(Record::Unsupported(i, x, y)),
        2 => Some(Record::Snake(i, x)),
        3 => Some(Record::Triangle(i, x)),
        4 => Some(Record::Neighbourhood(i, x, y)),
        5 => Some(Record::SnakeSubstitution(i, x, y)),
        _ => None,
    }
}
