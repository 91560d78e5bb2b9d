// Taking out by hand, as jobs: the state, what starting and a hand call answer, and the format's number for each refusal.
#![tactic(auto)]

ghost use Rattle.std.specs.Prelude.{◌≡◌};
ghost use Rattle.hand.specs.Numbers.{hand_refusal_number};

use problem::Masks;
use sheet::SheetRefusal;

// The state of taking out by hand: the run's state in a struct of its own.
#[derive(Clone, Copy)]
pub struct HandState {
    pub masks: Masks,
}

// What starting answers, with the state beside it: `start_refused` of specs/Hand.antt says that a refused start has the empty state there.
#[derive(Clone, Copy)]
pub struct StartAnswer {
    pub outcome: Result<(), SheetRefusal>,
    pub state: HandState,
}

// Why a hand call is refused.
#[derive(Clone, Copy, Debug, PartialEq, Eq)]
pub enum HandRefusal {
    Sheet(SheetRefusal),
    State,
    Item,
    Emptied,
    Rule,
}

// What a hand call answers: the value with which its variable was taken out. The state stands beside it: `call_refused` of specs/Hand.antt
// says that a refused call answers the state it was given.
#[derive(Clone, Copy)]
pub struct CallAnswer {
    pub outcome: Result<usize, HandRefusal>,
    pub state: HandState,
}

// The format's number for a refusal.
impl From<HandRefusal> for u8 {
    ghost from_gives = { λ r n. n ≡ hand_refusal_number r };

    fn from(r: HandRefusal) -> u8 {
        match r {
            HandRefusal::Sheet(s) => u8::from(s),
            HandRefusal::State => 11,
            HandRefusal::Item => 12,
            HandRefusal::Emptied => 13,
            HandRefusal::Rule => 14,
        }
    }
}
