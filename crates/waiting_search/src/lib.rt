// The search of the engine that waits: the next step in the order that the format requires, the lowest kind that holds anywhere, then the
// lowest fields; and what is known of the state that it leads to.
#![tactic(auto)]

ghost use Rattle.std.specs.Prelude.{◌≡◌, true, ◌<◌, Some, None};
ghost use Rattle.bounded.specs.Mask.{bit};
ghost use Rattle.problem.specs.Problem.{none_empty};
ghost use Rattle.problem.specs.Held.{held};
ghost use Rattle.problem.specs.Masks.{state_of, masks_of};
ghost use Rattle.problem.specs.Run.{after, next_of_kind, next as next_of};
ghost use Rattle.held.specs.Ready.{Value};
ghost use Rattle.search_order.specs.Lowest.{step_from};
ghost use Rattle.waiting.specs.Waiting.{Waits};
ghost use Rattle.waiting_unsupported.specs.Words.{AllUnsupported, Mended};
ghost use Rattle.waiting_search.specs.Kinds.{number_of};
ghost use Rattle.waiting_search.specs.Known.{ValueWoken, Mendable, MendedBy};

use held::View;
use problem::{Masks, Record};
use steps::apply;
use waiting::Memory;
use waiting_unsupported::{mend_unsupported, unsupported_variable};
use waiting_variable::{
    neighbourhood_variable, snake_variable, substitution_variable, triangle_variable,
};

// ---- the kinds

// A kind of step. Its number in a record is `number_of`, specs/Kinds.antt.
#[derive(Clone, Copy)]
enum Kind {
    Unsupported,
    Snake,
    Triangle,
    Neighbourhood,
    SnakeSubstitution,
}

// The kinds, in the order of their numbers: a step of a lower one comes first.
const KINDS: [Kind; 5] = [
    Kind::Unsupported,
    Kind::Snake,
    Kind::Triangle,
    Kind::Neighbourhood,
    Kind::SnakeSubstitution,
];

// ---- the next step

// The lowest step of a kind from a variable. No table of functions: the first takes the words, and the others the memory.
fn step_from(
    view: View,
    words: &[u16; 32],
    memory: &mut Memory,
    kind: Kind,
    i: usize,
) -> Option<Record>
    requires { AllUnsupported (held view.table.now) (state_of view.state.now) words.now × Waits (held view.table.now) (state_of view.state.now) memory.old.pending memory.old.waiting × (none_empty (held view.table.now) (state_of view.state.now) ≡ true) × (i < 32) }
    ensures is { result ≡ step_from (held view.entry.table.now) (state_of view.entry.state.now) (number_of kind) i }
    ensures waits { Waits (held view.entry.table.now) (state_of view.entry.state.now) memory.new.pending memory.new.waiting }
{
    match kind {
        Kind::Unsupported => unsupported_variable(view, words, i),
        Kind::Snake => snake_variable(view, memory, i),
        Kind::Triangle => triangle_variable(view, memory, i),
        Kind::Neighbourhood => neighbourhood_variable(view, memory, i),
        Kind::SnakeSubstitution => substitution_variable(view, memory, i),
    }
}

// The lowest step of a kind.
fn next_of_kind(view: View, words: &[u16; 32], memory: &mut Memory, kind: Kind) -> Option<Record>
    requires { AllUnsupported (held view.table.now) (state_of view.state.now) words.now × Waits (held view.table.now) (state_of view.state.now) memory.old.pending memory.old.waiting × (none_empty (held view.table.now) (state_of view.state.now) ≡ true) }
    ensures is { result ≡ next_of_kind (held view.entry.table.now) (state_of view.entry.state.now) (number_of kind) }
    ensures waits { Waits (held view.entry.table.now) (state_of view.entry.state.now) memory.new.pending memory.new.waiting }
{
    for i in 0..32 {
        let found = step_from(view, words, memory, kind, i);
        if found.is_some() {
            return found;
        }
    }
    None
}

// The next step: of the lowest kind that holds anywhere, then the lowest fields. None is taken where an active variable has an empty domain.
pub fn next_step(view: View, words: &[u16; 32], memory: &mut Memory) -> Option<Record>
    requires { AllUnsupported (held view.table.now) (state_of view.state.now) words.now × Waits (held view.table.now) (state_of view.state.now) memory.old.pending memory.old.waiting }
    ensures is { result ≡ next_of (held view.entry.table.now) (state_of view.entry.state.now) }
    ensures waits { Waits (held view.entry.table.now) (state_of view.entry.state.now) memory.new.pending memory.new.waiting }
{
    let lasts = view.none_empty();
    if !lasts {
        return None;
    }
    for kind in KINDS {
        let found = next_of_kind(view, words, memory, kind);
        if found.is_some() {
            return found;
        }
    }
    None
}

// ---- the state after a step

// Value b of i is gone: tests that wait for it, or for i, are pending.
fn wake_value(memory: &mut Memory, i: usize, b: usize)
    requires { (i < 32) × (b < 16) }
    ensures { ValueWoken i b memory.old.pending memory.old.waiting memory.new.pending memory.new.waiting }
{
    memory.wake_triangles(i, b);
    memory.wake(i);
}

// Beside that, in the state after it, values that lost their last support at i are unsupported.
fn remove_known(view: View, words: &mut [u16; 32], memory: &mut Memory, i: usize, b: usize)
    requires { Value view.table.now i b × (bit view.state.now.active i ≡ true) }
    ensures words { Mended (held view.entry.table.now) (state_of view.entry.state.now) i b words.old words.new }
    ensures wakes { ValueWoken i b memory.old.pending memory.old.waiting memory.new.pending memory.new.waiting }
{
    mend_unsupported(view, words, i, b);
    wake_value(memory, i, b);
}

// What is known after a step, in the state after it. A cover leaves no value unsupported: what b supported, a supports too. A variable is
// eliminated only where each value has its supports, so that no other domain changes.
fn mend(view: View, words: &mut [u16; 32], memory: &mut Memory, r: Record)
    requires { Mendable view.table.now view.state.now r }
    ensures { MendedBy (held view.entry.table.now) (state_of view.entry.state.now) r words.old words.new memory.old.pending memory.old.waiting memory.new.pending memory.new.waiting }
{
    match r {
        Record::Unsupported(i, b, _) => remove_known(view, words, memory, i, b),
        Record::Snake(i, _) => memory.wake(i),
        Record::Triangle(i, _) => memory.wake(i),
        Record::Neighbourhood(i, b, _) => wake_value(memory, i, b),
        Record::SnakeSubstitution(i, b, _) => remove_known(view, words, memory, i, b),
    }
}

// The state after the next step, with what is known of it brought up to it.
pub fn advance(view: View, words: &mut [u16; 32], memory: &mut Memory, r: Record) -> Masks
    requires { AllUnsupported (held view.table.now) (state_of view.state.now) words.old × Waits (held view.table.now) (state_of view.state.now) memory.old.pending memory.old.waiting × (next_of (held view.table.now) (state_of view.state.now) ≡ Some r) }
    ensures is { result ≡ masks_of (after (held view.entry.table.now) (state_of view.entry.state.now) r) }
    ensures words { AllUnsupported (held view.entry.table.now) (after (held view.entry.table.now) (state_of view.entry.state.now) r) words.new }
    ensures waits { Waits (held view.entry.table.now) (after (held view.entry.table.now) (state_of view.entry.state.now) r) memory.new.pending memory.new.waiting }
{
    let state = apply(view, r);
    let reached = View {
        table: view.table,
        state: &state,
    };
    mend(reached, words, memory, r);
    state
}
