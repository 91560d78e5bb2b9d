// The unsupported values of a state as words, which a run of the engine that waits keeps up to date, and the lowest step of kind 1 by them.
#![tactic(auto)]

ghost use Rattle.std.specs.Prelude.{◌≡◌, true, ◌≢◌, ◌<◌, ◌-◌};
ghost use Rattle.std.specs.Int.Bits.{bit_and};
ghost use Rattle.bounded.specs.Mask.{bit};
ghost use Rattle.problem.specs.Problem.{none_empty};
ghost use Rattle.problem.specs.Held.{held, RowTable};
ghost use Rattle.problem.specs.Masks.{state_of};
ghost use Rattle.held.specs.Ready.{Value, Values};
ghost use Rattle.search_order.specs.Lowest.{step_at, step_from};
ghost use Rattle.waiting_unsupported.specs.Words.{AllUnsupported, UnsupportedOf, Alone, Mended};

use bounded::{Set, lane};
use held::{View, neighbours, one_of, row_among, rows_at};
use problem::Record;

// ---- the words

// Those of the values `some` of i that have no support in the set `domain` of another variable l. The loop is never left early, and loads
// each row, so that the compiler can do many at once.
fn all_alone(t: &[u16], some: u16, domain: u16, l: usize, i: usize) -> u16
    requires { RowTable t.now × Values t.now i some × Values t.now l domain × (l < 32) × (i < 32) × (i ≢ l) }
    ensures { Alone (held t.now) some domain l i result }
{
    let at = rows_at(t, i, l);
    let one = one_of(t);
    let mut word: u16 = 0;
    for u in 0..16 {
        word = word | lane(domain & t[at + u] == 0, u, one);
    }
    some & word
}

// The values of i that have no support at some other active variable, where none is emptied. What has no block with i supports all of them.
fn unsupported_of(view: View, i: usize) -> u16
    requires { (i < 32) × (none_empty (held view.table.now) (state_of view.state.now) ≡ true) }
    ensures { UnsupportedOf (held view.entry.table.now) (state_of view.entry.state.now) i result }
{
    let mut x: u16 = 0;
    let mut rest = (view.state.active & neighbours(view.table, i)).without(i);
    while rest != 0 {
        let k = rest.lowest();
        x = x
            | all_alone(
                view.table,
                view.state.domains[i],
                view.state.domains[k],
                k,
                i,
            );
        rest = rest.without(k);
    }
    x
}

// The values of each variable that have no support at some other active variable, where none is emptied.
pub fn first_unsupported(view: View, words: &mut [u16; 32])
    requires { none_empty (held view.table.now) (state_of view.state.now) ≡ true }
    ensures { AllUnsupported (held view.entry.table.now) (state_of view.entry.state.now) words.new }
{
    for (i, word) in words.iter_mut().enumerate() {
        *word = unsupported_of(view, i);
    }
}

// Those of the values `lost` of i that have no support in the set `domain` of another variable l, which has a member. Mostly none is lost, or
// the lowest and the highest of the domain support all of them.
fn alone(t: &[u16], lost: u16, domain: u16, l: usize, i: usize) -> u16
    requires { RowTable t.now × Values t.now i lost × Values t.now l domain × (domain ≢ 0) × (l < 32) × (i < 32) × (i ≢ l) }
    ensures { Alone (held t.now) lost domain l i result }
{
    if lost == 0 {
        return 0;
    }
    let at = rows_at(t, l, i);
    let rest = lost & !(t[at + domain.lowest()] | t[at + domain.highest()]);
    if rest == 0 {
        return 0;
    }
    all_alone(t, rest, domain, l, i)
}

// The values of a domain that are not known to be unsupported. A function of its own, since an argument is known to fit its type, and an entry of a
// list is not.
fn unknown(domain: u16, known: u16) -> u16
    ensures is { result ≡ bit_and domain (65535 - known) }
    ensures fits { known < 65536 }
{
    domain & !known
}

// Value c has gone off at l, and this is the state after it: of the values that it supported, those without another support there have none.
// Those known to have none are not looked at again. Where l is emptied no step follows, and nothing need be known.
pub fn mend_unsupported(view: View, words: &mut [u16; 32], l: usize, c: usize)
    requires { Value view.table.now l c × (bit view.state.now.active l ≡ true) }
    ensures { Mended (held view.entry.table.now) (state_of view.entry.state.now) l c words.old words.new }
{
    let domain = view.state.domains[l];
    if domain == 0 {
        return;
    }
    let mut left = (view.state.active & neighbours(view.table, l)).without(l);
    while left != 0 {
        let i = left.lowest();
        let known = words[i];
        let lost = row_among(view.table, unknown(view.state.domains[i], known), l, i, c);
        words[i] = known | alone(view.table, lost, domain, l, i);
        left = left.without(i);
    }
}

// ---- the search

// The lowest k at which value b of i has no support.
fn unsupported_value(view: View, i: usize, b: usize) -> Option<Record>
    requires { (i < 32) × (b < 16) }
    ensures { result ≡ step_at (held view.entry.table.now) (state_of view.entry.state.now) 1 i b }
{
    if !view.state.domains[i].has(b) {
        return None;
    }
    for k in 0..32 {
        if unsupported::unsupported(view, i, b, k) {
            return Some(Record::Unsupported(i, b, k));
        }
    }
    None
}

// The lowest step of kind 1 from i, by the words, where no active variable is emptied; otherwise no step is taken, and none is looked for.
pub fn unsupported_variable(view: View, words: &[u16; 32], i: usize) -> Option<Record>
    requires { AllUnsupported (held view.table.now) (state_of view.state.now) words.now × (i < 32) × (none_empty (held view.table.now) (state_of view.state.now) ≡ true) }
    ensures { result ≡ step_from (held view.entry.table.now) (state_of view.entry.state.now) 1 i }
{
    let known = words[i] & view.state.domains[i];
    if known == 0 {
        return None;
    }
    unsupported_value(view, i, known.lowest())
}
