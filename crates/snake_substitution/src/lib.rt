// Kind 5, slide: the test for a snake substitution, all that a variable has, and what it rests on that it has none.
#![tactic(auto)]

ghost use Rattle.std.specs.Prelude.{◌≡◌, true, false, ◌≢◌, ◌<◌, T, length, get_or};
ghost use Rattle.std.specs.Int.Bits.{bit_and};
ghost use Rattle.bounded.specs.Quantifiers.{imp};
ghost use Rattle.bounded.specs.Mask.{bit};
ghost use Rattle.problem.specs.Problem.{all_other, substitution_spares, snake_substitution};
ghost use Rattle.problem.specs.Held.{held, RowTable};
ghost use Rattle.problem.specs.Masks.{state_of};
ghost use Rattle.problem.specs.Run.{first};
ghost use Rattle.held.specs.Ready.{Value, Values};
ghost use Rattle.cover.specs.Words.{others, thirds};
ghost use Rattle.support.specs.Words.{partners_of};
ghost use Rattle.snake_substitution.specs.Parts.{substitution_at, lowest_goal, Goals, AllTried, AllGoals, Closed, Limited, NoGoal, Narrowed};

use bounded::{Set, where16};
use cover::{serving, unserved};
use held::{View, neighbours, row_among};
use problem::Record;
use support::partners;

// ---- the test

// What the slide rule asks of k, one of `rest`: the active variables other than i. Covering is asked for at these but k.
fn substitution_at(view: View, rest: u32, i: usize, b: usize, a: usize, k: usize) -> bool
    requires { Value view.table.now i b × Value view.table.now i a × (rest ≡ others view.state.now.active i) × (k < 32) × (bit rest k ≡ true) }
    ensures { result ≡ imp (bit rest k) (substitution_at (held view.entry.table.now) (state_of view.entry.state.now) i b a k) }
{
    let domain = view.state.domains[k];
    let good = row_among(view.table, domain, i, k, a);
    let bad = row_among(view.table, domain, i, k, b);
    unserved(view, rest.without(k), good, bad, k) == 0
}

// A variable that has no block with i bars nothing with a: each of its values serves for itself, and it is passed over.
fn substitution_others(view: View, i: usize, b: usize, a: usize) -> bool
    requires { Value view.table.now i b × Value view.table.now i a }
    ensures { result ≡ all_other (held view.entry.table.now) (state_of view.entry.state.now) i (substitution_at (held view.entry.table.now) (state_of view.entry.state.now) i b a) }
{
    let rest = view.state.active.without(i);
    let mut left = rest & neighbours(view.table, i);
    while left != 0 {
        let k = left.lowest();
        if !substitution_at(view, rest, i, b, a, k) {
            return false;
        }
        left = left.without(k);
    }
    true
}

// Values a and b of i differ and are in its domain, and at each other item each value allowed with b has one that serves with a.
pub fn snake_substitution(view: View, i: usize, b: usize, a: usize) -> bool
    requires { (i < 32) × (b < 16) × (a < 16) }
    ensures { result ≡ snake_substitution (held view.entry.table.now) (state_of view.entry.state.now) substitution_spares i b a }
{
    let domain = view.state.domains[i];
    if domain.has(b) & (domain.has(a) & (a != b)) {
        substitution_others(view, i, b, a)
    } else {
        false
    }
}

// ---- all slides of a variable

// They are tried together: `goals` has for each value b of i a word of the values that it may still slide to. What a value d of another
// variable k asks is the same for every b that is allowed with it: one of the values that are allowed with d, or with one in its place.

// Each value of the domain may slide to each other.
fn all_goals(domain: u16, goals: &mut [u16; 16])
    requires { length goals.old ≡ 16 }
    ensures { AllGoals domain goals.new }
{
    for b in 0..16 {
        goals[b] = where16(domain, b, domain.without(b));
    }
}

// Some value of `set` has a goal that is not one of them. The loop is never left early, so that the compiler can do many at once.
fn asks(set: u16, goals: &[u16; 16]) -> bool
    ensures { result ≡ false → Closed set goals.now }
{
    let mut all: u16 = 0;
    for b in 0..16 {
        all = all | where16(set, b, goals[b]);
    }
    all & !set != 0
}

// The values of `set` keep those of their goals that are of `kept`.
fn keep(set: u16, kept: u16, goals: &mut [u16; 16])
    requires { length goals.old ≡ 16 }
    ensures { Limited set kept goals.old goals.new }
{
    for b in 0..16 {
        goals[b] = goals[b] & !where16(set, b, !kept);
    }
}

// The values of i that are allowed with one of a set of values of k.
fn reached(t: &[u16], domain: u16, set: u16, k: usize, i: usize) -> u16
    requires { RowTable t.now × Values t.now i domain × Values t.now k set × (k < 32) × (i < 32) × (i ≢ k) }
    ensures { result ≡ bit_and domain (partners_of (held t.now) set k i) }
{
    if set == 0 {
        0
    } else {
        partners(t, domain, set, k, i)
    }
}

// What value d of k asks of the slides of i, where it is allowed with the values `set`: these, and what is allowed with a value in its place,
// are kept as goals. It answers k and where others in the place of d break, or 0 where nothing was asked.
fn narrow_by(view: View, goals: &mut [u16; 16], rest: u32, i: usize, k: usize, d: usize) -> u32
    requires { Goals (state_of view.state.now) i goals.old × (i < 32) × (rest ≡ thirds view.state.now.active i k) × (k < 32) × (k ≢ i) × T (bit (get_or view.state.now.domains k 0) d) }
    ensures { Narrowed (held view.entry.table.now) (state_of view.entry.state.now) i (λ l c. (l ≡ k) × (c ≡ d)) goals.old goals.new result }
{
    let domain = view.state.domains[i];
    let set = row_among(view.table, domain, k, i, d);
    if !asks(set, goals) {
        return 0;
    }
    let found = serving(view, rest, view.state.domains[k].without(d), k, k, d);
    keep(
        set,
        set | reached(view.table, domain, found.left, k, i),
        goals,
    );
    found.broken.with(k)
}

// What the values of k ask, the highest first.
fn narrow_at(view: View, goals: &mut [u16; 16], rest: u32, i: usize, k: usize) -> u32
    requires { Goals (state_of view.state.now) i goals.old × (i < 32) × (rest ≡ thirds view.state.now.active i k) × (k < 32) × (k ≢ i) }
    ensures { Narrowed (held view.entry.table.now) (state_of view.entry.state.now) i (λ l c. l ≡ k) goals.old goals.new result }
{
    let mut rests: u32 = 0;
    let mut left = view.state.domains[k];
    while left != 0 {
        let d = left.highest();
        rests = rests | narrow_by(view, goals, rest, i, k, d);
        left = left.without(d);
    }
    rests
}

// Some value has a goal left.
fn some_goal(goals: &[u16; 16]) -> bool
    requires { length goals.now ≡ 16 }
    ensures { result ≡ false → NoGoal goals.now }
{
    let mut all: u16 = 0;
    for b in 0..16 {
        all = all | goals[b];
    }
    all != 0
}

// What all other variables ask, the highest first, while a goal is left.
fn narrow_from(view: View, goals: &mut [u16; 16], i: usize) -> u32
    requires { Goals (state_of view.state.now) i goals.old × (i < 32) }
    ensures { Narrowed (held view.entry.table.now) (state_of view.entry.state.now) i (λ l c. l ≢ i) goals.old goals.new result }
{
    let rest = view.state.active.without(i);
    let mut rests: u32 = 0;
    let mut left = rest & neighbours(view.table, i);
    while (left != 0) & some_goal(goals) {
        let k = left.highest();
        rests = rests | narrow_at(view, goals, rest.without(k), i, k);
        left = left.without(k);
    }
    rests
}

// Tries all values of i: the goals that are left are its substitutions, and where there is none, that rests on the variables of the answer.
pub fn substitution_rests(view: View, goals: &mut [u16; 16], i: usize) -> u32
    requires { (i < 32) × (length goals.old ≡ 16) }
    ensures { AllTried (held view.entry.table.now) (state_of view.entry.state.now) i goals.new result }
{
    all_goals(view.state.domains[i], goals);
    narrow_from(view, goals, i)
}

// The lowest goal of b. Its word is handed over: of one in a lent array it is not known that it is a set of 16.
fn lowest_goal(word: u16, i: usize, b: usize) -> Option<Record>
    ensures { result ≡ lowest_goal i b word }
{
    if word == 0 {
        None
    } else {
        Some(Record::SnakeSubstitution(i, b, word.lowest()))
    }
}

// The step by the lowest value that has a goal, with its lowest goal.
pub fn lowest_substitution(goals: &[u16; 16], i: usize) -> Option<Record>
    ensures { result ≡ first 16 (λ b. lowest_goal i b (get_or goals.now b 0)) }
{
    for b in 0..16 {
        let found = lowest_goal(goals[b], i, b);
        if found.is_some() {
            return found;
        }
    }
    None
}
