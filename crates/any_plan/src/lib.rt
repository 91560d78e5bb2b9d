// Any plan within sets of values, or that there is none. One plan is asked for and not the first, so the search goes where it fails most; what
// it goes by is no part of the answer (crate weights). Sets are narrowed only by variables that have one value left: more would cost more than it saves.
#![tactic(auto)]

ghost use Rattle.std.specs.Prelude.{◌≡◌, ◌≢◌, ◌+◌, ◌^◌, ◌<◌, ◌≤◌, None, get_or};
ghost use Rattle.bounded.specs.Quantifiers.{any_below};
ghost use Rattle.lines.specs.Lines.{lines_length};
ghost use Rattle.any_plan.specs.Question.{AnyPlan};
ghost use Rattle.any_plan.specs.Steps.{without_lowest, open_count, Settled, Met, Next, barred_at, LineAgrees};

use bounded::Set;
use lines::LINES;
use weights::{Weights, came_down};

// ---- sets narrowed

// A set without its lowest value: nothing where it has at most one.
fn others(x: u16) -> u16
    ensures { result ≡ without_lowest x }
{
    if x == 0 { 0 } else { x.without(x.lowest()) }
}

// The set of one value.
fn single(a: usize) -> u16
    requires { a < 16 }
    ensures { result ≡ 2 ^ a }
{
    1u16 << a
}

// Whether a set was emptied, and which sets came down to one value or none. No Option: the marks weigh where a set was emptied, and say what to
// do next where none was.
#[derive(Clone, Copy)]
struct Narrowed {
    pub dead: bool,
    pub marks: u32,
}

// All sets are met with the line at p. The loop is never left early, so that the compiler can do many sets at once.
fn meet(lines: &[u16; LINES], on: &mut [u16; 32], weights: &Weights, p: usize) -> Narrowed
    requires { p + 32 ≤ lines_length }
    ensures { Met lines.now on.old p result.dead on.new }
{
    let mut marks = [0u16; 32];
    let mut dead = false;
    for j in 0..32 {
        let was = on[j];
        let left = was & lines[p + j];
        on[j] = left;
        marks[j] = came_down(was, left);
        dead |= (was != 0) & (left == 0);
    }
    Narrowed {
        dead,
        marks: weights.marked(&marks),
    }
}

// Where k has one value, all sets are met with its line.
fn meet_one(lines: &[u16; LINES], on: &mut [u16; 32], weights: &Weights, k: usize) -> Narrowed
    requires { k < 32 }
    ensures { Settled lines.now on.old result.dead on.new }
{
    let x = on[k];
    if (x == 0) | (others(x) != 0) {
        return Narrowed {
            dead: false,
            marks: 0,
        };
    }
    meet(lines, on, weights, 512 * k + 32 * x.lowest())
}

// From the variables `first` on, the sets are met with the lines of those that have one value left, and of those that come down to one.
// Whether a set was emptied; that weighs on both variables. Each turn but the first 32 follows from a variable that came down to one value,
// so 64 are enough; nothing rests on that, and the turns are counted beside the loop, which goes by the set of what is to do.
fn narrow(lines: &[u16; LINES], on: &mut [u16; 32], weights: &mut Weights, first: u32) -> bool
    ensures { Settled lines.now on.old result on.new }
{
    let mut todo = first;
    let mut turns: usize = 64;
    while todo != 0 {
        let k = todo.lowest();
        let met = meet_one(lines, on, weights, k);
        if met.dead | (turns == 0) {
            weights.failed(on, k, met.marks);
            return met.dead;
        }
        todo = todo.without(k) | met.marks;
        turns -= 1;
    }
    false
}

// ---- the next variable

// The lowest variable with more than one value.
fn first_open(on: &[u16; 32]) -> Option<usize>
    ensures { Next on.now result }
{
    for j in 0..32 {
        if others(on[j]) != 0 {
            return Some(j);
        }
    }
    None
}

// A variable with more than one value: the one that it costs least to branch on.
fn next_variable(on: &[u16; 32], weights: &Weights) -> Option<usize>
    ensures { Next on.now result }
{
    let i = weights.cheapest(on);
    if others(on[i]) != 0 {
        return Some(i);
    }
    first_open(on)
}

// ---- whether values agree

// Some set has a value that the line at p does not have.
fn barred(lines: &[u16; LINES], on: &[u16; 32], p: usize) -> bool
    requires { p + 32 ≤ lines_length }
    ensures { result ≡ any_below 32 (barred_at lines.now on.now p) }
{
    let mut some = false;
    for j in 0..32 {
        let x = on[j];
        some |= x & lines[p + j] != x;
    }
    some
}

// Every value of every set is allowed with the lowest of k.
fn agrees_at(lines: &[u16; LINES], on: &[u16; 32], k: usize) -> bool
    requires { k < 32 }
    ensures { LineAgrees lines.now on.now k result }
{
    let x = on[k];
    if x == 0 {
        return true;
    }
    !barred(lines, on, 512 * k + 32 * x.lowest())
}

// The only plan that is left: where each variable has at most one value, whether these are a plan.
fn agrees(lines: &[u16; LINES], on: &[u16; 32]) -> bool
    requires { Next on.now None }
    ensures { AnyPlan lines.now on.now result on.now }
{
    for k in 0..32 {
        if !agrees_at(lines, on, k) {
            return false;
        }
    }
    true
}

// ---- the search

// `depth` says how many calls for a first value lie around this one. Nothing reads it: it is there so that its bound is proved, and so that of
// the stack. `lines` and `weights` are no struct: the one is only read, the other written, and lent together for writing each contract would
// have to say that the lines stay.

// The next variable, once the sets are narrowed from the variables `changed` on.
#[cycle(branch_explore)]
fn explore(
    lines: &[u16; LINES],
    on: &mut [u16; 32],
    weights: &mut Weights,
    changed: u32,
    depth: usize,
) -> bool
    requires { depth + open_count on.old ≤ 32 }
    ensures { AnyPlan lines.now on.old result on.new }
{
    if narrow(lines, on, weights, changed) {
        return false;
    }
    match next_variable(on, weights) {
        None => agrees(lines, on),
        Some(i) => branch(lines, on, weights, i, depth),
    }
}

// Variable i has its lowest value, or else another. The sets for the first lie in this frame; those for the second take the place of the sets
// that are lent, so that the compiler makes a jump of the second call.
#[cycle(branch_explore)]
fn branch(
    lines: &[u16; LINES],
    on: &mut [u16; 32],
    weights: &mut Weights,
    i: usize,
    depth: usize,
) -> bool
    requires { (i < 32) × (without_lowest (get_or on.old i 0) ≢ 0) × (depth + open_count on.old ≤ 32) }
    ensures { AnyPlan lines.now on.old result on.new }
{
    let x = on[i];
    let mut first = *on;
    first[i] = single(x.lowest());
    if explore(lines, &mut first, weights, 1u32 << i, depth + 1) {
        *on = first;
        return true;
    }
    on[i] = others(x);
    explore(lines, on, weights, 1u32 << i, depth)
}

// A plan within the sets, or that there is none: with a plan, the lowest value of each set is the variable's.
pub fn any_plan(lines: &[u16; LINES], on: &mut [u16; 32], weights: &mut Weights) -> bool
    ensures { AnyPlan lines.now on.old result on.new }
{
    let fixed = weights.fixed(on);
    explore(lines, on, weights, fixed, 0)
}
