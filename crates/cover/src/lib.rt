// Covering, the format's word for one value in another's place, over a lent table of rows: what spoils it at one variable, where it breaks
// first in a set of them, which values of a set cover, and where the others break.
#![tactic(auto)]

ghost use Rattle.std.specs.Prelude.{◌≡◌, cond, false, ◌≢◌, ◌<◌, ◌≤◌, ◌+◌, ◌-◌, ◌^◌};
ghost use Rattle.std.specs.Int.Bits.{bit_and, bit_or};
ghost use Rattle.bounded.specs.Mask.{bit};
ghost use Rattle.problem.specs.Problem.{spoiler as spoiler_at};
ghost use Rattle.problem.specs.Held.{table_length, rows_at, held, RowTable};
ghost use Rattle.problem.specs.Masks.{state_of};
ghost use Rattle.held.specs.Ready.{Value, Values, Among};
ghost use Rattle.cover.specs.Words.{first_break_in, allowed_with, servers_in, thirds};
ghost use Rattle.cover.specs.Broken.{BrokenIn, UnservedIn};

use bounded::{Set, lane};
use held::{View, neighbours, one_of, row_among, rows_at};

// Where the rows of j towards l start; those of i start at `own`. Mostly j is i, and the place is known.
fn rows_or(t: &[u16], i: usize, j: usize, l: usize, own: usize) -> usize
    requires { RowTable t.now × (own ≡ rows_at i l) × (own + 16 ≤ table_length) × (j < 32) × (l < 32) × (l ≢ j) }
    ensures is { result ≡ rows_at j l }
    ensures within { result + 16 ≤ table_length }
{
    if j == i { own } else { rows_at(t, j, l) }
}

// Of a set of values, those that a row bars. A function of its own, since an argument is known to fit its type, and an entry of a table in a
// View is not.
fn barred(set: u16, row: u16) -> u16
    ensures is { result ≡ bit_and set (65535 - row) }
    ensures fits { row < 65536 }
{
    set & !row
}

// The cover test: the lowest value in the domain of l that is allowed with value b of j and not with value a of i, or that there is none.
fn spoiler(view: View, i: usize, a: usize, j: usize, b: usize, l: usize) -> Option<usize>
    requires { Value view.table.now i a × Value view.table.now j b × (l < 32) × (l ≢ i) × (l ≢ j) }
    ensures { result ≡ spoiler_at (held view.entry.table.now) (state_of view.entry.state.now) i a j b l }
{
    let own = rows_at(view.table, i, l);
    let other = rows_or(view.table, i, j, l, own);
    let w = view.state.domains[l] & view.table[other + b];
    let spoilers = barred(w, view.table[own + a]);
    if spoilers == 0 {
        None
    } else {
        Some(spoilers.lowest())
    }
}

// ---- sets of variables

// What is left of some values once each was asked to cover another, and the variables at which some of them did not.
#[derive(Clone, Copy)]
pub struct Candidates {
    pub left: u16,
    pub broken: u32,
}

// A set of 32 with l where t holds, else as it is.
fn with32_if(x: u32, t: bool, l: usize) -> u32
    requires { l < 32 }
    ensures { result ≡ cond t (bit_or x (2 ^ l)) x }
{
    if t { x.with(l) } else { x }
}

// The active variables other than i and j.
pub fn third_set(active: u32, i: usize, j: usize) -> u32
    requires { (i < 32) × (j < 32) }
    ensures { result ≡ thirds active i j }
{
    active.without(i).without(j)
}

// ---- covering at a set of variables

// The lowest variable of `rest`, where neither i nor j is, at which value a of i does not cover value b of j, and the lowest value that
// spoils it there.
fn break_in(view: View, rest: u32, i: usize, a: usize, j: usize, b: usize) -> Option<(usize, usize)>
    requires { Value view.table.now i a × Value view.table.now j b × (bit rest i ≡ false) × (bit rest j ≡ false) }
    ensures { result ≡ first_break_in (held view.entry.table.now) (state_of view.entry.state.now) rest i a j b }
{
    let mut left = rest;
    while left != 0 {
        let l = left.lowest();
        if let Some(c) = spoiler(view, i, a, j, b, l) {
            return Some((l, c));
        }
        left = left.without(l);
    }
    None
}

// The same, looked for at the neighbours of i: a variable that has no block with i allows a everything.
pub fn first_break(
    view: View,
    rest: u32,
    i: usize,
    a: usize,
    j: usize,
    b: usize,
) -> Option<(usize, usize)>
    requires { Value view.table.now i a × Value view.table.now j b × (bit rest i ≡ false) × (bit rest j ≡ false) }
    ensures { result ≡ first_break_in (held view.entry.table.now) (state_of view.entry.state.now) rest i a j b }
{
    break_in(view, rest & neighbours(view.table, i), i, a, j, b)
}

// ---- a value in another's place

// Of the values `some` of i, those that are allowed with every value of the set x of l. The loop is never left early, and loads each row, so
// that the compiler can do many at once.
fn allowed_with(t: &[u16], some: u16, x: u16, i: usize, l: usize) -> u16
    requires { RowTable t.now × Values t.now i some × Values t.now l x × (i < 32) × (l < 32) × (l ≢ i) }
    ensures { result ≡ bit_and some (allowed_with (held t.now) x i l) }
{
    let at = rows_at(t, i, l);
    let one = one_of(t);
    let mut word: u16 = 0;
    for u in 0..16 {
        word = word | lane(x & t[at + u] == x, u, one);
    }
    some & word
}

// Those of the values `good` of i that cover value w of j at each variable of `rest`, and where the others break. The variables are asked one
// by one and the highest first, each of all values that are left: a run works from the lowest variable up, so that what breaks at a high one
// lasts.
fn serving_in(view: View, rest: u32, good: u16, i: usize, j: usize, w: usize) -> Candidates
    requires { Among view.state.now i good × Value view.table.now j w × (bit rest i ≡ false) × (bit rest j ≡ false) × (i < 32) }
    ensures is { result.left ≡ servers_in (held view.entry.table.now) (state_of view.entry.state.now) rest good i j w }
    ensures shown { BrokenIn (held view.entry.table.now) (state_of view.entry.state.now) rest good result.left result.broken i j w }
{
    let mut some = good;
    let mut broken: u32 = 0;
    let mut left = rest;
    while (left != 0) & (some != 0) {
        let l = left.highest();
        let x = row_among(view.table, view.state.domains[l], j, l, w);
        let next = allowed_with(view.table, some, x, i, l);
        broken = with32_if(broken, next != some, l);
        some = next;
        left = left.without(l);
    }
    Candidates { left: some, broken }
}

// The same, asked of the neighbours of i only: at any other variable every value of i covers.
pub fn serving(view: View, rest: u32, good: u16, i: usize, j: usize, w: usize) -> Candidates
    requires { Among view.state.now i good × Value view.table.now j w × (bit rest i ≡ false) × (bit rest j ≡ false) × (i < 32) }
    ensures is { result.left ≡ servers_in (held view.entry.table.now) (state_of view.entry.state.now) rest good i j w }
    ensures shown { BrokenIn (held view.entry.table.now) (state_of view.entry.state.now) rest good result.left result.broken i j w }
{
    serving_in(view, rest & neighbours(view.table, i), good, i, j, w)
}

// 0 where each value of `bad` that is not one of `good` is covered by one of `good` at each variable of `rest`; else j, and the variables
// that break every candidate for one of them. The highest value is asked first.
pub fn unserved(view: View, rest: u32, good: u16, bad: u16, j: usize) -> u32
    requires { Among view.state.now j good × Among view.state.now j bad × (bit rest j ≡ false) × (j < 32) }
    ensures { UnservedIn (held view.entry.table.now) (state_of view.entry.state.now) rest good bad j result }
{
    let near = rest & neighbours(view.table, j);
    let mut left = bad & !good;
    while left != 0 {
        let w = left.highest();
        let found = serving_in(view, near, good, j, j, w);
        if found.left == 0 {
            return found.broken.with(j);
        }
        left = left.without(w);
    }
    0
}
