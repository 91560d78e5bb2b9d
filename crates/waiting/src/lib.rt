// What a run's search waits for: a test that failed is not made again before a variable changes that its failure rests on. This crate alone
// knows where the word of a test stands.
#![tactic(auto)]

ghost use Rattle.std.specs.Prelude.{◌≡◌, ◌<◌, get_or, replicate};
ghost use Rattle.waiting.specs.Waiting.{rows, groups, waiting_length, row_of, TrianglesPending, Watched, Learned, Woken, TriangleLearned, TrianglesWoken};

use bounded::{Set, weight};
use held::joined;

// ---- the layout

// How many rows of tests there are, how many words wait for variables, and how many wait at all.
pub const ROWS: usize = 160;

const TRIANGLES_FROM: usize = 5120;

pub const WAITING: usize = 6144;

// The groups of rows. The triangles with a variable from 16 on have a group of their own after the first.
pub const SNAKES: usize = 0;

const TRIANGLES: usize = 1;

pub const NEIGHBOURHOODS: usize = 3;

pub const SUBSTITUTIONS: usize = 4;

// ---- what is known

// What a search knows of the tests that failed: by rows, those that are pending, and for each variable those that wait for it, then for
// each triangle the value that it waits for.
#[derive(Clone, Copy)]
pub struct Memory {
    pub pending: [u16; ROWS],
    pub waiting: [u16; WAITING],
}

// The row of variable i in a group.
fn row_at(group: usize, i: usize) -> usize
    requires { (group < groups) × (i < 32) }
    ensures { result ≡ row_of group i }
{
    32 * group + i
}

// Test c of a row waits for each variable of `rests`.
fn watch(waiting: &mut [u16; WAITING], rests: u32, row: usize, c: usize)
    requires { (row < rows) × (c < 16) }
    ensures { Watched rests row c waiting.old waiting.new }
{
    let mut left = rests;
    while left != 0 {
        let l = left.lowest();
        let at = ROWS * l + row;
        waiting[at] = waiting[at].with(c);
        left = left.without(l);
    }
}

// The tests of variable i in a group that are pending.
pub fn pending_of(pending: &[u16; ROWS], group: usize, i: usize) -> u16
    requires { (group < groups) × (i < 32) }
    ensures { result ≡ get_or pending.now (row_of group i) 0 }
{
    pending[row_at(group, i)]
}

// The variables whose triangle with i is pending.
pub fn pending_triangles(pending: &[u16; ROWS], i: usize) -> u32
    requires { i < 32 }
    ensures { TrianglesPending pending.now i result }
{
    joined(
        pending_of(pending, TRIANGLES, i),
        pending_of(pending, TRIANGLES + 1, i),
    )
}

// Value c has gone off at l: triangles with l that wait for it are pending. The loop loads and stores each word, so that the compiler can do
// many at once.
pub fn wake_triangles(pending: &mut [u16; ROWS], waiting: &[u16; WAITING], l: usize, c: usize)
    requires { (l < 32) × (c < 16) }
    ensures { TrianglesWoken l c pending.old waiting.now pending.new }
{
    let row = 32 * (TRIANGLES + l / 16);
    let from = TRIANGLES_FROM + 32 * l;
    for i in 0..32 {
        pending[row + i] = pending[row + i] | weight(waiting[from + i] == c as u16, l % 16);
    }
}

impl Memory {
    // At first every test is pending. Inlined, so that it is built where it stays: a copy more is more stack than the header asks for.
    #[inline(always)]
    pub fn fresh() -> Memory
        ensures pending { result.pending ≡ replicate rows 65535 }
        ensures waiting { result.waiting ≡ replicate waiting_length 0 }
    {
        Memory {
            pending: [65535u16; ROWS],
            waiting: [0u16; WAITING],
        }
    }

    // The tests of variable i in a group that are pending.
    pub fn pending_of(&self, group: usize, i: usize) -> u16
        requires { (group < groups) × (i < 32) }
        ensures { result ≡ get_or self.now.pending (row_of group i) 0 }
    {
        pending_of(&self.pending, group, i)
    }

    // The variables whose triangle with i is pending.
    pub fn pending_triangles(&self, i: usize) -> u32
        requires { i < 32 }
        ensures { TrianglesPending self.now.pending i result }
    {
        pending_triangles(&self.pending, i)
    }

    // ---- a test has failed

    // Test c of variable i in a group has failed: it is pending no longer, and waits for each variable that its failure rests on.
    pub fn learn(&mut self, rests: u32, group: usize, i: usize, c: usize)
        requires { (group < groups) × (i < 32) × (c < 16) }
        ensures { Learned rests (row_of group i) c self.old.pending self.old.waiting self.new.pending self.new.waiting }
    {
        let row = row_at(group, i);
        self.pending[row] = self.pending[row].without(c);
        watch(&mut self.waiting, rests, row, c);
    }

    // The triangle of i with j has failed by value v of j: it waits for each variable of `rests`, and for that value.
    pub fn learn_triangle(&mut self, rests: u32, i: usize, j: usize, v: usize)
        requires { (i < 32) × (j < 32) × (v < 16) }
        ensures { TriangleLearned rests i j v self.old.pending self.old.waiting self.new.pending self.new.waiting }
    {
        self.waiting[TRIANGLES_FROM + (32 * j + i)] = v as u16;
        self.learn(rests, TRIANGLES + j / 16, i, j % 16);
    }

    // ---- a variable has changed

    // Variable l has changed: what waits for it is pending. The loop loads and stores each word, so that the compiler can do many at once.
    pub fn wake(&mut self, l: usize)
        requires { l < 32 }
        ensures { Woken l self.old.pending self.old.waiting self.new.pending self.new.waiting }
    {
        let from = ROWS * l;
        for row in 0..ROWS {
            self.pending[row] = self.pending[row] | self.waiting[from + row];
            self.waiting[from + row] = 0;
        }
    }

    // Value c has gone off at l: triangles with l that wait for it are pending.
    pub fn wake_triangles(&mut self, l: usize, c: usize)
        requires { (l < 32) × (c < 16) }
        ensures wakes { TrianglesWoken l c self.old.pending self.old.waiting self.new.pending }
        ensures same { self.new.waiting ≡ self.old.waiting }
    {
        wake_triangles(&mut self.pending, &self.waiting, l, c);
    }
}
