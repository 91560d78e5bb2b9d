// Reading a sheet: whether its bytes keep the layout, or which refusal is the first. Where a table for the rule tests is lent, it is filled
// on the way, in one pass over the blocks.
#![tactic(auto)]

ghost use Rattle.std.specs.Prelude.{◌≡◌, true, ℕ, ◌+◌, ◌-◌, ◌*◌, ◌^◌, ◌<◌, ◌≤◌, length};
ghost use Rattle.problem.specs.Held.{table_length, Filled};
ghost use Rattle.buffers.specs.Bytes.{byte_at, number_at};
ghost use Rattle.sheet.specs.Sheet.{layout, variables_of, blocks_of, in_order, block_of, block_at, blocks_from, bad_sizes, read_sheet, Keeps, Front};
ghost use Rattle.sheet.specs.Relation.{size_of, problem_of};
ghost use Rattle.table.specs.Parts.{Wrote, Blank};
ghost use Rattle.read_sheet.specs.Reading.{Inside, Clear, BlockRows, some_beyond, all_full, rows_tell, FrontRead, Free};

use bounded::Set;
use buffers::{byte, long, word};
use sheet::{Counts, NextBlock, SheetRefusal, row, takes, width_of};
use table::{enter, put_places};

// ---- rows

// The k rows of w bytes from p, into a clear list.
fn read_rows(s: &[u8], w: usize, k: usize, p: usize, x: &mut [u16; 16])
    requires { Inside (length s.now) w k p × (length x.old ≡ 16) }
    ensures { Wrote k x.old x.new 0 (λ a. number_at s.now w (p + a * w)) }
{
    let mut at = p;
    for a in 0..k {
        x[a] = row(s, w, at) as u16;
        at += w;
    }
}

// Whether some row has a bit for a setting that `full` lacks. All 16 are looked at.
fn some_beyond(x: &[u16; 16], full: u16) -> bool
    ensures { result ≡ some_beyond x.now full }
{
    let mut found = false;
    for a in 0..16 {
        found |= full < x[a];
    }
    found
}

// Whether each of the first k rows is `full`.
fn allows_all(x: &[u16; 16], full: u16, k: usize) -> bool
    requires { k ≤ 16 }
    ensures { result ≡ all_full x.now full k }
{
    for a in 0..k {
        if x[a] != full {
            return false;
        }
    }
    true
}

// What the rows of a block decide: z settings of the second item, k of the first.
fn rows_tell(
    x: &[u16; 16],
    z: usize,
    k: usize,
    least: usize,
    at: usize,
) -> Result<NextBlock, SheetRefusal>
    requires { (z ≤ 16) × (k ≤ 16) }
    ensures { result ≡ rows_tell x.now (2 ^ z - 1) k least at }
{
    let full = u16::below(z);
    if some_beyond(x, full) {
        return Err(SheetRefusal::RowBeyond);
    }
    if allows_all(x, full, k) {
        return Err(SheetRefusal::BarsNothing);
    }
    Ok(NextBlock { least, at })
}

// ---- blocks

// Whether i < j < n, and the pair comes after the block before.
fn in_order(s: &[u8], least: usize, i: usize, j: usize) -> bool
    requires { Front s.now }
    ensures { result ≡ in_order layout s.now least i j }
{
    if i < j {
        if j < byte(s, 5) {
            return least <= 32 * i + j;
        }
    }
    false
}

// The block of i and j, whose item bytes stand at p, and its rows.
fn block_of(
    s: &[u8],
    least: usize,
    p: usize,
    i: usize,
    j: usize,
    x: &mut [u16; 16],
) -> Result<NextBlock, SheetRefusal>
    requires { Front s.now × (p + 2 ≤ length s.now) × Clear x.old }
    ensures answer { result ≡ block_of layout s.now least p i j }
    ensures rows { BlockRows s.now i j p x.new result }
{
    if !in_order(s, least, i, j) {
        return Err(SheetRefusal::PairOrder);
    }
    let w = width_of(s, j);
    let z = byte(s, 8 + j);
    let k = byte(s, 8 + i);
    let at = p + 2;
    if s.len() - at < k * w {
        return Err(SheetRefusal::RowsCut);
    }
    read_rows(s, w, k, at, x);
    rows_tell(x, z, k, 32 * i + j + 1, at + k * w)
}

// The block at p: its item bytes first.
fn block_at(s: &[u8], least: usize, p: usize, x: &mut [u16; 16]) -> Result<NextBlock, SheetRefusal>
    requires { Front s.now × (p ≤ length s.now) × Clear x.old }
    ensures answer { result ≡ block_at layout s.now least p }
    ensures rows { BlockRows s.now (byte_at s.now p) (byte_at s.now (p + 1)) p x.new result }
{
    if s.len() - p < 2 {
        return Err(SheetRefusal::PairMissing);
    }
    block_of(s, least, p, byte(s, p), byte(s, p + 1), x)
}

// After the blocks, which end at p: no bytes are left over.
fn after_blocks(s: &[u8], p: usize) -> Result<Counts, SheetRefusal>
    requires { Front s.now }
    ensures { (least : ℕ) → result ≡ blocks_from layout s.now 0 least p }
{
    if p != s.len() {
        return Err(SheetRefusal::LeftOver);
    }
    Ok(Counts {
        variables: byte(s, 5),
        blocks: word(s, 6),
    })
}

// Each block in turn, for the answer alone. `blocks` has the same loop and enters each block. One function of both would need a trait for
// what is done with a block, with a ghost member for what was met so far, a struct around the table and two impls: more to read than these
// lines twice.
fn check(s: &[u8]) -> Result<Counts, SheetRefusal>
    requires { Front s.now }
    ensures { result ≡ blocks_from layout s.now (blocks_of s.now) 0 (8 + variables_of s.now) }
{
    let mut least: usize = 0;
    let mut at = 8 + byte(s, 5);
    for _ in 0..word(s, 6) {
        let mut rows = [0u16; 16];
        let next = block_at(s, least, at, &mut rows)?;
        least = next.least;
        at = next.at;
    }
    after_blocks(s, at)
}

// Each block in turn, entered where it is good.
fn blocks(s: &[u8], t: &mut [u16]) -> Result<Counts, SheetRefusal>
    requires { Front s.now × Free s.now t.old }
    ensures answer { result ≡ blocks_from layout s.now (blocks_of s.now) 0 (8 + variables_of s.now) }
    ensures filled { Keeps layout s.now → Filled (problem_of layout s.now) t.new }
{
    let mut least: usize = 0;
    let mut at = 8 + byte(s, 5);
    for _ in 0..word(s, 6) {
        let mut rows = [0u16; 16];
        let next = block_at(s, least, at, &mut rows)?;
        enter(t, byte(s, at), byte(s, at + 1), &rows);
        least = next.least;
        at = next.at;
    }
    after_blocks(s, at)
}

// ---- the table

// The settings of item k, 0 where the sheet has no such item.
fn size_of(s: &[u8], k: usize) -> u16
    requires { Front s.now }
    ensures { result ≡ size_of layout s.now k }
{
    if k < byte(s, 5) {
        byte(s, 8 + k) as u16
    } else {
        0
    }
}

// Puts the sizes into a table.
fn put_sizes(s: &[u8], t: &mut [u16])
    requires { Front s.now × (length t.old ≡ table_length) }
    ensures { Wrote 32 t.old t.new 0 (size_of layout s.now) }
{
    for k in 0..32 {
        t[k] = size_of(s, k);
    }
}

// Fills the table from a sheet whose front is good, and reads the blocks on the way.
fn fill(s: &[u8], t: &mut [u16]) -> Result<Counts, SheetRefusal>
    requires { Front s.now × Blank t.old }
    ensures answer { result ≡ blocks_from layout s.now (blocks_of s.now) 0 (8 + variables_of s.now) }
    ensures filled { Keeps layout s.now → Filled (problem_of layout s.now) t.new }
{
    put_places(t);
    put_sizes(s, t);
    blocks(s, t)
}

// ---- the sheet

// Whether a size, of n items from the byte at p, is 0 or above 16.
fn bad_sizes(s: &[u8], n: usize, p: usize) -> bool
    requires { p + n ≤ length s.now }
    ensures { result ≡ bad_sizes layout s.now n p }
{
    for at in p..p + n {
        let z = byte(s, at);
        if z == 0 {
            return true;
        }
        if 16 < z {
            return true;
        }
    }
    false
}

// What the front decides: the first refusal of the front and the sizes, or that they are good.
fn front(s: &[u8]) -> Result<Counts, SheetRefusal>
    ensures { FrontRead s.now result }
{
    if s.len() < 8 {
        return Err(SheetRefusal::TooShort);
    }
    if !takes(byte(s, 0)) {
        return Err(SheetRefusal::Version);
    }
    if long(s, 1) != s.len() {
        return Err(SheetRefusal::Length);
    }
    let n = byte(s, 5);
    if n == 0 {
        return Err(SheetRefusal::Variables);
    }
    if 32 < n {
        return Err(SheetRefusal::Variables);
    }
    if s.len() < 8 + n {
        return Err(SheetRefusal::Sizes);
    }
    if bad_sizes(s, n, 8) {
        return Err(SheetRefusal::Sizes);
    }
    Ok(Counts {
        variables: n,
        blocks: word(s, 6),
    })
}

// Reads a sheet, the rows of the format's table in their order, and fills a table with it on the way.
pub fn read_table(s: &[u8], t: &mut [u16]) -> Result<Counts, SheetRefusal>
    requires { Blank t.old }
    ensures answer { result ≡ read_sheet layout s.now }
    ensures filled { Keeps layout s.now → Filled (problem_of layout s.now) t.new }
{
    front(s)?;
    fill(s, t)
}

// Reads a sheet for its answer alone: no table is needed.
pub fn read_sheet(s: &[u8]) -> Result<Counts, SheetRefusal>
    ensures { result ≡ read_sheet layout s.now }
{
    front(s)?;
    check(s)
}
