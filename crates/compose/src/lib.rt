// The sheet of a version that is the problem of a filled table, written at the front of a lent buffer. Its length is known before a
// byte is written.
#![tactic(auto)]

ghost use Rattle.std.specs.Prelude.{◌≡◌, ◌+◌, ◌*◌, ◌-◌, ◌/◌, ◌%◌, ◌^◌, ◌<◌, ◌≤◌, length};
ghost use Rattle.bounded.specs.Table.{tab, filled};
ghost use Rattle.problem.specs.Held.{held, RowTable};
ghost use Rattle.buffers.specs.Bytes.{Is, number_bytes};
ghost use Rattle.sheet.specs.Sheet.{layout};
ghost use Rattle.buffers.specs.Written.{fronted, written};
ghost use Rattle.compose.specs.Compose.{row_number, pair_bars, block_count, rows_bytes, block_bytes, place_bytes, blocks_bytes, sheet_length, sheet_bytes, sheet_over};
ghost use Rattle.compose.specs.Parts.{Version, Pair, mark_of, BlockMarked, BytesWrote, front_bytes};

use bounded::Set;
use buffers::put_word;

// The buffer is shorter than the sheet.
#[derive(Clone, Copy, PartialEq, Eq, Debug)]
pub struct TooShort;

// ---- what a pair bars

// The row of setting a of i towards a later item j: it has no bit that j lacks.
fn row_number(t: &[u16], i: usize, j: usize, a: usize) -> usize
    requires { Pair t.now i j × (a < (held t.now).size i) }
    ensures { Is (row_number (held t.now) i j a) (2 ^ (held t.now).size j) result }
{
    held::row(t, i, j, a) as usize
}

// Whether some two settings of i and j are barred.
fn bars(t: &[u16], i: usize, j: usize) -> bool
    requires { Pair t.now i j }
    ensures { result ≡ pair_bars (held t.now) i j }
{
    let z = held::size(t, i);
    let full = u32::below(held::size(t, j)) as usize;
    for a in 0..z {
        if row_number(t, i, j, a) != full {
            return true;
        }
    }
    false
}

// ---- the marks: each pair is asked once

// 1 where the pair at place x of the order has a block, else 0.
fn mark(t: &[u16], n: usize, x: usize) -> u8
    requires { RowTable t.now × (n ≡ (held t.now).n) }
    ensures { result ≡ mark_of (held t.now) x }
{
    let i = x / 32;
    let j = x % 32;
    if j <= i {
        return 0;
    }
    if n <= j {
        return 0;
    }
    if bars(t, i, j) { 1 } else { 0 }
}

// Marks the places of n items, and counts the blocks.
fn mark_blocks(t: &[u16], n: usize, marks: &mut [u8]) -> usize
    requires { RowTable t.now × ((n ≡ (held t.now).n) × (length marks.old ≡ 1024)) }
    ensures { (marks.new ≡ filled (32 * n) (mark_of (held t.now)) marks.old) × (result ≡ block_count (held t.now) 1024 0) }
{
    let mut blocks: usize = 0;
    for x in 0..32 * n {
        let m = mark(t, n, x);
        marks[x] = m;
        blocks += m as usize;
    }
    blocks
}

// ---- what is written

// The problem of a filled table and the version to write it in: its items, and the pairs that have a block, counted and marked.
#[derive(Clone, Copy)]
struct Draft<'a> {
    t: &'a [u16],
    v: usize,
    n: usize,
    blocks: usize,
    marks: &'a [u8],
    ghost version: { Version v },
    ghost items: { n ≡ (held t.now).n },
    ghost counted: { blocks ≡ block_count (held t.now) 1024 0 },
    ghost marked: { BlockMarked t.now marks.now },
}

// ---- the length

// The bytes of the block of the pair at place x; none where it has no block.
fn place_length(d: &Draft, x: usize) -> usize
    requires { x < 32 * (held d.now.t.now).n }
    ensures { result ≡ length (place_bytes layout d.now.v (held d.now.t.now) x) }
{
    if d.marks[x] == 0 {
        return 0;
    }
    2 + held::size(d.t, x / 32) * sheet::row_width(d.v, held::size(d.t, x % 32))
}

// The bytes of all blocks.
fn blocks_length(d: &Draft) -> usize
    ensures { result ≡ length (blocks_bytes layout d.now.v (held d.now.t.now) 1024 0) }
{
    let mut sum: usize = 0;
    for x in 0..32 * d.n {
        sum += place_length(d, x);
    }
    sum
}

// ---- the blocks

// A row of w bytes.
fn put_row(out: &mut [u8], at: usize, w: usize, x: usize)
    requires { (1 ≤ w) × ((w ≤ 2) × ((at + w ≤ length out.old) × (x < 256 ^ w))) }
    ensures { out.new ≡ written out.old at (number_bytes w x) }
{
    if w == 1 {
        out[at] = x as u8;
        return;
    }
    put_word(out, at, x as u16);
}

// The rows of i towards j; the place after them.
fn put_rows(t: &[u16], v: usize, out: &mut [u8], at: usize, i: usize, j: usize) -> usize
    requires { Pair t.now i j × (Version v × (at + length (rows_bytes layout v (held t.now) i j ((held t.now).size i) 0) ≤ length out.old)) }
    ensures { BytesWrote out.old at (rows_bytes layout v (held t.now) i j ((held t.now).size i) 0) out.new result }
{
    let z = held::size(t, i);
    let w = sheet::row_width(v, held::size(t, j));
    let mut p = at;
    for a in 0..z {
        let x = row_number(t, i, j, a);
        put_row(out, p, w, x);
        p += w;
    }
    p
}

// The block of i and j; the place after it.
fn put_block(t: &[u16], v: usize, out: &mut [u8], at: usize, i: usize, j: usize) -> usize
    requires { Pair t.now i j × (Version v × (at + length (block_bytes layout v (held t.now) i j) ≤ length out.old)) }
    ensures { BytesWrote out.old at (block_bytes layout v (held t.now) i j) out.new result }
{
    out[at] = i as u8;
    out[at + 1] = j as u8;
    put_rows(t, v, out, at + 2, i, j)
}

// The block of the pair at place x, where it has one; the place after it.
fn put_place(d: &Draft, out: &mut [u8], at: usize, x: usize) -> usize
    requires { (x < 32 * (held d.now.t.now).n) × (at + length (place_bytes layout d.now.v (held d.now.t.now) x) ≤ length out.old) }
    ensures { BytesWrote out.old at (place_bytes layout d.now.v (held d.now.t.now) x) out.new result }
{
    if d.marks[x] == 0 {
        return at;
    }
    put_block(d.t, d.v, out, at, x / 32, x % 32)
}

// All blocks, after the front and the sizes.
fn put_blocks(d: &Draft, out: &mut [u8])
    requires { 8 + d.now.n + length (blocks_bytes layout d.now.v (held d.now.t.now) 1024 0) ≤ length out.old }
    ensures { out.new ≡ written out.old (8 + d.now.n) (blocks_bytes layout d.now.v (held d.now.t.now) 1024 0) }
{
    let mut p = 8 + d.n;
    for x in 0..32 * d.n {
        p = put_place(d, out, p, x);
    }
}

// ---- the front and the sizes

// The first eight bytes.
fn put_front(out: &mut [u8], v: usize, len: usize, n: usize, m: usize)
    requires { (8 ≤ length out.old) × ((v < 256) × ((len < 4294967296) × ((n < 256) × (m < 65536)))) }
    ensures { out.new ≡ written out.old 0 (front_bytes v len n m) }
{
    out[0] = v as u8;
    out[1] = (len / 16777216 % 256) as u8;
    out[2] = (len / 65536 % 256) as u8;
    out[3] = (len / 256 % 256) as u8;
    out[4] = (len % 256) as u8;
    out[5] = n as u8;
    out[6] = (m / 256 % 256) as u8;
    out[7] = (m % 256) as u8;
}

// The size of each item.
fn put_sizes(t: &[u16], n: usize, out: &mut [u8])
    requires { RowTable t.now × ((n ≡ (held t.now).n) × (8 + n ≤ length out.old)) }
    ensures { out.new ≡ written out.old 8 (tab n (held t.now).size) }
{
    for i in 0..n {
        out[8 + i] = held::size(t, i) as u8;
    }
}

// ---- the sheet

// The sheet at the front of a buffer that is long enough.
fn put_sheet(d: &Draft, len: usize, out: &mut [u8])
    requires { (len ≡ sheet_length layout d.now.v (held d.now.t.now)) × (len ≤ length out.old) }
    ensures { out.new ≡ fronted (sheet_bytes layout d.now.v (held d.now.t.now)) out.old }
{
    put_front(out, d.v, len, d.n, d.blocks);
    put_sizes(d.t, d.n, out);
    put_blocks(d, out);
}

// The length first, then the sheet.
fn write_draft(d: &Draft, out: &mut [u8]) -> Result<usize, TooShort>
    ensures { (result ≡ (sheet_over layout d.now.v (held d.now.t.now) out.old).answer) × (out.new ≡ (sheet_over layout d.now.v (held d.now.t.now) out.old).buffer) }
{
    let len = 8 + (d.n + blocks_length(d));
    if out.len() < len {
        return Err(TooShort);
    }
    put_sheet(d, len, out);
    Ok(len)
}

// Writes, at the front of the buffer, the sheet of version v that is the problem of the table. A buffer that is too short stays as it was.
pub fn write_sheet(t: &[u16], v: usize, out: &mut [u8]) -> Result<usize, TooShort>
    requires { RowTable t.now × Version v }
    ensures { (result ≡ (sheet_over layout v (held t.now) out.old).answer) × (out.new ≡ (sheet_over layout v (held t.now) out.old).buffer) }
{
    let n = held::variables(t);
    let mut marks = [0u8; 1024];
    let blocks = mark_blocks(t, n, &mut marks);
    let d = Draft {
        t,
        v,
        n,
        blocks,
        marks: &marks,
    };
    write_draft(&d, out)
}
