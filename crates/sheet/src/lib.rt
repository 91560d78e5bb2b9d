// The sheet's layout: its types, the numbers of its refusals, and its rows read at a place.
#![tactic(auto)]

ghost use Rattle.std.specs.Prelude.{◌≡◌, ◌+◌, ◌*◌, ◌<◌, ◌≤◌, length};
ghost use Rattle.buffers.specs.Bytes.{number_at, Is};
ghost use Rattle.sheet.specs.Sheet.{layout, sheet_number, variables_of, row_width, Front};
ghost use Rattle.sheet.specs.Parts.{Width};

use buffers::{byte, word};

// Why a sheet is turned away: one case for each row of the format's table.
#[derive(Clone, Copy, Debug, PartialEq, Eq)]
pub enum SheetRefusal {
    TooShort,
    Version,
    Length,
    Variables,
    Sizes,
    PairMissing,
    PairOrder,
    RowsCut,
    RowBeyond,
    BarsNothing,
    LeftOver,
}

// What an accepted sheet counts: its items and its pair blocks.
#[derive(Clone, Copy)]
pub struct Counts {
    pub variables: usize,
    pub blocks: usize,
}

// After a good block: the least place in the order for the next pair, and where the next block starts.
#[derive(Clone, Copy)]
pub struct NextBlock {
    pub least: usize,
    pub at: usize,
}

// The format's number for a refusal.
impl From<SheetRefusal> for u8 {
    ghost from_gives = { λ r n. n ≡ sheet_number r };

    fn from(r: SheetRefusal) -> u8 {
        match r {
            SheetRefusal::TooShort => 1,
            SheetRefusal::Version => 2,
            SheetRefusal::Length => 3,
            SheetRefusal::Variables => 4,
            SheetRefusal::Sizes => 5,
            SheetRefusal::PairMissing => 6,
            SheetRefusal::PairOrder => 7,
            SheetRefusal::RowsCut => 6,
            SheetRefusal::RowBeyond => 8,
            SheetRefusal::BarsNothing => 9,
            SheetRefusal::LeftOver => 6,
        }
    }
}

// ---- what the version decides

// Whether a version is taken.
pub fn takes(v: usize) -> bool
    ensures { result ≡ layout.takes v }
{
    (v == 1) | (v == 2)
}

// The bytes of a row, of a version v, for an item of z settings.
pub fn row_width(v: usize, z: usize) -> usize
    ensures { Width (layout.width v z) result }
{
    if (v == 2) & (z <= 8) { 1 } else { 2 }
}

// ---- rows

// The row of w bytes at p.
pub fn row(s: &[u8], w: usize, p: usize) -> usize
    requires { (1 ≤ w) × ((w ≤ 2) × (p + w ≤ length s.now)) }
    ensures { Is (number_at s.now w p) 65536 result }
{
    if w == 1 { byte(s, p) } else { word(s, p) }
}

// The bytes of a row of a block whose second item is j.
pub fn width_of(s: &[u8], j: usize) -> usize
    requires { Front s.now × (j < variables_of s.now) }
    ensures { Width (row_width layout s.now j) result }
{
    row_width(byte(s, 0), byte(s, 8 + j))
}
