// A sheet moved to the other version: it is read, its table filled, and the same problem written in the other version.
#![tactic(auto)]

ghost use Rattle.moved.specs.Call.{move_call};
ghost use Rattle.std.specs.Prelude.{◌≡◌};
ghost use Rattle.problem.specs.Held.{held, RowTable};
ghost use Rattle.compose.specs.Parts.{Version};
ghost use Rattle.moved.specs.declared.MoveRefusal.TheVariants.{Sheet, Target};
ghost use Rattle.moved.specs.Move.{move_number, other_version, move_over, move_job};

use compose::TooShort;
use sheet::SheetRefusal;

// Why a move is turned away: the sheet's own refusals, then the target's.
#[derive(Clone, Copy)]
pub enum MoveRefusal {
    Sheet(SheetRefusal),
    Target,
}

// The format's number for a refusal.
impl From<MoveRefusal> for u8 {
    ghost from_gives = { λ r n. n ≡ move_number r };

    fn from(r: MoveRefusal) -> u8 {
        match r {
            MoveRefusal::Sheet(x) => u8::from(x),
            MoveRefusal::Target => 26,
        }
    }
}

// 1 to 11: the sheet's own.
impl From<SheetRefusal> for MoveRefusal {
    ghost from_gives = { λ x r. r ≡ Sheet x };

    fn from(x: SheetRefusal) -> MoveRefusal {
        Self::Sheet(x)
    }
}

// 26: the target is too short for the moved sheet.
impl From<TooShort> for MoveRefusal {
    ghost from_gives = { λ _ r. r ≡ Target };

    fn from(_e: TooShort) -> MoveRefusal {
        Self::Target
    }
}

// The version that a sheet of version v is moved to.
fn other_version(v: usize) -> usize
    ensures { result ≡ other_version v }
{
    if v == 1 { 2 } else { 1 }
}

// The problem of a filled table, written in version v. A target that is too short stays as it was.
fn move_over(t: &[u16], v: usize, target: &mut [u8]) -> Result<usize, MoveRefusal>
    requires { RowTable t.now × Version v }
    ensures answer { result ≡ (move_over v (held t.now) target.old).answer }
    ensures target { target.new ≡ (move_over v (held t.now) target.old).target }
{
    Ok(compose::write_sheet(t, v, target)?)
}

// Writes the sheet in the other version at the target's front: the bytes written, or the refusal. A refused move leaves the target as it was.
pub fn move_sheet(sheet: &[u8], target: &mut [u8]) -> Result<usize, MoveRefusal>
    ensures answer { result ≡ (move_job sheet.now target.old).answer }
    ensures target { target.new ≡ (move_job sheet.now target.old).target }
{
    let mut t = table::blank_table();
    match read_sheet::read_table(sheet, &mut t) {
        Ok(_) => move_over(&t, other_version(buffers::byte(sheet, 0)), target),
        Err(r) => Err(MoveRefusal::from(r)),
    }
}

// ---- from C

// A sheet moved to the other version. Bits 0-7: the refusal's number, 0 where the moved sheet was written; bits 8-31: the bytes written. A
// refused call writes nothing.
pub fn move_call(sheet: &[u8], target: &mut [u8]) -> u64
    ensures answer { result ≡ (move_call sheet.now target.old).answer }
    ensures target { target.new ≡ (move_call sheet.now target.old).target }
{
    match move_sheet(sheet, target) {
        Ok(w) => 256 * w as u64,
        Err(r) => u8::from(r) as u64,
    }
}
