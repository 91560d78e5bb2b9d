// The read check, as C and Rust call it.
#![tactic(auto)]

ghost use Rattle.std.specs.Prelude.{◌≡◌, ◌+◌, ◌*◌};
ghost use Rattle.read.specs.Read.{read_call};

// The read check. Bits 0-7: the refusal's number, 0 where the sheet is accepted; bits 8-15: its variables; bits 16-31: its blocks.
pub fn read_call(sheet: &[u8]) -> u64
    ensures { result ≡ read_call sheet.now }
{
    match read_sheet::read_sheet(sheet) {
        Ok(a) => 256 * (a.variables as u64 + 256 * a.blocks as u64),
        Err(r) => u8::from(r) as u64,
    }
}
