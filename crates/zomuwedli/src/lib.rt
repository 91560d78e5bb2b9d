// What C and Rust call: every job over numbers and byte slices, as one number. Each function is that of a crate below, exported.
#![tactic(auto)]

ghost use Rattle.std.specs.Prelude.{◌≡◌};
ghost use Rattle.read.specs.Read.{read_call};
ghost use Rattle.run.specs.Call.{run_call};
ghost use Rattle.hand.specs.Call.{start_call, hand_call};
ghost use Rattle.put_back.specs.Call.{put_back_call};
ghost use Rattle.colour.specs.Call.{colour_call};
ghost use Rattle.moved.specs.Call.{move_call};
ghost use Rattle.pick.specs.Call.{pick_call};

// The read check. Bits 0-7: the refusal's number, 0 where the sheet is accepted; bits 8-15: its variables; bits 16-31: its blocks.
#[unsafe(no_mangle)]
pub extern "C" fn zomuwedli_read(sheet: &[u8]) -> u64
    ensures { result ≡ read_call sheet.now }
{
    read::read_call(sheet)
}

// The run. Bits 0-7: the refusal's number, 0 where there is none; bits 8-15: the end; bits 16-31: the steps; bits 32-47: the bytes
// written. A refused run writes neither the trace nor the state.
#[unsafe(no_mangle)]
pub extern "C" fn zomuwedli_run(sheet: &[u8], trace: &mut [u8], state: &mut [u8]) -> u64
    ensures answer { result ≡ (run_call sheet.now trace.old state.old).answer }
    ensures trace { trace.new ≡ (run_call sheet.now trace.old state.old).trace }
    ensures state { state.new ≡ (run_call sheet.now trace.old state.old).state }
{
    waiting_run::run_call(sheet, trace, state)
}

// The start of taking out by hand. The refusal's number, or 0 with the state written.
#[unsafe(no_mangle)]
pub extern "C" fn zomuwedli_start(sheet: &[u8], state: &mut [u8]) -> u64
    ensures answer { result ≡ (start_call sheet.now state.old).answer }
    ensures state { state.new ≡ (start_call sheet.now state.old).state }
{
    start::start_call(sheet, state)
}

// One hand call, the state in and out in one buffer. Bits 0-7: the refusal's number, 0 where the item was taken out; bits 8-15: its
// setting.
#[unsafe(no_mangle)]
pub extern "C" fn zomuwedli_hand_call(sheet: &[u8], state: &mut [u8], item: u64) -> u64
    ensures answer { result ≡ (hand_call sheet.now state.old item).answer }
    ensures state { state.new ≡ (hand_call sheet.now state.old item).state }
{
    hand_call::hand_call_bytes(sheet, state, item)
}

// Putting back. Bits 0-7: the refusal's number, 0 where the result was written. Where it is 17, bits 8-23: the number of the record that is
// not lawful; bits 24-31: the item and bits 32-39: the setting where its cover breaks, 255 for both where none is named.
#[unsafe(no_mangle)]
pub extern "C" fn zomuwedli_put_back(sheet: &[u8], trace: &[u8], plan: &[u8], res: &mut [u8]) -> u64
    ensures answer { result ≡ (put_back_call sheet.now trace.now plan.now res.old).answer }
    ensures res { res.new ≡ (put_back_call sheet.now trace.now plan.now res.old).result }
{
    putting_back::put_back_call(sheet, trace, plan, res)
}

// The sheet of a colouring graph. Bits 0-7: the refusal's number, 0 where the sheet was written; bits 8-31: the bytes written. A refused
// call writes nothing.
#[unsafe(no_mangle)]
pub extern "C" fn zomuwedli_colour(file: &[u8], channels: u64, sheet: &mut [u8]) -> u64
    ensures answer { result ≡ (colour_call file.now channels sheet.old).answer }
    ensures sheet { sheet.new ≡ (colour_call file.now channels sheet.old).sheet }
{
    colour::colour_call(file, channels, sheet)
}

// A sheet moved to the other version. Bits 0-7: the refusal's number, 0 where the moved sheet was written; bits 8-31: the bytes written. A
// refused call writes nothing.
#[unsafe(no_mangle)]
pub extern "C" fn zomuwedli_move(sheet: &[u8], target: &mut [u8]) -> u64
    ensures answer { result ≡ (move_call sheet.now target.old).answer }
    ensures target { target.new ≡ (move_call sheet.now target.old).target }
{
    moved::move_call(sheet, target)
}

// Picking a plan. As the run's answer, and bit 48: whether a plan was written. The state is written with a plan and with none, the plan
// only with one. A refused pick writes nothing.
#[unsafe(no_mangle)]
pub extern "C" fn zomuwedli_pick(
    sheet: &[u8],
    trace: &mut [u8],
    plan: &mut [u8],
    state: &mut [u8],
) -> u64
    ensures answer { result ≡ (pick_call sheet.now trace.old plan.old state.old).answer }
    ensures trace { trace.new ≡ (pick_call sheet.now trace.old plan.old state.old).trace }
    ensures plan { plan.new ≡ (pick_call sheet.now trace.old plan.old state.old).plan }
    ensures state { state.new ≡ (pick_call sheet.now trace.old plan.old state.old).state }
{
    pick::pick_call(sheet, trace, plan, state)
}
