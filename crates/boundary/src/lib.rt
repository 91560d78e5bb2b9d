// The bytes of a state at the C boundary, and the numbers that are the boundary's own.
#![tactic(auto)]

ghost use Rattle.std.specs.Prelude.{◌≡◌, length};
ghost use Rattle.boundary.specs.State.{state_length, masks_bytes, masks_in};
ghost use Rattle.boundary.specs.Numbers.{bad_state, bad_hand_state};

use buffers::{long, put_word, word};
use problem::Masks;

// ---- the state's bytes

// The bytes of a run's state: the active variables in 4, then 32 domains in 2 each, big-endian. A hand state holds a run's state and nothing
// else, so that it has as many.
pub const STATE_LENGTH: usize = 68;

// The state that 68 bytes say.
pub fn read_state(b: &[u8]) -> Masks
    requires { length b.now ≡ state_length }
    ensures { result ≡ masks_in b.now }
{
    let mut m = problem::empty_masks();
    m.active = long(b, 0) as u32;
    for i in 0..32 {
        m.domains[i] = word(b, 4 + 2 * i) as u16;
    }
    m
}

// A state written as 68 bytes.
pub fn put_state(b: &mut [u8], m: Masks)
    requires { length b.old ≡ state_length }
    ensures { b.new ≡ masks_bytes m }
{
    put_word(b, 0, (m.active / 65536) as u16);
    put_word(b, 2, (m.active % 65536) as u16);
    for i in 0..32 {
        put_word(b, 4 + 2 * i, m.domains[i]);
    }
}

// ---- the boundary's own refusals

// A buffer for a run's state has another length.
pub fn bad_state() -> u64
    ensures { result ≡ bad_state }
{
    200
}

// A buffer for a hand state has another length.
pub fn bad_hand_state() -> u64
    ensures { result ≡ bad_hand_state }
{
    201
}
