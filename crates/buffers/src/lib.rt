// Numbers in lent bytes: one read at a place, and a word written at a place.
#![tactic(auto)]

ghost use Rattle.std.specs.Prelude.{◌≡◌, ◌+◌, ◌<◌, ◌≤◌, length};
ghost use Rattle.buffers.specs.Bytes.{byte_at, number_at, number_bytes, Is};
ghost use Rattle.buffers.specs.Written.{written};

// ---- reading

// The byte at k, or 0 past the end.
pub fn byte_at(s: &[u8], k: usize) -> usize
    ensures { result ≡ byte_at s.now k }
{
    if k < s.len() {
        return s[k] as usize;
    }
    0
}

// The byte at k, which is not past the end.
pub fn byte(s: &[u8], k: usize) -> usize
    requires { k < length s.now }
    ensures { Is (byte_at s.now k) 256 result }
{
    s[k] as usize
}

// The number of two bytes at k, the first worth the most.
pub fn word(s: &[u8], k: usize) -> usize
    requires { k + 1 < length s.now }
    ensures { Is (number_at s.now 2 k) 65536 result }
{
    let high = byte(s, k);
    let low = byte(s, k + 1);
    high * 256 + low
}

// The number of four bytes at k.
pub fn long(s: &[u8], k: usize) -> usize
    requires { k + 3 < length s.now }
    ensures { Is (number_at s.now 4 k) 4294967296 result }
{
    word(s, k) * 65536 + word(s, k + 2)
}

// ---- writing

// A word written at a place.
pub fn put_word(b: &mut [u8], at: usize, x: u16)
    requires { at + 2 ≤ length b.old }
    ensures { b.new ≡ written b.old at (number_bytes 2 x) }
{
    b[at] = (x / 256) as u8;
    b[at + 1] = (x % 256) as u8;
}
