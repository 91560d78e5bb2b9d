// Sets of small numbers as masks.
#![tactic(auto)]

ghost use Rattle.std.specs.Prelude.{◌≡◌, ℕ, cond, ◌≢◌, ◌-◌, ◌^◌, ◌<◌, ◌≤◌};
ghost use Rattle.std.specs.Int.Bits.{bit_or};
ghost use Rattle.bounded.specs.Quantifiers.{lowest, one_if};
ghost use Rattle.bounded.specs.Mask.{bit, without as without_of, Highest};

// A set of small numbers as a word: c is in it where the bit worth 2 ^ c is set. What it means and what each method answers is said once, for
// the words of both widths.
pub trait Set: Copy {
    // The numbers that a set may have are those below this one.
    ghost WIDTH: { ℕ };

    // The word as a number.
    ghost word: { Self → ℕ };

    // Whether c is in the set.
    fn has(self, c: usize) -> bool
        requires { c < WIDTH }
        ensures { result ≡ bit (word self) c };

    // The set without b.
    fn without(self, b: usize) -> Self
        requires { b < WIDTH }
        ensures { word result ≡ without_of WIDTH (word self) b };

    // The set with b.
    fn with(self, b: usize) -> Self
        requires { b < WIDTH }
        ensures { word result ≡ bit_or (word self) (2 ^ b) };

    // The lowest member; the width where there is none.
    fn lowest(self) -> usize
        ensures { result ≡ lowest WIDTH (bit (word self)) };

    // The highest member of a set that is not empty.
    fn highest(self) -> usize
        requires { word self ≢ 0 }
        ensures { Highest WIDTH (word self) result };

    // The set of the numbers below n.
    fn below(n: usize) -> Self
        requires { n ≤ WIDTH }
        ensures { word result ≡ 2 ^ n - 1 };
}

impl Set for u32 {
    ghost WIDTH = { 32 };

    ghost word = { λ x. x };

    fn has(self, c: usize) -> bool {
        (self >> c) % 2 == 1
    }

    fn without(self, b: usize) -> u32 {
        self & !(1u32 << b)
    }

    fn with(self, b: usize) -> u32 {
        self | (1u32 << b)
    }

    fn lowest(self) -> usize {
        u32::trailing_zeros(self) as usize
    }

    fn highest(self) -> usize {
        31 - u32::leading_zeros(self) as usize
    }

    fn below(n: usize) -> u32 {
        (power(n) - 1) as u32
    }
}

impl Set for u16 {
    ghost WIDTH = { 16 };

    ghost word = { λ x. x };

    fn has(self, c: usize) -> bool {
        (self as u32).has(c)
    }

    fn without(self, b: usize) -> u16 {
        self & !(1u16 << b)
    }

    fn with(self, b: usize) -> u16 {
        self | (1u16 << b)
    }

    fn lowest(self) -> usize {
        u16::trailing_zeros(self) as usize
    }

    fn highest(self) -> usize {
        15 - u16::leading_zeros(self) as usize
    }

    fn below(n: usize) -> u16 {
        u32::below(n) as u16
    }
}

// 2 to the power z.
pub fn power(z: usize) -> usize
    requires { z ≤ 32 }
    ensures { result ≡ 2 ^ z }
{
    1 << z
}

// 1 for true, 0 for false.
pub fn one_if(b: bool) -> usize
    ensures is { result ≡ one_if b }
    ensures within { result ≤ 1 }
{
    if b { 1 } else { 0 }
}

// What a set of 16 gains where b comes in: 2^b where t holds, else 0.
pub fn weight(t: bool, b: usize) -> u16
    requires { b < 16 }
    ensures { result ≡ cond t (2 ^ b) 0 }
{
    if t { power(b) as u16 } else { 0 }
}

// The bit of lane u of sixteen. That of the first is lent: where the compiler knows it, it makes less of that lane than of the others, and no
// longer does all of them at once.
fn bit_of(u: usize, one: u16) -> u16
    requires { (u < 16) × (one ≡ 1) }
    ensures { result ≡ 2 ^ u }
{
    if u == 0 { one } else { power(u) as u16 }
}

// The bit of lane u where t holds, else 0.
pub fn lane(t: bool, u: usize, one: u16) -> u16
    requires { (u < 16) × (one ≡ 1) }
    ensures { result ≡ cond t (2 ^ u) 0 }
{
    if t { bit_of(u, one) } else { 0 }
}

// The word x where c is in a set of 16, else 0. By `&`, so that a loop over c can do many at once.
pub fn where16(set: u16, c: usize, x: u16) -> u16
    requires { c < 16 }
    ensures { result ≡ cond (bit set c) x 0 }
{
    if set & (1u16 << c) != 0 { x } else { 0 }
}
