// Bytes, decimal numbers and the fields of a line, those of a step among them, written into a lent buffer at a place. Each function answers
// the place after its text.
#![tactic(auto)]

ghost use Rattle.std.specs.Prelude.{◌≡◌, ◌∷◌, ◌++◌, [], ◌+◌, ◌<◌, ◌≤◌, length};
ghost use Rattle.problem.specs.Record.{fields_of};
ghost use Rattle.fields.specs.Print.{decimal, field, fields_text};
ghost use Rattle.trace.specs.Trace.{Small};
ghost use Rattle.buffers.specs.Written.{written};

use problem::{Record, parts_of};

// ---- bytes

// One byte.
pub fn put_byte(out: &mut [u8], at: usize, v: u8) -> usize
    requires { at + 1 ≤ length out.old }
    ensures text { (out.new ≡ written out.old at (v ∷ [])) × (result ≡ at + length (v ∷ [])) }
{
    out[at] = v;
    at + 1
}

// A byte string.
pub fn put_bytes(out: &mut [u8], at: usize, w: &[u8]) -> usize
    requires { at + length w.now ≤ length out.old }
    ensures text { (out.new ≡ written out.old at w.now) × (result ≡ at + length w.now) }
{
    let end = at + w.len();
    out[at..end].copy_from_slice(w);
    end
}

// ---- numbers

// A number in decimal digits: those before the last one, if any, and the last one.
pub fn put_decimal(out: &mut [u8], at: usize, x: usize) -> usize
    requires { (x < 100000) × (at + 5 ≤ length out.old) }
    ensures text { (out.new ≡ written out.old at (decimal x)) × (result ≡ at + length (decimal x)) }
    ensures within { result ≤ at + 5 }
{
    if x < 10 {
        return put_byte(out, at, (48 + x) as u8);
    }
    let p = put_decimal(out, at, x / 10);
    put_byte(out, p, (48 + x % 10) as u8)
}

// A space and a number.
pub fn put_field(out: &mut [u8], at: usize, x: usize) -> usize
    requires { (x < 100000) × (at + 6 ≤ length out.old) }
    ensures text { (out.new ≡ written out.old at (field x)) × (result ≡ at + length (field x)) }
    ensures within { result ≤ at + 6 }
{
    let p = put_byte(out, at, 32);
    put_decimal(out, p, x)
}

// Three fields and the end of the line.
pub fn put_three_end(out: &mut [u8], at: usize, x: usize, y: usize, z: usize) -> usize
    requires { (x < 100000) × ((y < 100000) × ((z < 100000) × (at + 19 ≤ length out.old))) }
    ensures text { (out.new ≡ written out.old at (field x ++ (field y ++ (field z ++ (10 ∷ []))))) × (result ≡ at + length (field x ++ (field y ++ (field z ++ (10 ∷ []))))) }
    ensures within { result ≤ at + 19 }
{
    let p = put_field(out, at, x);
    let q = put_field(out, p, y);
    let s = put_field(out, q, z);
    put_byte(out, s, 10)
}

// ---- a step

// The fields of a step after its kind.
pub fn put_step_fields(out: &mut [u8], at: usize, r: Record) -> usize
    requires { (at + 18 ≤ length out.old) × Small r }
    ensures text { (out.new ≡ written out.old at (fields_text (fields_of r))) × (result ≡ at + length (fields_text (fields_of r))) }
    ensures within { result ≤ at + 18 }
{
    let parts = parts_of(r);
    let p = put_field(out, at, parts.item);
    let q = put_field(out, p, parts.third);
    if parts.count == 2 {
        return q;
    }
    put_field(out, q, parts.fourth)
}
