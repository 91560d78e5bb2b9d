// The program's lines, written into a lent buffer at a place. Each function answers the place after its text.
#![tactic(auto)]

ghost use Rattle.std.specs.Prelude.{◌≡◌, ◌∷◌, ◌++◌, [], ◌+◌, ◌<◌, ◌≤◌, length};
ghost use Rattle.fields.specs.Print.{decimal, field, sheet_word, step_word, step_text, step_line, end_word, refused_line};
ghost use Rattle.trace.specs.Trace.{Small};
ghost use Rattle.buffers.specs.Written.{written};

use fields::{put_byte, put_bytes, put_decimal, put_field, put_step_fields, put_three_end};
use problem::{End, Record};

// "Line 1: n, sum of sizes."
pub fn put_first_line(out: &mut [u8], at: usize, n: usize, sum: usize) -> usize
    requires { (n < 100000) × ((sum < 100000) × (at + 18 ≤ length out.old)) }
    ensures text { (out.new ≡ written out.old at (sheet_word ++ (field n ++ (field sum ++ (10 ∷ []))))) × (result ≡ at + length (sheet_word ++ (field n ++ (field sum ++ (10 ∷ []))))) }
    ensures within { result ≤ at + 18 }
{
    let p = put_bytes(out, at, b"sheet");
    let q = put_field(out, p, n);
    let s = put_field(out, q, sum);
    put_byte(out, s, 10)
}

// The word of a step.
fn put_step_word(out: &mut [u8], at: usize, r: Record) -> usize
    requires { at + 5 ≤ length out.old }
    ensures text { (out.new ≡ written out.old at (step_word r)) × (result ≡ at + length (step_word r)) }
    ensures within { result ≤ at + 5 }
{
    match r {
        Record::Unsupported(_, _, _) => put_bytes(out, at, b"bare"),
        Record::Snake(_, _) => put_bytes(out, at, b"snake"),
        Record::Triangle(_, _) => put_bytes(out, at, b"fold"),
        Record::Neighbourhood(_, _, _) => put_bytes(out, at, b"cover"),
        Record::SnakeSubstitution(_, _, _) => put_bytes(out, at, b"slide"),
    }
}

// A step's word and its fields.
fn put_step(out: &mut [u8], at: usize, r: Record) -> usize
    requires { (at + 23 ≤ length out.old) × Small r }
    ensures text { (out.new ≡ written out.old at (step_text r)) × (result ≡ at + length (step_text r)) }
    ensures within { result ≤ at + 23 }
{
    let p = put_step_word(out, at, r);
    put_step_fields(out, p, r)
}

// "Step lines: step number from 1, word, the fields after the kind."
pub fn put_step_line(out: &mut [u8], at: usize, k: usize, r: Record) -> usize
    requires { (k < 100000) × ((at + 30 ≤ length out.old) × Small r) }
    ensures text { (out.new ≡ written out.old at (step_line k r)) × (result ≡ at + length (step_line k r)) }
    ensures within { result ≤ at + 30 }
{
    let p = put_decimal(out, at, k);
    let w = put_byte(out, p, 32);
    let e = put_step(out, w, r);
    put_byte(out, e, 10)
}

// The word of an end.
fn put_end_word(out: &mut [u8], at: usize, e: End) -> usize
    requires { at + 10 ≤ length out.old }
    ensures text { (out.new ≡ written out.old at (end_word e)) × (result ≡ at + length (end_word e)) }
    ensures within { result ≤ at + 10 }
{
    match e {
        End::Impossible => put_bytes(out, at, b"impossible"),
        End::Solved => put_bytes(out, at, b"solved"),
        End::Rest => put_bytes(out, at, b"rest"),
    }
}

// "Last line: end, steps, items in, settings on at items in."
pub fn put_last_line(
    out: &mut [u8],
    at: usize,
    e: End,
    steps: usize,
    variables: usize,
    values: usize,
) -> usize
    requires { (steps < 100000) × ((variables < 100000) × ((values < 100000) × (at + 29 ≤ length out.old))) }
    ensures text { (out.new ≡ written out.old at (end_word e ++ (field steps ++ (field variables ++ (field values ++ (10 ∷ [])))))) × (result ≡ at + length (end_word e ++ (field steps ++ (field variables ++ (field values ++ (10 ∷ [])))))) }
    ensures within { result ≤ at + 29 }
{
    let p = put_end_word(out, at, e);
    put_three_end(out, p, steps, variables, values)
}

// "A refused sheet prints one line".
pub fn put_refused_line(out: &mut [u8], at: usize, number: usize) -> usize
    requires { (number < 100000) × (at + 14 ≤ length out.old) }
    ensures text { (out.new ≡ written out.old at (refused_line number)) × (result ≡ at + length (refused_line number)) }
    ensures within { result ≤ at + 14 }
{
    let p = put_bytes(out, at, b"refused");
    let q = put_field(out, p, number);
    put_byte(out, q, 10)
}
