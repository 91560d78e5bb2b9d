// A trace's records: the reader that moves through them, what stands at a place, and one written at a place of a lent buffer.
#![tactic(auto)]

ghost use Rattle.std.specs.Prelude.{◌≡◌, ◌+◌, ◌<◌, ◌≤◌, length};
ghost use Rattle.trace.specs.Trace.{record_bytes, numbered_at, record_at, Small};
ghost use Rattle.buffers.specs.Written.{written};
ghost use Rattle.trace.specs.Place.{place_after};

use buffers::byte_at;
use problem::{Record, parts_of, record_of};

// What stands at a place of a trace.
#[derive(Clone, Copy)]
pub enum RecordRead {
    Read { record: Record, next: usize },
    End,
    Malformed,
}

// ---- reading

// The record that the bytes after a length byte at p make.
fn numbered_at(s: &[u8], p: usize) -> Option<Record>
    requires { p < length s.now }
    ensures { result ≡ numbered_at s.now p }
{
    record_of(
        byte_at(s, p + 1),
        byte_at(s, p + 2),
        byte_at(s, p + 3),
        byte_at(s, p + 4),
    )
}

// What stands at a place of a trace: the end, a whole record with the place after it, or a malformed one.
pub fn record_at(s: &[u8], at: usize) -> RecordRead
    ensures { result ≡ record_at s.now at }
{
    if s.len() <= at {
        return RecordRead::End;
    }
    let n = byte_at(s, at);
    // Cut short.
    if s.len() - at <= n {
        return RecordRead::Malformed;
    }
    match numbered_at(s, at) {
        None => RecordRead::Malformed,
        Some(record) => {
            // The length byte is wrong for the kind.
            if n != 1 + parts_of(record).count {
                return RecordRead::Malformed;
            }
            RecordRead::Read {
                record,
                next: at + 1 + n,
            }
        }
    }
}

// The place after the record that stands at a place, by its length byte; at the end and where it is cut short, the place itself.
fn place_after(s: &[u8], at: usize) -> usize
    ensures { result ≡ place_after s.now at }
{
    if s.len() <= at {
        return at;
    }
    let n = byte_at(s, at);
    if n < s.len() - at {
        return at + 1 + n;
    }
    at
}

// ---- the format's reader: it holds the lent bytes and its place, and is thin over `record_at` and `place_after`

#[derive(Clone, Copy)]
pub struct Reader<'a> {
    src: &'a [u8],
    at: usize,
}

// A reader of these bytes that stands at a place.
pub fn placed<'a>(src: &'a [u8], at: usize) -> Reader<'a>
    ensures { (result.src ≡ src.entry) × (result.at ≡ at) }
{
    Reader { src, at }
}

// What stands where the reader stands.
pub fn peek<'a>(r: Reader<'a>) -> RecordRead
    ensures { result ≡ record_at r.entry.src.now r.entry.at }
{
    record_at(r.src, r.at)
}

// The reader moved past the record that it stands at.
pub fn moved<'a>(r: Reader<'a>) -> Reader<'a>
    ensures { (result.src ≡ r.entry.src) × (result.at ≡ place_after r.entry.src.now r.entry.at) }
{
    Reader {
        src: r.src,
        at: place_after(r.src, r.at),
    }
}

// ---- writing

// A record at a place with room for the longest; the place after it.
pub fn write_record(out: &mut [u8], at: usize, r: Record) -> usize
    requires { (at + 5 ≤ length out.old) × Small r }
    ensures { (out.new ≡ written out.old at (record_bytes r)) × (result ≡ at + length (record_bytes r)) }
{
    let parts = parts_of(r);
    out[at] = (1 + parts.count) as u8;
    out[at + 1] = parts.kind;
    out[at + 2] = parts.item as u8;
    out[at + 3] = parts.third as u8;
    if parts.count == 2 {
        return at + 4;
    }
    out[at + 4] = parts.fourth as u8;
    at + 5
}
