// Bytes, words and numbers written into a lent buffer. A byte past its end is counted and not stored, so that a writer that is
// lent an empty buffer measures.
ghost use Rattle.std.specs.Prelude.{◌+◌, ◌<◌, ◌^◌, ◌≤◌, drop, length, take, [], ◌∷◌, ◌≡◌};
ghost use Rattle.std.proofs.lemmas.List.Edits.{sets};
ghost use Rattle.text.specs.Numbers.{decimal};
ghost use Rattle.text.specs.Words.{written_at};
ghost use Rattle.writing.specs.Write.{Wrote};

use text::bytes::byte_at;
use text::words::written_end;

// The largest place that counting comes to, so that no place wraps: no buffer reaches it.
const MOST: usize = 9223372036854775807;

// Writes one byte.
pub fn put_byte(out: &mut [u8], at: usize, b: u8) -> usize
    ensures { Wrote out.old at (b ∷ []) out.new result }
{
    if at < out.len() {
        out[at] = b;
        return at + 1;
    }
    if at < MOST {
        return at + 1;
    }
    at
}

// Writes the bytes of s.
pub fn put_bytes(out: &mut [u8], at: usize, s: &[u8]) -> usize
    ensures { Wrote out.old at s.now out.new result }
{
    let mut to = at;
    for i in 0..s.len() {
        to = put_byte(out, to, s[i]);
    }
    to
}

// Writes the value of a cell that stands at a place of a text.
pub fn put_written(out: &mut [u8], at: usize, text: &[u8], start: usize) -> usize
    ensures { Wrote out.old at (written_at text.now start) out.new result }
{
    let end = written_end(text, start);
    let mut to = at;
    for i in start..end {
        to = put_byte(out, to, byte_at(text, i));
    }
    to
}

// The place behind `size` bytes from a place on, as far as counting goes.
pub fn place_behind(at: usize, size: usize) -> usize
    ensures { at + size < 2 ^ 63 → result ≡ at + size }
{
    if MOST < size {
        return at;
    }
    if MOST - size < at {
        return at;
    }
    at + size
}

// Copies `size` bytes of a text, for which there is room.
fn copy_bytes(out: &mut [u8], at: usize, text: &[u8], start: usize, size: usize)
    requires { (at + size ≤ length out.old) × (start + size ≤ length text.now) }
    ensures { out.new ≡ sets out.old at (take size (drop start text.now)) }
{
    for k in 0..size {
        out[at + k] = text[start + k];
    }
}

// Writes the value of `size` bytes that stands at a place of a text, as one run where there is room for it: its bytes are not looked
// at. A size that does not fit the text is no value's.
pub fn put_sized(out: &mut [u8], at: usize, text: &[u8], start: usize, size: usize) -> usize
    ensures { size ≡ length (written_at text.now start) → Wrote out.old at (written_at text.now start) out.new result }
{
    if text.len() < size {
        return at;
    }
    if text.len() - size < start {
        return at;
    }
    if out.len() <= at {
        return place_behind(at, size);
    }
    if out.len() - at < size {
        return put_written(out, at, text, start);
    }
    copy_bytes(out, at, text, start, size);
    at + size
}

// Writes n in decimal.
pub fn put_decimal(out: &mut [u8], at: usize, n: usize) -> usize
    ensures { Wrote out.old at (decimal n) out.new result }
{
    if n < 10 {
        return put_byte(out, at, (48 + n) as u8);
    }
    let to = put_decimal(out, at, n / 10);
    put_byte(out, to, (48 + n % 10) as u8)
}

// Writes a space, and n in decimal.
pub fn put_number(out: &mut [u8], at: usize, n: usize) -> usize
    ensures { Wrote out.old at (32 ∷ decimal n) out.new result }
{
    let next = put_byte(out, at, b' ');
    put_decimal(out, next, n)
}
