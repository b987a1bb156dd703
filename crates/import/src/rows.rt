// Row lines, written from a file of which it is known that its fields are names and numbers.
ghost use Rattle.std.specs.Prelude.{◌+◌, ◌≤◌, length, true, [], ◌∷◌, ◌≡◌};
ghost use Rattle.import.specs.Placement.{FieldPlaced, FieldsPlaced, PlainCopied, PlainCopying, Reaching, RowPlaced, RowsPlaced};
ghost use Rattle.writing.specs.Write.{Wrote};

use csv_text::fields::is_plain;
use text::bytes::byte_at;
use text::walking::skip_byte;
use writing::bytes::{put_byte, put_bytes};

// Where the next byte goes in the buffer, and where to read on in the file.
#[derive(Clone, Copy)]
pub struct Placed {
    pub to: usize,
    pub at: usize,
}

// Whether n bytes have room from a place on.
fn has_room(room: usize, to: usize, n: usize) -> bool
    ensures { result ≡ true → to + n ≤ room }
{
    if room <= to {
        return false;
    }
    n <= room - to
}

// Writes `(row `, at once where it fits.
fn put_opening(out: &mut [u8], to: usize) -> usize
    ensures { Wrote out.old to (40 ∷ 114 ∷ 111 ∷ 119 ∷ 32 ∷ []) out.new result }
{
    if !has_room(out.len(), to, 5) {
        return put_bytes(out, to, b"(row ");
    }
    let second = to + 1;
    let third = second + 1;
    let fourth = third + 1;
    let fifth = fourth + 1;
    out[to] = b'(';
    out[second] = b'r';
    out[third] = b'o';
    out[fourth] = b'w';
    out[fifth] = b' ';
    fifth + 1
}

// Writes `)` and a line feed, at once where they fit.
fn put_closing(out: &mut [u8], to: usize) -> usize
    ensures { Wrote out.old to (41 ∷ 10 ∷ []) out.new result }
{
    if !has_room(out.len(), to, 2) {
        return put_bytes(out, to, b")\n");
    }
    let second = to + 1;
    out[to] = b')';
    out[second] = b'\n';
    second + 1
}

// How far bytes can be copied without asking where the file or the buffer ends.
fn sure_end(len: usize, at: usize, room: usize, to: usize) -> usize
    ensures { Reaching len at room to result }
{
    if len <= at {
        return at;
    }
    if room <= to {
        return at;
    }
    if len - at <= room - to {
        return len;
    }
    at + (room - to)
}

// Copies plain bytes up to a position that is sure. Gives how far it came.
fn copy_sure(out: &mut [u8], to: usize, s: &[u8], at: usize, end: usize) -> Placed
    requires { Reaching (length s.now) at (length out.old) to end }
    ensures { PlainCopying s.now at end out.old to out.new result }
{
    let mut t = to;
    let mut i = at;
    while i < end {
        if !is_plain(s[i]) {
            return Placed { to: t, at: i };
        }
        out[t] = s[i];
        t += 1;
        i += 1;
    }
    Placed { to: t, at: i }
}

// Copies plain bytes one by one, each as far as the buffer goes.
fn copy_slowly(out: &mut [u8], to: usize, s: &[u8], at: usize) -> Placed
    ensures { PlainCopied s.now at out.old to out.new result }
{
    let mut t = to;
    let mut i = at;
    while i < s.len() {
        if !is_plain(s[i]) {
            return Placed { to: t, at: i };
        }
        t = put_byte(out, t, s[i]);
        i += 1;
    }
    Placed { to: t, at: i }
}

// Writes the plain bytes at a position. Gives where they end.
fn copy_plain(out: &mut [u8], to: usize, s: &[u8], at: usize) -> Placed
    ensures { PlainCopied s.now at out.old to out.new result }
{
    let end = sure_end(s.len(), at, out.len(), to);
    let p = copy_sure(out, to, s, at, end);
    if p.at < end {
        return p;
    }
    copy_slowly(out, p.to, s, p.at)
}

// Writes a space and the field at a position. Gives where the field ends.
fn put_field(out: &mut [u8], to: usize, s: &[u8], at: usize) -> Placed
    ensures { FieldPlaced s.now at out.old to out.new result }
{
    let start = skip_byte(s, at, b'"');
    let next = put_byte(out, to, b' ');
    let c = copy_plain(out, next, s, start);
    Placed {
        to: c.to,
        at: c.at + (start - at),
    }
}

// Writes the fields of the record at a position, each behind a space. Gives where the next record begins.
fn put_fields(out: &mut [u8], to: usize, s: &[u8], at: usize) -> Placed
    ensures { FieldsPlaced s.now at out.old to out.new result }
{
    let mut t = to;
    let mut i = at;
    loop {
        let p = put_field(out, t, s, i);
        t = p.to;
        let e = p.at;
        if byte_at(s, e) != b',' {
            let next = skip_byte(s, skip_byte(s, e, b'\r'), b'\n');
            return Placed { to: t, at: next };
        }
        i = e + 1;
    }
}

// Writes the row line of the record at a position. Gives where the next record begins.
fn put_row(out: &mut [u8], to: usize, s: &[u8], at: usize, table: &[u8], label: &[u8]) -> Placed
    ensures { RowPlaced s.now at table.now label.now out.old to out.new result }
{
    let a = put_opening(out, to);
    let b = put_bytes(out, a, table);
    let c = put_byte(out, b, b' ');
    let d = put_bytes(out, c, label);
    let p = put_fields(out, d, s, at);
    let e = put_closing(out, p.to);
    Placed { to: e, at: p.at }
}

// Writes the row lines of the file's records, of which there are count.
pub(crate) fn put_rows(out: &mut [u8], s: &[u8], count: usize, table: &[u8], label: &[u8]) -> usize
    ensures { RowsPlaced s.now count table.now label.now out.old out.new result }
{
    let mut to = 0;
    let mut at = 0;
    for k in 0..count {
        let p = put_row(out, to, s, at, table, label);
        to = p.to;
        at = p.at;
    }
    to
}
