// A purpose line below another, `(purpose N PARENT)`: read, judged and stored in one walk, in which each name is gone through once,
// for its end and its hash.
ghost use Rattle.std.specs.Prelude.{◌+◌, ◌<◌, length, true, ◌≡◌};
ghost use Rattle.walks.specs.PurposeLine.{BelowAt, ReadsBelow, TakesPurpose, begins_purpose};
ghost use Rattle.document.specs.Policy.{Doc};
ghost use Rattle.principals.specs.Nodes.{Nodes};
ghost use Rattle.purpose.specs.Members.{limit};
ghost use Rattle.stepping.specs.Stored.{LineAt};
ghost use Rattle.text.specs.Names.{is_name};
ghost use Rattle.text.specs.Words.{word_at};

use crate::lines::closes;
use principals::names::{add_purpose, seek_purpose};
use stepping::places::place;
use text::bytes::{byte_at, is_letter};
use text::words::is_word;
use workspace::layout::{PURPOSE_CELLS, PURPOSES};

// Whether the line begins with `(purpose `.
fn begins(line: &[u8]) -> bool
    ensures { result ≡ begins_purpose line.now }
{
    if byte_at(line, 0) != b'(' {
        return false;
    }
    if !is_word(line, 1, b"purpose") {
        return false;
    }
    byte_at(line, 8) == b' '
}

// Whether the word from a place to e is a name.
fn is_name_to(line: &[u8], at: usize, e: usize) -> bool
    ensures { result ≡ true → e ≡ at + length (word_at line.now at) → is_name (word_at line.now at) ≡ true }
{
    if !is_letter(byte_at(line, at)) {
        return false;
    }
    if e < at {
        return false;
    }
    e - at <= 24
}

// The names of the line, if it is `(purpose N PARENT)`, N new and PARENT known among the first k.
fn read_below(
    text: &[u8],
    purposes: &[usize; PURPOSE_CELLS],
    k: usize,
    line: &[u8],
) -> Option<(usize, usize, usize)>
    ensures { ReadsBelow text.now purposes.now k line.now result }
{
    if !begins(line) {
        return None;
    }
    let n = seek_purpose(text, purposes, k, line, 9);
    let e = n.end;
    if !is_name_to(line, 9, e) {
        return None;
    }
    if byte_at(line, e) != b' ' {
        return None;
    }
    if n.found.is_some() {
        return None;
    }
    let v = e + 1;
    let p = seek_purpose(text, purposes, k, line, v);
    let f = p.end;
    if !is_name_to(line, v, f) {
        return None;
    }
    if !closes(line, f) {
        return None;
    }
    let parent = p.found?;
    Some((n.hash, v, parent))
}

// Stores the purpose of such a line behind k of them, if there is room: h is its name's hash, and v the place of its parent's name.
fn take_below(
    text: &[u8],
    at: usize,
    line: &[u8],
    purposes: &mut [usize; PURPOSE_CELLS],
    k: usize,
    h: usize,
    v: usize,
    parent: usize,
) -> bool
    ensures { ((d : Doc) → LineAt text.now at line.now → BelowAt text.now purposes.old k line.now h v parent → Nodes limit text.now purposes.old k d.policy.purposes → TakesPurpose text.now line.now purposes.new k d result) × (result ≡ true → k < limit) }
{
    if PURPOSES <= k {
        return false;
    }
    let pos = place(text, at, 9);
    add_purpose(purposes, k, pos, parent, h);
    true
}

// Takes the line behind k purposes, if it is `(purpose N PARENT)` and the check accepts it. A line that it does not take may be one
// all the same: `step_form` says.
pub fn take_purpose(
    text: &[u8],
    at: usize,
    line: &[u8],
    purposes: &mut [usize; PURPOSE_CELLS],
    k: usize,
) -> bool
    ensures { ((d : Doc) → LineAt text.now at line.now → Nodes limit text.now purposes.old k d.policy.purposes → TakesPurpose text.now line.now purposes.new k d result) × (result ≡ true → k < limit) }
{
    let Some((h, v, parent)) = read_below(text, purposes, k, line) else {
        return false;
    };
    take_below(text, at, line, purposes, k, h, v, parent)
}
