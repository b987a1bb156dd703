// Words of a text: where they end, whether they are names, and whether two are the same.
ghost use Rattle.std.specs.Prelude.{◌≡◌, ◌+◌, drop, length};
ghost use Rattle.text.specs.Reader.{from};
ghost use Rattle.text.specs.Words.{word_at, to_closing, written_at, name, value};
ghost use Rattle.text.specs.Names.{same_byte, same_name};
ghost use Rattle.text.specs.CodeEnds.{word_end};

use crate::bytes::{byte_at, is_letter, is_name_byte, lower};
use crate::numbers::read_number;

// The end of the name bytes that stand at a position.
pub fn word_end(s: &[u8], at: usize) -> usize
    ensures { result ≡ at + length (word_at s.now at) }
{
    for i in at..s.len() {
        if !is_name_byte(s[i]) {
            return i;
        }
    }
    at.max(s.len())
}

// The position behind the first closing bracket from a position on, or the line's end where there is none.
fn closing_end(s: &[u8], at: usize) -> usize
    ensures { result ≡ at + length (to_closing (drop at s.now)) }
{
    for i in at..s.len() {
        if s[i] == b'\n' {
            return i;
        }
        if s[i] == b')' {
            return i + 1;
        }
    }
    at.max(s.len())
}

// The end of the value of a cell that stands at a position.
pub fn written_end(s: &[u8], at: usize) -> usize
    ensures { result ≡ at + length (written_at s.now at) }
{
    if byte_at(s, at) == b'(' {
        return closing_end(s, at);
    }
    word_end(s, at)
}

// The end of the name that stands at a position.
pub fn name_end(s: &[u8], at: usize) -> Option<usize>
    ensures { result ≡ word_end (name (from s.now at)) }
{
    if is_letter(byte_at(s, at)) {
        let end = word_end(s, at);
        if end - at <= 24 {
            return Some(end);
        }
    }
    None
}

// The end of the name or number that stands at a position.
pub fn value_end(s: &[u8], at: usize) -> Option<usize>
    ensures { result ≡ word_end (value (from s.now at)) }
{
    if let Some(e) = name_end(s, at) {
        return Some(e);
    }
    let (e, _) = read_number(s, at)?;
    Some(e)
}

// Whether two bytes are the same in a name. Most that are the same are equal: only others are lowered.
pub fn same_byte(a: u8, b: u8) -> bool
    ensures { result ≡ same_byte a b }
{
    if a == b {
        return true;
    }
    lower(a) == lower(b)
}

// Whether the words at two positions are the same name.
pub fn same_name(a: &[u8], i: usize, b: &[u8], j: usize) -> bool
    ensures { result ≡ same_name (word_at a.now i) (word_at b.now j) }
{
    let mut x = i;
    let mut y = j;
    while is_name_byte(byte_at(a, x)) {
        if !same_byte(byte_at(a, x), byte_at(b, y)) {
            return false;
        }
        x += 1;
        y += 1;
    }
    !is_name_byte(byte_at(b, y))
}

// Whether the word at a position is the name w.
pub fn is_word(s: &[u8], at: usize, w: &[u8]) -> bool
    ensures { result ≡ same_name (word_at s.now at) w.now }
{
    let mut x = at;
    for k in 0..w.len() {
        if !is_name_byte(byte_at(s, x)) {
            return false;
        }
        if !same_byte(byte_at(s, x), w[k]) {
            return false;
        }
        x += 1;
    }
    !is_name_byte(byte_at(s, x))
}
