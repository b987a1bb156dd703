// A name's hash, the number of the slot by which it is looked up, and its print, which few other names have. Both are of the bytes when
// lowered: names that are the same in another case are looked up as one.
ghost use Rattle.std.specs.Prelude.{◌≡◌};
ghost use Rattle.workspace.specs.Hash.{HashedAt, PrintedAt};
ghost use Rattle.text.specs.Bytes.{is_name_byte};

use crate::layout::SLOTS;
use text::bytes::{byte_at, is_letter, is_name_byte, lower};

// How many prints there are.
pub const PRINTS: usize = 4294967296;

// Where a word ends, and its hash or its print.
#[derive(Clone, Copy)]
pub struct Hashed {
    pub end: usize,
    pub hash: usize,
}

// A byte as a number.
fn wide(b: u8) -> usize
    ensures { result ≡ b }
{
    b as usize
}

// Whether b may stand in a name: letters, which most are, are told first.
fn in_name(b: u8) -> bool
    ensures { result ≡ is_name_byte b }
{
    if is_letter(b) {
        return true;
    }
    is_name_byte(b)
}

// The end and the hash of the name bytes that stand at a position, in one walk.
pub fn hash_word(s: &[u8], at: usize) -> Hashed
    ensures { HashedAt s.now at result }
{
    let mut i = at;
    let mut h: usize = 0;
    while in_name(byte_at(s, i)) {
        h = (105 * h + wide(lower(byte_at(s, i)))) % SLOTS;
        i += 1;
    }
    Hashed { end: i, hash: h }
}

// The end and the print of the name bytes that stand at a position.
pub fn print_word(s: &[u8], at: usize) -> Hashed
    ensures { PrintedAt s.now at result }
{
    let mut i = at;
    let mut h: usize = 0;
    while in_name(byte_at(s, i)) {
        h = (2654435761 * h + wide(lower(byte_at(s, i)))) % PRINTS;
        i += 1;
    }
    Hashed { end: i, hash: h }
}
