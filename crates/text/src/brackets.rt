// Bracket texts: one byte, an item behind a space, an optional name, and lists of names.
ghost use Rattle.std.specs.Prelude.{◌≡◌};
ghost use Rattle.text.specs.Reader.{Reader, from};
ghost use Rattle.text.specs.Items.{GoesOn, dropped};
ghost use Rattle.text.specs.Words.{name, value};
ghost use Rattle.text.specs.Brackets.{next, optional, many};
ghost use Rattle.text.specs.CodeEnds.{word_end, byte_end, optional_of};

use crate::bytes::byte_at;
use crate::words::{name_end, value_end};

// What stands where a name may stand: a name behind a space, by where it begins and where it ends; or none, by where the reader ends.
#[derive(Clone, Copy)]
pub enum Optional {
    Name(usize, usize),
    Absent(usize),
}

// The end of the byte b, if it stands at a position. Byte 0 stands in no form, and is not found anywhere.
pub fn byte_end(s: &[u8], at: usize, b: u8) -> Option<usize>
    ensures { result ≡ byte_end b (from s.now at) }
{
    if b == 0 {
        return None;
    }
    if byte_at(s, at) == b {
        return Some(at + 1);
    }
    None
}

// The end of a space and a name.
pub fn spaced_name_end(s: &[u8], at: usize) -> Option<usize>
    ensures { result ≡ word_end (next name (from s.now at)) }
{
    if byte_at(s, at) == b' ' {
        name_end(s, at + 1)
    } else {
        None
    }
}

// The end of a space and a name or number.
pub fn spaced_value_end(s: &[u8], at: usize) -> Option<usize>
    ensures { result ≡ word_end (next value (from s.now at)) }
{
    if byte_at(s, at) == b' ' {
        value_end(s, at + 1)
    } else {
        None
    }
}

// The name behind a space, if a space comes next; nothing where something else stands behind it.
pub fn optional_name(s: &[u8], at: usize) -> Option<Optional>
    ensures { result ≡ optional_of (optional name (from s.now at)) }
{
    if byte_at(s, at) != b' ' {
        return Some(Optional::Absent(at));
    }
    let e = name_end(s, at + 1)?;
    Some(Optional::Name(at + 1, e))
}

// What tells where one item of a list ends.
pub trait Item {
    // the reader of the item; what it reads is dropped
    ghost reader: { Reader (Unit {0}) };

    // The end of the item at a position; and the reader only goes forward.
    fn end(s: &[u8], at: usize) -> Option<usize>
        ensures ends { result ≡ word_end (reader (from s.now at)) }
        ensures goes { GoesOn reader };
}

// A name, as an item of a list.
struct Name;

impl Item for Name {
    ghost reader = { dropped name };

    fn end(s: &[u8], at: usize) -> Option<usize> {
        name_end(s, at)
    }
}

// The end of items, each behind a space; nothing where something else stands behind a space.
pub fn many_end<I: Item>(s: &[u8], at: usize) -> Option<usize>
    ensures { result ≡ word_end (many I.reader (from s.now at)) }
{
    let mut i = at;
    while byte_at(s, i) == b' ' {
        i = I::end(s, i + 1)?;
    }
    Some(i)
}

// The end of names, each behind a space; nothing where something else stands behind a space.
pub fn names_end(s: &[u8], at: usize) -> Option<usize>
    ensures { result ≡ word_end (many name (from s.now at)) }
{
    many_end::<Name>(s, at)
}
