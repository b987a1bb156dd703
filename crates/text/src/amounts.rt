// Ranges of numbers, `(LOW HIGH)`.
ghost use Rattle.std.specs.Prelude.{◌≡◌};
ghost use Rattle.text.specs.Amounts.{range};
ghost use Rattle.text.specs.CodeEnds.{end_of_range, word_end};
ghost use Rattle.text.specs.Reader.{from};

use crate::bytes::byte_at;
use crate::numbers::read_number;

// The end of the range at a position, and the ranks of its ends.
pub fn read_range(s: &[u8], at: usize) -> Option<(usize, u64, u64)>
    ensures { result ≡ end_of_range (range (from s.now at)) }
{
    if byte_at(s, at) != b'(' {
        return None;
    }
    let (e, low) = read_number(s, at + 1)?;
    if byte_at(s, e) != b' ' {
        return None;
    }
    let (f, high) = read_number(s, e + 1)?;
    if byte_at(s, f) != b')' {
        return None;
    }
    Some((f + 1, low, high))
}

// The end of the range at a position.
pub fn range_end(s: &[u8], at: usize) -> Option<usize>
    ensures { result ≡ word_end (range (from s.now at)) }
{
    let (e, _, _) = read_range(s, at)?;
    Some(e)
}
