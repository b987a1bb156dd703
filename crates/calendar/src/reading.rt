// The text of a date, `(YEAR MONTH DAY)`.
ghost use Rattle.std.specs.Prelude.{◌≡◌};
ghost use Rattle.text.specs.Brackets.{next};
ghost use Rattle.text.specs.CodeEnds.{end_of_number, word_end};
ghost use Rattle.text.specs.Reader.{from};
ghost use Rattle.text.specs.Words.{written_at};
ghost use Rattle.calendar.specs.DateText.{natural, date_text, is_date, day_rank_of};
ghost use Rattle.calendar.specs.Found.{date_read_of};

use crate::dates::date_rank;
use text::bytes::byte_at;
use text::numbers::read_number;

// The end of the number at a position, and the number; 0 for a negative one.
fn read_natural(s: &[u8], at: usize) -> Option<(usize, u64)>
    ensures { result ≡ end_of_number (natural (from s.now at)) }
{
    let (e, rank) = read_number(s, at)?;
    if rank < 9223372036854775808 {
        return Some((e, 0));
    }
    Some((e, rank - 9223372036854775808))
}

// The same behind a space.
fn next_natural(s: &[u8], at: usize) -> Option<(usize, u64)>
    ensures { result ≡ end_of_number (next natural (from s.now at)) }
{
    if byte_at(s, at) == b' ' {
        read_natural(s, at + 1)
    } else {
        None
    }
}

// The date at a position: where it ends, and its rank, or none if there is no such date.
pub fn read_date(s: &[u8], at: usize) -> Option<(usize, Option<u64>)>
    ensures { result ≡ date_read_of (date_text (from s.now at)) }
{
    if byte_at(s, at) != b'(' {
        return None;
    }
    let (a, year) = read_natural(s, at + 1)?;
    let (b, month) = next_natural(s, a)?;
    let (e, day) = next_natural(s, b)?;
    if byte_at(s, e) != b')' {
        return None;
    }
    Some((e + 1, date_rank(year, month, day)))
}

// The end of the date at a position, whether there is such a date or not.
pub fn date_end(s: &[u8], at: usize) -> Option<usize>
    ensures { result ≡ word_end (date_text (from s.now at)) }
{
    let (e, _) = read_date(s, at)?;
    Some(e)
}

// Whether a date is written at a position, whether there is such a date or not.
pub fn is_date(s: &[u8], at: usize) -> bool
    ensures { result ≡ is_date (written_at s.now at) }
{
    date_end(s, at).is_some()
}

// The rank of the date that is written at a position; 0, which is the rank of none, where there is none.
pub fn known_date(s: &[u8], at: usize) -> u64
    ensures { result ≡ day_rank_of (written_at s.now at) }
{
    let Some((_, rank)) = read_date(s, at) else {
        return 0;
    };
    rank.unwrap_or(0)
}
