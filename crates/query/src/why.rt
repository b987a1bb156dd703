// Reading a line of the explaining tool: where its words stand (02, Q-7).
ghost use Rattle.std.specs.Prelude.{◌≡◌};
ghost use Rattle.query.specs.WhyForm.{why_body, why_of};
ghost use Rattle.query.specs.WhyPlaces.{why_line, why_to};
ghost use Rattle.text.specs.CodeEnds.{word_end};
ghost use Rattle.text.specs.Numbers.{is_number};
ghost use Rattle.text.specs.Reader.{from};
ghost use Rattle.text.specs.Words.{word_that};

use text::brackets::spaced_name_end;
use text::bytes::byte_at;
use text::numbers::read_number;
use text::words::{is_word, word_end};

// `P T ROW COL`: where the four words stand.
#[derive(Clone, Copy)]
pub struct Why {
    pub purpose: usize,
    pub table: usize,
    pub row: usize,
    pub column: usize,
}

// The end of the number that stands at a position.
fn number_end(s: &[u8], at: usize) -> Option<usize>
    ensures { result ≡ word_end (word_that is_number (from s.now at)) }
{
    let (e, _) = read_number(s, at)?;
    Some(e)
}

// `P T ROW COL`, each behind a space.
fn why_body(s: &[u8], at: usize) -> Option<(Why, usize)>
    ensures { why_body (from s.now at) ≡ why_to s.now result }
{
    let e = spaced_name_end(s, at)?;
    let f = spaced_name_end(s, e)?;
    if byte_at(s, f) != b' ' {
        return None;
    }
    let g = number_end(s, f + 1)?;
    let h = spaced_name_end(s, g)?;
    Some((
        Why {
            purpose: at + 1,
            table: e + 1,
            row: f + 1,
            column: g + 1,
        },
        h,
    ))
}

// The why line that a text is: one bracket with nothing behind it, of any length.
pub fn read_why(s: &[u8]) -> Option<Why>
    ensures { why_of s.now ≡ why_line s.now result }
{
    if byte_at(s, 0) != b'(' {
        return None;
    }
    if !is_word(s, 1, b"why") {
        return None;
    }
    let (w, e) = why_body(s, word_end(s, 1))?;
    if byte_at(s, e) != b')' {
        return None;
    }
    if e + 1 == s.len() {
        return Some(w);
    }
    None
}
