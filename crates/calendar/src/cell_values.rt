// The values of cells: names, numbers, ranges and dates.
ghost use Rattle.std.specs.Prelude.{◌≡◌};
ghost use Rattle.calendar.specs.CellValues.{cell_value, enclosed_value};
ghost use Rattle.text.specs.CodeEnds.{word_end};
ghost use Rattle.text.specs.Reader.{from};

use crate::reading::date_end;
use text::amounts::range_end;
use text::bytes::byte_at;
use text::words::value_end;

// The end of the range or the date at a position.
fn enclosed_end(s: &[u8], at: usize) -> Option<usize>
    ensures { result ≡ word_end (enclosed_value (from s.now at)) }
{
    if let Some(e) = range_end(s, at) {
        return Some(e);
    }
    date_end(s, at)
}

// The end of the value of a cell: a name, a number, a range or a date.
pub fn cell_value_end(s: &[u8], at: usize) -> Option<usize>
    ensures { result ≡ word_end (cell_value (from s.now at)) }
{
    if byte_at(s, at) == b'(' {
        return enclosed_end(s, at);
    }
    value_end(s, at)
}
