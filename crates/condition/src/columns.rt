// Columns with their tables, as a join writes them: `(of T COL)`; and where the value stands behind what is compared.
ghost use Rattle.std.specs.Prelude.{◌≡◌};
ghost use Rattle.text.specs.CodeEnds.{word_end};
ghost use Rattle.text.specs.Reader.{from};
ghost use Rattle.condition.specs.Answers.{naming_by, value_at};
ghost use Rattle.condition.specs.CondForm.{of_ref, ref_body};
ghost use Rattle.condition.specs.RefPlaces.{ref_end_at, ref_table};

use text::brackets::spaced_name_end;
use text::bytes::byte_at;
use text::walking::{next_word, skip_byte};
use text::words::{is_word, word_end};

// The end of `T COL`, each behind a space.
fn ref_body_end(s: &[u8], at: usize) -> Option<usize>
    ensures { result ≡ word_end (ref_body (from s.now at)) }
{
    let e = spaced_name_end(s, at)?;
    spaced_name_end(s, e)
}

// The end of `(of T COL)`.
pub fn ref_end(s: &[u8], at: usize) -> Option<usize>
    ensures { result ≡ word_end (of_ref (from s.now at)) }
{
    if byte_at(s, at) != b'(' {
        return None;
    }
    let k = at + 1;
    if !is_word(s, k, b"of") {
        return None;
    }
    let e = ref_body_end(s, word_end(s, k))?;
    if byte_at(s, e) != b')' {
        return None;
    }
    Some(e + 1)
}

// Where T stands in the `(of T COL)` at a position, which was read before; COL is the next word.
pub fn ref_table(s: &[u8], at: usize) -> usize
    ensures { result ≡ ref_table s.now at }
{
    next_word(s, skip_byte(s, at, b'('))
}

// Where it ends.
pub fn ref_close(s: &[u8], at: usize) -> usize
    ensures { result ≡ ref_end_at s.now at }
{
    let column = next_word(s, ref_table(s, at));
    skip_byte(s, word_end(s, column), b')')
}

// Where the value stands of the comparison whose operator stands at a position, that of a join's condition or not.
pub fn value_place(s: &[u8], op: usize, joined: bool) -> usize
    ensures { result ≡ value_at (naming_by joined) s.now op }
{
    let name = next_word(s, op);
    if joined {
        return skip_byte(s, ref_close(s, name), b' ');
    }
    next_word(s, name)
}
