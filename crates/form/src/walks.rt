// Walking through the lists of a line that was read: where the words of a bracket stand, and where a bracket or an item ends.
ghost use Rattle.std.specs.Prelude.{◌≡◌};
ghost use Rattle.form.specs.Walks.{cell_end_at, cell_label_in, deny_place, first_in, is_labelled_at, item_end_at, list_end_at, pair_end_at, second_in, third_in, triple_end_at, value_place};
ghost use Rattle.text.specs.Walking.{word_end_at};

use calendar::cell_values::cell_value_end;
use text::bytes::byte_at;
use text::walking::{next_word, skip_byte};
use text::words::{word_end, written_end};

// Where the first word or value stands in a bracket that opens at a place; where none opens, the place itself.
pub fn first_in(line: &[u8], at: usize) -> usize
    ensures { result ≡ first_in line.now at }
{
    skip_byte(line, at, b'(')
}

// Where its second word stands.
pub fn second_in(line: &[u8], at: usize) -> usize
    ensures { result ≡ second_in line.now at }
{
    next_word(line, first_in(line, at))
}

// Where its third word stands.
pub fn third_in(line: &[u8], at: usize) -> usize
    ensures { result ≡ third_in line.now at }
{
    next_word(line, second_in(line, at))
}

// Where a bracket of two words ends.
pub fn pair_end(line: &[u8], at: usize) -> usize
    ensures { result ≡ pair_end_at line.now at }
{
    let last = second_in(line, at);
    skip_byte(line, word_end(line, last), b')')
}

// Where a bracket of three words ends.
pub fn triple_end(line: &[u8], at: usize) -> usize
    ensures { result ≡ triple_end_at line.now at }
{
    let last = third_in(line, at);
    skip_byte(line, word_end(line, last), b')')
}

// Where the label stands in the `(v L)` at a place: behind the value.
pub fn cell_label(line: &[u8], at: usize) -> usize
    ensures { result ≡ cell_label_in line.now at }
{
    skip_byte(line, written_end(line, first_in(line, at)), b' ')
}

// Where it ends.
pub fn cell_end(line: &[u8], at: usize) -> usize
    ensures { result ≡ cell_end_at line.now at }
{
    let last = cell_label(line, at);
    skip_byte(line, word_end(line, last), b')')
}

// Whether the item of a row at a place is `(v L)`: a bracket opens that is no value.
pub fn is_labelled(line: &[u8], at: usize) -> bool
    ensures { result ≡ is_labelled_at line.now at }
{
    byte_at(line, at) == b'(' && cell_value_end(line, at).is_none()
}

// Where the value of the item at a place stands: behind the bracket of `(v L)`, and else at the item.
pub fn value_place(line: &[u8], at: usize) -> usize
    ensures { result ≡ value_place line.now at }
{
    if is_labelled(line, at) {
        return first_in(line, at);
    }
    at
}

// Where the item of a row at a place ends: `(v L)`, or else `v`.
pub fn item_end_at(line: &[u8], at: usize) -> usize
    ensures { result ≡ item_end_at line.now at }
{
    if is_labelled(line, at) {
        return cell_end(line, at);
    }
    written_end(line, at)
}

// Where the words from a place on end, each behind a space.
fn words_end(line: &[u8], at: usize) -> usize
    ensures { result ≡ list_end_at word_end_at line.now at }
{
    let mut j = at;
    while byte_at(line, j) == b' ' {
        j = word_end(line, j + 1);
    }
    j
}

// From where on the purposes stand that a label denies, its name standing at a place: behind the bracket of those that it allows, and
// behind the keyword of their own.
pub fn deny_place(line: &[u8], n: usize) -> usize
    ensures { result ≡ deny_place line.now n }
{
    let allow = word_end(line, first_in(line, next_word(line, n)));
    let allowed = skip_byte(line, words_end(line, allow), b')');
    let deny = skip_byte(line, allowed, b' ');
    word_end(line, first_in(line, deny))
}
