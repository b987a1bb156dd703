// The brackets that lists of a line are made of, and the lists: where they end.
ghost use Rattle.std.specs.Prelude.{◌≡◌};
ghost use Rattle.text.specs.Brackets.{keyword, many, next};
ghost use Rattle.text.specs.CodeEnds.{word_end};
ghost use Rattle.text.specs.Items.{dropped};
ghost use Rattle.text.specs.Reader.{from};
ghost use Rattle.form.specs.FormReader.{column, column_body, column_kinds, given_form, item, kinds, labelled_column, labelled_item};

use calendar::cell_values::cell_value_end;
use text::brackets::{Item, byte_end, many_end, spaced_name_end, spaced_value_end};
use text::bytes::byte_at;
use text::words::{is_word, name_end, word_end};

// The end of the type of an attribute, `num` or `name`, behind a space.
pub fn kind_end(s: &[u8], at: usize) -> Option<usize>
    ensures { result ≡ word_end (next (keyword kinds) (from s.now at)) }
{
    let a = byte_end(s, at, b' ')?;
    if is_word(s, a, b"num") {
        return Some(word_end(s, a));
    }
    if is_word(s, a, b"name") {
        return Some(word_end(s, a));
    }
    None
}

// The end of the type of a column behind a space: `date`, or one of an attribute.
pub fn column_kind_end(s: &[u8], at: usize) -> Option<usize>
    ensures { result ≡ word_end (next (keyword column_kinds) (from s.now at)) }
{
    if byte_at(s, at) != b' ' {
        return None;
    }
    if is_word(s, at + 1, b"date") {
        return Some(word_end(s, at + 1));
    }
    kind_end(s, at)
}

// The end of `(A v)`.
pub fn given_end(s: &[u8], at: usize) -> Option<usize>
    ensures { result ≡ word_end (given_form (from s.now at)) }
{
    let a = byte_end(s, at, b'(')?;
    let e = name_end(s, a)?;
    let f = spaced_value_end(s, e)?;
    byte_end(s, f, b')')
}

// `(A v)`, as an item of a list.
struct Given;

impl Item for Given {
    ghost reader = { dropped given_form };

    fn end(s: &[u8], at: usize) -> Option<usize> {
        given_end(s, at)
    }
}

// The end of `(A v) ..`, each behind a space.
pub fn givens_end(s: &[u8], at: usize) -> Option<usize>
    ensures { result ≡ word_end (many given_form (from s.now at)) }
{
    many_end::<Given>(s, at)
}

// The end of `COL num`.
pub fn column_body_end(s: &[u8], at: usize) -> Option<usize>
    ensures { result ≡ word_end (column_body (from s.now at)) }
{
    let e = name_end(s, at)?;
    column_kind_end(s, e)
}

// The end of `(COL num)`.
pub fn column_end(s: &[u8], at: usize) -> Option<usize>
    ensures { result ≡ word_end (column (from s.now at)) }
{
    let a = byte_end(s, at, b'(')?;
    let e = column_body_end(s, a)?;
    byte_end(s, e, b')')
}

// `(COL num)`, as an item of a list.
struct Column;

impl Item for Column {
    ghost reader = { dropped column };

    fn end(s: &[u8], at: usize) -> Option<usize> {
        column_end(s, at)
    }
}

// The end of `(COL num) ..`, each behind a space.
pub fn columns_end(s: &[u8], at: usize) -> Option<usize>
    ensures { result ≡ word_end (many column (from s.now at)) }
{
    many_end::<Column>(s, at)
}

// The end of `(COL num L)`.
pub fn labelled_column_end(s: &[u8], at: usize) -> Option<usize>
    ensures { result ≡ word_end (labelled_column (from s.now at)) }
{
    let a = byte_end(s, at, b'(')?;
    let e = column_body_end(s, a)?;
    let f = spaced_name_end(s, e)?;
    byte_end(s, f, b')')
}

// `(COL num L)`, as an item of a list.
struct LabelledColumn;

impl Item for LabelledColumn {
    ghost reader = { dropped labelled_column };

    fn end(s: &[u8], at: usize) -> Option<usize> {
        labelled_column_end(s, at)
    }
}

// The end of `(COL num L) ..`, each behind a space.
pub fn labelled_columns_end(s: &[u8], at: usize) -> Option<usize>
    ensures { result ≡ word_end (many labelled_column (from s.now at)) }
{
    many_end::<LabelledColumn>(s, at)
}

// The end of `(v L)`.
pub fn labelled_item_end(s: &[u8], at: usize) -> Option<usize>
    ensures { result ≡ word_end (labelled_item (from s.now at)) }
{
    let a = byte_end(s, at, b'(')?;
    let e = cell_value_end(s, a)?;
    let f = spaced_name_end(s, e)?;
    byte_end(s, f, b')')
}

// The end of an item of a row: `v` or `(v L)`.
pub fn item_end(s: &[u8], at: usize) -> Option<usize>
    ensures { result ≡ word_end (item (from s.now at)) }
{
    if let Some(e) = cell_value_end(s, at) {
        return Some(e);
    }
    labelled_item_end(s, at)
}

// `v` or `(v L)`, as an item of a list.
struct RowItem;

impl Item for RowItem {
    ghost reader = { dropped item };

    fn end(s: &[u8], at: usize) -> Option<usize> {
        item_end(s, at)
    }
}

// The end of a row's items, each behind a space.
pub fn items_end(s: &[u8], at: usize) -> Option<usize>
    ensures { result ≡ word_end (many item (from s.now at)) }
{
    many_end::<RowItem>(s, at)
}
