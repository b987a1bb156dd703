// Reading a line: which form it is, and where its words and lists stand.
ghost use Rattle.std.specs.Prelude.{◌≡◌};
ghost use Rattle.text.specs.Brackets.{keyword, next};
ghost use Rattle.text.specs.Reader.{from};
ghost use Rattle.form.specs.Form.{purpose, role, strong, weak};
ghost use Rattle.form.specs.FormReader.{attr_form, cond_role_form, grant_form, label_form, label_note, line_forms, node, public_form, purpose_set, row_form, table_form, user_form};
ghost use Rattle.form.specs.BodyPlaces.{ReadsBody, ReadsColumns, ReadsSet, under_scheme};
ghost use Rattle.form.specs.Places.{Reads};
ghost use Rattle.form.specs.TableWords.{labels_columns};

use crate::parts::{columns_end, givens_end, items_end, kind_end, labelled_columns_end};
use condition::conditions::read_condition;
use condition::kinds::Kind;
use text::brackets::{Optional, names_end, optional_name, spaced_name_end};
use text::bytes::byte_at;
use text::words::{is_word, word_end};

// Where a table's labels stand.
#[derive(Clone, Copy)]
pub enum Scheme {
    Unlabelled,
    ByTable,
    ByColumn,
    ByRow,
    ByCell,
    Nested,
}

// Whether the labels of a table of this scheme stand at its columns.
pub fn labels_columns(s: Scheme) -> bool
    ensures { result ≡ labels_columns s }
{
    matches!(s, Scheme::ByColumn)
}

// A line that was read. Words are given by their places, lists by the place of the space before their first item (of the
// closing bracket, where they are empty), a condition by the place of its bracket; a table by the places of its name, of its own
// label (0 where its scheme has none there) and of its columns.
#[derive(Clone, Copy)]
pub enum Line {
    Purpose(usize),
    PurposeBelow(usize, usize),
    Role(usize),
    RoleBelow(usize, usize),
    Attr(usize, usize, Kind),
    User(usize, usize, usize),
    CondRole(usize, usize, usize),
    Grant(usize, usize),
    Label(usize, usize, usize),
    Table(usize, Scheme, usize, usize),
    Row(usize, usize),
    Public(usize),
    Weak(usize, usize),
    Strong(usize, usize),
}

// `N` or `N PARENT` behind `purpose`.
fn purpose_body(s: &[u8], at: usize) -> Option<(Line, usize)>
    ensures { ReadsBody s.now (node purpose (from s.now at)) result }
{
    let e = spaced_name_end(s, at)?;
    match optional_name(s, e)? {
        Optional::Name(q, f) => Some((Line::PurposeBelow(at + 1, q), f)),
        Optional::Absent(f) => Some((Line::Purpose(at + 1), f)),
    }
}

// `N` or `N PARENT` behind `role`.
fn role_body(s: &[u8], at: usize) -> Option<(Line, usize)>
    ensures { ReadsBody s.now (node role (from s.now at)) result }
{
    let e = spaced_name_end(s, at)?;
    match optional_name(s, e)? {
        Optional::Name(q, f) => Some((Line::RoleBelow(at + 1, q), f)),
        Optional::Absent(f) => Some((Line::Role(at + 1), f)),
    }
}

// `ROLE A num`.
fn attr_body(s: &[u8], at: usize) -> Option<(Line, usize)>
    ensures { ReadsBody s.now (attr_form (from s.now at)) result }
{
    let e = spaced_name_end(s, at)?;
    let f = spaced_name_end(s, e)?;
    let g = kind_end(s, f)?;
    if is_word(s, f + 1, b"num") {
        return Some((Line::Attr(at + 1, e + 1, Kind::Num), g));
    }
    Some((Line::Attr(at + 1, e + 1, Kind::Name), g))
}

// `U ROLE (A v) ..`.
fn user_body(s: &[u8], at: usize) -> Option<(Line, usize)>
    ensures { ReadsBody s.now (user_form (from s.now at)) result }
{
    let e = spaced_name_end(s, at)?;
    let f = spaced_name_end(s, e)?;
    let h = givens_end(s, f)?;
    Some((Line::User(at + 1, e + 1, f), h))
}

// `C ROLE cond`.
fn cond_role_body(s: &[u8], at: usize) -> Option<(Line, usize)>
    ensures { ReadsBody s.now (cond_role_form (from s.now at)) result }
{
    let e = spaced_name_end(s, at)?;
    let f = spaced_name_end(s, e)?;
    if byte_at(s, f) != b' ' {
        return None;
    }
    let t = f + 1;
    let (g, _) = read_condition(s, t)?;
    Some((Line::CondRole(at + 1, e + 1, t), g))
}

// `PURPOSE C`.
fn grant_body(s: &[u8], at: usize) -> Option<(Line, usize)>
    ensures { ReadsBody s.now (grant_form (from s.now at)) result }
{
    let e = spaced_name_end(s, at)?;
    let f = spaced_name_end(s, e)?;
    Some((Line::Grant(at + 1, e + 1), f))
}

// `(allow P ..)` or `(deny P ..)`, the keyword being k, behind a space.
fn read_set(s: &[u8], at: usize, k: &[u8]) -> Option<(usize, usize)>
    ensures { ReadsSet s.now (next (purpose_set k.now) (from s.now at)) result }
{
    if byte_at(s, at) != b' ' {
        return None;
    }
    let b = at + 1;
    if byte_at(s, b) != b'(' {
        return None;
    }
    let w = b + 1;
    if !is_word(s, w, k) {
        return None;
    }
    let n = word_end(s, w);
    let e = names_end(s, n)?;
    if byte_at(s, e) != b')' {
        return None;
    }
    Some((n, e + 1))
}

// `L (allow P ..) (deny P ..)`.
fn label_body(s: &[u8], at: usize) -> Option<(Line, usize)>
    ensures { ReadsBody s.now (label_form (from s.now at)) result }
{
    let e = spaced_name_end(s, at)?;
    let (p, f) = read_set(s, e, b"allow")?;
    let (q, g) = read_set(s, f, b"deny")?;
    Some((Line::Label(at + 1, p, q), g))
}

// Columns of this scheme, the table's label at l, from a position to an end, one at least: a space stands before the first.
#[tactic(auto, unfolding(crate::specs::BodyPlaces::under_scheme, crate::specs::BodyPlaces::columns_to))]
fn under_scheme(
    s: &[u8],
    k: Scheme,
    l: usize,
    at: usize,
    end: Option<usize>,
) -> Option<(Scheme, usize, usize, usize)>
    ensures { result ≡ under_scheme s.now k l at end }
{
    let first = byte_at(s, at);
    if first != b' ' {
        return None;
    }
    Some((k, l, at, end?))
}

// A scheme's keyword and the columns behind it.
fn table_columns(s: &[u8], at: usize) -> Option<(Scheme, usize, usize, usize)>
    ensures { ReadsColumns s.now at result }
{
    let e = word_end(s, at);
    if is_word(s, at, b"none") {
        return under_scheme(s, Scheme::Unlabelled, 0, e, columns_end(s, e));
    }
    if is_word(s, at, b"table") {
        let f = spaced_name_end(s, e)?;
        return under_scheme(s, Scheme::ByTable, e + 1, f, columns_end(s, f));
    }
    if is_word(s, at, b"column") {
        return under_scheme(s, Scheme::ByColumn, 0, e, labelled_columns_end(s, e));
    }
    if is_word(s, at, b"row") {
        return under_scheme(s, Scheme::ByRow, 0, e, columns_end(s, e));
    }
    if is_word(s, at, b"cell") {
        return under_scheme(s, Scheme::ByCell, 0, e, columns_end(s, e));
    }
    if is_word(s, at, b"nest") {
        return under_scheme(s, Scheme::Nested, 0, e, columns_end(s, e));
    }
    None
}

// `T`, the scheme and the columns.
fn table_body(s: &[u8], at: usize) -> Option<(Line, usize)>
    ensures { ReadsBody s.now (table_form (from s.now at)) result }
{
    let e = spaced_name_end(s, at)?;
    if byte_at(s, e) != b' ' {
        return None;
    }
    let (k, l, f, g) = table_columns(s, e + 1)?;
    Some((Line::Table(at + 1, k, l, f), g))
}

// `T` behind `public`.
fn public_body(s: &[u8], at: usize) -> Option<(Line, usize)>
    ensures { ReadsBody s.now (public_form (from s.now at)) result }
{
    let e = spaced_name_end(s, at)?;
    Some((Line::Public(at + 1), e))
}

// `T L` behind `weak`.
fn weak_body(s: &[u8], at: usize) -> Option<(Line, usize)>
    ensures { ReadsBody s.now (label_note weak (from s.now at)) result }
{
    let e = spaced_name_end(s, at)?;
    let f = spaced_name_end(s, e)?;
    Some((Line::Weak(at + 1, e + 1), f))
}

// `T L` behind `strong`.
fn strong_body(s: &[u8], at: usize) -> Option<(Line, usize)>
    ensures { ReadsBody s.now (label_note strong (from s.now at)) result }
{
    let e = spaced_name_end(s, at)?;
    let f = spaced_name_end(s, e)?;
    Some((Line::Strong(at + 1, e + 1), f))
}

// `T` and its items.
fn row_body(s: &[u8], at: usize) -> Option<(Line, usize)>
    ensures { ReadsBody s.now (row_form (from s.now at)) result }
{
    let e = spaced_name_end(s, at)?;
    let f = items_end(s, e)?;
    Some((Line::Row(at + 1, e), f))
}

// The keyword at a position and what stands behind it.
fn read_body(s: &[u8], at: usize) -> Option<(Line, usize)>
    ensures { ReadsBody s.now (keyword line_forms (from s.now at)) result }
{
    let e = word_end(s, at);
    if is_word(s, at, b"purpose") {
        return purpose_body(s, e);
    }
    if is_word(s, at, b"role") {
        return role_body(s, e);
    }
    if is_word(s, at, b"attr") {
        return attr_body(s, e);
    }
    if is_word(s, at, b"user") {
        return user_body(s, e);
    }
    if is_word(s, at, b"cond-role") {
        return cond_role_body(s, e);
    }
    if is_word(s, at, b"grant") {
        return grant_body(s, e);
    }
    if is_word(s, at, b"label") {
        return label_body(s, e);
    }
    if is_word(s, at, b"table") {
        return table_body(s, e);
    }
    if is_word(s, at, b"public") {
        return public_body(s, e);
    }
    if is_word(s, at, b"weak") {
        return weak_body(s, e);
    }
    if is_word(s, at, b"strong") {
        return strong_body(s, e);
    }
    if is_word(s, at, b"row") {
        return row_body(s, e);
    }
    None
}

// The form that a line is, the line standing without its line feed: a bracket, and nothing behind it.
pub fn read_line(s: &[u8]) -> Option<Line>
    ensures { Reads s.now result }
{
    if byte_at(s, 0) != b'(' {
        return None;
    }
    let (l, e) = read_body(s, 1)?;
    if byte_at(s, e) != b')' {
        return None;
    }
    if e + 1 == s.len() {
        return Some(l);
    }
    None
}
