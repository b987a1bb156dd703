// What is wrong with a row form.
ghost use Rattle.std.specs.Prelude.{◌<◌, ℕ, eqb, length, cond, List, [], ◌∷◌, ◌≡◌};
ghost use Rattle.std.proofs.Math.Option.{some};
ghost use Rattle.calendar.specs.DateText.{date_of};
ghost use Rattle.condition.specs.Answers.{kind_of};
ghost use Rattle.document.specs.AmountFaults.{date_exists, in_order};
ghost use Rattle.document.specs.Lookup.{columns_at, label_of};
ghost use Rattle.document.specs.NameFaults.{bracket_labels, leading_name, row_labels};
ghost use Rattle.document.specs.Policy.{Policy};
ghost use Rattle.document.specs.TypeFaults.{cell_has_kind, mistyped_value};
ghost use Rattle.document.specs.ValueFaults.{row_values};
ghost use Rattle.form.specs.Form.{has_brackets, leads_label};
ghost use Rattle.stepping.specs.Places.{Near};
ghost use Rattle.rows.specs.RowWords.{label_at, values_at};
ghost use Rattle.form.specs.Walks.{item_at, items_at};
ghost use Rattle.relations.specs.Labels.{Labels};
ghost use Rattle.relations.specs.Tables.{Tables, scheme_by};
ghost use Rattle.lists.specs.Lists.{holds_of, there};
ghost use Rattle.text.specs.Amounts.{is_range, range_of};
ghost use Rattle.text.specs.Offending.{missing, unless};
ghost use Rattle.text.specs.Words.{Word, written_at};
ghost use Rattle.text.specs.CodeEnds.{offending_of, offending_value};
ghost use Rattle.rows.specs.Promises.{DatesJudged, RowFaultPromise};

use crate::items::{behind_first, leads, led_values_fit, values_fit};
use calendar::reading::{is_date, read_date};
use condition::kinds::{Kind, has_kind};
use form::lines::Scheme;
use form::walks::{cell_label, is_labelled, item_end_at, value_place};
use relations::labels::find_label;
use relations::tables::{
    column_kind, find_table, has_brackets, leads_label, table_scheme, table_width,
};
use stepping::fault::Fault;
use text::amounts::{range_end, read_range};
use text::bytes::byte_at;
use text::refusals::Reason;
use workspace::layout::{LABELS, ROWS, TABLE_CELLS};

// Whether the items from a position on are shaped for the scheme, with as many values as this.
fn row_fits(scheme: Scheme, line: &[u8], at: usize, width: usize) -> bool
    ensures { (l : ℕ) (ls : List ℕ) → result ≡ holds_of (λ ws. eqb (length ws) width) (row_values (scheme_by scheme l ls) (items_at line.now at)) }
{
    let bracketed = has_brackets(scheme);
    if leads_label(scheme) {
        return led_values_fit(line, at, bracketed, width);
    }
    values_fit(line, at, bracketed, width)
}

// Where the items that have the values begin, of those from a position on.
pub fn values_start(scheme: Scheme, line: &[u8], at: usize) -> usize
    ensures { (l : ℕ) (ls : List ℕ) (ws : List Word) → row_values (scheme_by scheme l ls) (items_at line.now at) ≡ some ws → values_at line.now result ≡ ws }
{
    if leads_label(scheme) {
        return behind_first(line, at);
    }
    at
}

// Whether a range stands at a position.
fn is_range(line: &[u8], at: usize) -> bool
    ensures { result ≡ is_range (written_at line.now at) }
{
    range_end(line, at).is_some()
}

// Whether the value at a position is of the type: numbers take a range as well, and dates nothing but a date.
fn typed(line: &[u8], at: usize, kind: Kind) -> bool
    ensures { result ≡ cell_has_kind (kind_of kind) (written_at line.now at) }
{
    if byte_at(line, at) != b'(' {
        return has_kind(line, at, kind);
    }
    match kind {
        Kind::Name => false,
        Kind::Num => is_range(line, at),
        Kind::Date => is_date(line, at),
    }
}

// Whether the value at a position is in order: a range has LOW at most HIGH.
fn in_order(line: &[u8], at: usize) -> bool
    ensures { result ≡ in_order (range_of (written_at line.now at)) }
{
    match read_range(line, at) {
        Some((_, low, high)) => low <= high,
        None => true,
    }
}

// Whether the value at a position exists, if it is a date.
fn date_exists(line: &[u8], at: usize) -> bool
    ensures { result ≡ date_exists (date_of (written_at line.now at)) }
{
    match read_date(line, at) {
        Some((_, Some(_))) => true,
        Some((_, None)) => false,
        None => true,
    }
}

// The first value of the items from a position on that is not of its column's type.
fn first_mistyped(tables: &[usize; TABLE_CELLS], t: usize, line: &[u8], at: usize) -> Option<usize>
    ensures { ((text : List ℕ) (k : ℕ) (d : Policy) → Tables text tables.now k d.tables → t < k → offending_value line.now result ≡ mistyped_value (columns_at d t) (values_at line.now at)) × Near line.now result }
{
    let n = table_width(tables, t);
    let mut i = at;
    for c in 0..n {
        if byte_at(line, i) != b' ' {
            return None;
        }
        let v = value_place(line, i + 1);
        let kind = column_kind(tables, t, c);
        if !typed(line, v, kind) {
            return Some(v);
        }
        i = item_end_at(line, i + 1);
    }
    None
}

// The first value of the items from a position on that is a range with LOW above HIGH.
fn first_broken(line: &[u8], at: usize) -> Option<usize>
    ensures { (offending_value line.now result ≡ missing (λ w. in_order (range_of w.bytes)) (values_at line.now at)) × Near line.now result }
{
    let mut i = at;
    while byte_at(line, i) == b' ' {
        let v = value_place(line, i + 1);
        if !in_order(line, v) {
            return Some(v);
        }
        i = item_end_at(line, i + 1);
    }
    None
}

// The first value of the items from a position on that is a date that does not exist.
fn first_missing_date(line: &[u8], at: usize) -> Option<usize>
    ensures { (offending_value line.now result ≡ missing (λ w. date_exists (date_of w.bytes)) (values_at line.now at)) × Near line.now result }
{
    let mut i = at;
    while byte_at(line, i) == b' ' {
        let v = value_place(line, i + 1);
        if !date_exists(line, v) {
            return Some(v);
        }
        i = item_end_at(line, i + 1);
    }
    None
}

// The verdict on values that have no other fault: one of them may be a date that does not exist.
fn date_fault(line: &[u8], at: usize) -> Result<(), Fault>
    ensures { DatesJudged line.now at result }
{
    match first_missing_date(line, at) {
        Some(p) => Err(Fault::Value(Reason::NoSuchDate, p)),
        None => Ok(()),
    }
}

// Whether the label of the item at a position is known; where it has none, there is nothing to know.
fn label_known(text: &[u8], labels: &[usize; LABELS], k: usize, line: &[u8], at: usize) -> bool
    ensures { (sets : List ℕ) (d : Policy) → Labels text.now labels.now sets k d.labels → missing (λ w. there (label_of d w)) (bracket_labels (item_at line.now at ∷ [])) ≡ unless result (label_at line.now at) }
{
    if !is_labelled(line, at) {
        return true;
    }
    find_label(text, labels, k, line, cell_label(line, at)).is_some()
}

// The first bracket's label, of the items from a position on, that is not known.
fn first_unknown_label(
    text: &[u8],
    labels: &[usize; LABELS],
    k: usize,
    line: &[u8],
    at: usize,
) -> Option<usize>
    ensures { ((sets : List ℕ) (d : Policy) → Labels text.now labels.now sets k d.labels → offending_of line.now result ≡ missing (λ w. there (label_of d w)) (bracket_labels (items_at line.now at))) × Near line.now result }
{
    let mut i = at;
    while byte_at(line, i) == b' ' {
        if !label_known(text, labels, k, line, i + 1) {
            return Some(cell_label(line, i + 1));
        }
        i = item_end_at(line, i + 1);
    }
    None
}

// The first item, if it is a name without a bracket and no known label.
fn leading_unknown(
    text: &[u8],
    labels: &[usize; LABELS],
    k: usize,
    line: &[u8],
    at: usize,
) -> Option<usize>
    ensures { ((sets : List ℕ) (d : Policy) → Labels text.now labels.now sets k d.labels → offending_of line.now result ≡ missing (λ w. there (label_of d w)) (leading_name (items_at line.now at))) × Near line.now result }
{
    if !leads(line, at) {
        return None;
    }
    if find_label(text, labels, k, line, at + 1).is_some() {
        return None;
    }
    Some(at + 1)
}

// The same where rows of the scheme lead with a label; else nothing.
fn unknown_lead(
    scheme: Scheme,
    text: &[u8],
    labels: &[usize; LABELS],
    k: usize,
    line: &[u8],
    at: usize,
) -> Option<usize>
    ensures { ((sets : List ℕ) (d : Policy) (l : ℕ) (ls : List ℕ) → Labels text.now labels.now sets k d.labels → offending_of line.now result ≡ missing (λ w. there (label_of d w)) (cond (leads_label (scheme_by scheme l ls)) (leading_name (items_at line.now at)) [])) × Near line.now result }
{
    if leads_label(scheme) {
        return leading_unknown(text, labels, k, line, at);
    }
    None
}

// The first bracket's label that is not known, where rows of the scheme have brackets; else nothing.
fn unknown_bracket(
    scheme: Scheme,
    text: &[u8],
    labels: &[usize; LABELS],
    k: usize,
    line: &[u8],
    at: usize,
) -> Option<usize>
    ensures { ((sets : List ℕ) (d : Policy) (l : ℕ) (ls : List ℕ) → Labels text.now labels.now sets k d.labels → offending_of line.now result ≡ missing (λ w. there (label_of d w)) (cond (has_brackets (scheme_by scheme l ls)) (bracket_labels (items_at line.now at)) [])) × Near line.now result }
{
    if has_brackets(scheme) {
        return first_unknown_label(text, labels, k, line, at);
    }
    None
}

// The first label that the items from a position on use by the scheme, and that is not known.
fn unknown_label(
    scheme: Scheme,
    text: &[u8],
    labels: &[usize; LABELS],
    k: usize,
    line: &[u8],
    at: usize,
) -> Option<usize>
    ensures { ((sets : List ℕ) (d : Policy) (l : ℕ) (ls : List ℕ) → Labels text.now labels.now sets k d.labels → offending_of line.now result ≡ missing (λ w. there (label_of d w)) (row_labels (scheme_by scheme l ls) (items_at line.now at))) × Near line.now result }
{
    match unknown_lead(scheme, text, labels, k, line, at) {
        Some(p) => Some(p),
        None => unknown_bracket(scheme, text, labels, k, line, at),
    }
}

// What is wrong with `(row T item ..)`, the table's name at t and the items from `is` on, where there are k rows already.
pub fn row_fault(
    text: &[u8],
    labels: &[usize; LABELS],
    labels_count: usize,
    tables: &[usize; TABLE_CELLS],
    tables_count: usize,
    k: usize,
    line: &[u8],
    t: usize,
    is: usize,
) -> Result<(), Fault>
    ensures { RowFaultPromise text.now labels.now labels_count tables.now tables_count k line.now t is result }
{
    if ROWS <= k {
        return Err(Fault::Whole(Reason::OverBound));
    }
    let Some(x) = find_table(text, tables, tables_count, line, t) else {
        return Err(Fault::Item(Reason::NameUnknown, t));
    };
    let scheme = table_scheme(tables, x);
    if let Some(p) = unknown_label(scheme, text, labels, labels_count, line, is) {
        return Err(Fault::Item(Reason::NameUnknown, p));
    }
    if !row_fits(scheme, line, is, table_width(tables, x)) {
        return Err(Fault::Whole(Reason::WrongValues));
    }
    let start = values_start(scheme, line, is);
    if let Some(p) = first_mistyped(tables, x, line, start) {
        return Err(Fault::Value(Reason::WrongType, p));
    }
    if let Some(p) = first_broken(line, start) {
        return Err(Fault::Value(Reason::RangeReversed, p));
    }
    date_fault(line, start)
}
