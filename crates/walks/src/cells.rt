// The values and labels of a row line: judged while they are read, and stored while they are judged.
ghost use Rattle.std.specs.Prelude.{◌≤◌, ℕ, List, ◌≡◌};
ghost use Rattle.condition.specs.Answers.{kind_of};
ghost use Rattle.condition.specs.Kinds.{dates, numbers};
ghost use Rattle.document.specs.Policy.{Policy};
ghost use Rattle.relations.specs.Labels.{Labels};
ghost use Rattle.text.specs.Amounts.{range};
ghost use Rattle.text.specs.CodeEnds.{end_of_range};
ghost use Rattle.text.specs.Reader.{from};
ghost use Rattle.walks.specs.Walked.{KeepsRows, LabelWalked, ordered_end, typed_end};
ghost use Rattle.walks.specs.Promises.{TakeCellsPromise, TakeValuesPromise};

use calendar::reading::read_date;
use condition::kinds::Kind;
use relations::labels::find_label_to;
use relations::rows::{set_label, set_value};
use relations::tables::column_kind;
use stepping::places::place;
use text::amounts::read_range;
use text::bytes::byte_at;
use text::numbers::read_number;
use text::words::name_end;
use workspace::layout::{LABELS, ROW_CELLS, TABLE_CELLS};

// The end of the range at a position, if it has LOW at most HIGH.
fn ordered_end(line: &[u8], at: usize) -> Option<usize>
    ensures { result ≡ ordered_end (end_of_range (range (from line.now at))) }
{
    let (e, low, high) = read_range(line, at)?;
    if low <= high { Some(e) } else { None }
}

// The end of the number at a position, or of the range, if it is in order.
fn number_end(line: &[u8], at: usize) -> Option<usize>
    ensures { result ≡ typed_end line.now at numbers }
{
    if byte_at(line, at) == b'(' {
        return ordered_end(line, at);
    }
    let (e, _) = read_number(line, at)?;
    Some(e)
}

// The end of the date at a position, if it exists.
fn existing_end(line: &[u8], at: usize) -> Option<usize>
    ensures { result ≡ typed_end line.now at dates }
{
    let (e, rank) = read_date(line, at)?;
    rank?;
    Some(e)
}

// The end of the value of the type that stands at a position, if it is in order and exists.
fn typed_end(line: &[u8], at: usize, kind: Kind) -> Option<usize>
    ensures { result ≡ typed_end line.now at (kind_of kind) }
{
    match kind {
        Kind::Name => name_end(line, at),
        Kind::Num => number_end(line, at),
        Kind::Date => existing_end(line, at),
    }
}

// Stores the n values from a place of the line on as those of row k, where they are of the types of the columns of table x, and gives their end.
pub(crate) fn take_values(
    text: &[u8],
    at: usize,
    line: &[u8],
    tables: &[usize; TABLE_CELLS],
    x: usize,
    n: usize,
    rows: &mut [usize; ROW_CELLS],
    k: usize,
    is: usize,
) -> Option<usize>
    ensures { TakeValuesPromise text.now at line.now tables.now x n rows.old rows.new k is result }
{
    let mut j = is;
    for m in 0..n {
        if byte_at(line, j) != b' ' {
            return None;
        }
        let v = j + 1;
        let kind = column_kind(tables, x, m);
        let e = typed_end(line, v, kind)?;
        let pos = place(text, at, v);
        set_value(rows, k, m, pos);
        j = e;
    }
    Some(j)
}

// The end of the name of a known label that stands behind a space, which is stored as label m of row k.
pub(crate) fn take_label(
    text: &[u8],
    line: &[u8],
    labels: &[usize; LABELS],
    labels_count: usize,
    rows: &mut [usize; ROW_CELLS],
    k: usize,
    m: usize,
    at: usize,
) -> Option<usize>
    ensures { KeepsRows text.now rows.old rows.new k × ((d : Policy) (sets : List ℕ) → Labels text.now labels.now sets labels_count d.labels → LabelWalked rows.old rows.new line.now d k m at result) }
{
    if byte_at(line, at) != b' ' {
        return None;
    }
    let e = name_end(line, at + 1)?;
    let y = find_label_to(text, labels, labels_count, line, at + 1, e)?;
    set_label(rows, k, m, y);
    Some(e)
}

// Stores the n cells `(v L)` from a place of the line on as the values of row k and its labels behind m of them, likewise, and gives their
// end.
pub(crate) fn take_cells(
    text: &[u8],
    at: usize,
    line: &[u8],
    labels: &[usize; LABELS],
    labels_count: usize,
    tables: &[usize; TABLE_CELLS],
    x: usize,
    n: usize,
    rows: &mut [usize; ROW_CELLS],
    k: usize,
    is: usize,
    m: usize,
) -> Option<usize>
    requires { m ≤ 1 }
    ensures { TakeCellsPromise text.now at line.now labels.now labels_count tables.now x n rows.old rows.new k is m result }
{
    let mut j = is;
    for c in 0..n {
        if byte_at(line, j) != b' ' {
            return None;
        }
        if byte_at(line, j + 1) != b'(' {
            return None;
        }
        let v = j + 2;
        let kind = column_kind(tables, x, c);
        let e = typed_end(line, v, kind)?;
        let pos = place(text, at, v);
        set_value(rows, k, c, pos);
        let f = take_label(text, line, labels, labels_count, rows, k, m + c, e)?;
        if byte_at(line, f) != b')' {
            return None;
        }
        j = f + 1;
    }
    Some(j)
}
