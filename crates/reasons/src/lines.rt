// Lines of the explaining tool over a document that the arrays hold: 11, 23, 24 and 26 in this order, and then the reason.
ghost use Rattle.std.specs.Prelude.{◌≡◌};
ghost use Rattle.document.specs.Policy.{Doc};
ghost use Rattle.query.specs.WhyPlaces.{why_at};
ghost use Rattle.answer.specs.Why.{explain};
ghost use Rattle.reasons.specs.Explaining.{Known, explain_line, explained_as};
ghost use Rattle.reasons.specs.Promises.{ExplainRowPromise, RowSoughtPromise};

use crate::cells::{cell_cause, nth_row};
use crate::explained::{Cause, refused_at};
use authority::purposes::purpose_closure;
use index::counts::Counts;
use principals::names::find_purpose;
use query::why::{Why, read_why};
use relations::tables::{find_column, find_table, is_nested, table_scheme};
use text::numbers::magnitude_at;
use text::refusals::{Reason, Refusal, Source};
use workspace::layout::{LABELS, PURPOSE_CELLS, ROW_CELLS, SET_WORDS, TABLE_CELLS};

// The row that the line's number counts in table t, among so many rows.
fn row_sought(
    rows: &[usize; ROW_CELLS],
    count: usize,
    t: usize,
    line: &[u8],
    row: usize,
) -> Option<usize>
    ensures { RowSoughtPromise rows.now count t line.now row result }
{
    let n = magnitude_at(line, row)?;
    nth_row(rows, count, t, n as usize)
}

// The reason for a line whose purpose p, table t and column col are known: 24 and 26, and then the cell's.
fn explain_row(
    text: &[u8],
    purposes: &[usize; PURPOSE_CELLS],
    labels: &[usize; LABELS],
    sets: &[u64; SET_WORDS],
    tables: &[usize; TABLE_CELLS],
    rows: &[usize; ROW_CELLS],
    c: Counts,
    line: &[u8],
    w: Why,
    p: usize,
    t: usize,
    col: usize,
) -> Result<Cause, Refusal>
    ensures { ExplainRowPromise text.now purposes.now labels.now sets.now tables.now rows.now c line.now w p t col result }
{
    let row = row_sought(rows, c.rows, t, line, w.row);
    let Some(r) = row else {
        return refused_at(line, Reason::NoSuchRow, w.row);
    };
    if is_nested(table_scheme(tables, t)) {
        return refused_at(line, Reason::NestExplained, w.table);
    }
    let closure = purpose_closure(purposes, c.purposes, p);
    Ok(cell_cause(
        text, purposes, labels, sets, tables, rows, c, closure, t, r, col,
    ))
}

// The reason for the line whose words stand at these places: 23 at the leftmost that is unknown, and then the row's.
fn explain_words(
    text: &[u8],
    purposes: &[usize; PURPOSE_CELLS],
    labels: &[usize; LABELS],
    sets: &[u64; SET_WORDS],
    tables: &[usize; TABLE_CELLS],
    rows: &[usize; ROW_CELLS],
    c: Counts,
    line: &[u8],
    w: Why,
) -> Result<Cause, Refusal>
    ensures { (d : Doc) → Known text.now purposes.now labels.now sets.now tables.now rows.now c d → explained_as text.now result ≡ explain d (why_at line.now w) }
{
    let purpose = find_purpose(text, purposes, c.purposes, line, w.purpose);
    let Some(p) = purpose else {
        return refused_at(line, Reason::UnknownWhy, w.purpose);
    };
    let table = find_table(text, tables, c.tables, line, w.table);
    let Some(t) = table else {
        return refused_at(line, Reason::UnknownWhy, w.table);
    };
    let column = find_column(text, tables, t, line, w.column);
    let Some(col) = column else {
        return refused_at(line, Reason::UnknownWhy, w.column);
    };
    explain_row(
        text, purposes, labels, sets, tables, rows, c, line, w, p, t, col,
    )
}

// The reason for a line over the document that the arrays hold, or its refusal.
pub fn explain_line(
    text: &[u8],
    purposes: &[usize; PURPOSE_CELLS],
    labels: &[usize; LABELS],
    sets: &[u64; SET_WORDS],
    tables: &[usize; TABLE_CELLS],
    rows: &[usize; ROW_CELLS],
    c: Counts,
    line: &[u8],
) -> Result<Cause, Refusal>
    ensures { (d : Doc) → Known text.now purposes.now labels.now sets.now tables.now rows.now c d → explained_as text.now result ≡ explain_line d line.now }
{
    let a = read_why(line);
    let Some(w) = a else {
        return Err(Refusal {
            reason: Reason::NotAQuery,
            source: Source::Query,
            start: 0,
            len: line.len(),
        });
    };
    explain_words(text, purposes, labels, sets, tables, rows, c, line, w)
}
