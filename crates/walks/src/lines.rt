// A row line, from its opening bracket to its end.
ghost use Rattle.std.specs.Prelude.{false, true, ◌≡◌};
ghost use Rattle.walks.specs.Taken.{closes_at, table_end};
ghost use Rattle.walks.specs.Promises.{TakePlainPromise, TakeRowPromise, TakeShapedPromise};

use crate::cells::{take_cells, take_label, take_values};
use relations::rows::add_row;
use relations::tables::{find_table_to, has_brackets, leads_label, table_scheme, table_width};
use text::bytes::byte_at;
use text::words::{is_word, name_end};
use workspace::layout::{LABELS, ROW_CELLS, ROWS, TABLE_CELLS};

// Where the name of the table ends in a line that begins with `(row T`.
fn table_end(line: &[u8]) -> Option<usize>
    ensures { result ≡ table_end line.now }
{
    if byte_at(line, 0) != b'(' {
        return None;
    }
    if !is_word(line, 1, b"row") {
        return None;
    }
    if byte_at(line, 4) != b' ' {
        return None;
    }
    name_end(line, 5)
}

// Whether the line's last byte stands at a position and is a closing bracket.
pub fn closes(line: &[u8], at: usize) -> bool
    ensures { result ≡ closes_at line.now at }
{
    if byte_at(line, at) != b')' {
        return false;
    }
    at + 1 == line.len()
}

// Takes a row of table x, whose scheme puts no labels into rows, with the values from a place of the line on.
fn take_plain(
    text: &[u8],
    at: usize,
    line: &[u8],
    tables: &[usize; TABLE_CELLS],
    x: usize,
    rows: &mut [usize; ROW_CELLS],
    k: usize,
    is: usize,
) -> bool
    ensures { TakePlainPromise text.now at line.now tables.now x rows.old rows.new k is result }
{
    let n = table_width(tables, x);
    let Some(e) = take_values(text, at, line, tables, x, n, rows, k, is) else {
        return false;
    };
    if !closes(line, e) {
        return false;
    }
    add_row(rows, k, x, n, 0);
    true
}

// Takes a row of table x with its label and then its values from a place of the line on.
fn take_led(
    text: &[u8],
    at: usize,
    line: &[u8],
    labels: &[usize; LABELS],
    labels_count: usize,
    tables: &[usize; TABLE_CELLS],
    x: usize,
    rows: &mut [usize; ROW_CELLS],
    k: usize,
    is: usize,
) -> bool
    ensures { TakeShapedPromise true false text.now at line.now labels.now labels_count tables.now x rows.old rows.new k is result }
{
    let Some(j) = take_label(text, line, labels, labels_count, rows, k, 0, is) else {
        return false;
    };
    let n = table_width(tables, x);
    let Some(e) = take_values(text, at, line, tables, x, n, rows, k, j) else {
        return false;
    };
    if !closes(line, e) {
        return false;
    }
    add_row(rows, k, x, n, 1);
    true
}

// Takes a row of table x with a label at each of its values, from a place of the line on.
fn take_labelled(
    text: &[u8],
    at: usize,
    line: &[u8],
    labels: &[usize; LABELS],
    labels_count: usize,
    tables: &[usize; TABLE_CELLS],
    x: usize,
    rows: &mut [usize; ROW_CELLS],
    k: usize,
    is: usize,
) -> bool
    ensures { TakeShapedPromise false true text.now at line.now labels.now labels_count tables.now x rows.old rows.new k is result }
{
    let n = table_width(tables, x);
    let Some(e) = take_cells(
        text,
        at,
        line,
        labels,
        labels_count,
        tables,
        x,
        n,
        rows,
        k,
        is,
        0,
    ) else {
        return false;
    };
    if !closes(line, e) {
        return false;
    }
    add_row(rows, k, x, n, n);
    true
}

// Takes a row of table x with its label and then its values with a label at each, from a place of the line on.
fn take_nested(
    text: &[u8],
    at: usize,
    line: &[u8],
    labels: &[usize; LABELS],
    labels_count: usize,
    tables: &[usize; TABLE_CELLS],
    x: usize,
    rows: &mut [usize; ROW_CELLS],
    k: usize,
    is: usize,
) -> bool
    ensures { TakeShapedPromise true true text.now at line.now labels.now labels_count tables.now x rows.old rows.new k is result }
{
    let Some(j) = take_label(text, line, labels, labels_count, rows, k, 0, is) else {
        return false;
    };
    let n = table_width(tables, x);
    let Some(e) = take_cells(
        text,
        at,
        line,
        labels,
        labels_count,
        tables,
        x,
        n,
        rows,
        k,
        j,
        1,
    ) else {
        return false;
    };
    if !closes(line, e) {
        return false;
    }
    add_row(rows, k, x, n, n + 1);
    true
}

// Takes the line behind k rows, if it is a row that the check accepts and there is room. A line that it does not take may be one
// all the same: the checker says.
pub fn take_row(
    text: &[u8],
    at: usize,
    line: &[u8],
    labels: &[usize; LABELS],
    labels_count: usize,
    tables: &[usize; TABLE_CELLS],
    tables_count: usize,
    rows: &mut [usize; ROW_CELLS],
    k: usize,
) -> bool
    ensures { TakeRowPromise text.now at line.now labels.now labels_count tables.now tables_count rows.old rows.new k result }
{
    if ROWS <= k {
        return false;
    }
    let Some(is) = table_end(line) else {
        return false;
    };
    let Some(x) = find_table_to(text, tables, tables_count, line, 5, is) else {
        return false;
    };
    let scheme = table_scheme(tables, x);
    let bracketed = has_brackets(scheme);
    if leads_label(scheme) {
        if bracketed {
            return take_nested(text, at, line, labels, labels_count, tables, x, rows, k, is);
        }
        return take_led(text, at, line, labels, labels_count, tables, x, rows, k, is);
    }
    if bracketed {
        return take_labelled(text, at, line, labels, labels_count, tables, x, rows, k, is);
    }
    take_plain(text, at, line, tables, x, rows, k, is)
}
