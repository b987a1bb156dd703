// The lines of an answer: those of the rows that are given, and the last.
ghost use Rattle.std.specs.Prelude.{◌<◌, ◌≤◌, get_or, length, set, take, List, [], ◌≡◌};
ghost use Rattle.answer.specs.Answer.{end_line, row_line};
ghost use Rattle.answer.specs.Exactly.{with_gaps};
ghost use Rattle.answering.specs.Lines.{Sizes, cell_shown, line_marked, lines_marked, row_shown, shown_in, spaced_values, values_in};
ghost use Rattle.document.specs.Policy.{Doc};
ghost use Rattle.judging.specs.Marking.{open_in};
ghost use Rattle.relations.specs.Rows.{Rows, label_count_in, label_room, labels_in, value_count_in};
ghost use Rattle.text.specs.Numbers.{Value};
ghost use Rattle.text.specs.Words.{written_at};
ghost use Rattle.writing.specs.Write.{Wrote};

use judging::cells::value_place;
use judging::marking::{Marking, cell_open, under_row};
use relations::rows::row_values;
use text::words::written_end;
use workspace::layout::{COLUMNS, ROW_CELLS, ROWS, VERDICTS};
use writing::bytes::{put_byte, put_bytes, put_decimal, put_number, put_sized};

// The size that is kept for column c; 0 where none is.
fn kept_size(sizes: &[usize], c: usize) -> usize
    ensures { result ≡ get_or sizes.now c 0 }
{
    if c < sizes.len() {
        return sizes[c];
    }
    0
}

// Keeps the size for column c.
fn keep_size(sizes: &mut [usize], c: usize, size: usize)
    ensures { sizes.new ≡ set sizes.old c size }
{
    if c < sizes.len() {
        sizes[c] = size;
        return;
    }
}

// The size that was kept, or else that of the value at a place.
fn written_size(text: &[u8], place: usize, kept: usize) -> usize
    ensures { (0 < kept → kept ≡ length (written_at text.now place)) → result ≡ length (written_at text.now place) }
{
    if 0 < kept {
        return kept;
    }
    written_end(text, place) - place
}

// How long the value of column c is, which stands at a place: a size that was kept, or else that of what stands there, which is kept.
fn value_size(text: &[u8], place: usize, c: usize, sizes: &mut [usize; COLUMNS]) -> usize
    ensures { (vs : List Value) → written_at text.now place ≡ get_or vs c [] → Sizes vs sizes.old → (result ≡ length (get_or vs c [])) × Sizes vs sizes.new }
{
    let size = written_size(text, place, kept_size(sizes, c));
    keep_size(sizes, c, size);
    size
}

// Writes the values of row r in some columns, each after a space. A column that is selected again is not walked again.
fn put_values(
    out: &mut [u8],
    at: usize,
    text: &[u8],
    rows: &[usize; ROW_CELLS],
    r: usize,
    width: usize,
    columns: &[usize],
) -> usize
    requires { (r < 1024) × (width ≤ 16) }
    ensures { Wrote out.old at (spaced_values columns.now (values_in text.now rows.now r width)) out.new result }
{
    let mut sizes = [0usize; COLUMNS];
    let mut to = at;
    for i in 0..columns.len() {
        let c = columns[i];
        let place = value_place(text, rows, r, width, c);
        let size = value_size(text, place, c, &mut sizes);
        let next = put_byte(out, to, b' ');
        to = put_sized(out, next, text, place, size);
    }
    to
}

// Writes the value of column c of row r, or a gap where it is not shown; nothing for a column that the row has not. A value that is
// not shown is not looked at.
fn put_cell(
    out: &mut [u8],
    at: usize,
    text: &[u8],
    rows: &[usize; ROW_CELLS],
    r: usize,
    width: usize,
    c: usize,
    shown: bool,
    sizes: &mut [usize; COLUMNS],
) -> usize
    requires { (r < 1024) × (width ≤ 16) }
    ensures { Sizes (values_in text.now rows.now r width) sizes.old → Wrote out.old at (cell_shown shown (values_in text.now rows.now r width) c) out.new result × Sizes (values_in text.now rows.now r width) sizes.new }
{
    if shown {
        let place = value_place(text, rows, r, width, c);
        let size = value_size(text, place, c, sizes);
        return put_sized(out, at, text, place, size);
    }
    if c < width {
        return put_byte(out, at, b'-');
    }
    at
}

// Writes the values of row r in some columns, each after a space, with a gap for each closed cell (02, Q-10).
fn put_gapped(
    out: &mut [u8],
    at: usize,
    text: &[u8],
    rows: &[usize; ROW_CELLS],
    said: &[bool; VERDICTS],
    m: Marking,
    r: usize,
    width: usize,
    columns: &[usize],
) -> usize
    requires { (r < 1024) × (width ≤ 16) }
    ensures { label_count_in rows.now r ≤ label_room → Wrote out.old at (spaced_values columns.now (with_gaps (open_in said.now m (labels_in rows.now r)) 0 (values_in text.now rows.now r width))) out.new result }
{
    let own = under_row(rows, said, m, r);
    let mut sizes = [0usize; COLUMNS];
    let mut to = at;
    for i in 0..columns.len() {
        let c = columns[i];
        let shown = cell_open(rows, said, own, r, c);
        let next = put_byte(out, to, b' ');
        to = put_cell(out, next, text, rows, r, width, c, shown, &mut sizes);
    }
    to
}

// Writes the values of row r in some columns, each after a space, with gaps or as they are.
fn put_shown(
    out: &mut [u8],
    at: usize,
    text: &[u8],
    rows: &[usize; ROW_CELLS],
    said: &[bool; VERDICTS],
    m: Marking,
    gaps: bool,
    r: usize,
    width: usize,
    columns: &[usize],
) -> usize
    requires { (r < 1024) × (width ≤ 16) }
    ensures { label_count_in rows.now r ≤ label_room → Wrote out.old at (spaced_values columns.now (shown_in said.now m text.now rows.now gaps r width)) out.new result }
{
    if gaps {
        return put_gapped(out, at, text, rows, said, m, r, width, columns);
    }
    put_values(out, at, text, rows, r, width, columns)
}

// Writes the line of row r.
fn put_row(
    out: &mut [u8],
    at: usize,
    text: &[u8],
    rows: &[usize; ROW_CELLS],
    said: &[bool; VERDICTS],
    m: Marking,
    gaps: bool,
    r: usize,
    width: usize,
    columns: &[usize],
) -> usize
    requires { (r < 1024) × (width ≤ 16) }
    ensures { label_count_in rows.now r ≤ label_room → Wrote out.old at (row_line columns.now (shown_in said.now m text.now rows.now gaps r width)) out.new result }
{
    let a = put_bytes(out, at, b"(row");
    let b = put_shown(out, a, text, rows, said, m, gaps, r, width, columns);
    put_bytes(out, b, b")\n")
}

// Writes the line of row r where it is marked.
fn put_line(
    out: &mut [u8],
    at: usize,
    text: &[u8],
    rows: &[usize; ROW_CELLS],
    said: &[bool; VERDICTS],
    m: Marking,
    gaps: bool,
    r: usize,
    marked: bool,
    columns: &[usize],
) -> usize
    requires { r < 1024 }
    ensures { value_count_in rows.now r ≤ 16 → label_count_in rows.now r ≤ label_room → Wrote out.old at (line_marked (row_shown said.now m text.now rows.now gaps) columns.now r marked) out.new result }
{
    if marked {
        let width = row_values(rows, r);
        return put_row(out, at, text, rows, said, m, gaps, r, width, columns);
    }
    at
}

// Writes the lines of the marked rows.
fn put_marked(
    out: &mut [u8],
    text: &[u8],
    rows: &[usize; ROW_CELLS],
    said: &[bool; VERDICTS],
    m: Marking,
    gaps: bool,
    count: usize,
    marks: &[bool],
    columns: &[usize],
) -> usize
    requires { (count ≤ 1024) × (length marks.now ≡ 1024) }
    ensures { (d : Doc) → Rows text.now rows.now count d.rows → Wrote out.old 0 (lines_marked (row_shown said.now m text.now rows.now gaps) columns.now marks.now count) out.new result }
{
    let mut to = 0;
    for r in 0..count {
        to = put_line(out, to, text, rows, said, m, gaps, r, marks[r], columns);
    }
    to
}

// Writes the lines of the marked rows, of which there are count, with their values in the first `chosen` columns.
pub(crate) fn put_lines(
    out: &mut [u8],
    text: &[u8],
    rows: &[usize; ROW_CELLS],
    said: &[bool; VERDICTS],
    m: Marking,
    gaps: bool,
    count: usize,
    marks: &[bool; ROWS],
    columns: &[usize; 80],
    chosen: usize,
) -> usize
    requires { (chosen ≤ 16) × (count ≤ 1024) }
    ensures { (d : Doc) → Rows text.now rows.now count d.rows → Wrote out.old 0 (lines_marked (row_shown said.now m text.now rows.now gaps) (take chosen columns.now) marks.now count) out.new result }
{
    let marked: &[bool] = marks;
    let numbers: &[usize] = columns;
    put_marked(
        out,
        text,
        rows,
        said,
        m,
        gaps,
        count,
        marked,
        &numbers[..chosen],
    )
}

// Writes the last line of an answer.
pub fn put_end(out: &mut [u8], at: usize, passed: usize, withheld: usize, unmatched: usize) -> usize
    ensures { Wrote out.old at (end_line passed withheld unmatched) out.new result }
{
    let a = put_bytes(out, at, b"(end ");
    let b = put_decimal(out, a, passed);
    let c = put_number(out, b, withheld);
    let d = put_number(out, c, unmatched);
    put_bytes(out, d, b")\n")
}
