// The lines of a table's rows with all their columns: how many there are, and how long they are.
ghost use Rattle.std.specs.Prelude.{◌*◌, ◌<◌, ◌≤◌, length, List, ◌≡◌};
ghost use Rattle.answer.specs.Reserve.{whole_line};
ghost use Rattle.answer.specs.Seen.{rows_in};
ghost use Rattle.document.specs.Policy.{Row};
ghost use Rattle.form.specs.RowText.{spaced};
ghost use Rattle.relations.specs.Rows.{Rows, row_in, value_count_in, value_in};
ghost use Rattle.reserve.specs.Sums.{Adds, Sums};
ghost use Rattle.workspace.specs.Tabulated.{tabulated};

use relations::rows::{row_table, row_value, row_values};
use text::words::written_end;
use workspace::layout::ROW_CELLS;

// How many rows, and how long their lines are.
#[derive(Clone, Copy)]
pub(crate) struct Sum {
    pub count: usize,
    pub bytes: usize,
}

// How long value c of row r is.
fn value_length(text: &[u8], rows: &[usize; ROW_CELLS], r: usize, c: usize) -> usize
    ensures { (r < 1024 → c < 16 → result ≡ length (value_in text.now rows.now r c)) × (result ≤ length text.now) }
{
    let place = row_value(rows, r, c);
    written_end(text, place) - place
}

// How long the first values of row r are, each with a space.
fn values_length(text: &[u8], rows: &[usize; ROW_CELLS], r: usize, width: usize) -> usize
    requires { (length text.now ≤ 60000) × (r < 1024) × (width ≤ 16) }
    ensures { (result ≡ length (spaced (tabulated (value_in text.now rows.now r) width))) × (result ≤ 960016) }
{
    let mut sum = 0;
    for c in 0..width {
        sum += 1 + value_length(text, rows, r, c);
    }
    sum
}

// How long the line of row r is, with all its columns.
fn line_length(text: &[u8], rows: &[usize; ROW_CELLS], r: usize) -> usize
    requires { (length text.now ≤ 60000) × (r < 1024) }
    ensures { (value_count_in rows.now r ≤ 16 → result ≡ length (whole_line (row_in text.now rows.now r).values)) × (result ≤ 960022) }
{
    let width = row_values(rows, r);
    6 + values_length(text, rows, r, width)
}

// The sum with row r, where that lies in table t.
fn with_row(s: Sum, text: &[u8], rows: &[usize; ROW_CELLS], r: usize, t: usize) -> Sum
    requires { (length text.now ≤ 60000) × (r < 1024) × (s.count ≤ r) × (s.bytes ≤ r * 960022) }
    ensures { Adds text.now rows.now r t s result }
{
    if row_table(rows, r) == t {
        let more = line_length(text, rows, r);
        return Sum {
            count: s.count + 1,
            bytes: s.bytes + more,
        };
    }
    s
}

// The sum of the rows of table t, among the first count.
pub(crate) fn table_sum(text: &[u8], rows: &[usize; ROW_CELLS], count: usize, t: usize) -> Sum
    requires { (length text.now ≤ 60000) × (count ≤ 1024) }
    ensures { ((rs : List Row) → Rows text.now rows.now count rs → Sums (rows_in t rs) result) × (result.count ≤ 1024) × (result.bytes ≤ 1024 * 960022) }
{
    let mut s = Sum { count: 0, bytes: 0 };
    for r in 0..count {
        let more = with_row(s, text, rows, r, t);
        s = more;
    }
    s
}
