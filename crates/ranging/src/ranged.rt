// Ranges in the columns that a query names (27): every row of the table counts, be it withheld or not.
ghost use Rattle.std.specs.Prelude.{◌<◌, ◌≤◌, eqb, ◌&&◌, List, ◌≡◌};
ghost use Rattle.answer.specs.Ranged.{ranged_at};
ghost use Rattle.answer.specs.Seen.{rows_in};
ghost use Rattle.document.specs.Policy.{Row};
ghost use Rattle.lists.specs.Lists.{any_of};
ghost use Rattle.relations.specs.Rows.{Rows, row_in, value_count_in};
ghost use Rattle.ranging.specs.Promises.{FirstRangedPromise, RangedColumnPromise};

use condition::ranges::is_range;
use judging::cells::value_place;
use relations::rows::{row_table, row_values};
use resolving::columns::NAMED;
use workspace::layout::ROW_CELLS;

// Whether row r lies in table t and has a range in column c.
fn row_ranged(text: &[u8], rows: &[usize; ROW_CELLS], r: usize, t: usize, c: usize) -> bool
    ensures { r < 1024 → value_count_in rows.now r ≤ 16 → result ≡ (eqb (row_in text.now rows.now r).table t && ranged_at c (row_in text.now rows.now r)) }
{
    if row_table(rows, r) != t {
        return false;
    }
    let width = row_values(rows, r);
    is_range(text, value_place(text, rows, r, width, c))
}

// Whether column c of table t has a range in one of the rows, of which there are count.
pub(crate) fn column_ranged(
    text: &[u8],
    rows: &[usize; ROW_CELLS],
    count: usize,
    t: usize,
    c: usize,
) -> bool
    ensures { (rs : List Row) → Rows text.now rows.now count rs → result ≡ any_of (ranged_at c) (rows_in t rs) }
{
    for r in 0..count {
        if row_ranged(text, rows, r, t, c) {
            return true;
        }
    }
    false
}

// The first of the n named columns that has a range.
fn first_ranged(
    text: &[u8],
    rows: &[usize; ROW_CELLS],
    count: usize,
    t: usize,
    places: &[usize],
    n: usize,
    columns: &[usize],
) -> Option<usize>
    ensures { FirstRangedPromise text.now rows.now count t places.now n columns.now result }
{
    for i in 0..n {
        if i >= places.len() {
            return None;
        }
        if i >= columns.len() {
            return None;
        }
        if column_ranged(text, rows, count, t, columns[i]) {
            return Some(places[i]);
        }
    }
    None
}

// The same where the query takes no ranges; one that takes them is not refused for them.
pub fn ranged_column(
    taken: bool,
    text: &[u8],
    rows: &[usize; ROW_CELLS],
    count: usize,
    t: usize,
    places: &[usize; NAMED],
    n: usize,
    columns: &[usize; NAMED],
) -> Option<usize>
    ensures { RangedColumnPromise taken text.now rows.now count t places.now n columns.now result }
{
    if taken {
        return None;
    }
    first_ranged(text, rows, count, t, places, n, columns)
}
