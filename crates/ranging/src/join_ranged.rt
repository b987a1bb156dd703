// Ranges in the columns that a join names (27): every row of either table counts, be it withheld or not.
ghost use Rattle.std.specs.Prelude.{◌≤◌, ℕ, List, ◌≡◌};
ghost use Rattle.answer.specs.Ranged.{has_range};
ghost use Rattle.document.specs.Policy.{Doc};
ghost use Rattle.query.specs.JoinForm.{JoinForm};
ghost use Rattle.ranging.specs.Promises.{FirstRangedRefPromise, RangedJoinPromise};
ghost use Rattle.relations.specs.Rows.{Rows};
ghost use Rattle.resolving.specs.Joins.{KnowsTables, through};

use crate::ranged::column_ranged;
use relations::tables::table_width;
use resolving::joins::{JOINED, TwoTables};
use workspace::layout::{ROW_CELLS, TABLE_CELLS};

// Whether a column of a join, by its number through both tables, has a range in one of the rows, of which there are count.
fn is_ref_ranged(
    text: &[u8],
    tables: &[usize; TABLE_CELLS],
    rows: &[usize; ROW_CELLS],
    count: usize,
    p: TwoTables,
    c: usize,
) -> bool
    ensures { (d : Doc) (s : List ℕ) (k : ℕ) (j : JoinForm) → KnowsTables text.now tables.now k s p d.policy j → Rows text.now rows.now count d.rows → result ≡ through d.policy p (has_range d) c }
{
    let width = table_width(tables, p.first);
    if c < width {
        return column_ranged(text, rows, count, p.first, c);
    }
    column_ranged(text, rows, count, p.second, c - width)
}

// The first of the n columns of a join that has a range.
fn first_ranged_ref(
    text: &[u8],
    tables: &[usize; TABLE_CELLS],
    rows: &[usize; ROW_CELLS],
    count: usize,
    p: TwoTables,
    words: &[usize; JOINED],
    n: usize,
    columns: &[usize; JOINED],
) -> Option<usize>
    requires { n ≤ 82 }
    ensures { FirstRangedRefPromise text.now tables.now rows.now count p words.now n columns.now result }
{
    for i in 0..n {
        if is_ref_ranged(text, tables, rows, count, p, columns[i]) {
            return Some(words[i]);
        }
    }
    None
}

// The first of the n columns of a join that has a range: a join takes none.
pub fn ranged_join(
    text: &[u8],
    tables: &[usize; TABLE_CELLS],
    rows: &[usize; ROW_CELLS],
    count: usize,
    p: TwoTables,
    words: &[usize; JOINED],
    n: usize,
    columns: &[usize; JOINED],
) -> Option<usize>
    ensures { RangedJoinPromise text.now tables.now rows.now count p words.now n columns.now result }
{
    if JOINED < n {
        return None;
    }
    first_ranged_ref(text, tables, rows, count, p, words, n, columns)
}
