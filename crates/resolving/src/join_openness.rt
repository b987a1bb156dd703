// What of a join's tables and columns is closed to a purpose (17).
ghost use Rattle.std.specs.Prelude.{◌<◌, ◌≤◌, ℕ, List, ◌≡◌};
ghost use Rattle.document.specs.Lookup.{labelling_at};
ghost use Rattle.document.specs.Open.{column_open, open_to};
ghost use Rattle.document.specs.Policy.{Policy};
ghost use Rattle.query.specs.JoinForm.{JoinForm};
ghost use Rattle.relations.specs.Labels.{Said};
ghost use Rattle.relations.specs.Tables.{Tables};
ghost use Rattle.resolving.specs.Joins.{KnowsTables, open_column, through};
ghost use Rattle.resolving.specs.Promises.{ClosedJoinPromise, FirstClosedRefPromise};

use crate::joins::{JOINED, TwoTables};
use crate::openness::{column_open, table_open};
use form::lines::Scheme;
use relations::tables::{table_scheme, table_width};
use workspace::layout::{TABLE_CELLS, VERDICTS};

// Whether column c of table t is open: only labels by column close one.
fn is_column_open(
    tables: &[usize; TABLE_CELLS],
    t: usize,
    said: &[bool; VERDICTS],
    c: usize,
) -> bool
    ensures { (d : Policy) (text : List ℕ) (k p : ℕ) → Tables text tables.now k d.tables → t < k → Said d p said.now → result ≡ column_open (open_to d p) (labelling_at d t) c }
{
    let scheme = table_scheme(tables, t);
    match scheme {
        Scheme::Unlabelled => true,
        Scheme::ByTable => true,
        Scheme::ByColumn => column_open(tables, t, said, c),
        Scheme::ByRow => true,
        Scheme::ByCell => true,
        Scheme::Nested => true,
    }
}

// Whether a column of a join, by its number through both tables, is open.
fn is_ref_open(
    tables: &[usize; TABLE_CELLS],
    p: TwoTables,
    said: &[bool; VERDICTS],
    c: usize,
) -> bool
    ensures { (d : Policy) (text s : List ℕ) (k q : ℕ) (j : JoinForm) → KnowsTables text tables.now k s p d j → Said d q said.now → result ≡ through d p (open_column d q) c }
{
    let width = table_width(tables, p.first);
    if c < width {
        return is_column_open(tables, p.first, said, c);
    }
    is_column_open(tables, p.second, said, c - width)
}

// The first of the n columns of a join that is closed.
fn first_closed_ref(
    tables: &[usize; TABLE_CELLS],
    p: TwoTables,
    said: &[bool; VERDICTS],
    words: &[usize; JOINED],
    n: usize,
    columns: &[usize; JOINED],
) -> Option<usize>
    requires { n ≤ 82 }
    ensures { FirstClosedRefPromise tables.now p said.now words.now n columns.now result }
{
    for i in 0..n {
        if !is_ref_open(tables, p, said, columns[i]) {
            return Some(words[i]);
        }
    }
    None
}

// The first of a join's tables and of its n columns that is closed.
pub fn closed_join(
    tables: &[usize; TABLE_CELLS],
    p: TwoTables,
    said: &[bool; VERDICTS],
    words: &[usize; JOINED],
    n: usize,
    columns: &[usize; JOINED],
) -> Option<usize>
    ensures { ClosedJoinPromise tables.now p said.now words.now n columns.now result }
{
    if !table_open(tables, p.first, said) {
        return Some(p.named);
    }
    if !table_open(tables, p.second, said) {
        return Some(p.joined);
    }
    if JOINED < n {
        return None;
    }
    first_closed_ref(tables, p, said, words, n, columns)
}
