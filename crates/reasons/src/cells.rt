// Why a cell of a row is open or closed: by the label meant, which is the table's, the column's, the row's or the cell's, by scheme.
ghost use Rattle.std.specs.Prelude.{◌<◌, ℕ, eqb, get_or, List, ◌≡◌};
ghost use Rattle.std.proofs.Math.ListN.{get_elem?};
ghost use Rattle.std.proofs.Math.Option.{bind, some};
ghost use Rattle.answer.specs.Seen.{rows_in};
ghost use Rattle.document.specs.Policy.{Row};
ghost use Rattle.relations.specs.Rows.{Rows};
ghost use Rattle.workspace.specs.Found.{FoundBelow, found_as};
ghost use Rattle.reasons.specs.Explaining.{left_behind};
ghost use Rattle.reasons.specs.Promises.{CellCausePromise, MeantLabelPromise, UnlabelledPromise};

use crate::explained::Cause;
use crate::labels::label_cause;
use form::lines::Scheme;
use index::counts::Counts;
use purpose::Closure;
use relations::notes::is_public;
use relations::rows::{row_label, row_labels, row_table};
use relations::tables::{column_label, table_label, table_scheme, table_width};
use workspace::layout::{LABELS, PURPOSE_CELLS, ROW_CELLS, SET_WORDS, TABLE_CELLS};

// How many rows of table t are left to pass behind row r, of `left` before it; nothing where it is the one that is sought.
fn pass_row(rows: &[usize; ROW_CELLS], r: usize, t: usize, left: usize) -> Option<usize>
    ensures { r < 1024 → found_as result ≡ left_behind (eqb (get_or rows.now r 0) t) left }
{
    if row_table(rows, r) != t {
        return Some(left);
    }
    if left == 0 {
        return None;
    }
    Some(left - 1)
}

// The row of table t, among so many rows, before which n of its rows stand.
pub(crate) fn nth_row(rows: &[usize; ROW_CELLS], count: usize, t: usize, n: usize) -> Option<usize>
    ensures { ((text : List ℕ) (rs : List Row) → Rows text rows.now count rs → bind (found_as result) (get_elem? rs) ≡ get_elem? (rows_in t rs) n) × FoundBelow result count }
{
    let mut left = n;
    for r in 0..count {
        let x = pass_row(rows, r, t, left);
        let Some(m) = x else {
            return Some(r);
        };
        left = m;
    }
    None
}

// Label m of row r, if the row has one.
fn row_mark(rows: &[usize; ROW_CELLS], r: usize, m: usize) -> Option<usize>
    ensures { (text : List ℕ) (k : ℕ) (rs : List Row) (x : Row) → Rows text rows.now k rs → get_elem? rs r ≡ some x → found_as result ≡ get_elem? x.labels m }
{
    if m < row_labels(rows, r) {
        return Some(row_label(rows, r, m));
    }
    None
}

// The label meant for cell c of row r of table t: the table's, the column's, the row's or the cell's, by scheme; none elsewhere.
fn meant_label(
    tables: &[usize; TABLE_CELLS],
    rows: &[usize; ROW_CELLS],
    t: usize,
    r: usize,
    c: usize,
) -> Option<usize>
    ensures { MeantLabelPromise tables.now rows.now t r c result }
{
    let scheme = table_scheme(tables, t);
    match scheme {
        Scheme::Unlabelled => None,
        Scheme::ByTable => Some(table_label(tables, t)),
        Scheme::ByColumn => {
            if c < table_width(tables, t) {
                return Some(column_label(tables, t, c));
            }
            None
        }
        Scheme::ByRow => row_mark(rows, r, 0),
        Scheme::ByCell => row_mark(rows, r, c),
        Scheme::Nested => None,
    }
}

// Whether table t has no labels.
fn is_unlabelled(tables: &[usize; TABLE_CELLS], t: usize) -> bool
    ensures { UnlabelledPromise tables.now t result }
{
    let scheme = table_scheme(tables, t);
    match scheme {
        Scheme::Unlabelled => true,
        Scheme::ByTable => false,
        Scheme::ByColumn => false,
        Scheme::ByRow => false,
        Scheme::ByCell => false,
        Scheme::Nested => false,
    }
}

// Why cell `col` of row r of table t is open or closed to the purpose whose closure is given.
pub(crate) fn cell_cause(
    text: &[u8],
    purposes: &[usize; PURPOSE_CELLS],
    labels: &[usize; LABELS],
    sets: &[u64; SET_WORDS],
    tables: &[usize; TABLE_CELLS],
    rows: &[usize; ROW_CELLS],
    c: Counts,
    closure: Closure,
    t: usize,
    r: usize,
    col: usize,
) -> Cause
    ensures { CellCausePromise text.now purposes.now labels.now sets.now tables.now rows.now c closure t r col result }
{
    if is_unlabelled(tables, t) {
        if is_public(tables, t) {
            return Cause::Opened;
        }
        return Cause::Unlabelled;
    }
    let meant = meant_label(tables, rows, t, r, col);
    match meant {
        Some(l) => label_cause(text, purposes, labels, sets, c, closure, l),
        None => Cause::NoneAllowed,
    }
}
