// Whether the cells of a row are open: by their own labels, or, in a nest table, by the labels that come down to them (02, Q-11).
ghost use Rattle.std.specs.Prelude.{◌<◌, ◌≤◌, suc, ◌≡◌};
ghost use Rattle.std.proofs.Math.ListN.{get_elem?};
ghost use Rattle.judging.specs.Marking.{MarkingOf, open_under, opened_for, under_row};
ghost use Rattle.relations.specs.Labels.{verdict_for};
ghost use Rattle.relations.specs.Rows.{label_count_in, label_room, labels_in};

use purpose::{Verdict, merged_over, nest_open};
use relations::labels::{said_at, said_of};
use relations::notes::{strong_label, weak_label};
use relations::rows::{row_label, row_labels};
use relations::tables::{is_nested, table_scheme};
use workspace::layout::{COLUMNS, ROW_CELLS, TABLE_CELLS, VERDICTS};

// Whether a table is nested, and what its strong and its weak labels say of the purpose; of a row, what its weak labels say, merged.
#[derive(Clone, Copy)]
pub struct Marking {
    pub nested: bool,
    pub strong: Verdict,
    pub weak: Verdict,
}

// The marking of table t.
pub fn marking_of(tables: &[usize; TABLE_CELLS], t: usize, said: &[bool; VERDICTS]) -> Marking
    ensures { MarkingOf tables.now t said.now result }
{
    let nested = is_nested(table_scheme(tables, t));
    let strong = said_of(said, strong_label(tables, t));
    let weak = said_of(said, weak_label(tables, t));
    Marking {
        nested,
        strong,
        weak,
    }
}

// What label i of row r says; a label that the row has not says nothing.
fn label_said(rows: &[usize; ROW_CELLS], said: &[bool; VERDICTS], r: usize, i: usize) -> Verdict
    ensures { r < 1024 → label_count_in rows.now r ≤ label_room → result ≡ verdict_for said.now (get_elem? (labels_in rows.now r) i) }
{
    let n = row_labels(rows, r);
    if i < n {
        return said_at(said, row_label(rows, r, i));
    }
    Verdict {
        allowed: false,
        denied: false,
    }
}

// Whether label i of row r is open; a label that the row has not is closed.
pub(crate) fn label_open(
    rows: &[usize; ROW_CELLS],
    said: &[bool; VERDICTS],
    r: usize,
    i: usize,
) -> bool
    ensures { r < 1024 → label_count_in rows.now r ≤ label_room → result ≡ opened_for said.now (get_elem? (labels_in rows.now r) i) }
{
    let v = label_said(rows, said, r, i);
    if v.allowed {
        return !v.denied;
    }
    false
}

// The marking of row r of a table that is marked so: where it is nested, the row's label merged over the table's weak one.
pub fn under_row(
    rows: &[usize; ROW_CELLS],
    said: &[bool; VERDICTS],
    m: Marking,
    r: usize,
) -> Marking
    ensures { r < 1024 → label_count_in rows.now r ≤ label_room → result ≡ under_row said.now m (labels_in rows.now r) }
{
    if m.nested {
        let strong = m.strong;
        let weak = m.weak;
        let own = label_said(rows, said, r, 0);
        return Marking {
            nested: true,
            strong,
            weak: merged_over(weak, own),
        };
    }
    m
}

// What the label of cell c of row r says, where the row's own label stands first.
fn cell_said(rows: &[usize; ROW_CELLS], said: &[bool; VERDICTS], r: usize, c: usize) -> Verdict
    ensures { r < 1024 → label_count_in rows.now r ≤ label_room → result ≡ verdict_for said.now (get_elem? (labels_in rows.now r) (suc c)) }
{
    if c < COLUMNS {
        return label_said(rows, said, r, c + 1);
    }
    Verdict {
        allowed: false,
        denied: false,
    }
}

// Whether cell c of row r, which is marked so, is open.
pub fn cell_open(
    rows: &[usize; ROW_CELLS],
    said: &[bool; VERDICTS],
    m: Marking,
    r: usize,
    c: usize,
) -> bool
    ensures { r < 1024 → label_count_in rows.now r ≤ label_room → result ≡ open_under said.now m (labels_in rows.now r) c }
{
    if m.nested {
        let strong = m.strong;
        let weak = m.weak;
        let own = cell_said(rows, said, r, c);
        return nest_open(strong, weak, own);
    }
    label_open(rows, said, r, c)
}
