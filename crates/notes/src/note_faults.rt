// Lines about a table that stand behind it: what is wrong with one that declares it public, or gives it a weak or strong label.
ghost use Rattle.std.specs.Prelude.{◌<◌, ◌≤◌, ℕ, List, ◌≡◌};
ghost use Rattle.document.specs.Lookup.{given_by, notes_of};
ghost use Rattle.document.specs.Policy.{Noted};
ghost use Rattle.lists.specs.Lists.{there};
ghost use Rattle.relations.specs.Notes.{Notes};
ghost use Rattle.notes.specs.Promises.{LabelNoteFaultPromise, OutOfPlacePromise, PublicFaultPromise, given_in};

use index::counts::Counts;
use relations::labels::find_label;
use relations::notes::{is_public, strong_label, weak_label};
use relations::rows::has_row;
use relations::tables::{find_table, is_nested, table_scheme};
use stepping::fault::Fault;
use text::refusals::Reason;
use workspace::layout::{LABELS, ROW_CELLS, TABLE_CELLS};

// The table whose name stands at t of the line, among k of them, declared public: it has to be there, and not to be public already.
pub fn public_fault(
    text: &[u8],
    tables: &[usize; TABLE_CELLS],
    k: usize,
    line: &[u8],
    t: usize,
) -> Result<(), Fault>
    ensures { PublicFaultPromise text.now tables.now k line.now t result }
{
    let Some(x) = find_table(text, tables, k, line, t) else {
        return Err(Fault::Item(Reason::NameUnknown, t));
    };
    if is_public(tables, x) {
        return Err(Fault::Item(Reason::NameTaken, t));
    }
    Ok(())
}

// Whether table t has a strong label, or a weak one.
fn has_label(tables: &[usize; TABLE_CELLS], t: usize, strong: bool) -> bool
    ensures { (k : ℕ) (ns : List Noted) → t < k → k ≤ 8 → Notes tables.now k ns → result ≡ there (given_by (given_in strong) (notes_of ns t)) }
{
    if strong {
        return strong_label(tables, t).is_some();
    }
    weak_label(tables, t).is_some()
}

// Whether a strong label for table t, or a weak one, is out of place: its scheme is another, it has one of the rows, or it has one already.
fn is_out_of_place(
    tables: &[usize; TABLE_CELLS],
    rows: &[usize; ROW_CELLS],
    count: usize,
    t: usize,
    strong: bool,
) -> bool
    ensures { OutOfPlacePromise tables.now rows.now count t strong result }
{
    if !is_nested(table_scheme(tables, t)) {
        return true;
    }
    if has_row(rows, count, t) {
        return true;
    }
    has_label(tables, t, strong)
}

// The label whose name stands at l of the line, given to the table whose name stands at t as its strong one or its weak one: both have
// to be there, and the line has to be in its place.
pub fn label_note_fault(
    text: &[u8],
    labels: &[usize; LABELS],
    tables: &[usize; TABLE_CELLS],
    rows: &[usize; ROW_CELLS],
    c: Counts,
    line: &[u8],
    t: usize,
    l: usize,
    strong: bool,
) -> Result<(), Fault>
    ensures { LabelNoteFaultPromise text.now labels.now tables.now rows.now c line.now t l strong result }
{
    let Some(x) = find_table(text, tables, c.tables, line, t) else {
        return Err(Fault::Item(Reason::NameUnknown, t));
    };
    if find_label(text, labels, c.labels, line, l).is_none() {
        return Err(Fault::Item(Reason::NameUnknown, l));
    }
    if is_out_of_place(tables, rows, c.rows, x, strong) {
        return Err(Fault::Whole(Reason::NoteMisplaced));
    }
    Ok(())
}
