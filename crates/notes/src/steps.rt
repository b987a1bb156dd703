// A line about a table that stands behind it: what is wrong with it, or what it says is stored.
ghost use Rattle.notes.specs.Promises.{StepLabelNotePromise, StepPublicPromise};

use crate::note_faults::{label_note_fault, public_fault};
use crate::note_storing::{store_label_note, store_public};
use index::counts::Counts;
use stepping::fault::Fault;
use workspace::layout::{LABELS, ROW_CELLS, TABLE_CELLS};

// The table whose name stands at t is declared public; there are as many of each kind as before.
pub fn step_public(
    text: &[u8],
    line: &[u8],
    tables: &mut [usize; TABLE_CELLS],
    c: Counts,
    t: usize,
) -> Result<Counts, Fault>
    ensures { StepPublicPromise text.now line.now tables.old tables.new c t result }
{
    let k = c.tables;
    public_fault(text, tables, k, line, t)?;
    store_public(text, tables, k, line, t);
    Ok(c)
}

// The table whose name stands at t gets the label whose name stands at l as its strong one, or its weak one; there are as many of each
// kind as before.
pub fn step_label_note(
    text: &[u8],
    line: &[u8],
    labels: &[usize; LABELS],
    tables: &mut [usize; TABLE_CELLS],
    rows: &[usize; ROW_CELLS],
    c: Counts,
    t: usize,
    l: usize,
    strong: bool,
) -> Result<Counts, Fault>
    ensures { StepLabelNotePromise text.now line.now labels.now tables.old tables.new rows.now c t l strong result }
{
    label_note_fault(text, labels, tables, rows, c, line, t, l, strong)?;
    store_label_note(text, labels, c.labels, tables, c.tables, line, t, l, strong);
    Ok(c)
}
