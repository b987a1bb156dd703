// Storing that a table is public, or its weak or strong label.
ghost use Rattle.notes.specs.Promises.{StoreLabelNotePromise, StorePublicPromise};

use relations::labels::find_label;
use relations::notes::{set_public, set_strong, set_weak};
use relations::tables::find_table;
use stepping::places::number;
use workspace::layout::{LABELS, TABLE_CELLS};

// Stores that the table of the name at t of the line, one of k, is public.
pub fn store_public(text: &[u8], tables: &mut [usize; TABLE_CELLS], k: usize, line: &[u8], t: usize)
    ensures { StorePublicPromise text.now tables.old tables.new k line.now t }
{
    let x = number(find_table(text, tables, k, line, t));
    set_public(tables, x);
}

// Stores that the label of the name at l of the line, one of so many, is the strong one of the table of the name at t, one of k, or the weak one.
pub fn store_label_note(
    text: &[u8],
    labels: &[usize; LABELS],
    count: usize,
    tables: &mut [usize; TABLE_CELLS],
    k: usize,
    line: &[u8],
    t: usize,
    l: usize,
    strong: bool,
)
    ensures { StoreLabelNotePromise text.now labels.now count tables.old tables.new k line.now t l strong }
{
    let x = number(find_table(text, tables, k, line, t));
    let y = number(find_label(text, labels, count, line, l));
    if strong {
        set_strong(tables, x, y);
        return;
    }
    set_weak(tables, x, y);
}
