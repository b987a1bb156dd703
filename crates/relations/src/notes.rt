// What later lines say of a table: that it is public, its weak label and its strong one.
// A store goes through the array as a slice: of a slice the proof knows the length.
ghost use Rattle.std.specs.Prelude.{◌<◌, ◌≡◌};
ghost use Rattle.document.specs.Lookup.{strong_in, weak_in};
ghost use Rattle.form.specs.Form.{strong, weak};
ghost use Rattle.relations.specs.Notes.{label_of_cell, note_in, public_in};
ghost use Rattle.relations.specs.Tables.{LabelNoted, PublicStored};
ghost use Rattle.workspace.specs.Found.{found_as};

use workspace::layout::{LABELS, TABLE_CELLS, TABLE_NOTES, TABLE_STRONG, TABLE_WEAK, TABLES};

// Declares table t public.
pub fn set_public(ws: &mut [usize; TABLE_CELLS], t: usize)
    ensures { PublicStored ws.old ws.new t }
{
    if t < TABLES {
        let cells: &mut [usize] = ws;
        cells[TABLE_NOTES + t] = 1;
    }
}

// Whether table t is declared public.
pub fn is_public(ws: &[usize; TABLE_CELLS], t: usize) -> bool
    ensures { t < 8 → result ≡ public_in ws.now t }
{
    if t < TABLES {
        return ws[TABLE_NOTES + t] == 1;
    }
    false
}

// The label that a number of the array stands for.
fn label_of_cell(n: usize) -> Option<usize>
    ensures { found_as result ≡ label_of_cell n }
{
    if n == 0 {
        return None;
    }
    Some(n - 1)
}

// The weak label of table t.
pub fn weak_label(ws: &[usize; TABLE_CELLS], t: usize) -> Option<usize>
    ensures { t < 8 → found_as result ≡ label_of_cell (note_in ws.now 1 t) }
{
    if t < TABLES {
        return label_of_cell(ws[TABLE_WEAK + t]);
    }
    None
}

// The strong label of table t.
pub fn strong_label(ws: &[usize; TABLE_CELLS], t: usize) -> Option<usize>
    ensures { t < 8 → found_as result ≡ label_of_cell (note_in ws.now 2 t) }
{
    if t < TABLES {
        return label_of_cell(ws[TABLE_STRONG + t]);
    }
    None
}

// Gives table t this weak label.
pub fn set_weak(ws: &mut [usize; TABLE_CELLS], t: usize, l: usize)
    ensures { l < 64 → LabelNoted ws.old ws.new t (weak l) weak_in }
{
    if t < TABLES {
        if l < LABELS {
            let cells: &mut [usize] = ws;
            cells[TABLE_WEAK + t] = l + 1;
        }
    }
}

// Gives table t this strong label.
pub fn set_strong(ws: &mut [usize; TABLE_CELLS], t: usize, l: usize)
    ensures { l < 64 → LabelNoted ws.old ws.new t (strong l) strong_in }
{
    if t < TABLES {
        if l < LABELS {
            let cells: &mut [usize] = ws;
            cells[TABLE_STRONG + t] = l + 1;
        }
    }
}
