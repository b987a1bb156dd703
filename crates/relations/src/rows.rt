// The rows. A row that is not counted yet is written value by value and label by label, and then added.
// A store goes through the array as a slice: of a slice the proof knows the length.
ghost use Rattle.std.specs.Prelude.{◌+◌, ◌<◌, ℕ, get_or, eqb, List, ◌++◌, ◌∷◌, [], ◌≡◌};
ghost use Rattle.lists.specs.Lists.{any_of};
ghost use Rattle.document.specs.Policy.{Row};
ghost use Rattle.relations.specs.Rows.{FillingRow, LabelStored, Rows, ValueStored, label_count_in, label_room, row_label_in, value_count_in, value_place_in};
ghost use Rattle.relations.specs.Tables.{Cut};
ghost use Rattle.text.specs.Numbers.{Value};

use workspace::layout::{
    COLUMNS, LABEL_ROOM, ROW_CELLS, ROW_LABELS, ROW_MARKS, ROW_VALUES, ROW_WIDTHS, ROWS,
};

// Stores the value at `pos` as value c of row r.
pub fn set_value(ws: &mut [usize; ROW_CELLS], r: usize, c: usize, pos: usize)
    ensures { ValueStored ws.old ws.new r c pos }
{
    if r < ROWS {
        if c < COLUMNS {
            let cells: &mut [usize] = ws;
            cells[ROW_VALUES + COLUMNS * r + c] = pos;
        }
    }
}

// Stores the label as label m of row r.
pub fn set_label(ws: &mut [usize; ROW_CELLS], r: usize, m: usize, label: usize)
    ensures { LabelStored ws.old ws.new r m label }
{
    if r < ROWS {
        if m < LABEL_ROOM {
            let cells: &mut [usize] = ws;
            cells[ROW_LABELS + LABEL_ROOM * r + m] = label;
        }
    }
}

// Adds row k, of which so many values and labels are stored.
pub fn add_row(ws: &mut [usize; ROW_CELLS], k: usize, table: usize, values: usize, labels: usize)
    ensures { (text : List ℕ) (rs : List Row) (vs : List Value) (ls : List ℕ) → Rows text ws.old k rs → k < 1024 → FillingRow text ws.old k values labels vs ls → Rows text ws.new (k + 1) (rs ++ (record { table = table; values = vs; labels = ls } ∷ [])) }
{
    if k < ROWS {
        let cells: &mut [usize] = ws;
        cells[k] = table;
        cells[ROW_WIDTHS + k] = values;
        cells[ROW_MARKS + k] = labels;
    }
}

// The table of row r.
pub fn row_table(ws: &[usize; ROW_CELLS], r: usize) -> usize
    ensures { r < 1024 → result ≡ get_or ws.now r 0 }
{
    if r < ROWS { ws[r] } else { 0 }
}

// How many values row r has, and how many labels.
pub fn row_values(ws: &[usize; ROW_CELLS], r: usize) -> usize
    ensures { Cut 16 r 1024 (value_count_in ws.now r) result }
{
    if r < ROWS {
        let n = ws[ROW_WIDTHS + r];
        if n <= COLUMNS {
            return n;
        }
    }
    0
}

pub fn row_labels(ws: &[usize; ROW_CELLS], r: usize) -> usize
    ensures { Cut label_room r 1024 (label_count_in ws.now r) result }
{
    if r < ROWS {
        let n = ws[ROW_MARKS + r];
        if n <= LABEL_ROOM {
            return n;
        }
    }
    0
}

// The position of value c of row r.
pub fn row_value(ws: &[usize; ROW_CELLS], r: usize, c: usize) -> usize
    ensures { r < 1024 → c < 16 → result ≡ value_place_in ws.now r c }
{
    if r < ROWS {
        if c < COLUMNS {
            return ws[ROW_VALUES + COLUMNS * r + c];
        }
    }
    0
}

// Label m of row r.
pub fn row_label(ws: &[usize; ROW_CELLS], r: usize, m: usize) -> usize
    ensures { r < 1024 → m < label_room → result ≡ row_label_in ws.now r m }
{
    if r < ROWS {
        if m < LABEL_ROOM {
            return ws[ROW_LABELS + LABEL_ROOM * r + m];
        }
    }
    0
}

// Whether one of the rows, of which there are so many, lies in table t.
pub fn has_row(ws: &[usize; ROW_CELLS], count: usize, t: usize) -> bool
    ensures { (text : List ℕ) (rs : List Row) → Rows text ws.now count rs → result ≡ any_of (λ r. eqb r.table t) rs }
{
    for r in 0..count {
        if row_table(ws, r) == t {
            return true;
        }
    }
    false
}
