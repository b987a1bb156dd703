// The tables with their columns. The columns of a table that is not counted yet are stored one by one, and then it is added.
// A store goes through the array as a slice: of a slice the proof knows the length.
ghost use Rattle.std.specs.Prelude.{◌+◌, ◌<◌, ℕ, length, List, ◌≡◌};
ghost use Rattle.condition.specs.Answers.{kind_of};
ghost use Rattle.document.specs.Lookup.{column_of};
ghost use Rattle.document.specs.NoteFaults.{is_nested};
ghost use Rattle.document.specs.Policy.{Table};
ghost use Rattle.form.specs.Form.{has_brackets, leads_label};
ghost use Rattle.workspace.specs.Found.{FoundBelow, found_as};
ghost use Rattle.relations.specs.Tables.{ColumnStored, Cut, TableAdded, Tables, column_count_in, column_kind_in, column_label_in, column_labels_in, columns_in, scheme_by, scheme_in, scheme_of_cell, table_label_in};
ghost use Rattle.lists.specs.Lists.{find_index};
ghost use Rattle.text.specs.Words.{is_called, word_at, word_of};

use condition::kinds::Kind;
use form::lines::Scheme;
use text::words::word_end;
use workspace::found::{find_name, find_name_to};
use workspace::layout::{
    COLUMN_KINDS, COLUMN_LABELS, COLUMN_NAMES, COLUMNS, TABLE_CELLS, TABLE_LABELS, TABLE_NOTES,
    TABLE_SCHEMES, TABLE_STRONG, TABLE_WEAK, TABLE_WIDTHS, TABLES,
};
use workspace::store::{kind_by, kind_cell};

// The number of a scheme.
fn scheme_cell(s: Scheme) -> usize
    ensures { (l : ℕ) (ls : List ℕ) → scheme_of_cell result l ls ≡ scheme_by s l ls }
{
    match s {
        Scheme::Unlabelled => 0,
        Scheme::ByTable => 1,
        Scheme::ByColumn => 2,
        Scheme::ByRow => 3,
        Scheme::ByCell => 4,
        Scheme::Nested => 5,
    }
}

// Stores column c of table t: the position of its name, its type, and its label.
pub fn set_column(
    ws: &mut [usize; TABLE_CELLS],
    t: usize,
    c: usize,
    pos: usize,
    kind: Kind,
    label: usize,
)
    ensures { ColumnStored ws.old ws.new t c pos (kind_of kind) label }
{
    if t < TABLES {
        if c < COLUMNS {
            let code = kind_cell(kind);
            let cells: &mut [usize] = ws;
            cells[COLUMN_NAMES + COLUMNS * t + c] = pos;
            cells[COLUMN_KINDS + COLUMNS * t + c] = code;
            cells[COLUMN_LABELS + COLUMNS * t + c] = label;
        }
    }
}

// Adds table k, of which so many columns are stored; no line says more of it yet.
pub fn add_table(
    ws: &mut [usize; TABLE_CELLS],
    k: usize,
    pos: usize,
    scheme: Scheme,
    label: usize,
    width: usize,
)
    ensures { TableAdded ws.old ws.new k pos scheme label width }
{
    if k < TABLES {
        let code = scheme_cell(scheme);
        let cells: &mut [usize] = ws;
        cells[k] = pos;
        cells[TABLE_SCHEMES + k] = code;
        cells[TABLE_LABELS + k] = label;
        cells[TABLE_WIDTHS + k] = width;
        cells[TABLE_NOTES + k] = 0;
        cells[TABLE_WEAK + k] = 0;
        cells[TABLE_STRONG + k] = 0;
    }
}

// How many columns table t has.
pub fn table_width(ws: &[usize; TABLE_CELLS], t: usize) -> usize
    ensures { Cut 16 t 8 (column_count_in ws.now t) result }
{
    if t < TABLES {
        let n = ws[TABLE_WIDTHS + t];
        if n <= COLUMNS {
            return n;
        }
    }
    0
}

// The scheme of table t.
pub fn table_scheme(ws: &[usize; TABLE_CELLS], t: usize) -> Scheme
    ensures { t < 8 → scheme_in ws.now t ≡ scheme_by result (table_label_in ws.now t) (column_labels_in ws.now t) }
{
    if t < TABLES {
        let n = ws[TABLE_SCHEMES + t];
        match n {
            0 => Scheme::Unlabelled,
            1 => Scheme::ByTable,
            2 => Scheme::ByColumn,
            3 => Scheme::ByRow,
            4 => Scheme::ByCell,
            _ => Scheme::Nested,
        }
    } else {
        Scheme::Unlabelled
    }
}

// Whether a row of the scheme leads with a label for itself.
#[tactic(auto, unfolding(form::specs::Form::leads_label, crate::specs::Tables::scheme_by))]
pub fn leads_label(s: Scheme) -> bool
    ensures { (l : ℕ) (ls : List ℕ) → result ≡ leads_label (scheme_by s l ls) }
{
    matches!(s, Scheme::ByRow | Scheme::Nested)
}

// Whether a row of the scheme has each value in brackets with its label.
#[tactic(auto, unfolding(form::specs::Form::has_brackets, crate::specs::Tables::scheme_by))]
pub fn has_brackets(s: Scheme) -> bool
    ensures { (l : ℕ) (ls : List ℕ) → result ≡ has_brackets (scheme_by s l ls) }
{
    matches!(s, Scheme::ByCell | Scheme::Nested)
}

// Whether the scheme is nest.
#[tactic(auto, unfolding(document::specs::NoteFaults::is_nested, crate::specs::Tables::scheme_by))]
pub fn is_nested(s: Scheme) -> bool
    ensures { (l : ℕ) (ls : List ℕ) → result ≡ is_nested (scheme_by s l ls) }
{
    matches!(s, Scheme::Nested)
}

// The label of table t.
pub fn table_label(ws: &[usize; TABLE_CELLS], t: usize) -> usize
    ensures { t < 8 → result ≡ table_label_in ws.now t }
{
    if t < TABLES { ws[TABLE_LABELS + t] } else { 0 }
}

// The type of column c of table t.
pub fn column_kind(ws: &[usize; TABLE_CELLS], t: usize, c: usize) -> Kind
    ensures { t < 8 → c < 16 → kind_of result ≡ column_kind_in ws.now t c }
{
    if t < TABLES {
        if c < COLUMNS {
            let n = ws[COLUMN_KINDS + COLUMNS * t + c];
            return kind_by(n);
        }
    }
    Kind::Num
}

// The label of column c of table t.
pub fn column_label(ws: &[usize; TABLE_CELLS], t: usize, c: usize) -> usize
    ensures { t < 8 → c < 16 → result ≡ column_label_in ws.now t c }
{
    if t < TABLES {
        if c < COLUMNS {
            return ws[COLUMN_LABELS + COLUMNS * t + c];
        }
    }
    0
}

// The table of the name from i to e of the line, among the first k.
pub fn find_table_to(
    text: &[u8],
    ws: &[usize; TABLE_CELLS],
    k: usize,
    line: &[u8],
    i: usize,
    e: usize,
) -> Option<usize>
    ensures { ((ts : List Table) → e ≡ i + length (word_at line.now i) → Tables text.now ws.now k ts → found_as result ≡ find_index (λ x. is_called (word_of line.now i) x.name) ts) × FoundBelow result k }
{
    if TABLES < k {
        return None;
    }
    find_name_to(text, ws, 0, k, line, i, e)
}

// The table of the name at i of the line, among the first k.
pub fn find_table(
    text: &[u8],
    ws: &[usize; TABLE_CELLS],
    k: usize,
    line: &[u8],
    i: usize,
) -> Option<usize>
    ensures { ((ts : List Table) → Tables text.now ws.now k ts → found_as result ≡ find_index (λ x. is_called (word_of line.now i) x.name) ts) × FoundBelow result k }
{
    find_table_to(text, ws, k, line, i, word_end(line, i))
}

// The column of the name at i of the line, among those of table t.
pub fn find_column(
    text: &[u8],
    ws: &[usize; TABLE_CELLS],
    t: usize,
    line: &[u8],
    i: usize,
) -> Option<usize>
    ensures { ((k : ℕ) (ts : List Table) → Tables text.now ws.now k ts → t < k → found_as result ≡ column_of (columns_in text.now ws.now t) (word_of line.now i)) × FoundBelow result 16 }
{
    if t < TABLES {
        let n = table_width(ws, t);
        return find_name(text, ws, COLUMN_NAMES + COLUMNS * t, n, line, i);
    }
    None
}
