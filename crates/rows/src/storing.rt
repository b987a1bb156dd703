// Storing a row: its values and labels one by one, and then the row.
ghost use Rattle.std.specs.Prelude.{◌+◌, ◌<◌, ◌≤◌, ℕ, length, List, [], ◌++◌, ◌∷◌, map, ◌≡◌};
ghost use Rattle.std.proofs.Math.Option.{some};
ghost use Rattle.document.specs.Policy.{Row};
ghost use Rattle.document.specs.ValueFaults.{plain_values};
ghost use Rattle.form.specs.Walks.{items_at, plain_at};
ghost use Rattle.relations.specs.Rows.{FillingRow, Rows};
ghost use Rattle.stepping.specs.Stored.{LineAt, RowFilled};
ghost use Rattle.text.specs.Words.{Word};
ghost use Rattle.rows.specs.Promises.{StoreByCellPromise, StoreByRowPromise, StoreCellsPromise, StoreNestedPromise, StoreRowPromise};

use form::walks::{cell_end, cell_label, first_in};
use relations::labels::find_label;
use relations::rows::{add_row, set_label, set_value};
use relations::tables::{find_table, has_brackets, leads_label, table_scheme};
use stepping::places::{number, place};
use text::bytes::byte_at;
use text::words::{word_end, written_end};
use workspace::layout::{COLUMNS, LABELS, ROW_CELLS, TABLE_CELLS};

// Stores the values that stand from a place of the line on as those of row k, and gives their number.
fn store_values(
    text: &[u8],
    rows: &mut [usize; ROW_CELLS],
    k: usize,
    at: usize,
    line: &[u8],
    is: usize,
) -> usize
    ensures { (m : ℕ) (ls : List ℕ) → LineAt text.now at line.now → k < 1024 → length (plain_at line.now is) ≤ 16 → FillingRow text.now rows.old k 0 m [] ls → RowFilled text.now rows.old rows.new k result m (map (λ w. w.bytes) (plain_at line.now is)) ls }
{
    let mut c: usize = 0;
    let mut j = is;
    while byte_at(line, j) == b' ' {
        let w = j + 1;
        let pos = place(text, at, w);
        set_value(rows, k, c, pos);
        j = written_end(line, w);
        c += 1;
    }
    c
}

// Stores the cells `(v L)` that stand from a place of the line on as the values of row k and its labels behind m of them, and gives their
// number.
fn store_cells(
    text: &[u8],
    labels: &[usize; LABELS],
    labels_count: usize,
    rows: &mut [usize; ROW_CELLS],
    k: usize,
    at: usize,
    line: &[u8],
    is: usize,
    m: usize,
) -> usize
    requires { m ≤ 1 }
    ensures { StoreCellsPromise text.now labels.now labels_count rows.old rows.new k at line.now is m result }
{
    let mut c: usize = 0;
    let mut j = is;
    while byte_at(line, j) == b' ' {
        let w = first_in(line, j + 1);
        let q = cell_label(line, j + 1);
        let label = number(find_label(text, labels, labels_count, line, q));
        let pos = place(text, at, w);
        set_value(rows, k, c, pos);
        set_label(rows, k, m + c, label);
        j = cell_end(line, j + 1);
        c += 1;
    }
    c
}

// Stores row k of a table, with the values from a place of the line on and no label.
fn store_plain(
    text: &[u8],
    rows: &mut [usize; ROW_CELLS],
    k: usize,
    at: usize,
    line: &[u8],
    table: usize,
    is: usize,
)
    ensures { (rs : List Row) (ws : List Word) → LineAt text.now at line.now → Rows text.now rows.old k rs → k < 1024 → plain_values (items_at line.now is) ≡ some ws → length ws ≤ 16 → Rows text.now rows.new (k + 1) (rs ++ (record { table = table; values = map (λ w. w.bytes) ws; labels = [] } ∷ [])) }
{
    let n = store_values(text, rows, k, at, line, is);
    add_row(rows, k, table, n, 0);
}

// Stores row k of a table, with the label that stands first from a place of the line on, and the values behind it.
fn store_by_row(
    text: &[u8],
    labels: &[usize; LABELS],
    labels_count: usize,
    rows: &mut [usize; ROW_CELLS],
    k: usize,
    at: usize,
    line: &[u8],
    table: usize,
    is: usize,
)
    ensures { StoreByRowPromise text.now labels.now labels_count rows.old rows.new k at line.now table is }
{
    if byte_at(line, is) == b' ' {
        let w = is + 1;
        let label = number(find_label(text, labels, labels_count, line, w));
        set_label(rows, k, 0, label);
        let n = store_values(text, rows, k, at, line, word_end(line, w));
        add_row(rows, k, table, n, 1);
    }
}

// Stores row k of a table, with the values from a place of the line on and a label at each.
fn store_by_cell(
    text: &[u8],
    labels: &[usize; LABELS],
    labels_count: usize,
    rows: &mut [usize; ROW_CELLS],
    k: usize,
    at: usize,
    line: &[u8],
    table: usize,
    is: usize,
)
    ensures { StoreByCellPromise text.now labels.now labels_count rows.old rows.new k at line.now table is }
{
    let n = store_cells(text, labels, labels_count, rows, k, at, line, is, 0);
    add_row(rows, k, table, n, n);
}

// One more than the values of a row.
fn one_more(n: usize) -> usize
    ensures { n ≤ 16 → result ≡ n + 1 }
{
    if n <= COLUMNS {
        return n + 1;
    }
    n
}

// Stores row k of a table, with the label that stands first from a place of the line on, and the values behind it with a label at each.
fn store_nested(
    text: &[u8],
    labels: &[usize; LABELS],
    labels_count: usize,
    rows: &mut [usize; ROW_CELLS],
    k: usize,
    at: usize,
    line: &[u8],
    table: usize,
    is: usize,
)
    ensures { StoreNestedPromise text.now labels.now labels_count rows.old rows.new k at line.now table is }
{
    if byte_at(line, is) == b' ' {
        let w = is + 1;
        let label = number(find_label(text, labels, labels_count, line, w));
        set_label(rows, k, 0, label);
        let e = word_end(line, w);
        let n = store_cells(text, labels, labels_count, rows, k, at, line, e, 1);
        add_row(rows, k, table, n, one_more(n));
    }
}

// Stores the row of the table of the name at t of the line, behind k of them, with the items from `is` on.
pub fn store_row(
    text: &[u8],
    labels: &[usize; LABELS],
    labels_count: usize,
    tables: &[usize; TABLE_CELLS],
    tables_count: usize,
    rows: &mut [usize; ROW_CELLS],
    k: usize,
    at: usize,
    line: &[u8],
    t: usize,
    is: usize,
)
    ensures { StoreRowPromise text.now labels.now labels_count tables.now tables_count rows.old rows.new k at line.now t is }
{
    let table = number(find_table(text, tables, tables_count, line, t));
    let scheme = table_scheme(tables, table);
    let bracketed = has_brackets(scheme);
    if leads_label(scheme) {
        if bracketed {
            store_nested(text, labels, labels_count, rows, k, at, line, table, is);
        } else {
            store_by_row(text, labels, labels_count, rows, k, at, line, table, is);
        }
    } else {
        if bracketed {
            store_by_cell(text, labels, labels_count, rows, k, at, line, table, is);
        } else {
            store_plain(text, rows, k, at, line, table, is);
        }
    }
}
