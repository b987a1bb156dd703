// Storing a table: its columns one by one, and then the table.
ghost use Rattle.std.specs.Prelude.{◌<◌, ◌≤◌, length, map, ◌≡◌};
ghost use Rattle.condition.specs.Answers.{kind_of};
ghost use Rattle.document.specs.Meaning.{column_meant};
ghost use Rattle.form.specs.Walks.{column_forms_at, column_kind_at};
ghost use Rattle.stepping.specs.Stored.{ColumnsFilled, LineAt};
ghost use Rattle.tables.specs.Promises.{StoreLabelledColumnsPromise, StoreTablePromise};

use condition::kinds::Kind;
use form::lines::{Scheme, labels_columns};
use relations::labels::find_label;
use relations::tables::{add_table, set_column};
use stepping::places::{number, place};
use text::bytes::byte_at;
use text::walking::{next_word, skip_byte};
use text::words::{is_word, word_end};
use workspace::layout::{LABELS, TABLE_CELLS};

// The type of a column that the word at a place of the line names.
fn kind_at(line: &[u8], q: usize) -> Kind
    ensures { kind_of result ≡ column_kind_at line.now q }
{
    if is_word(line, q, b"date") {
        return Kind::Date;
    }
    if is_word(line, q, b"num") {
        return Kind::Num;
    }
    Kind::Name
}

// Stores the columns `(COL num)` of table k that stand from a place of the line on, and gives their number.
fn store_columns(
    text: &[u8],
    tables: &mut [usize; TABLE_CELLS],
    k: usize,
    at: usize,
    line: &[u8],
    cs: usize,
) -> usize
    ensures { LineAt text.now at line.now → k < 8 → length (column_forms_at line.now cs) ≤ 16 → ColumnsFilled text.now tables.old tables.new k result (map column_meant (column_forms_at line.now cs)) (map (λ x. 0) (column_forms_at line.now cs)) }
{
    let mut c: usize = 0;
    let mut j = cs;
    while byte_at(line, j) == b' ' {
        let w = skip_byte(line, j + 1, b'(');
        let q = next_word(line, w);
        let kind = kind_at(line, q);
        let pos = place(text, at, w);
        set_column(tables, k, c, pos, kind, 0);
        j = skip_byte(line, word_end(line, q), b')');
        c += 1;
    }
    c
}

// Stores the columns `(COL num L)` of table k that stand from a place of the line on, and gives their number.
fn store_labelled_columns(
    text: &[u8],
    labels: &[usize; LABELS],
    labels_count: usize,
    tables: &mut [usize; TABLE_CELLS],
    k: usize,
    at: usize,
    line: &[u8],
    cs: usize,
) -> usize
    ensures { StoreLabelledColumnsPromise text.now labels.now labels_count tables.old tables.new k at line.now cs result }
{
    let mut c: usize = 0;
    let mut j = cs;
    while byte_at(line, j) == b' ' {
        let w = skip_byte(line, j + 1, b'(');
        let q = next_word(line, w);
        let m = next_word(line, q);
        let kind = kind_at(line, q);
        let label = number(find_label(text, labels, labels_count, line, m));
        let pos = place(text, at, w);
        set_column(tables, k, c, pos, kind, label);
        j = skip_byte(line, word_end(line, m), b')');
        c += 1;
    }
    c
}

// Stores the table of the name at t of the line, behind k of them: its scheme, the table's label of the name at l where the scheme has
// one, and its columns from cs on.
pub fn store_table(
    text: &[u8],
    labels: &[usize; LABELS],
    labels_count: usize,
    tables: &mut [usize; TABLE_CELLS],
    k: usize,
    at: usize,
    line: &[u8],
    t: usize,
    scheme: Scheme,
    l: usize,
    cs: usize,
)
    ensures { StoreTablePromise text.now labels.now labels_count tables.old tables.new k at line.now t scheme l cs }
{
    let label = number(find_label(text, labels, labels_count, line, l));
    let pos = place(text, at, t);
    if labels_columns(scheme) {
        let width = store_labelled_columns(text, labels, labels_count, tables, k, at, line, cs);
        add_table(tables, k, pos, scheme, label, width);
        return;
    }
    let width = store_columns(text, tables, k, at, line, cs);
    add_table(tables, k, pos, scheme, label, width);
}
