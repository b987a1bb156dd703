// What of a table is closed to a purpose (17).
ghost use Rattle.std.specs.Prelude.{◌<◌, ℕ, length, List, ◌≡◌};
ghost use Rattle.std.proofs.Math.ListN.{get_elem?};
ghost use Rattle.document.specs.Lookup.{columns_at, labelling_at};
ghost use Rattle.document.specs.Open.{label_open, open_to, table_open};
ghost use Rattle.document.specs.Policy.{Policy};
ghost use Rattle.relations.specs.Labels.{Said};
ghost use Rattle.relations.specs.Notes.{Notes};
ghost use Rattle.relations.specs.Tables.{Tables, column_label_in};
ghost use Rattle.workspace.specs.Tabulated.{tabulated};
ghost use Rattle.resolving.specs.Promises.{ClosedColumnPromise, ClosedPartPromise, FirstClosedPromise};

use crate::columns::NAMED;
use form::lines::Scheme;
use relations::labels::opened_at;
use relations::notes::is_public;
use relations::tables::{column_label, table_label, table_scheme, table_width};
use workspace::layout::{TABLE_CELLS, VERDICTS};

// Whether the table is open, as a whole: without labels it is where it is declared public.
pub(crate) fn table_open(tables: &[usize; TABLE_CELLS], t: usize, said: &[bool; VERDICTS]) -> bool
    ensures { (d : Policy) (text : List ℕ) (k p : ℕ) → Tables text tables.now k d.tables → Notes tables.now k d.notes → t < k → Said d p said.now → result ≡ table_open (open_to d p) (labelling_at d t) }
{
    let scheme = table_scheme(tables, t);
    match scheme {
        Scheme::Unlabelled => is_public(tables, t),
        Scheme::ByTable => opened_at(said, table_label(tables, t)),
        Scheme::ByColumn => true,
        Scheme::ByRow => true,
        Scheme::ByCell => true,
        Scheme::Nested => true,
    }
}

// Whether the label of column c is open; a column that the table lacks has none.
pub(crate) fn column_open(
    tables: &[usize; TABLE_CELLS],
    t: usize,
    said: &[bool; VERDICTS],
    c: usize,
) -> bool
    ensures { (d : Policy) (text : List ℕ) (k p : ℕ) → Tables text tables.now k d.tables → t < k → Said d p said.now → result ≡ label_open d p (get_elem? (tabulated (column_label_in tables.now t) (length (columns_at d t))) c) }
{
    if c < table_width(tables, t) {
        return opened_at(said, column_label(tables, t, c));
    }
    false
}

// The first of the n named columns whose label is closed.
fn first_closed(
    tables: &[usize; TABLE_CELLS],
    t: usize,
    said: &[bool; VERDICTS],
    places: &[usize],
    n: usize,
    columns: &[usize],
) -> Option<usize>
    ensures { FirstClosedPromise tables.now t said.now places.now n columns.now result }
{
    for i in 0..n {
        if i >= places.len() {
            return None;
        }
        if i >= columns.len() {
            return None;
        }
        if !column_open(tables, t, said, columns[i]) {
            return Some(places[i]);
        }
    }
    None
}

// The first of the n named columns that is closed: only labels by column close one.
fn closed_column(
    tables: &[usize; TABLE_CELLS],
    t: usize,
    said: &[bool; VERDICTS],
    places: &[usize],
    n: usize,
    columns: &[usize],
) -> Option<usize>
    ensures { ClosedColumnPromise tables.now t said.now places.now n columns.now result }
{
    let scheme = table_scheme(tables, t);
    match scheme {
        Scheme::Unlabelled => None,
        Scheme::ByTable => None,
        Scheme::ByColumn => first_closed(tables, t, said, places, n, columns),
        Scheme::ByRow => None,
        Scheme::ByCell => None,
        Scheme::Nested => None,
    }
}

// The table, whose name stands at `at`, or else the first of the n named columns, where it is closed.
pub fn closed_part(
    tables: &[usize; TABLE_CELLS],
    t: usize,
    said: &[bool; VERDICTS],
    query: &[u8],
    at: usize,
    places: &[usize; NAMED],
    n: usize,
    columns: &[usize; NAMED],
) -> Option<usize>
    ensures { ClosedPartPromise tables.now t said.now query.now at places.now n columns.now result }
{
    if !table_open(tables, t, said) {
        return Some(at);
    }
    closed_column(tables, t, said, places, n, columns)
}
