// The columns that a query names, by number (15).
ghost use Rattle.std.specs.Prelude.{◌<◌, ◌≤◌, ℕ, length};
ghost use Rattle.document.specs.Lookup.{columns_at};
ghost use Rattle.document.specs.Policy.{Policy};
ghost use Rattle.relations.specs.Tables.{Tables};
ghost use Rattle.resolving.specs.Resolved.{Resolves};

use relations::tables::find_column;
use workspace::layout::TABLE_CELLS;

// How many words of a query can name columns: 16 that are selected, and one in each of 64 comparisons.
pub const NAMED: usize = 80;

// Stores the numbers of the columns of table t that the words at the first n places name, as far as there is room; the first
// that the table lacks is handed back.
fn resolve_in(
    text: &[u8],
    tables: &[usize; TABLE_CELLS],
    t: usize,
    query: &[u8],
    places: &[usize],
    n: usize,
    columns: &mut [usize],
) -> Option<usize>
    ensures { (d : Policy) (k : ℕ) → Tables text.now tables.now k d.tables → t < k → n ≤ length places.now → n ≤ length columns.old → Resolves (columns_at d t) query.now n places.now result columns.new }
{
    for i in 0..n {
        if i >= places.len() {
            return None;
        }
        if i >= columns.len() {
            return None;
        }
        let p = places[i];
        let c = find_column(text, tables, t, query, p);
        let Some(m) = c else {
            return Some(p);
        };
        columns[i] = m;
    }
    None
}

// The same over arrays, which have room for all that a query names.
pub fn resolve_columns(
    text: &[u8],
    tables: &[usize; TABLE_CELLS],
    t: usize,
    query: &[u8],
    places: &[usize; NAMED],
    n: usize,
    columns: &mut [usize; NAMED],
) -> Option<usize>
    ensures { (d : Policy) (k : ℕ) → Tables text.now tables.now k d.tables → t < k → n ≤ 80 → Resolves (columns_at d t) query.now n places.now result columns.new }
{
    resolve_in(text, tables, t, query, places, n, columns)
}
