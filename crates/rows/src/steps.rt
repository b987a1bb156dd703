// A line of a row: what is wrong with it, or the row is stored.
ghost use Rattle.rows.specs.Promises.{StepRowPromise};

use crate::faults::row_fault;
use crate::storing::store_row;
use index::counts::Counts;
use stepping::fault::Fault;
use workspace::layout::{LABELS, ROW_CELLS, TABLE_CELLS};

// A row of the table whose name stands at t, with its items from a place on.
pub fn step_row(
    text: &[u8],
    at: usize,
    line: &[u8],
    labels: &[usize; LABELS],
    tables: &[usize; TABLE_CELLS],
    rows: &mut [usize; ROW_CELLS],
    c: Counts,
    t: usize,
    items: usize,
) -> Result<Counts, Fault>
    ensures { StepRowPromise text.now at line.now labels.now tables.now rows.old rows.new c t items result }
{
    let k = c.rows;
    row_fault(text, labels, c.labels, tables, c.tables, k, line, t, items)?;
    store_row(
        text, labels, c.labels, tables, c.tables, rows, k, at, line, t, items,
    );
    let mut next = c;
    next.rows = k + 1;
    Ok(next)
}
