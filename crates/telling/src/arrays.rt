// A why line over a document that was loaded before.
ghost use Rattle.answer.specs.Why.{why};
ghost use Rattle.telling.specs.Holds.{HoldsLabels};
ghost use Rattle.telling.specs.Telling.{Tells};

use crate::texts::{LINE_BYTES, tell};
use loaded::cells::{CELLS, counts_of};
use reasons::lines::explain_line;
use text::refusals::Refusal;
use workspace::layout::{LABELS, PURPOSE_CELLS, ROW_CELLS, SET_WORDS, TABLE_CELLS};

// Why a cell of the loaded document is open or closed. Whatever the arrays hold, the call returns; over those that hold this very
// text it gives what `why` gives.
pub fn why_loaded(
    text: &[u8],
    purposes: &[usize; PURPOSE_CELLS],
    labels: &[usize; LABELS],
    sets: &[u64; SET_WORDS],
    tables: &[usize; TABLE_CELLS],
    rows: &[usize; ROW_CELLS],
    cells: &[usize; CELLS],
    line: &[u8],
    out: &mut [u8; LINE_BYTES],
) -> Result<usize, Refusal>
    ensures { HoldsLabels text.now purposes.now labels.now sets.now tables.now rows.now cells.now → Tells (why text.now line.now) out.old out.new result }
{
    let c = counts_of(cells);
    let e = explain_line(text, purposes, labels, sets, tables, rows, c, line);
    tell(text, e, out)
}
