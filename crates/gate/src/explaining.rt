// Closed by what (02, Q-7), for hosts: a why line over a document, or over one that was loaded before, its line in a lent buffer.
ghost use Rattle.gate.specs.Explaining.{ExportsWhy, ExportsWhyArrays};
ghost use Rattle.gate.specs.Exports.{StoresLength};
ghost use Rattle.telling.specs.Telling.{told_as};

use crate::arrays::store_not_loaded;
use crate::exports::{store_five, store_refusal};
use loaded::cells::{CELLS, is_loaded};
use telling::arrays::why_loaded;
use telling::texts::{LINE_BYTES, why};
use text::refusals::Refusal;
use workspace::layout::{LABELS, PURPOSE_CELLS, ROW_CELLS, SET_WORDS, TABLE_CELLS};

// Stores the figures of a told line. Gives its code.
fn store_told(figures: &mut [u64; 5], x: Result<usize, Refusal>) -> u64
    ensures { StoresLength (told_as x) figures.new result }
{
    match x {
        Err(r) => store_refusal(figures, r),
        Ok(len) => {
            store_five(figures, len as u64, 0, 0, 0, 0);
            0
        }
    }
}

// Says why a cell of a document is open or closed. Gives 0, with the line's length; or a refusal's number, with the text and the part
// that the refusal points to, and leaves the buffer.
#[unsafe(no_mangle)]
pub extern "C" fn gate_why(
    doc: &[u8],
    line: &[u8],
    out: &mut [u8; LINE_BYTES],
    figures: &mut [u64; 5],
) -> u64
    ensures { ExportsWhy doc.now line.now out.old out.new figures.new result }
{
    let x = why(doc, line, out);
    store_told(figures, x)
}

// Says why a cell of a loaded document is open or closed. Gives what `gate_why` gives over its text; or 255, where the arrays were not
// filled by this version, and leaves the buffer.
#[unsafe(no_mangle)]
pub extern "C" fn gate_why_arrays(
    doc: &[u8],
    purposes: &[usize; PURPOSE_CELLS],
    labels: &[usize; LABELS],
    sets: &[u64; SET_WORDS],
    tables: &[usize; TABLE_CELLS],
    rows: &[usize; ROW_CELLS],
    cells: &[usize; CELLS],
    line: &[u8],
    out: &mut [u8; LINE_BYTES],
    figures: &mut [u64; 5],
) -> u64
    ensures { ExportsWhyArrays doc.now purposes.now labels.now sets.now tables.now rows.now cells.now line.now out.old out.new figures.new result }
{
    if !is_loaded(cells) {
        return store_not_loaded(figures);
    }
    let x = why_loaded(doc, purposes, labels, sets, tables, rows, cells, line, out);
    store_told(figures, x)
}
