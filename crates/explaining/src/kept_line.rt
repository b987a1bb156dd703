// Why lines of any length, of which the first bytes are kept.
ghost use Rattle.explaining.specs.Kept.{ExplainKeptPromise};

use index::counts::Counts;
use programs::refusals::part_len;
use reasons::explained::Cause;
use reasons::lines::explain_line;
use text::refusals::Refusal;
use workspace::layout::{LABELS, PURPOSE_CELLS, ROW_CELLS, SET_WORDS, TABLE_CELLS};

// One byte more than a right line may have, which tells a longer one: `(why`, three names of at most 24 bytes and a number of at most 20,
// each behind one space, and `)` are at most 101 bytes.
pub(crate) const LINE_BYTES: usize = 102;

// The reason for a line of `len` bytes of which the first LINE_BYTES are kept, or its refusal: one that is longer is no right line, and is
// refused as a whole.
pub(crate) fn explain_kept(
    text: &[u8],
    purposes: &[usize; PURPOSE_CELLS],
    labels: &[usize; LABELS],
    sets: &[u64; SET_WORDS],
    tables: &[usize; TABLE_CELLS],
    rows: &[usize; ROW_CELLS],
    c: Counts,
    kept: &[u8],
    len: usize,
) -> Result<Cause, Refusal>
    ensures { ExplainKeptPromise text.now purposes.now labels.now sets.now tables.now rows.now c kept.now len result }
{
    let e = explain_line(text, purposes, labels, sets, tables, rows, c, kept);
    match e {
        Ok(x) => Ok(x),
        Err(r) => {
            let mut whole = r;
            whole.len = part_len(r.len, kept.len(), len);
            Err(whole)
        }
    }
}
