// A why line over a document.
ghost use Rattle.answer.specs.Why.{why};
ghost use Rattle.reasons.specs.Explaining.{explained_as};
ghost use Rattle.telling.specs.Telling.{Fitting, Tells};

use crate::lines::put_reason;
use checker::loading::load;
use reasons::explained::Cause;
use reasons::lines::explain_line;
use text::refusals::Refusal;
use workspace::layout::{
    ATTRIBUTE_CELLS, COND_ROLE_CELLS, GRANT_CELLS, LABELS, PURPOSE_CELLS, ROLE_CELLS, ROW_CELLS,
    SET_WORDS, TABLE_CELLS, USER_CELLS,
};

// The most bytes of a line: `(closed deny `, a name, `)` and a line feed.
pub const LINE_BYTES: usize = 39;

// What was found, told: a reason's line fills the first bytes of the lent buffer, a refusal leaves it.
pub fn tell(
    doc: &[u8],
    e: Result<Cause, Refusal>,
    out: &mut [u8; LINE_BYTES],
) -> Result<usize, Refusal>
    ensures { Fitting (explained_as doc.now e) → Tells (explained_as doc.now e) out.old out.new result }
{
    let x = e?;
    Ok(put_reason(out, doc, x))
}

// Why a cell of the document is open or closed: the line of the reason in the lent buffer, or a refusal.
pub fn why(doc: &[u8], line: &[u8], out: &mut [u8; LINE_BYTES]) -> Result<usize, Refusal>
    ensures { Tells (why doc.now line.now) out.old out.new result }
{
    let mut purposes = [0usize; PURPOSE_CELLS];
    let mut roles = [0usize; ROLE_CELLS];
    let mut attributes = [0usize; ATTRIBUTE_CELLS];
    let mut users = [0usize; USER_CELLS];
    let mut conds = [0usize; COND_ROLE_CELLS];
    let mut grants = [0usize; GRANT_CELLS];
    let mut labels = [0usize; LABELS];
    let mut sets = [0u64; SET_WORDS];
    let mut tables = [0usize; TABLE_CELLS];
    let mut rows = [0usize; ROW_CELLS];
    let (c, _) = load(
        doc,
        &mut purposes,
        &mut roles,
        &mut attributes,
        &mut users,
        &mut conds,
        &mut grants,
        &mut labels,
        &mut sets,
        &mut tables,
        &mut rows,
    )?;
    let e = explain_line(doc, &purposes, &labels, &sets, &tables, &rows, c, line);
    tell(doc, e, out)
}
