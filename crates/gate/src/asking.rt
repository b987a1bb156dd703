// Asking: a query over a document, its answer in a lent buffer.
ghost use Rattle.loaded.specs.Outside.{Asks};
ghost use Rattle.query.specs.HostClock.{clock_of};

use crate::documents::hold;
use loaded::asks::ask_loaded;
use loaded::cells::CELLS;
use query::clock::Clock;
use stages::answered::Figures;
use text::refusals::Refusal;
use workspace::layout::{
    ATTRIBUTE_CELLS, COND_ROLE_CELLS, GRANT_CELLS, LABELS, PURPOSE_CELLS, ROLE_CELLS, ROW_CELLS,
    SET_WORDS, TABLE_CELLS, USER_CELLS,
};

// Asks the document with the query at the clock's time: loads it, then asks it. An answer fills the first bytes of the lent buffer, a
// refusal leaves it.
pub fn ask(doc: &[u8], query: &[u8], clock: Clock, out: &mut [u8]) -> Result<Figures, Refusal>
    ensures { Asks doc.now query.now (clock_of clock) out.old out.new result }
{
    let mut purposes = [0usize; PURPOSE_CELLS];
    let mut roles = [0usize; ROLE_CELLS];
    let mut attributes = [0usize; ATTRIBUTE_CELLS];
    let mut users = [0usize; USER_CELLS];
    let mut conds = [0usize; COND_ROLE_CELLS];
    let mut grants = [0usize; GRANT_CELLS];
    let mut labels = [0usize; LABELS];
    let mut sets = [0u64; SET_WORDS];
    let mut tables = [0usize; TABLE_CELLS];
    let mut rows = [0usize; ROW_CELLS];
    let mut cells = [0usize; CELLS];
    hold(
        doc,
        &mut purposes,
        &mut roles,
        &mut attributes,
        &mut users,
        &mut conds,
        &mut grants,
        &mut labels,
        &mut sets,
        &mut tables,
        &mut rows,
        &mut cells,
    )?;
    ask_loaded(
        doc,
        &purposes,
        &roles,
        &attributes,
        &users,
        &conds,
        &grants,
        &sets,
        &tables,
        &rows,
        &cells,
        clock,
        query,
        out,
    )
}
