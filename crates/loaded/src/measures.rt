// How long an answer of a loaded document is, so that a host can lend exactly enough.
ghost use Rattle.loaded.specs.Promises.{MeasureLoadedPromise};
ghost use Rattle.query.specs.HostClock.{clock_of};

use crate::asks::ask_unbounded;
use crate::cells::CELLS;
use query::clock::Clock;
use text::refusals::Refusal;
use workspace::layout::{
    ATTRIBUTE_CELLS, COND_ROLE_CELLS, GRANT_CELLS, PURPOSE_CELLS, ROLE_CELLS, ROW_CELLS, SET_WORDS,
    TABLE_CELLS, USER_CELLS,
};

// Measures the answer to the query at the clock's time. Nothing of the answer is held.
pub fn measure_loaded(
    text: &[u8],
    purposes: &[usize; PURPOSE_CELLS],
    roles: &[usize; ROLE_CELLS],
    attributes: &[usize; ATTRIBUTE_CELLS],
    users: &[usize; USER_CELLS],
    conds: &[usize; COND_ROLE_CELLS],
    grants: &[usize; GRANT_CELLS],
    sets: &[u64; SET_WORDS],
    tables: &[usize; TABLE_CELLS],
    rows: &[usize; ROW_CELLS],
    cells: &[usize; CELLS],
    clock: Clock,
    query: &[u8],
) -> Result<usize, Refusal>
    ensures { MeasureLoadedPromise text.now purposes.now roles.now attributes.now users.now conds.now grants.now sets.now tables.now rows.now cells.now (clock_of clock) query.now result }
{
    let mut nothing = [0u8; 1];
    let f = ask_unbounded(
        text,
        purposes,
        roles,
        attributes,
        users,
        conds,
        grants,
        sets,
        tables,
        rows,
        cells,
        clock,
        query,
        &mut nothing[..0],
    )?;
    Ok(f.len)
}
