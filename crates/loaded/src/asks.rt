// Asking a document that was loaded before. Whatever the arrays hold, a call returns; over those that hold this very text it gives
// what asking the text gives.
ghost use Rattle.loaded.specs.Promises.{AskLoadedPromise, AskUnboundedPromise};
ghost use Rattle.query.specs.HostClock.{clock_of};

use crate::cells::{CELLS, counts_of};
use crate::room::within_room;
use query::clock::Clock;
use stages::accepted::ask_accepted;
use stages::answered::Figures;
use text::refusals::Refusal;
use workspace::layout::{
    ATTRIBUTE_CELLS, COND_ROLE_CELLS, GRANT_CELLS, PURPOSE_CELLS, ROLE_CELLS, ROW_CELLS, SET_WORDS,
    TABLE_CELLS, USER_CELLS,
};

// Asks the document, 18 aside: an answer that is longer than the lent buffer is given in figures only.
pub(crate) fn ask_unbounded(
    text: &[u8],
    purposes: &[usize; PURPOSE_CELLS],
    roles: &[usize; ROLE_CELLS],
    attributes: &[usize; ATTRIBUTE_CELLS],
    users: &[usize; USER_CELLS],
    conds: &[usize; COND_ROLE_CELLS],
    grants: &[usize; GRANT_CELLS],
    sets: &[u64; SET_WORDS],
    tables: &[usize; TABLE_CELLS],
    rows: &[usize; ROW_CELLS],
    cells: &[usize; CELLS],
    clock: Clock,
    query: &[u8],
    out: &mut [u8],
) -> Result<Figures, Refusal>
    ensures { AskUnboundedPromise text.now purposes.now roles.now attributes.now users.now conds.now grants.now sets.now tables.now rows.now cells.now (clock_of clock) query.now out.old out.new result }
{
    let c = counts_of(cells);
    ask_accepted(
        text, purposes, roles, attributes, users, conds, grants, sets, tables, rows, c, clock,
        query, out,
    )
}

// Asks the document with the query at the clock's time; an answer fills the first bytes of the lent buffer, a refusal leaves it.
pub fn ask_loaded(
    text: &[u8],
    purposes: &[usize; PURPOSE_CELLS],
    roles: &[usize; ROLE_CELLS],
    attributes: &[usize; ATTRIBUTE_CELLS],
    users: &[usize; USER_CELLS],
    conds: &[usize; COND_ROLE_CELLS],
    grants: &[usize; GRANT_CELLS],
    sets: &[u64; SET_WORDS],
    tables: &[usize; TABLE_CELLS],
    rows: &[usize; ROW_CELLS],
    cells: &[usize; CELLS],
    clock: Clock,
    query: &[u8],
    out: &mut [u8],
) -> Result<Figures, Refusal>
    ensures { AskLoadedPromise text.now purposes.now roles.now attributes.now users.now conds.now grants.now sets.now tables.now rows.now cells.now (clock_of clock) query.now out.old out.new result }
{
    let room = out.len();
    let a = ask_unbounded(
        text, purposes, roles, attributes, users, conds, grants, sets, tables, rows, cells, clock,
        query, out,
    );
    within_room(a, room)
}
