// Two documents asked alike.
ghost use Rattle.pairs.specs.Both.{AskedAlike, AsksBoth};
ghost use Rattle.loaded.specs.Promises.{AskLoadedPromise};
ghost use Rattle.query.specs.HostClock.{clock_of};

use gate::asking::ask;
use loaded::asks::ask_loaded;
use loaded::cells::CELLS;
use query::clock::Clock;
use stages::answered::Figures;
use text::refusals::Refusal;
use workspace::layout::{
    ATTRIBUTE_CELLS, COND_ROLE_CELLS, GRANT_CELLS, PURPOSE_CELLS, ROLE_CELLS, ROW_CELLS, SET_WORDS,
    TABLE_CELLS, USER_CELLS,
};

// The answers of two documents.
#[derive(Clone, Copy)]
pub struct Pair {
    pub first: Result<Figures, Refusal>,
    pub second: Result<Figures, Refusal>,
}

// Asks two documents with one query and one clock, each into its own lent buffer.
pub fn ask_both(
    a: &[u8],
    b: &[u8],
    query: &[u8],
    clock: Clock,
    out: &mut [u8],
    other: &mut [u8],
) -> Pair
    ensures { AsksBoth a.now b.now query.now (clock_of clock) out.old out.new other.old other.new result }
{
    let first = ask(a, query, clock, out);
    let second = ask(b, query, clock, other);
    Pair { first, second }
}

// Asks two loaded documents with one query and one clock, each into its own lent buffer; the arrays of the second have a 2 in their names.
pub fn ask_both_loaded(
    a: &[u8],
    purposes: &[usize; PURPOSE_CELLS],
    roles: &[usize; ROLE_CELLS],
    attributes: &[usize; ATTRIBUTE_CELLS],
    users: &[usize; USER_CELLS],
    conds: &[usize; COND_ROLE_CELLS],
    grants: &[usize; GRANT_CELLS],
    sets: &[u64; SET_WORDS],
    tables: &[usize; TABLE_CELLS],
    rows: &[usize; ROW_CELLS],
    cells: &[usize; CELLS],
    b: &[u8],
    purposes2: &[usize; PURPOSE_CELLS],
    roles2: &[usize; ROLE_CELLS],
    attributes2: &[usize; ATTRIBUTE_CELLS],
    users2: &[usize; USER_CELLS],
    conds2: &[usize; COND_ROLE_CELLS],
    grants2: &[usize; GRANT_CELLS],
    sets2: &[u64; SET_WORDS],
    tables2: &[usize; TABLE_CELLS],
    rows2: &[usize; ROW_CELLS],
    cells2: &[usize; CELLS],
    clock: Clock,
    query: &[u8],
    out: &mut [u8],
    other: &mut [u8],
) -> Pair
    ensures ask_loaded_promise { AskLoadedPromise a.now purposes.now roles.now attributes.now users.now conds.now grants.now sets.now tables.now rows.now cells.now (clock_of clock) query.now out.old out.new result.first }
    ensures ask_loaded_promise_2 { AskLoadedPromise b.now purposes2.now roles2.now attributes2.now users2.now conds2.now grants2.now sets2.now tables2.now rows2.now cells2.now (clock_of clock) query.now other.old other.new result.second }
    ensures asked_alike { AskedAlike a.now b.now query.now (clock_of clock) out.old out.new other.old other.new result }
{
    let first = ask_loaded(
        a, purposes, roles, attributes, users, conds, grants, sets, tables, rows, cells, clock,
        query, out,
    );
    let second = ask_loaded(
        b,
        purposes2,
        roles2,
        attributes2,
        users2,
        conds2,
        grants2,
        sets2,
        tables2,
        rows2,
        cells2,
        clock,
        query,
        other,
    );
    Pair { first, second }
}
