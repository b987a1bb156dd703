// Asking over an accepted document.
ghost use Rattle.document.specs.Policy.{Doc};
ghost use Rattle.query.specs.HostClock.{clock_of};
ghost use Rattle.stages.specs.Stages.{Standing};
ghost use Rattle.stages.specs.Tails.{Gives, if_timed};

use crate::answered::Figures;
use crate::granted::ask_granted;
use crate::refusing::refused_at;
use authority::grants::authorising_grant;
use authority::purposes::purpose_closure;
use index::counts::Counts;
use query::clock::{Clock, in_range};
use query::reading::read_query;
use relations::labels::say_labels;
use resolving::parties::{PartyFault, find_parties};
use text::refusals::{Reason, Refusal, Source};
use workspace::layout::{
    ATTRIBUTE_CELLS, COND_ROLE_CELLS, GRANT_CELLS, PURPOSE_CELLS, ROLE_CELLS, ROW_CELLS, SET_WORDS,
    TABLE_CELLS, USER_CELLS, VERDICTS,
};

// The answer to a query over an accepted document (10 to 16, 27, 31, 17, and the rows): each refusal in this order.
pub fn ask_accepted(
    text: &[u8],
    purposes: &[usize; PURPOSE_CELLS],
    roles: &[usize; ROLE_CELLS],
    attributes: &[usize; ATTRIBUTE_CELLS],
    users: &[usize; USER_CELLS],
    conds: &[usize; COND_ROLE_CELLS],
    grants: &[usize; GRANT_CELLS],
    sets: &[u64; SET_WORDS],
    tables: &[usize; TABLE_CELLS],
    rows: &[usize; ROW_CELLS],
    c: Counts,
    clock: Clock,
    query: &[u8],
    out: &mut [u8],
) -> Result<Figures, Refusal>
    ensures { (d : Doc) → Standing text.now purposes.now roles.now attributes.now users.now conds.now grants.now sets.now tables.now rows.now c d → Gives (if_timed d (clock_of clock) query.now) out.old out.new result }
{
    if !in_range(clock) {
        return Err(Refusal {
            reason: Reason::ClockOutOfRange,
            source: Source::Query,
            start: 0,
            len: 0,
        });
    }
    let Some(q) = read_query(query) else {
        return Err(Refusal {
            reason: Reason::NotAQuery,
            source: Source::Query,
            start: 0,
            len: query.len(),
        });
    };
    let h = q.head;
    let (purpose, user) = match find_parties(text, purposes, roles, users, c, query, q) {
        Ok(who) => who,
        Err(PartyFault::Unknown(at)) => return refused_at(query, Reason::UnknownParty, at),
        Err(PartyFault::NotGiven) => return refused_at(query, Reason::RoleNotGiven, h.role),
    };
    let closure = purpose_closure(purposes, c.purposes, purpose);
    let found = authorising_grant(
        text, closure, roles, attributes, users, conds, grants, c, clock, user,
    );
    let Some(grant) = found else {
        return refused_at(query, Reason::NotAuthorised, h.purpose);
    };
    let mut said = [false; VERDICTS];
    say_labels(closure, sets, c.labels, &mut said);
    ask_granted(text, tables, rows, c, &said, query, q, grant, out)
}
