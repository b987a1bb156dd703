// Grant lines: what is wrong with one.
ghost use Rattle.members.specs.Promises.{GrantFaultPromise};

use principals::conds::find_cond_role;
use principals::names::find_purpose;
use stepping::fault::Fault;
use text::refusals::Reason;
use workspace::layout::{COND_ROLE_CELLS, GRANTS, PURPOSE_CELLS};

// The purpose whose name stands at p of the line, granted to the conditional role whose name stands at c, behind k grants.
pub fn grant_fault(
    text: &[u8],
    purposes: &[usize; PURPOSE_CELLS],
    purposes_count: usize,
    conds: &[usize; COND_ROLE_CELLS],
    conds_count: usize,
    k: usize,
    line: &[u8],
    p: usize,
    c: usize,
) -> Result<(), Fault>
    ensures { GrantFaultPromise text.now purposes.now purposes_count conds.now conds_count k line.now p c result }
{
    if GRANTS <= k {
        return Err(Fault::Whole(Reason::OverBound));
    }
    if find_purpose(text, purposes, purposes_count, line, p).is_none() {
        return Err(Fault::Item(Reason::NameUnknown, p));
    }
    if find_cond_role(text, conds, conds_count, line, c).is_none() {
        return Err(Fault::Item(Reason::NameUnknown, c));
    }
    Ok(())
}
