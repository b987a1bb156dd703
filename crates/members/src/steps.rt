// A line of a user or a grant: what is wrong with it, or what it defines is stored.
ghost use Rattle.members.specs.Promises.{StepGrantPromise, StepUserPromise};

use crate::grant_faults::grant_fault;
use crate::grant_storing::store_grant;
use crate::user_faults::user_fault;
use crate::user_storing::store_user;
use index::counts::Counts;
use stepping::fault::Fault;
use workspace::layout::{
    ATTRIBUTE_CELLS, COND_ROLE_CELLS, GRANT_CELLS, PURPOSE_CELLS, ROLE_CELLS, USER_CELLS,
};

// A user form: the user at u has the role at r, with the values from gs on.
pub fn step_user(
    text: &[u8],
    at: usize,
    line: &[u8],
    roles: &[usize; ROLE_CELLS],
    attributes: &[usize; ATTRIBUTE_CELLS],
    users: &mut [usize; USER_CELLS],
    c: Counts,
    u: usize,
    r: usize,
    gs: usize,
) -> Result<Counts, Fault>
    ensures { StepUserPromise text.now at line.now roles.now attributes.now users.old users.new c u r gs result }
{
    let k = c.users;
    user_fault(
        text,
        roles,
        c.roles,
        attributes,
        c.attributes,
        users,
        k,
        line,
        u,
        r,
        gs,
    )?;
    store_user(text, roles, c.roles, users, k, at, line, u, r, gs);
    let mut next = c;
    next.users = k + 1;
    Ok(next)
}

// A grant of the purpose at p to the conditional role at h.
pub fn step_grant(
    text: &[u8],
    at: usize,
    line: &[u8],
    purposes: &[usize; PURPOSE_CELLS],
    conds: &[usize; COND_ROLE_CELLS],
    grants: &mut [usize; GRANT_CELLS],
    c: Counts,
    p: usize,
    h: usize,
) -> Result<Counts, Fault>
    ensures { StepGrantPromise text.now at line.now purposes.now conds.now grants.old grants.new c p h result }
{
    let k = c.grants;
    grant_fault(text, purposes, c.purposes, conds, c.conds, k, line, p, h)?;
    store_grant(
        text, purposes, c.purposes, conds, c.conds, grants, k, line, p, h,
    );
    let mut next = c;
    next.grants = k + 1;
    Ok(next)
}
