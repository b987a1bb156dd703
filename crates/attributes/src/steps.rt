// A line of an attribute or a conditional role: what is wrong with it, or what it defines is stored.
ghost use Rattle.attributes.specs.Promises.{StepAttrPromise, StepCondPromise};

use crate::attr_faults::attr_fault;
use crate::attr_storing::store_attr;
use crate::cond_faults::cond_role_fault;
use crate::cond_storing::store_cond_role;
use condition::kinds::Kind;
use index::counts::Counts;
use stepping::fault::Fault;
use workspace::layout::{ATTRIBUTE_CELLS, COND_ROLE_CELLS, ROLE_CELLS};

// An attribute, whose name stands at a, at the role whose name stands at r.
pub fn step_attr(
    text: &[u8],
    at: usize,
    line: &[u8],
    roles: &[usize; ROLE_CELLS],
    attributes: &mut [usize; ATTRIBUTE_CELLS],
    c: Counts,
    r: usize,
    a: usize,
    kind: Kind,
) -> Result<Counts, Fault>
    ensures { StepAttrPromise text.now at line.now roles.now attributes.old attributes.new c r a kind result }
{
    let k = c.attributes;
    attr_fault(
        text, roles, c.roles, attributes, k, c.users, line, r, a, kind,
    )?;
    store_attr(text, roles, c.roles, attributes, k, at, line, r, a, kind);
    let mut next = c;
    next.attributes = k + 1;
    Ok(next)
}

// A conditional role, whose name stands at n, over the role at r, with the condition at t.
pub fn step_cond(
    text: &[u8],
    at: usize,
    line: &[u8],
    roles: &[usize; ROLE_CELLS],
    attributes: &[usize; ATTRIBUTE_CELLS],
    conds: &mut [usize; COND_ROLE_CELLS],
    c: Counts,
    n: usize,
    r: usize,
    t: usize,
) -> Result<Counts, Fault>
    ensures { StepCondPromise text.now at line.now roles.now attributes.now conds.old conds.new c n r t result }
{
    let k = c.conds;
    cond_role_fault(
        text,
        roles,
        c.roles,
        attributes,
        c.attributes,
        conds,
        k,
        line,
        n,
        r,
        t,
    )?;
    store_cond_role(text, roles, c.roles, conds, k, at, line, n, r, t);
    let mut next = c;
    next.conds = k + 1;
    Ok(next)
}
