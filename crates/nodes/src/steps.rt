// A line of a purpose or a role: what is wrong with it, or what it defines is stored.
ghost use Rattle.nodes.specs.Promises.{StepPurposeBelowPromise, StepPurposeRootPromise, StepRoleBelowPromise, StepRoleRootPromise};

use crate::faults::{purpose_below_fault, purpose_root_fault, role_below_fault, role_root_fault};
use crate::storing::{store_purpose_below, store_purpose_root, store_role_below, store_role_root};
use index::counts::Counts;
use stepping::fault::Fault;
use workspace::layout::{PURPOSE_CELLS, ROLE_CELLS};

// A root purpose, whose name stands at n.
pub fn step_purpose_root(
    text: &[u8],
    at: usize,
    line: &[u8],
    purposes: &mut [usize; PURPOSE_CELLS],
    c: Counts,
    n: usize,
) -> Result<Counts, Fault>
    ensures { StepPurposeRootPromise text.now at line.now purposes.old purposes.new c n result }
{
    let k = c.purposes;
    purpose_root_fault(text, purposes, k, line, n)?;
    store_purpose_root(text, purposes, k, at, line, n);
    let mut next = c;
    next.purposes = k + 1;
    Ok(next)
}

// A purpose below the one whose name stands at p.
pub fn step_purpose_below(
    text: &[u8],
    at: usize,
    line: &[u8],
    purposes: &mut [usize; PURPOSE_CELLS],
    c: Counts,
    n: usize,
    p: usize,
) -> Result<Counts, Fault>
    ensures { StepPurposeBelowPromise text.now at line.now purposes.old purposes.new c n p result }
{
    let k = c.purposes;
    purpose_below_fault(text, purposes, k, line, n, p)?;
    store_purpose_below(text, purposes, k, at, line, n, p);
    let mut next = c;
    next.purposes = k + 1;
    Ok(next)
}

// A root role, whose name stands at n.
pub fn step_role_root(
    text: &[u8],
    at: usize,
    line: &[u8],
    roles: &mut [usize; ROLE_CELLS],
    c: Counts,
    n: usize,
) -> Result<Counts, Fault>
    ensures { StepRoleRootPromise text.now at line.now roles.old roles.new c n result }
{
    let k = c.roles;
    role_root_fault(text, roles, k, line, n)?;
    store_role_root(text, roles, k, at, line, n);
    let mut next = c;
    next.roles = k + 1;
    Ok(next)
}

// A role below the one whose name stands at p.
pub fn step_role_below(
    text: &[u8],
    at: usize,
    line: &[u8],
    roles: &mut [usize; ROLE_CELLS],
    c: Counts,
    n: usize,
    p: usize,
) -> Result<Counts, Fault>
    ensures { StepRoleBelowPromise text.now at line.now roles.old roles.new c n p result }
{
    let k = c.roles;
    role_below_fault(text, roles, k, line, n, p)?;
    store_role_below(text, roles, k, at, line, n, p);
    let mut next = c;
    next.roles = k + 1;
    Ok(next)
}
