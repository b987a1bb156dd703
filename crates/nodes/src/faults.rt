// Purpose and role lines: what is wrong with one, for a root and for one below another.
ghost use Rattle.std.specs.Prelude.{◌≤◌, length};
ghost use Rattle.std.proofs.Math.Option.{none, some};
ghost use Rattle.stepping.specs.Judged.{Judges};
ghost use Rattle.form.specs.Form.{purpose, role};
ghost use Rattle.principals.specs.Nodes.{Nodes};
ghost use Rattle.purpose.specs.Members.{limit};
ghost use Rattle.text.specs.Words.{word_of};

use principals::names::{find_purpose, find_role};
use stepping::fault::Fault;
use text::refusals::Reason;
use workspace::layout::{PURPOSE_CELLS, PURPOSES, ROLE_CELLS, ROLES};

// A root purpose, whose name stands at n of the line, behind k purposes.
pub fn purpose_root_fault(
    text: &[u8],
    purposes: &[usize; PURPOSE_CELLS],
    k: usize,
    line: &[u8],
    n: usize,
) -> Result<(), Fault>
    ensures { Judges (λ d. Nodes limit text.now purposes.now k d.policy.purposes) (n ≤ length line.now) line.now (purpose (word_of line.now n) none) k limit result }
{
    if PURPOSES <= k {
        return Err(Fault::Whole(Reason::OverBound));
    }
    if find_purpose(text, purposes, k, line, n).is_some() {
        return Err(Fault::Item(Reason::NameTaken, n));
    }
    if 0 < k {
        return Err(Fault::Whole(Reason::SecondRoot));
    }
    Ok(())
}

// A purpose below the one whose name stands at p.
pub fn purpose_below_fault(
    text: &[u8],
    purposes: &[usize; PURPOSE_CELLS],
    k: usize,
    line: &[u8],
    n: usize,
    p: usize,
) -> Result<(), Fault>
    ensures { Judges (λ d. Nodes limit text.now purposes.now k d.policy.purposes) ((n ≤ length line.now) × (p ≤ length line.now)) line.now (purpose (word_of line.now n) (some (word_of line.now p))) k limit result }
{
    if PURPOSES <= k {
        return Err(Fault::Whole(Reason::OverBound));
    }
    if find_purpose(text, purposes, k, line, n).is_some() {
        return Err(Fault::Item(Reason::NameTaken, n));
    }
    if find_purpose(text, purposes, k, line, p).is_none() {
        return Err(Fault::Item(Reason::NameUnknown, p));
    }
    Ok(())
}

// A root role, whose name stands at n of the line, behind k roles.
pub fn role_root_fault(
    text: &[u8],
    roles: &[usize; ROLE_CELLS],
    k: usize,
    line: &[u8],
    n: usize,
) -> Result<(), Fault>
    ensures { Judges (λ d. Nodes 64 text.now roles.now k d.policy.roles) (n ≤ length line.now) line.now (role (word_of line.now n) none) k 64 result }
{
    if ROLES <= k {
        return Err(Fault::Whole(Reason::OverBound));
    }
    if find_role(text, roles, k, line, n).is_some() {
        return Err(Fault::Item(Reason::NameTaken, n));
    }
    Ok(())
}

// A role below the one whose name stands at p.
pub fn role_below_fault(
    text: &[u8],
    roles: &[usize; ROLE_CELLS],
    k: usize,
    line: &[u8],
    n: usize,
    p: usize,
) -> Result<(), Fault>
    ensures { Judges (λ d. Nodes 64 text.now roles.now k d.policy.roles) ((n ≤ length line.now) × (p ≤ length line.now)) line.now (role (word_of line.now n) (some (word_of line.now p))) k 64 result }
{
    if ROLES <= k {
        return Err(Fault::Whole(Reason::OverBound));
    }
    if find_role(text, roles, k, line, n).is_some() {
        return Err(Fault::Item(Reason::NameTaken, n));
    }
    if find_role(text, roles, k, line, p).is_none() {
        return Err(Fault::Item(Reason::NameUnknown, p));
    }
    Ok(())
}
