// Storing a grant.
ghost use Rattle.members.specs.Promises.{StoreGrantPromise};

use principals::conds::find_cond_role;
use principals::grants::add_grant;
use principals::names::find_purpose;
use stepping::places::number;
use workspace::layout::{COND_ROLE_CELLS, GRANT_CELLS, PURPOSE_CELLS};

// Stores the grant of the purpose of the name at p of the line to the conditional role of the name at c, behind k of them.
pub fn store_grant(
    text: &[u8],
    purposes: &[usize; PURPOSE_CELLS],
    purposes_count: usize,
    conds: &[usize; COND_ROLE_CELLS],
    conds_count: usize,
    grants: &mut [usize; GRANT_CELLS],
    k: usize,
    line: &[u8],
    p: usize,
    c: usize,
)
    ensures { StoreGrantPromise text.now purposes.now purposes_count conds.now conds_count grants.old grants.new k line.now p c }
{
    let granted = number(find_purpose(text, purposes, purposes_count, line, p));
    let holder = number(find_cond_role(text, conds, conds_count, line, c));
    add_grant(grants, k, granted, holder);
}
