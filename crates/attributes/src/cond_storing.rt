// Storing a conditional role.
ghost use Rattle.attributes.specs.Promises.{StoreCondRolePromise};

use principals::conds::add_cond_role;
use principals::names::find_role;
use stepping::places::{number, place};
use workspace::hashes::print_word;
use workspace::layout::{COND_ROLE_CELLS, ROLE_CELLS};

// Stores the conditional role of the name at c of the line, behind k of them, over the role of the name at r, with the condition
// at t.
pub fn store_cond_role(
    text: &[u8],
    roles: &[usize; ROLE_CELLS],
    roles_count: usize,
    conds: &mut [usize; COND_ROLE_CELLS],
    k: usize,
    at: usize,
    line: &[u8],
    c: usize,
    r: usize,
    t: usize,
)
    ensures { StoreCondRolePromise text.now roles.now roles_count conds.old conds.new k at line.now c r t }
{
    let role = number(find_role(text, roles, roles_count, line, r));
    let pos = place(text, at, c);
    let end = place(text, at, line.len());
    let w = print_word(line, c);
    add_cond_role(conds, k, pos, role, at, end, t, w.hash);
}
