// Storing a user.
ghost use Rattle.members.specs.Promises.{StoreUserPromise};

use principals::names::find_role;
use principals::users::add_user;
use stepping::places::{number, place};
use workspace::hashes::print_word;
use workspace::layout::{ROLE_CELLS, USER_CELLS};

// Stores the user of the name at u of the line, behind k of them, in the role of the name at r, with the values from gs on.
pub fn store_user(
    text: &[u8],
    roles: &[usize; ROLE_CELLS],
    roles_count: usize,
    users: &mut [usize; USER_CELLS],
    k: usize,
    at: usize,
    line: &[u8],
    u: usize,
    r: usize,
    gs: usize,
)
    ensures { StoreUserPromise text.now roles.now roles_count users.old users.new k at line.now u r gs }
{
    let role = number(find_role(text, roles, roles_count, line, r));
    let pos = place(text, at, u);
    let end = place(text, at, line.len());
    let w = print_word(line, u);
    add_user(users, k, pos, role, at, end, gs, w.hash);
}
