// Conditional roles: looking one up by its name, and adding one. A condition is not kept: what is kept is where it stands,
// as the start and the end of its line in the text and its place in the line.
ghost use Rattle.std.specs.Prelude.{◌+◌, ◌<◌, length, List, ◌≡◌};
ghost use Rattle.document.specs.Policy.{CondRole, Policy};
ghost use Rattle.principals.specs.CondRoles.{CondRoles, cond_role_end_in, cond_role_place_in, cond_role_role_in, cond_role_start_in};
ghost use Rattle.workspace.specs.Found.{FoundBelow, found_as};
ghost use Rattle.lists.specs.Lists.{find_index};
ghost use Rattle.text.specs.Words.{is_called, word_of};
ghost use Rattle.principals.specs.Promises.{AddCondRolePromise, StoreCondRolePromise};

use workspace::found::find_printed;
use workspace::layout::{COND_ROLE_CELLS, COND_ROLES};

// Where the roles, the starts and ends of the lines, the places in them, and the names' prints stand.
const ROLE_AT: usize = COND_ROLES;

const START_AT: usize = 2 * COND_ROLES;

const END_AT: usize = 3 * COND_ROLES;

const PLACE_AT: usize = 4 * COND_ROLES;

const PRINT_AT: usize = 5 * COND_ROLES;

// The conditional role of the name at i of the line, among the first k.
pub fn find_cond_role(
    text: &[u8],
    ws: &[usize; COND_ROLE_CELLS],
    k: usize,
    line: &[u8],
    i: usize,
) -> Option<usize>
    ensures { ((d : Policy) (cs : List CondRole) → CondRoles d text.now ws.now k cs → found_as result ≡ find_index (λ x. is_called (word_of line.now i) x.name) cs) × FoundBelow result k }
{
    if COND_ROLES < k {
        return None;
    }
    find_printed(text, ws, PRINT_AT, k, line, i)
}

// One conditional role more, where there is room.
fn store_cond_role(
    ws: &mut [usize],
    k: usize,
    pos: usize,
    role: usize,
    start: usize,
    end: usize,
    place: usize,
    h: usize,
)
    requires { (k < 64) × (320 + k < length ws.old) }
    ensures { StoreCondRolePromise ws.old ws.new k pos role start end place h }
{
    ws[k] = pos;
    ws[ROLE_AT + k] = role;
    ws[START_AT + k] = start;
    ws[END_AT + k] = end;
    ws[PLACE_AT + k] = place;
    ws[PRINT_AT + k] = h;
}

// One conditional role more, whose name stands at pos of the text and has the print h, and whose condition stands at `place` of the line from
// `start` to `end`.
pub fn add_cond_role(
    ws: &mut [usize; COND_ROLE_CELLS],
    k: usize,
    pos: usize,
    role: usize,
    start: usize,
    end: usize,
    place: usize,
    h: usize,
)
    ensures { AddCondRolePromise ws.old ws.new k pos role start end place h }
{
    if k < COND_ROLES {
        store_cond_role(ws, k, pos, role, start, end, place, h);
    }
}

// The role of conditional role i.
pub fn cond_role_role(ws: &[usize; COND_ROLE_CELLS], i: usize) -> usize
    ensures { i < 64 → result ≡ cond_role_role_in ws.now i }
{
    if i < COND_ROLES { ws[ROLE_AT + i] } else { 0 }
}

// Where the line of conditional role i starts and ends.
pub fn cond_role_start(ws: &[usize; COND_ROLE_CELLS], i: usize) -> usize
    ensures { i < 64 → result ≡ cond_role_start_in ws.now i }
{
    if i < COND_ROLES { ws[START_AT + i] } else { 0 }
}

pub fn cond_role_end(ws: &[usize; COND_ROLE_CELLS], i: usize) -> usize
    ensures { i < 64 → result ≡ cond_role_end_in ws.now i }
{
    if i < COND_ROLES { ws[END_AT + i] } else { 0 }
}

// Where its condition stands in the line.
pub fn cond_role_place(ws: &[usize; COND_ROLE_CELLS], i: usize) -> usize
    ensures { i < 64 → result ≡ cond_role_place_in ws.now i }
{
    if i < COND_ROLES { ws[PLACE_AT + i] } else { 0 }
}
