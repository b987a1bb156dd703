// Users: names from 0, roles from 256, the start and the end of the line from 512 and 768, the place of the values in it from
// 1,024, the names' prints from 1,280.
ghost use Rattle.std.specs.Prelude.{◌+◌, ◌<◌, ℕ, eqb, length, ◌&&◌, List, [], ◌++◌, ◌∷◌, map, ◌≡◌};
ghost use Rattle.document.specs.Meaning.{given_of};
ghost use Rattle.document.specs.Policy.{Policy, User};
ghost use Rattle.form.specs.Walks.{givens_at};
ghost use Rattle.workspace.specs.Cells.{line_in};
ghost use Rattle.workspace.specs.Found.{FoundBelow, found_as};
ghost use Rattle.workspace.specs.Hash.{Printed, print_of};
ghost use Rattle.principals.specs.Users.{Users, user_end_in, user_passes, user_place_in, user_role_in, user_start_in};
ghost use Rattle.lists.specs.Lists.{any_of, find_index};
ghost use Rattle.text.specs.Words.{is_called, word_at, word_of};

use workspace::found::{find_printed, same_length_name};
use workspace::hashes::print_word;
use workspace::layout::{USER_CELLS, USERS};
use workspace::store::put;

// Whether user form i has the name of len bytes at u of the line, whose print is h, and this role. A name with another print is another.
fn is_user(
    text: &[u8],
    ws: &[usize; USER_CELLS],
    i: usize,
    line: &[u8],
    u: usize,
    len: usize,
    h: usize,
    role: usize,
) -> bool
    requires { i < 256 }
    ensures { Printed 1280 text.now ws.now i → len ≡ length (word_at line.now u) → h ≡ print_of (word_at line.now u) → result ≡ user_passes (word_of line.now u) text.now ws.now role i }
{
    if ws[5 * USERS + i] != h {
        return false;
    }
    if ws[USERS + i] == role {
        return same_length_name(line, u, len, text, ws[i]);
    }
    false
}

// The user form, among the first k, that gives the user of the name at u of the line this role.
pub fn find_user(
    text: &[u8],
    ws: &[usize; USER_CELLS],
    k: usize,
    line: &[u8],
    u: usize,
    role: usize,
) -> Option<usize>
    ensures { ((d : Policy) (us : List User) → Users d text.now ws.now k us → found_as result ≡ find_index (λ x. is_called (word_of line.now u) x.name && eqb x.role role) us) × FoundBelow result k }
{
    if USERS < k {
        return None;
    }
    let w = print_word(line, u);
    let e = w.end;
    let h = w.hash;
    let len = e - u;
    for i in 0..k {
        if is_user(text, ws, i, line, u, len, h, role) {
            return Some(i);
        }
    }
    None
}

// Whether one of the first k user forms has the name at u of the line.
pub fn user_named(text: &[u8], ws: &[usize; USER_CELLS], k: usize, line: &[u8], u: usize) -> bool
    ensures { (d : Policy) (us : List User) → Users d text.now ws.now k us → result ≡ any_of (λ x. is_called (word_of line.now u) x.name) us }
{
    if USERS < k {
        return false;
    }
    find_printed(text, ws, 5 * USERS, k, line, u).is_some()
}

// One user form more, behind k of them: its name stands at pos of the text and has the print h, its line stands from start to end, and
// its values from a place of the line on. Nothing is stored where there is no room.
pub fn add_user(
    ws: &mut [usize; USER_CELLS],
    k: usize,
    pos: usize,
    role: usize,
    start: usize,
    end: usize,
    place: usize,
    h: usize,
)
    ensures { (d : Policy) (text : List ℕ) (us : List User) → Users d text ws.old k us → h ≡ print_of (word_at text pos) → k < 256 → Users d text ws.new (k + 1) (us ++ (record { name = word_at text pos; role = role; values = map (given_of d) (givens_at (line_in text start end) place) } ∷ [])) }
{
    if k < USERS {
        put(ws, k, pos);
        put(ws, USERS + k, role);
        put(ws, 2 * USERS + k, start);
        put(ws, 3 * USERS + k, end);
        put(ws, 4 * USERS + k, place);
        put(ws, 5 * USERS + k, h);
    }
}

// The role of user form i.
pub fn user_role(ws: &[usize; USER_CELLS], i: usize) -> usize
    ensures { i < 256 → result ≡ user_role_in ws.now i }
{
    if i < USERS { ws[USERS + i] } else { 0 }
}

// Where the line of user form i starts and ends.
pub fn user_start(ws: &[usize; USER_CELLS], i: usize) -> usize
    ensures { i < 256 → result ≡ user_start_in ws.now i }
{
    if i < USERS { ws[2 * USERS + i] } else { 0 }
}

pub fn user_end(ws: &[usize; USER_CELLS], i: usize) -> usize
    ensures { i < 256 → result ≡ user_end_in ws.now i }
{
    if i < USERS { ws[3 * USERS + i] } else { 0 }
}

// Where its values stand in the line.
pub fn user_place(ws: &[usize; USER_CELLS], i: usize) -> usize
    ensures { i < 256 → result ≡ user_place_in ws.now i }
{
    if i < USERS { ws[4 * USERS + i] } else { 0 }
}
