// Purposes and roles: looking one up by its name, adding one, and whether a role stands below another.
ghost use Rattle.std.specs.Prelude.{◌*◌, ◌+◌, ◌<◌, ◌≤◌, ℕ, length, List, [], ◌++◌, ◌∷◌, ◌≡◌};
ghost use Rattle.workspace.specs.Hash.{hash_of, slots};
ghost use Rattle.workspace.specs.Found.{FoundBelow, found_as};
ghost use Rattle.principals.specs.Nodes.{Nodes, Seeks, first_hashed};
ghost use Rattle.document.specs.Policy.{Node, tree_of};
ghost use Rattle.lists.specs.Lists.{find_index};
ghost use Rattle.purpose.specs.Compliance.{descends};
ghost use Rattle.purpose.specs.Members.{limit};
ghost use Rattle.text.specs.Words.{is_called, word_at, word_of};

use workspace::found::same_length_name;
use workspace::hashes::hash_word;
use workspace::layout::{PURPOSE_CELLS, PURPOSES, ROLE_CELLS, ROLES, SLOTS};
use workspace::store::put;

// What looking a name up gives: its number, if it is known; where the word ends, and its hash.
#[derive(Clone, Copy)]
pub struct Sought {
    pub found: Option<usize>,
    pub end: usize,
    pub hash: usize,
}

// The first of the names among the first k that has the hash h; k where none has it.
fn first_hashed(ws: &[usize], room: usize, k: usize, h: usize) -> usize
    requires { (k ≤ room) × (3 * room + slots ≤ length ws.now) × (h < slots) }
    ensures { result ≡ first_hashed room ws.now k h }
{
    let j = ws[3 * room + h];
    if j < k {
        if ws[2 * room + j] == h {
            return j;
        }
    }
    k
}

// The purpose or role of the name of len bytes at i of the line, whose hash is h, among the first k. Names with another hash are others.
fn find_node(
    text: &[u8],
    ws: &[usize],
    room: usize,
    k: usize,
    line: &[u8],
    i: usize,
    len: usize,
    h: usize,
) -> Option<usize>
    requires { (k ≤ room) × (3 * room + slots ≤ length ws.now) × (h < slots) }
    ensures { ((ns : List Node) → Nodes room text.now ws.now k ns → len ≡ length (word_at line.now i) → h ≡ hash_of (word_at line.now i) → found_as result ≡ find_index (λ x. is_called (word_of line.now i) x.name) ns) × FoundBelow result k }
{
    for j in first_hashed(ws, room, k, h)..k {
        if ws[2 * room + j] == h {
            if same_length_name(line, i, len, text, ws[j]) {
                return Some(j);
            }
        }
    }
    None
}

// Looks the name at i of the line up among the first k, of which there is room for `room`: one walk over it, for its end and its hash.
fn seek_node(text: &[u8], ws: &[usize], room: usize, k: usize, line: &[u8], i: usize) -> Sought
    requires { (k ≤ room) × (3 * room + slots ≤ length ws.now) }
    ensures { Seeks room text.now ws.now k line.now i result }
{
    let w = hash_word(line, i);
    let e = w.end;
    let h = w.hash;
    let found = find_node(text, ws, room, k, line, i, e - i, h);
    Sought {
        found,
        end: e,
        hash: h,
    }
}

// Looks the name at i of the line up among the first k purposes.
pub fn seek_purpose(
    text: &[u8],
    ws: &[usize; PURPOSE_CELLS],
    k: usize,
    line: &[u8],
    i: usize,
) -> Sought
    ensures { Seeks limit text.now ws.now k line.now i result }
{
    if PURPOSES < k {
        let w = hash_word(line, i);
        return Sought {
            found: None,
            end: w.end,
            hash: w.hash,
        };
    }
    seek_node(text, ws, PURPOSES, k, line, i)
}

// The purpose of the name at i of the line, among the first k.
pub fn find_purpose(
    text: &[u8],
    ws: &[usize; PURPOSE_CELLS],
    k: usize,
    line: &[u8],
    i: usize,
) -> Option<usize>
    ensures { ((ns : List Node) → Nodes limit text.now ws.now k ns → found_as result ≡ find_index (λ x. is_called (word_of line.now i) x.name) ns) × FoundBelow result k }
{
    let s = seek_purpose(text, ws, k, line, i);
    s.found
}

// The role of the name at i of the line, among the first k.
pub fn find_role(
    text: &[u8],
    ws: &[usize; ROLE_CELLS],
    k: usize,
    line: &[u8],
    i: usize,
) -> Option<usize>
    ensures { ((ns : List Node) → Nodes 64 text.now ws.now k ns → found_as result ≡ find_index (λ x. is_called (word_of line.now i) x.name) ns) × FoundBelow result k }
{
    if ROLES < k {
        return None;
    }
    let s = seek_node(text, ws, ROLES, k, line, i);
    s.found
}

// One more among the purposes or the roles, of which there is room for `room`; h is its name's hash. The slot keeps the first name.
fn add_node(ws: &mut [usize], room: usize, k: usize, pos: usize, parent: usize, h: usize)
    requires { (k < room) × (3 * room + slots ≤ length ws.old) × (h < slots) }
    ensures { (text : List ℕ) (ns : List Node) → Nodes room text ws.old k ns → h ≡ hash_of (word_at text pos) → Nodes room text ws.new (k + 1) (ns ++ (record { name = word_at text pos; parent = parent } ∷ [])) }
{
    let first = first_hashed(ws, room, k, h);
    put(ws, k, pos);
    put(ws, room + k, parent);
    put(ws, 2 * room + k, h);
    put(ws, 3 * room + h, first);
}

// One purpose more, whose name stands at pos of the text and has the hash h.
pub fn add_purpose(ws: &mut [usize; PURPOSE_CELLS], k: usize, pos: usize, parent: usize, h: usize)
    ensures { (text : List ℕ) (ns : List Node) → Nodes limit text ws.old k ns → h ≡ hash_of (word_at text pos) → k < limit → Nodes limit text ws.new (k + 1) (ns ++ (record { name = word_at text pos; parent = parent } ∷ [])) }
{
    if k < PURPOSES {
        if h < SLOTS {
            add_node(ws, PURPOSES, k, pos, parent, h);
        }
    }
}

// One role more, whose name stands at pos of the text and has the hash h.
pub fn add_role(ws: &mut [usize; ROLE_CELLS], k: usize, pos: usize, parent: usize, h: usize)
    ensures { (text : List ℕ) (ns : List Node) → Nodes 64 text ws.old k ns → h ≡ hash_of (word_at text pos) → k < 64 → Nodes 64 text ws.new (k + 1) (ns ++ (record { name = word_at text pos; parent = parent } ∷ [])) }
{
    if k < ROLES {
        if h < SLOTS {
            add_node(ws, ROLES, k, pos, parent, h);
        }
    }
}

// Whether role r is role a or stands below it, among the first k.
pub fn role_below(ws: &[usize; ROLE_CELLS], k: usize, r: usize, a: usize) -> bool
    ensures { (text : List ℕ) (ns : List Node) → Nodes 64 text ws.now k ns → result ≡ descends (tree_of ns) r a }
{
    if ROLES < k {
        return false;
    }
    let mut x = r;
    while x < k {
        if x == a {
            return true;
        }
        let above = ws[ROLES + x];
        if x <= above {
            return false;
        }
        x = above;
    }
    x == a
}
