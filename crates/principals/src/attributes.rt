// Attributes: looking one up by its name, what one is, and adding one. The clock's three have the numbers 0, 1 and 2 and
// stand in no array; the others follow them.
ghost use Rattle.std.specs.Prelude.{◌+◌, ◌<◌, ℕ, length, List, [], ◌++◌, ◌∷◌, ◌≡◌};
ghost use Rattle.std.proofs.Math.ListN.{get_elem?};
ghost use Rattle.std.proofs.Math.Option.{some};
ghost use Rattle.condition.specs.Answers.{kind_of};
ghost use Rattle.document.specs.Policy.{Attribute};
ghost use Rattle.principals.specs.Attributes.{Attributes};
ghost use Rattle.workspace.specs.Found.{FoundBelow, found_as};
ghost use Rattle.lists.specs.Lists.{find_index};
ghost use Rattle.text.specs.Words.{is_called, word_at, word_of};

use condition::kinds::Kind;
use text::words::is_word;
use workspace::found::find_name;
use workspace::layout::{ATTRIBUTE_CELLS, ATTRIBUTES};
use workspace::store::{kind_by, kind_cell};

// Where the roles and the types stand.
const ROLE_AT: usize = ATTRIBUTES;

const KIND_AT: usize = 2 * ATTRIBUTES;

// The attribute of the name at i of the line, the clock's included; k of them stand in the array.
pub fn find_attribute(
    text: &[u8],
    ws: &[usize; ATTRIBUTE_CELLS],
    k: usize,
    line: &[u8],
    i: usize,
) -> Option<usize>
    ensures { ((xs : List Attribute) → Attributes text.now ws.now k xs → found_as result ≡ find_index (λ x. is_called (word_of line.now i) x.name) xs) × FoundBelow result (3 + k) }
{
    if is_word(line, i, b"year") {
        return Some(0);
    }
    if is_word(line, i, b"day") {
        return Some(1);
    }
    if is_word(line, i, b"hour") {
        return Some(2);
    }
    if ATTRIBUTES < k {
        return None;
    }
    let n = find_name(text, ws, 0, k, line, i)?;
    Some(3 + n)
}

// The type of attribute n.
pub fn attribute_kind(ws: &[usize; ATTRIBUTE_CELLS], k: usize, n: usize) -> Kind
    ensures { (text : List ℕ) (xs : List Attribute) (a : Attribute) → Attributes text ws.now k xs → get_elem? xs n ≡ some a → kind_of result ≡ a.kind }
{
    if n < 3 {
        return Kind::Num;
    }
    let j = n - 3;
    if ATTRIBUTES <= j {
        return Kind::Num;
    }
    kind_by(ws[KIND_AT + j])
}

// The role that attribute n is defined at: none for the clock's.
pub fn attribute_role(ws: &[usize; ATTRIBUTE_CELLS], k: usize, n: usize) -> Option<usize>
    ensures { (text : List ℕ) (xs : List Attribute) (a : Attribute) → Attributes text ws.now k xs → get_elem? xs n ≡ some a → found_as result ≡ a.role }
{
    if n < 3 {
        return None;
    }
    let j = n - 3;
    if ATTRIBUTES <= j {
        return None;
    }
    Some(ws[ROLE_AT + j])
}

// One attribute more, where there is room.
fn store_attribute(ws: &mut [usize], k: usize, pos: usize, role: usize, kind: Kind)
    requires { (k < 32) × (64 + k < length ws.old) }
    ensures { (text : List ℕ) (xs : List Attribute) → Attributes text ws.old k xs → Attributes text ws.new (k + 1) (xs ++ (record { name = word_at text pos; role = some role; kind = kind_of kind } ∷ [])) }
{
    let cell = kind_cell(kind);
    ws[k] = pos;
    ws[ROLE_AT + k] = role;
    ws[KIND_AT + k] = cell;
}

// One attribute more, whose name stands at pos of the text.
pub fn add_attribute(
    ws: &mut [usize; ATTRIBUTE_CELLS],
    k: usize,
    pos: usize,
    role: usize,
    kind: Kind,
)
    ensures { (text : List ℕ) (xs : List Attribute) → Attributes text ws.old k xs → k < 32 → Attributes text ws.new (k + 1) (xs ++ (record { name = word_at text pos; role = some role; kind = kind_of kind } ∷ [])) }
{
    if k < ATTRIBUTES {
        store_attribute(ws, k, pos, role, kind);
    }
}
