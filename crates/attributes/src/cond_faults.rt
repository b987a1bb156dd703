// A line of a conditional role: its condition is read again, and its comparisons are walked through by the places of their
// operators.
ghost use Rattle.std.specs.Prelude.{◌≤◌, length, ◌≡◌};
ghost use Rattle.condition.specs.Answers.{kind_of};
ghost use Rattle.document.specs.Lookup.{attribute_kind};
ghost use Rattle.document.specs.NameFaults.{usable_for};
ghost use Rattle.document.specs.Policy.{Policy};
ghost use Rattle.principals.specs.Attributes.{Attributes};
ghost use Rattle.principals.specs.Nodes.{Nodes};
ghost use Rattle.text.specs.Words.{word_of};
ghost use Rattle.attributes.specs.Promises.{CondRoleFaultPromise, FirstMistypedPromise, FirstUnusablePromise};

use condition::comparisons::wrong_type;
use condition::conditions::read_places;
use condition::kinds::Kind;
use principals::attributes::{attribute_kind, attribute_role, find_attribute};
use principals::conds::find_cond_role;
use principals::names::{find_role, role_below};
use stepping::fault::Fault;
use text::refusals::Reason;
use text::walking::next_word;
use workspace::layout::{ATTRIBUTE_CELLS, COND_ROLE_CELLS, COND_ROLES, ROLE_CELLS};

// The most comparisons that a condition may have.
const COMPARISONS: usize = 64;

// Whether a condition over the role may use the attribute of the name at a position: the clock's, or one that the role has.
fn usable(
    text: &[u8],
    roles: &[usize; ROLE_CELLS],
    m: usize,
    attributes: &[usize; ATTRIBUTE_CELLS],
    n: usize,
    line: &[u8],
    role: usize,
    at: usize,
) -> bool
    ensures { (d : Policy) → Nodes 64 text.now roles.now m d.roles → Attributes text.now attributes.now n d.attributes → result ≡ usable_for d role (word_of line.now at) }
{
    let Some(a) = find_attribute(text, attributes, n, line, at) else {
        return false;
    };
    match attribute_role(attributes, n, a) {
        Some(q) => role_below(roles, m, role, q),
        None => true,
    }
}

// The first of the comparisons' attributes that is not usable; the operators stand at the first `count` of the places.
fn first_unusable(
    text: &[u8],
    roles: &[usize; ROLE_CELLS],
    m: usize,
    attributes: &[usize; ATTRIBUTE_CELLS],
    n: usize,
    line: &[u8],
    role: usize,
    ops: &[usize; COMPARISONS],
    count: usize,
) -> Option<usize>
    requires { (count ≤ 64) × (count ≤ length ops.now) }
    ensures { FirstUnusablePromise text.now roles.now m attributes.now n line.now role ops.now count result }
{
    for j in 0..count {
        let at = next_word(line, ops[j]);
        if !usable(text, roles, m, attributes, n, line, role, at) {
            return Some(at);
        }
    }
    None
}

// The type of the attribute of the name at a position.
fn kind_named(
    text: &[u8],
    attributes: &[usize; ATTRIBUTE_CELLS],
    n: usize,
    line: &[u8],
    at: usize,
) -> Kind
    ensures { (d : Policy) → Attributes text.now attributes.now n d.attributes → kind_of result ≡ attribute_kind d (word_of line.now at) }
{
    let Some(a) = find_attribute(text, attributes, n, line, at) else {
        return Kind::Num;
    };
    attribute_kind(attributes, n, a)
}

// The first operator or value of the comparisons that is of the wrong type.
fn first_mistyped(
    text: &[u8],
    attributes: &[usize; ATTRIBUTE_CELLS],
    n: usize,
    line: &[u8],
    ops: &[usize; COMPARISONS],
    count: usize,
) -> Option<usize>
    requires { (count ≤ 64) × (count ≤ length ops.now) }
    ensures { FirstMistypedPromise text.now attributes.now n line.now ops.now count result }
{
    for j in 0..count {
        let op = ops[j];
        let kind = kind_named(text, attributes, n, line, next_word(line, op));
        if let Some(p) = wrong_type(line, op, kind) {
            return Some(p);
        }
    }
    None
}

// What is wrong with the line `(cond-role C ROLE cond)`: C stands at c, the role at r, and the condition's bracket at t. There
// are m roles, n attributes and k conditional roles.
pub fn cond_role_fault(
    text: &[u8],
    roles: &[usize; ROLE_CELLS],
    m: usize,
    attributes: &[usize; ATTRIBUTE_CELLS],
    n: usize,
    conds: &[usize; COND_ROLE_CELLS],
    k: usize,
    line: &[u8],
    c: usize,
    r: usize,
    t: usize,
) -> Result<(), Fault>
    ensures { CondRoleFaultPromise text.now roles.now m attributes.now n conds.now k line.now c r t result }
{
    let mut ops = [0usize; COMPARISONS];
    let Some((_, count)) = read_places(line, t, false, &mut ops) else {
        return Err(Fault::Whole(Reason::WrongForm));
    };
    if COND_ROLES <= k {
        return Err(Fault::Whole(Reason::OverBound));
    }
    if COMPARISONS < count {
        return Err(Fault::Whole(Reason::OverBound));
    }
    if find_cond_role(text, conds, k, line, c).is_some() {
        return Err(Fault::Item(Reason::NameTaken, c));
    }
    let Some(role) = find_role(text, roles, m, line, r) else {
        return Err(Fault::Item(Reason::NameUnknown, r));
    };
    if let Some(p) = first_unusable(text, roles, m, attributes, n, line, role, &ops, count) {
        return Err(Fault::Item(Reason::NameUnknown, p));
    }
    if let Some(p) = first_mistyped(text, attributes, n, line, &ops, count) {
        return Err(Fault::Value(Reason::WrongType, p));
    }
    Ok(())
}
