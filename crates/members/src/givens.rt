// The values of a user line, `(A v) (B w) ..`: walking through them again, and what is wrong with them.
ghost use Rattle.std.specs.Prelude.{ℕ, length, take, List, map, ◌≡◌};
ghost use Rattle.std.proofs.Math.ListN.{get_elem?};
ghost use Rattle.std.proofs.Math.Option.{some};
ghost use Rattle.condition.specs.Kinds.{has_kind};
ghost use Rattle.document.specs.Lookup.{attribute_kind, attribute_of, has_attribute};
ghost use Rattle.document.specs.Policy.{Attribute, Policy};
ghost use Rattle.document.specs.ValueFaults.{gives_all, is_attribute_of};
ghost use Rattle.stepping.specs.Places.{Near};
ghost use Rattle.form.specs.Walks.{givens_at};
ghost use Rattle.principals.specs.Attributes.{Attributes};
ghost use Rattle.principals.specs.Nodes.{Nodes};
ghost use Rattle.lists.specs.Distinct.{NoTwoSame};
ghost use Rattle.lists.specs.Lists.{all_of, any_of, count_of, there};
ghost use Rattle.text.specs.Names.{same_name};
ghost use Rattle.text.specs.Offending.{leftmost, missing, repeated, unless};
ghost use Rattle.text.specs.Words.{is_called, word_at, word_of};
ghost use Rattle.text.specs.CodeEnds.{offending_of};

use condition::kinds::{Kind, has_kind};
use form::walks::{first_in, pair_end, second_in};
use principals::attributes::{attribute_kind, attribute_role, find_attribute};
use principals::names::role_below;
use text::bytes::byte_at;
use text::words::same_name;
use workspace::layout::{ATTRIBUTE_CELLS, ATTRIBUTES, MET_WORDS, ROLE_CELLS};
use workspace::met::{LONG_LINE, is_new};

// Whether the name at a place is an attribute.
fn attribute_known(
    text: &[u8],
    attributes: &[usize; ATTRIBUTE_CELLS],
    k: usize,
    line: &[u8],
    at: usize,
) -> bool
    ensures { (d : Policy) → Attributes text.now attributes.now k d.attributes → result ≡ there (attribute_of d (word_of line.now at)) }
{
    find_attribute(text, attributes, k, line, at).is_some()
}

// The first attribute given that is unknown.
pub(crate) fn first_unknown_given(
    text: &[u8],
    attributes: &[usize; ATTRIBUTE_CELLS],
    k: usize,
    line: &[u8],
    gs: usize,
) -> Option<usize>
    ensures { ((d : Policy) → Attributes text.now attributes.now k d.attributes → offending_of line.now result ≡ missing (λ w. there (attribute_of d w)) (map (λ g. g.attribute) (givens_at line.now gs))) × Near line.now result }
{
    let mut j = gs;
    while byte_at(line, j) == b' ' {
        let a = first_in(line, j + 1);
        if !attribute_known(text, attributes, k, line, a) {
            return Some(a);
        }
        j = pair_end(line, j + 1);
    }
    None
}

// Whether the name at w is among the attributes of the first n values.
fn given_before(line: &[u8], gs: usize, n: usize, w: usize) -> bool
    ensures { result ≡ any_of (λ v. is_called (word_of line.now w) v.bytes) (take n (map (λ g. g.attribute) (givens_at line.now gs))) }
{
    let mut j = gs;
    for i in 0..n {
        if byte_at(line, j) != b' ' {
            return false;
        }
        let a = first_in(line, j + 1);
        if same_name(line, w, line, a) {
            return true;
        }
        j = pair_end(line, j + 1);
    }
    false
}

// Whether an attribute is given twice. A name that is surely new is compared with none.
fn givens_repeat_by(line: &[u8], gs: usize, met: &mut [u64]) -> bool
    ensures { result ≡ there (repeated (map (λ g. g.attribute) (givens_at line.now gs))) }
{
    let mut j = gs;
    let mut n = 0;
    while byte_at(line, j) == b' ' {
        let a = first_in(line, j + 1);
        if !is_new(met, line, a) {
            if given_before(line, gs, n, a) {
                return true;
            }
        }
        j = pair_end(line, j + 1);
        n += 1;
    }
    false
}

// Whether an attribute is given twice.
fn givens_repeat(line: &[u8], gs: usize) -> bool
    ensures { result ≡ there (repeated (map (λ g. g.attribute) (givens_at line.now gs))) }
{
    if line.len() < LONG_LINE {
        let mut few = [0u64; 1];
        return givens_repeat_by(line, gs, &mut few);
    }
    let mut met = [0u64; MET_WORDS];
    givens_repeat_by(line, gs, &mut met)
}

// How many values are given.
fn givens_count(line: &[u8], gs: usize) -> usize
    ensures { result ≡ length (givens_at line.now gs) }
{
    let mut j = gs;
    let mut n = 0;
    while byte_at(line, j) == b' ' {
        j = pair_end(line, j + 1);
        n += 1;
    }
    n
}

// Whether the role has attribute n: it is defined at the role or above.
fn attribute_of_role(
    roles: &[usize; ROLE_CELLS],
    rcount: usize,
    attributes: &[usize; ATTRIBUTE_CELLS],
    k: usize,
    role: usize,
    n: usize,
) -> bool
    ensures { (text : List ℕ) (d : Policy) (a : Attribute) → Nodes 64 text roles.now rcount d.roles → Attributes text attributes.now k d.attributes → get_elem? d.attributes n ≡ some a → result ≡ has_attribute d role a }
{
    let at = attribute_role(attributes, k, n);
    match at {
        Some(above) => role_below(roles, rcount, role, above),
        None => false,
    }
}

// Whether the name at a place is that of an attribute of the role.
fn names_attribute_of(
    text: &[u8],
    roles: &[usize; ROLE_CELLS],
    rcount: usize,
    attributes: &[usize; ATTRIBUTE_CELLS],
    k: usize,
    role: usize,
    line: &[u8],
    at: usize,
) -> bool
    ensures { (d : Policy) → Nodes 64 text.now roles.now rcount d.roles → Attributes text.now attributes.now k d.attributes → result ≡ is_attribute_of d role (word_of line.now at) }
{
    let found = find_attribute(text, attributes, k, line, at);
    match found {
        Some(n) => attribute_of_role(roles, rcount, attributes, k, role, n),
        None => false,
    }
}

// Whether every attribute given is one of the role's.
fn givens_of_role(
    text: &[u8],
    roles: &[usize; ROLE_CELLS],
    rcount: usize,
    attributes: &[usize; ATTRIBUTE_CELLS],
    k: usize,
    role: usize,
    line: &[u8],
    gs: usize,
) -> bool
    ensures { (d : Policy) → Nodes 64 text.now roles.now rcount d.roles → Attributes text.now attributes.now k d.attributes → result ≡ all_of (is_attribute_of d role) (map (λ g. g.attribute) (givens_at line.now gs)) }
{
    let mut j = gs;
    while byte_at(line, j) == b' ' {
        let a = first_in(line, j + 1);
        if !names_attribute_of(text, roles, rcount, attributes, k, role, line, a) {
            return false;
        }
        j = pair_end(line, j + 1);
    }
    true
}

// How many attributes the role has. The clock's are no role's.
fn role_attributes(
    roles: &[usize; ROLE_CELLS],
    rcount: usize,
    attributes: &[usize; ATTRIBUTE_CELLS],
    k: usize,
    role: usize,
) -> usize
    ensures { (text : List ℕ) (d : Policy) → Nodes 64 text roles.now rcount d.roles → Attributes text attributes.now k d.attributes → result ≡ count_of (has_attribute d role) d.attributes }
{
    if ATTRIBUTES < k {
        return 0;
    }
    let mut n = 0;
    for i in 0..k {
        if attribute_of_role(roles, rcount, attributes, k, role, 3 + i) {
            n += 1;
        }
    }
    n
}

// Whether the values are one for each attribute of the role and no other.
pub(crate) fn gives_all(
    text: &[u8],
    roles: &[usize; ROLE_CELLS],
    rcount: usize,
    attributes: &[usize; ATTRIBUTE_CELLS],
    k: usize,
    role: usize,
    line: &[u8],
    gs: usize,
) -> bool
    ensures { (d : Policy) → Nodes 64 text.now roles.now rcount d.roles → Attributes text.now attributes.now k d.attributes → NoTwoSame (λ x y. same_name x.name y.name) d.attributes → result ≡ gives_all d role (map (λ g. g.attribute) (givens_at line.now gs)) }
{
    if givens_repeat(line, gs) {
        return false;
    }
    if !givens_of_role(text, roles, rcount, attributes, k, role, line, gs) {
        return false;
    }
    let given = givens_count(line, gs);
    let held = role_attributes(roles, rcount, attributes, k, role);
    given == held
}

// Whether the word at v is a value of the type of the attribute whose name stands at a place.
fn value_fits(
    text: &[u8],
    attributes: &[usize; ATTRIBUTE_CELLS],
    k: usize,
    line: &[u8],
    at: usize,
    v: usize,
) -> bool
    ensures { (d : Policy) → Attributes text.now attributes.now k d.attributes → result ≡ has_kind (attribute_kind d (word_of line.now at)) (word_at line.now v) }
{
    let found = find_attribute(text, attributes, k, line, at);
    match found {
        Some(n) => has_kind(line, v, attribute_kind(attributes, k, n)),
        None => has_kind(line, v, Kind::Num),
    }
}

// The first value that is not of its attribute's type.
pub(crate) fn first_mistyped_given(
    text: &[u8],
    attributes: &[usize; ATTRIBUTE_CELLS],
    k: usize,
    line: &[u8],
    gs: usize,
) -> Option<usize>
    ensures { ((d : Policy) → Attributes text.now attributes.now k d.attributes → offending_of line.now result ≡ leftmost (map (λ g. unless (has_kind (attribute_kind d g.attribute) g.value.bytes) g.value) (givens_at line.now gs))) × Near line.now result }
{
    let mut j = gs;
    while byte_at(line, j) == b' ' {
        let a = first_in(line, j + 1);
        let v = second_in(line, j + 1);
        if !value_fits(text, attributes, k, line, a, v) {
            return Some(v);
        }
        j = pair_end(line, j + 1);
    }
    None
}
