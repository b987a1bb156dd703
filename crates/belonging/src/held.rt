// Who belongs to a conditional role: whether a condition over attributes and the clock holds.
ghost use Rattle.std.specs.Prelude.{◌<◌, ◌^◌, ◌≤◌, ℕ, length, true, List, ◌≡◌};
ghost use Rattle.std.proofs.Math.ListN.{get_elem?};
ghost use Rattle.std.proofs.Math.Option.{some};
ghost use Rattle.belonging.specs.Held.{Held, Told, comparison_holds, words_meet};
ghost use Rattle.belonging.specs.Values.{Values};
ghost use Rattle.condition.specs.Answers.{compared_at, op_of};
ghost use Rattle.condition.specs.Comparison.{values_meet};
ghost use Rattle.condition.specs.Cond.{comparisons};
ghost use Rattle.document.specs.Lookup.{attribute_of};
ghost use Rattle.document.specs.Policy.{Attribute, CondRole, Policy, User};
ghost use Rattle.principals.specs.Attributes.{Attributes};
ghost use Rattle.principals.specs.CondRoles.{CondRoles};
ghost use Rattle.lists.specs.Lists.{holds_of, there};
ghost use Rattle.query.specs.HostClock.{clock_of};
ghost use Rattle.query.specs.Authority.{clock_number, user_value};
ghost use Rattle.text.specs.Numbers.{rank_of};
ghost use Rattle.text.specs.Words.{word_of, written_at};
ghost use Rattle.belonging.specs.Promises.{ConditionHoldsPromise, FillTruthsPromise, RoleHoldsPromise, StoreHeldPromise, StoreTruthsPromise};

use crate::line::line_of;
use crate::values::{VALUES, attribute_number};
use condition::comparisons::{known_rank, ranks_meet, values_meet};
use condition::conditions::read_places;
use condition::kinds::{Op, op_at};
use principals::attributes::attribute_kind;
use principals::conds::{cond_role_end, cond_role_place, cond_role_start};
use program::programs::holds_condition;
use query::clock::Clock;
use text::walking::next_word;
use workspace::layout::{ATTRIBUTE_CELLS, COND_ROLE_CELLS, COND_ROLES};

// The number that the clock gives for its attribute n.
fn clock_number(clock: Clock, n: usize) -> u64
    ensures { (m : ℕ) → clock_number (clock_of clock) n ≡ some m → result ≡ m }
{
    if n == 0 {
        return clock.year;
    }
    if n == 1 {
        return clock.day;
    }
    clock.hour
}

// The rank of a number of the clock.
fn clock_rank(m: u64) -> u64
    ensures { m < 2 ^ 63 → result ≡ rank_of m }
{
    if m < 9223372036854775808 {
        return 9223372036854775808 + m;
    }
    0
}

// Whether the user's value for attribute n, which is none of the clock's, and the value at v stand as the operator says.
fn value_meets(
    attributes: &[usize; ATTRIBUTE_CELLS],
    acount: usize,
    user: &[u8],
    values: &[usize; VALUES],
    op: Op,
    n: usize,
    line: &[u8],
    v: usize,
) -> bool
    ensures { (text : List ℕ) (d : Policy) (u : User) (a : Attribute) → Attributes text attributes.now acount d.attributes → Values user.now u.values values.now → get_elem? d.attributes n ≡ some a → result ≡ holds_of (λ w. values_meet a.kind (op_of op) w (written_at line.now v)) (user_value u n) }
{
    if n < VALUES {
        let p = values[n];
        if p == 0 {
            return false;
        }
        let kind = attribute_kind(attributes, acount, n);
        return values_meet(kind, op, user, p - 1, line, v);
    }
    false
}

// Whether the attribute of the name at a place and the value at v stand as the operator says.
fn words_meet(
    text: &[u8],
    attributes: &[usize; ATTRIBUTE_CELLS],
    acount: usize,
    clock: Clock,
    user: &[u8],
    values: &[usize; VALUES],
    op: Op,
    line: &[u8],
    name: usize,
    v: usize,
) -> bool
    ensures { (d : Policy) (u : User) → Told text.now attributes.now acount (clock_of clock) user.now values.now d u → there (attribute_of d (word_of line.now name)) ≡ true → result ≡ words_meet d (clock_of clock) u (op_of op) (word_of line.now name) (written_at line.now v) }
{
    let n = attribute_number(text, attributes, acount, line, name);
    if n < 3 {
        let m = clock_rank(clock_number(clock, n));
        return ranks_meet(op, m, known_rank(line, v));
    }
    value_meets(attributes, acount, user, values, op, n, line, v)
}

// Whether the comparison whose operator stands at a place holds.
fn comparison_holds(
    text: &[u8],
    attributes: &[usize; ATTRIBUTE_CELLS],
    acount: usize,
    clock: Clock,
    user: &[u8],
    values: &[usize; VALUES],
    line: &[u8],
    at: usize,
) -> bool
    ensures { (d : Policy) (u : User) → Told text.now attributes.now acount (clock_of clock) user.now values.now d u → there (attribute_of d (compared_at line.now at).of) ≡ true → result ≡ comparison_holds d (clock_of clock) u (compared_at line.now at) }
{
    let name = next_word(line, at);
    let v = next_word(line, name);
    let op = op_at(line, at);
    words_meet(
        text, attributes, acount, clock, user, values, op, line, name, v,
    )
}

// Stores of the first n comparisons, by the places of their operators, whether they hold.
fn fill_truths(
    text: &[u8],
    attributes: &[usize; ATTRIBUTE_CELLS],
    acount: usize,
    clock: Clock,
    user: &[u8],
    values: &[usize; VALUES],
    line: &[u8],
    ops: &[usize],
    n: usize,
    truths: &mut [bool],
)
    requires { (n ≤ length ops.now) × (n ≤ length truths.old) }
    ensures { FillTruthsPromise text.now attributes.now acount clock user.now values.now line.now ops.now n truths.new }
{
    for i in 0..n {
        let b = comparison_holds(text, attributes, acount, clock, user, values, line, ops[i]);
        truths[i] = b;
    }
}

// The same by an array of places and an array of truths.
fn store_truths(
    text: &[u8],
    attributes: &[usize; ATTRIBUTE_CELLS],
    acount: usize,
    clock: Clock,
    user: &[u8],
    values: &[usize; VALUES],
    line: &[u8],
    ops: &[usize; 64],
    n: usize,
    truths: &mut [bool; 64],
)
    ensures { StoreTruthsPromise text.now attributes.now acount clock user.now values.now line.now ops.now n truths.new }
{
    if n <= 64 {
        fill_truths(
            text, attributes, acount, clock, user, values, line, ops, n, truths,
        );
    }
}

// Whether the condition at a place of a line holds. One that was stored can be read again.
fn condition_holds(
    text: &[u8],
    attributes: &[usize; ATTRIBUTE_CELLS],
    acount: usize,
    clock: Clock,
    user: &[u8],
    values: &[usize; VALUES],
    line: &[u8],
    place: usize,
) -> bool
    ensures { ConditionHoldsPromise text.now attributes.now acount clock user.now values.now line.now place result }
{
    let mut ops = [0; 64];
    let mut truths = [false; 64];
    let c = read_places(line, place, false, &mut ops);
    let Some((_, n)) = c else {
        return false;
    };
    if 64 < n {
        return false;
    }
    store_truths(
        text,
        attributes,
        acount,
        clock,
        user,
        values,
        line,
        &ops,
        n,
        &mut truths,
    );
    holds_condition(line, place, &truths)
}

// Whether the condition of conditional role i holds. Its line is cut to lie in the text.
fn role_holds(
    text: &[u8],
    attributes: &[usize; ATTRIBUTE_CELLS],
    acount: usize,
    conds: &[usize; COND_ROLE_CELLS],
    clock: Clock,
    user: &[u8],
    values: &[usize; VALUES],
    i: usize,
) -> bool
    ensures { RoleHoldsPromise text.now attributes.now acount conds.now clock user.now values.now i result }
{
    let start = cond_role_start(conds, i);
    let end = cond_role_end(conds, i);
    let line = line_of(text, start, end);
    let place = cond_role_place(conds, i);
    condition_holds(text, attributes, acount, clock, user, values, line, place)
}

// Stores of the first n conditional roles whether their conditions hold.
fn fill_held(
    text: &[u8],
    attributes: &[usize; ATTRIBUTE_CELLS],
    acount: usize,
    conds: &[usize; COND_ROLE_CELLS],
    n: usize,
    clock: Clock,
    user: &[u8],
    values: &[usize; VALUES],
    held: &mut [bool],
)
    requires { n ≤ length held.old }
    ensures { (d : Policy) (u : User) (rs : List CondRole) → Told text.now attributes.now acount (clock_of clock) user.now values.now d u → CondRoles d text.now conds.now n rs → ((i : ℕ) (r : CondRole) → get_elem? rs i ≡ some r → length (comparisons r.condition) ≤ 64) → Held (clock_of clock) u rs held.new }
{
    for i in 0..n {
        let b = role_holds(text, attributes, acount, conds, clock, user, values, i);
        held[i] = b;
    }
}

// Stores of each conditional role, of which there are ccount, whether its condition holds for the clock and for the user whose
// values stand in the line at the places stored.
pub fn store_held(
    text: &[u8],
    attributes: &[usize; ATTRIBUTE_CELLS],
    acount: usize,
    conds: &[usize; COND_ROLE_CELLS],
    ccount: usize,
    clock: Clock,
    line: &[u8],
    values: &[usize; VALUES],
    held: &mut [bool; COND_ROLES],
)
    ensures { StoreHeldPromise text.now attributes.now acount conds.now ccount clock line.now values.now held.new }
{
    if ccount <= COND_ROLES {
        fill_held(
            text, attributes, acount, conds, ccount, clock, line, values, held,
        );
    }
}
