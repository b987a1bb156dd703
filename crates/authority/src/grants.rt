// The first grant that authorises a purpose.
ghost use Rattle.std.specs.Prelude.{◌<◌, ◌≤◌, ℕ, length, true, List, ◌≡◌};
ghost use Rattle.std.proofs.Math.ListN.{get_elem?};
ghost use Rattle.authority.specs.Authorities.{Authorities};
ghost use Rattle.belonging.specs.Held.{Held, condition_holds};
ghost use Rattle.document.specs.Policy.{CondRole, Node, Policy, User, tree_of};
ghost use Rattle.workspace.specs.Found.{found_as};
ghost use Rattle.principals.specs.Nodes.{Nodes};
ghost use Rattle.lists.specs.Lists.{holds_of};
ghost use Rattle.purpose.specs.Compliance.{in_tree, parent};
ghost use Rattle.purpose.specs.Meaning.{ClosureOf};
ghost use Rattle.query.specs.HostClock.{clock_of};
ghost use Rattle.query.specs.Authority as authority;
ghost use Rattle.authority.specs.Promises.{FirstGrantPromise};

use belonging::held::store_held;
use belonging::line::line_of;
use belonging::values::{VALUES, store_values};
use index::counts::Counts;
use principals::conds::cond_role_role;
use principals::grants::{grant_cond_role, grant_purpose};
use principals::users::{user_end, user_place, user_role, user_start};
use purpose::{Closure, is_above};
use query::clock::Clock;
use workspace::layout::{
    ATTRIBUTE_CELLS, COND_ROLE_CELLS, COND_ROLES, GRANT_CELLS, ROLE_CELLS, ROLES, USER_CELLS,
};

// The parent of role r, among the first k; a role that is not there is its own.
fn role_parent(ws: &[usize; ROLE_CELLS], k: usize, r: usize) -> usize
    ensures { (text : List ℕ) (ns : List Node) → Nodes 64 text ws.now k ns → result ≡ parent (tree_of ns) r }
{
    if k <= r {
        return r;
    }
    if r < ROLES { ws[ROLES + r] } else { r }
}

// Whether conditional role c is there, among the first k, and its condition holds.
fn holds_at(held: &[bool; COND_ROLES], k: usize, c: usize) -> bool
    ensures { (t : authority.Clock) (u : User) (rs : List CondRole) → length rs ≡ k → k ≤ 64 → Held t u rs held.now → result ≡ holds_of (condition_holds t u) (get_elem? rs c) }
{
    if k <= c {
        return false;
    }
    if c < COND_ROLES { held[c] } else { false }
}

// The first of the grants whose purpose is above the one with this closure, and whose conditional role is over a role above
// `role` and has a condition that holds.
fn first_grant(
    closure: Closure,
    roles: &[usize; ROLE_CELLS],
    rcount: usize,
    conds: &[usize; COND_ROLE_CELLS],
    ccount: usize,
    grants: &[usize; GRANT_CELLS],
    gcount: usize,
    held: &[bool; COND_ROLES],
    role: usize,
) -> Option<usize>
    ensures { FirstGrantPromise closure roles.now rcount conds.now ccount grants.now gcount held.now role result }
{
    let mut found = None;
    'grants: for i in 0..gcount {
        if is_above(closure, grant_purpose(grants, i)) {
            let c = grant_cond_role(grants, i);
            if holds_at(held, ccount, c) {
                let target = cond_role_role(conds, c);
                let mut r = role;
                'roles: loop {
                    if r == target {
                        found = Some(i);
                        break 'grants;
                    }
                    let above = role_parent(roles, rcount, r);
                    if r <= above {
                        break 'roles;
                    }
                    r = above;
                }
            }
        }
    }
    found
}

// The first grant that authorises the purpose with this closure for user form `user`.
pub fn authorising_grant(
    text: &[u8],
    closure: Closure,
    roles: &[usize; ROLE_CELLS],
    attributes: &[usize; ATTRIBUTE_CELLS],
    users: &[usize; USER_CELLS],
    conds: &[usize; COND_ROLE_CELLS],
    grants: &[usize; GRANT_CELLS],
    c: Counts,
    clock: Clock,
    user: usize,
) -> Option<usize>
    ensures { (d : Policy) (p : ℕ) → Authorities text.now roles.now attributes.now users.now conds.now grants.now c d → user < c.users → ClosureOf (tree_of d.purposes) p closure → in_tree (tree_of d.purposes) p ≡ true → authority.in_range (clock_of clock) ≡ true → found_as result ≡ authority.first_grant d (clock_of clock) user p }
{
    let start = user_start(users, user);
    let end = user_end(users, user);
    let line = line_of(text, start, end);
    let mut values = [0usize; VALUES];
    let place = user_place(users, user);
    store_values(text, attributes, c.attributes, line, place, &mut values);
    let mut held = [false; COND_ROLES];
    store_held(
        text,
        attributes,
        c.attributes,
        conds,
        c.conds,
        clock,
        line,
        &values,
        &mut held,
    );
    let role = user_role(users, user);
    first_grant(
        closure, roles, c.roles, conds, c.conds, grants, c.grants, &held, role,
    )
}
