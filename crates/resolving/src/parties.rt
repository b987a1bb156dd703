// The user, the role and the purpose of a query.
ghost use Rattle.document.specs.Policy.{Policy};
ghost use Rattle.principals.specs.Nodes.{Nodes};
ghost use Rattle.principals.specs.Users.{Users};
ghost use Rattle.purpose.specs.Members.{limit};
ghost use Rattle.query.specs.QueryPlaces.{form_at};
ghost use Rattle.resolving.specs.Acting.{PartiesAre};

use index::counts::Counts;
use principals::names::{find_purpose, find_role};
use principals::users::{find_user, user_named};
use query::reading::Question;
use workspace::layout::{PURPOSE_CELLS, ROLE_CELLS, USER_CELLS};

// Why nobody asks: the place of the first word that is unknown, or that no user form gives the user the role.
#[derive(Clone, Copy)]
pub enum PartyFault {
    Unknown(usize),
    NotGiven,
}

// Who asks: the purpose of the query and the user form that gives its user its role, by number, where the document knows them (12, 13).
pub fn find_parties(
    text: &[u8],
    purposes: &[usize; PURPOSE_CELLS],
    roles: &[usize; ROLE_CELLS],
    users: &[usize; USER_CELLS],
    c: Counts,
    query: &[u8],
    q: Question,
) -> Result<(usize, usize), PartyFault>
    ensures { (d : Policy) → Nodes limit text.now purposes.now c.purposes d.purposes → Nodes 64 text.now roles.now c.roles d.roles → Users d text.now users.now c.users d.users → PartiesAre d query.now (form_at query.now q) c result }
{
    let h = q.head;
    if !user_named(text, users, c.users, query, h.user) {
        return Err(PartyFault::Unknown(h.user));
    }
    let role = find_role(text, roles, c.roles, query, h.role);
    let Some(r) = role else {
        return Err(PartyFault::Unknown(h.role));
    };
    let purpose = find_purpose(text, purposes, c.purposes, query, h.purpose);
    let Some(p) = purpose else {
        return Err(PartyFault::Unknown(h.purpose));
    };
    let user = find_user(text, users, c.users, query, h.user, r);
    let Some(u) = user else {
        return Err(PartyFault::NotGiven);
    };
    Ok((p, u))
}
