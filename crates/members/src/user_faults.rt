// What is wrong with a user line, `(user U ROLE (A v) ..)`.
ghost use Rattle.members.specs.Promises.{UserFaultPromise};

use crate::givens::{first_mistyped_given, first_unknown_given, gives_all};
use principals::names::find_role;
use principals::users::find_user;
use stepping::fault::Fault;
use text::refusals::Reason;
use workspace::layout::{ATTRIBUTE_CELLS, ROLE_CELLS, USER_CELLS, USERS};

// The fault of a user line: the name stands at u, the role at r, and the values from gs on.
pub fn user_fault(
    text: &[u8],
    roles: &[usize; ROLE_CELLS],
    rcount: usize,
    attributes: &[usize; ATTRIBUTE_CELLS],
    acount: usize,
    users: &[usize; USER_CELLS],
    k: usize,
    line: &[u8],
    u: usize,
    r: usize,
    gs: usize,
) -> Result<(), Fault>
    ensures { UserFaultPromise text.now roles.now rcount attributes.now acount users.now k line.now u r gs result }
{
    if USERS <= k {
        return Err(Fault::Whole(Reason::OverBound));
    }
    let Some(n) = find_role(text, roles, rcount, line, r) else {
        return Err(Fault::Item(Reason::NameUnknown, r));
    };
    if find_user(text, users, k, line, u, n).is_some() {
        return Err(Fault::Item(Reason::NameTaken, r));
    }
    if let Some(v) = first_unknown_given(text, attributes, acount, line, gs) {
        return Err(Fault::Item(Reason::NameUnknown, v));
    }
    if !gives_all(text, roles, rcount, attributes, acount, n, line, gs) {
        return Err(Fault::Whole(Reason::WrongValues));
    }
    match first_mistyped_given(text, attributes, acount, line, gs) {
        Some(v) => Err(Fault::Item(Reason::WrongType, v)),
        None => Ok(()),
    }
}
