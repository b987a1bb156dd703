// Attr lines: what is wrong with one.
ghost use Rattle.attributes.specs.Promises.{AttrFaultPromise};

use condition::kinds::Kind;
use principals::attributes::find_attribute;
use principals::names::find_role;
use stepping::fault::Fault;
use text::refusals::Reason;
use workspace::layout::{ATTRIBUTE_CELLS, ATTRIBUTES, ROLE_CELLS};

// The attribute whose name stands at a of the line, at the role whose name stands at r, behind k attributes.
pub fn attr_fault(
    text: &[u8],
    roles: &[usize; ROLE_CELLS],
    roles_count: usize,
    attributes: &[usize; ATTRIBUTE_CELLS],
    k: usize,
    users_count: usize,
    line: &[u8],
    r: usize,
    a: usize,
    kind: Kind,
) -> Result<(), Fault>
    ensures { AttrFaultPromise text.now roles.now roles_count attributes.now k users_count line.now r a kind result }
{
    if ATTRIBUTES <= k {
        return Err(Fault::Whole(Reason::OverBound));
    }
    if find_attribute(text, attributes, k, line, a).is_some() {
        return Err(Fault::Item(Reason::NameTaken, a));
    }
    if find_role(text, roles, roles_count, line, r).is_none() {
        return Err(Fault::Item(Reason::NameUnknown, r));
    }
    if 0 < users_count {
        return Err(Fault::Whole(Reason::LateAttribute));
    }
    Ok(())
}
