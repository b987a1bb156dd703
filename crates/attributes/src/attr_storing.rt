// Storing an attribute.
ghost use Rattle.attributes.specs.Promises.{StoreAttrPromise};

use condition::kinds::Kind;
use principals::attributes::add_attribute;
use principals::names::find_role;
use stepping::places::{number, place};
use workspace::layout::{ATTRIBUTE_CELLS, ROLE_CELLS};

// Stores the attribute of the name at a of the line, behind k of them, at the role of the name at r.
pub fn store_attr(
    text: &[u8],
    roles: &[usize; ROLE_CELLS],
    roles_count: usize,
    attributes: &mut [usize; ATTRIBUTE_CELLS],
    k: usize,
    at: usize,
    line: &[u8],
    r: usize,
    a: usize,
    kind: Kind,
)
    ensures { StoreAttrPromise text.now roles.now roles_count attributes.old attributes.new k at line.now r a kind }
{
    let role = number(find_role(text, roles, roles_count, line, r));
    let pos = place(text, at, a);
    add_attribute(attributes, k, pos, role, kind);
}
