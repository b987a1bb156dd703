// Storing purposes and roles.
ghost use Rattle.std.specs.Prelude.{◌+◌, ◌≤◌, length};
ghost use Rattle.std.proofs.Math.Option.{none};
ghost use Rattle.document.specs.Meaning.{add};
ghost use Rattle.document.specs.Policy.{Doc};
ghost use Rattle.form.specs.Form.{role};
ghost use Rattle.principals.specs.Nodes.{Nodes};
ghost use Rattle.stepping.specs.Stored.{LineAt, Passes};
ghost use Rattle.text.specs.Words.{word_of};
ghost use Rattle.nodes.specs.Promises.{StorePurposeBelowPromise, StorePurposeRootPromise, StoreRoleBelowPromise};

use principals::names::{add_purpose, add_role, find_purpose, find_role};
use stepping::places::{number, place};
use workspace::hashes::hash_word;
use workspace::layout::{PURPOSE_CELLS, ROLE_CELLS};

// Stores the purpose of the name at n of the line, behind k of them: the root, whose parent is its own number.
pub fn store_purpose_root(
    text: &[u8],
    purposes: &mut [usize; PURPOSE_CELLS],
    k: usize,
    at: usize,
    line: &[u8],
    n: usize,
)
    ensures { StorePurposeRootPromise text.now purposes.old purposes.new k at line.now n }
{
    let pos = place(text, at, n);
    let w = hash_word(line, n);
    add_purpose(purposes, k, pos, k, w.hash);
}

// Stores the purpose of the name at n of the line, below that of the name at p.
pub fn store_purpose_below(
    text: &[u8],
    purposes: &mut [usize; PURPOSE_CELLS],
    k: usize,
    at: usize,
    line: &[u8],
    n: usize,
    p: usize,
)
    ensures { StorePurposeBelowPromise text.now purposes.old purposes.new k at line.now n p }
{
    let parent = number(find_purpose(text, purposes, k, line, p));
    let pos = place(text, at, n);
    let w = hash_word(line, n);
    add_purpose(purposes, k, pos, parent, w.hash);
}

// Stores the role of the name at n of the line, behind k of them: a root, whose parent is its own number.
pub fn store_role_root(
    text: &[u8],
    roles: &mut [usize; ROLE_CELLS],
    k: usize,
    at: usize,
    line: &[u8],
    n: usize,
)
    ensures { (d : Doc) → LineAt text.now at line.now → Nodes 64 text.now roles.old k d.policy.roles → Passes d line.now (role (word_of line.now n) none) → n ≤ length line.now → Nodes 64 text.now roles.new (k + 1) (add d (role (word_of line.now n) none)).policy.roles }
{
    let pos = place(text, at, n);
    let w = hash_word(line, n);
    add_role(roles, k, pos, k, w.hash);
}

// Stores the role of the name at n of the line, below that of the name at p.
pub fn store_role_below(
    text: &[u8],
    roles: &mut [usize; ROLE_CELLS],
    k: usize,
    at: usize,
    line: &[u8],
    n: usize,
    p: usize,
)
    ensures { StoreRoleBelowPromise text.now roles.old roles.new k at line.now n p }
{
    let parent = number(find_role(text, roles, k, line, p));
    let pos = place(text, at, n);
    let w = hash_word(line, n);
    add_role(roles, k, pos, parent, w.hash);
}
