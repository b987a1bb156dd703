// The purposes of a document as a tree, and the closure of one of them.
ghost use Rattle.std.specs.Prelude.{ℕ, List, ◌≡◌};
ghost use Rattle.authority.specs.Purposes.{parent_in};
ghost use Rattle.document.specs.Policy.{Node};
ghost use Rattle.document.specs.Policy as policy;
ghost use Rattle.principals.specs.Nodes.{Nodes};
ghost use Rattle.workspace.specs.Tabulated.{tabulated};
ghost use Rattle.purpose.specs.Compliance.{Grown};
ghost use Rattle.purpose.specs.Meaning.{ClosureOf, tree_held};
ghost use Rattle.purpose.specs.Members.{limit};

use purpose::{Closure, Tree, closure_of, tree_of};
use workspace::layout::{PURPOSE_CELLS, PURPOSES};

// The tree of the first k purposes: their parents stand behind their names.
fn purpose_tree(ws: &[usize; PURPOSE_CELLS], k: usize) -> Tree
    ensures { (text : List ℕ) (ns : List Node) → Nodes limit text ws.now k ns → Grown (policy.tree_of ns) → tree_held result ≡ tabulated (parent_in ws.now) k }
{
    let cells = &ws[..];
    tree_of(&cells[PURPOSES..], k)
}

// The closure of purpose p, of which there are k.
pub fn purpose_closure(ws: &[usize; PURPOSE_CELLS], k: usize, p: usize) -> Closure
    ensures { (text : List ℕ) (ns : List Node) → Nodes limit text ws.now k ns → Grown (policy.tree_of ns) → ClosureOf (policy.tree_of ns) p result }
{
    closure_of(purpose_tree(ws, k), p)
}
