// Grants: purposes from 0, conditional roles from 128.
ghost use Rattle.std.specs.Prelude.{◌+◌, ◌<◌, ℕ, List, [], ◌++◌, ◌∷◌, ◌≡◌};
ghost use Rattle.std.proofs.Math.ListN.{get_elem?};
ghost use Rattle.std.proofs.Math.Option.{some};
ghost use Rattle.document.specs.Policy.{Grant};
ghost use Rattle.principals.specs.Grants.{Grants};

use workspace::layout::{GRANT_CELLS, GRANTS};
use workspace::store::put;

// One grant more, behind k of them; nothing is stored where there is no room.
pub fn add_grant(ws: &mut [usize; GRANT_CELLS], k: usize, purpose: usize, cond_role: usize)
    ensures { (gs : List Grant) → Grants ws.old k gs → k < 128 → Grants ws.new (k + 1) (gs ++ (record { purpose = purpose; cond_role = cond_role } ∷ [])) }
{
    if k < GRANTS {
        put(ws, k, purpose);
        put(ws, GRANTS + k, cond_role);
    }
}

// The purpose of grant i; 0 where there can be none.
pub fn grant_purpose(ws: &[usize; GRANT_CELLS], i: usize) -> usize
    ensures { (k : ℕ) (gs : List Grant) (g : Grant) → Grants ws.now k gs → get_elem? gs i ≡ some g → result ≡ g.purpose }
{
    if i < GRANTS { ws[i] } else { 0 }
}

// The conditional role of grant i; 0 where there can be none.
pub fn grant_cond_role(ws: &[usize; GRANT_CELLS], i: usize) -> usize
    ensures { (k : ℕ) (gs : List Grant) (g : Grant) → Grants ws.now k gs → get_elem? gs i ≡ some g → result ≡ g.cond_role }
{
    if i < GRANTS { ws[GRANTS + i] } else { 0 }
}
