// The items of a row, by their places in the line: whether they are shaped for a scheme, and how many there are.
ghost use Rattle.std.specs.Prelude.{◌+◌, eqb, get_or, length, Bool, cond, false, not, true, List, [], ◌≡◌};
ghost use Rattle.std.proofs.Math.Option.{Option, none, some};
ghost use Rattle.document.specs.NameFaults.{leading_name};
ghost use Rattle.document.specs.ValueFaults.{shaped_values, values_behind_label};
ghost use Rattle.rows.specs.RowWords.{values_at};
ghost use Rattle.form.specs.Form.{Item};
ghost use Rattle.form.specs.Walks.{is_labelled_at, items_at};
ghost use Rattle.lists.specs.Lists.{holds_of};
ghost use Rattle.text.specs.Names.{is_name};
ghost use Rattle.text.specs.Words.{Word, word_at};

use form::walks::{is_labelled, item_end_at};
use text::bytes::byte_at;
use text::words::{name_end, word_end};

// Whether the item at a position is `(v L)`, where such are wanted, and else is none.
fn item_fits(line: &[u8], at: usize, bracketed: bool) -> bool
    ensures { is_labelled_at line.now at ≡ cond result bracketed (not bracketed) }
{
    if is_labelled(line, at) {
        bracketed
    } else {
        !bracketed
    }
}

// Whether the items from a position on are all shaped so, and as many as this.
pub(crate) fn values_fit(line: &[u8], at: usize, bracketed: bool, width: usize) -> bool
    ensures { result ≡ holds_of (λ ws. eqb (length ws) width) (shaped_values bracketed (items_at line.now at)) }
{
    let mut n = 0;
    let mut i = at;
    while byte_at(line, i) == b' ' {
        if !item_fits(line, i + 1, bracketed) {
            return false;
        }
        n += 1;
        i = item_end_at(line, i + 1);
    }
    n == width
}

// Whether the first item from a position on is a name without a bracket.
pub(crate) fn leads(line: &[u8], at: usize) -> bool
    ensures { (result ≡ true → (get_or line.now at 0 ≡ 32) × (get_or line.now (at + 1) 0 ≡ 40 → ⊥) × (is_name (word_at line.now (at + 1)) ≡ true)) × (result ≡ false → (leading_name (items_at line.now at) ≡ []) × ((values : List Item → Option (List Word)) → values_behind_label values (items_at line.now at) ≡ none)) }
{
    if byte_at(line, at) != b' ' {
        return false;
    }
    if byte_at(line, at + 1) == b'(' {
        return false;
    }
    name_end(line, at + 1).is_some()
}

// Whether the first item is a name without a bracket, and those behind it are all shaped so, and as many as this.
pub(crate) fn led_values_fit(line: &[u8], at: usize, bracketed: bool, width: usize) -> bool
    ensures { result ≡ holds_of (λ ws. eqb (length ws) width) (values_behind_label (shaped_values bracketed) (items_at line.now at)) }
{
    if leads(line, at) {
        return values_fit(line, word_end(line, at + 1), bracketed, width);
    }
    false
}

// Where the items behind the first begin.
pub fn behind_first(line: &[u8], at: usize) -> usize
    ensures { (b : Bool) (ws : List Word) → values_behind_label (shaped_values b) (items_at line.now at) ≡ some ws → values_at line.now result ≡ ws }
{
    if byte_at(line, at) == b' ' {
        return item_end_at(line, at + 1);
    }
    at
}
