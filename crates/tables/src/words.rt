// The names of a set in a line: whether one stands before, the first that repeats another, and the first that is no purpose.
ghost use Rattle.std.specs.Prelude.{take, List, ◌≡◌};
ghost use Rattle.document.specs.Policy.{Node};
ghost use Rattle.stepping.specs.Places.{Near};
ghost use Rattle.form.specs.Walks.{names_at};
ghost use Rattle.principals.specs.Nodes.{Nodes};
ghost use Rattle.lists.specs.Lists.{any_of, find_index, there};
ghost use Rattle.purpose.specs.Members.{limit};
ghost use Rattle.text.specs.Offending.{missing, repeated};
ghost use Rattle.text.specs.Words.{is_called, word_of};
ghost use Rattle.text.specs.CodeEnds.{offending_of};

use principals::names::find_purpose;
use text::bytes::byte_at;
use text::words::{same_name, word_end};
use workspace::layout::{MET_WORDS, PURPOSE_CELLS};
use workspace::met::{LONG_LINE, is_new};

// Whether the name at w is one of the first k names from `at` on.
pub fn among_first(line: &[u8], at: usize, k: usize, w: usize) -> bool
    ensures { result ≡ any_of (λ v. is_called (word_of line.now w) v.bytes) (take k (names_at line.now «at»)) }
{
    let mut j = at;
    let mut left = k;
    while 0 < left {
        if byte_at(line, j) != b' ' {
            return false;
        }
        let v = j + 1;
        if same_name(line, w, line, v) {
            return true;
        }
        j = word_end(line, v);
        left -= 1;
    }
    false
}

// The first name from `at` on that stands earlier among them. A name that is surely new is compared with none.
fn first_repeat_by(line: &[u8], at: usize, met: &mut [u64]) -> Option<usize>
    ensures { (offending_of line.now result ≡ repeated (names_at line.now «at»)) × Near line.now result }
{
    let mut j = at;
    let mut k = 0;
    while byte_at(line, j) == b' ' {
        let v = j + 1;
        if !is_new(met, line, v) {
            if among_first(line, at, k, v) {
                return Some(v);
            }
        }
        j = word_end(line, v);
        k += 1;
    }
    None
}

// The first name from `at` on that stands earlier among them.
pub fn first_repeat(line: &[u8], at: usize) -> Option<usize>
    ensures { (offending_of line.now result ≡ repeated (names_at line.now «at»)) × Near line.now result }
{
    if line.len() < LONG_LINE {
        let mut few = [0u64; 1];
        return first_repeat_by(line, at, &mut few);
    }
    let mut met = [0u64; MET_WORDS];
    first_repeat_by(line, at, &mut met)
}

// The first name from `at` on that is none of the k purposes.
pub fn first_unknown_purpose(
    text: &[u8],
    purposes: &[usize; PURPOSE_CELLS],
    k: usize,
    line: &[u8],
    at: usize,
) -> Option<usize>
    ensures { ((ns : List Node) → Nodes limit text.now purposes.now k ns → offending_of line.now result ≡ missing (λ w. there (find_index (λ x. is_called w x.name) ns)) (names_at line.now «at»)) × Near line.now result }
{
    let mut j = at;
    while byte_at(line, j) == b' ' {
        let v = j + 1;
        if find_purpose(text, purposes, k, line, v).is_none() {
            return Some(v);
        }
        j = word_end(line, v);
    }
    None
}
