// What a label says of a purpose: which of the purposes that it denies is near, or whether it allows one above.
ghost use Rattle.std.specs.Prelude.{ℕ, ◌≡◌};
ghost use Rattle.lists.specs.Lists.{holds_of, member};
ghost use Rattle.purpose.specs.Members.{members};
ghost use Rattle.workspace.specs.Found.{found_as};
ghost use Rattle.reasons.specs.Promises.{FirstNearPromise, LabelCausePromise};

use crate::explained::Cause;
use form::walks::deny_place;
use index::counts::Counts;
use principals::names::find_purpose;
use purpose::{Closure, contains};
use relations::labels::{label_name, verdict_there};
use text::bytes::byte_at;
use text::words::word_end;
use workspace::layout::{LABELS, PURPOSE_CELLS, SET_WORDS};

// Whether a purpose that was looked up is ancestor or descendant of the one whose closure is given; one that is not known is neither.
fn is_near(closure: Closure, f: Option<usize>) -> bool
    ensures { result ≡ holds_of (λ n. member n (members closure.relatives)) (found_as f) }
{
    match f {
        Some(n) => {
            let near = closure.relatives;
            contains(near, n)
        }
        None => false,
    }
}

// The place of the first of the names from a place of the text on that is near, among the first k purposes.
fn first_near(
    text: &[u8],
    purposes: &[usize; PURPOSE_CELLS],
    k: usize,
    closure: Closure,
    at: usize,
) -> Option<usize>
    ensures { FirstNearPromise text.now purposes.now k closure «at» result }
{
    let mut j = at;
    while byte_at(text, j) == b' ' {
        let w = j + 1;
        if is_near(closure, find_purpose(text, purposes, k, text, w)) {
            return Some(w);
        }
        j = word_end(text, w);
    }
    None
}

// What label l says of the purpose whose closure is given: the first in the label's order that it denies and that is near counts. A label
// that is not there allows none.
pub(crate) fn label_cause(
    text: &[u8],
    purposes: &[usize; PURPOSE_CELLS],
    labels: &[usize; LABELS],
    sets: &[u64; SET_WORDS],
    c: Counts,
    closure: Closure,
    l: usize,
) -> Cause
    ensures { LabelCausePromise text.now purposes.now labels.now sets.now c closure l result }
{
    if c.labels <= l {
        return Cause::NoneAllowed;
    }
    let place = deny_place(text, label_name(labels, l));
    if let Some(w) = first_near(text, purposes, c.purposes, closure, place) {
        return Cause::Denied(w);
    }
    let v = verdict_there(closure, sets, c.labels, l);
    if v.allowed {
        return Cause::Opened;
    }
    Cause::NoneAllowed
}
