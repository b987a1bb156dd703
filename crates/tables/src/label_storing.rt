// Storing a label, with its sets of purposes.
ghost use Rattle.std.specs.Prelude.{map};
ghost use Rattle.document.specs.Lookup.{purpose_of};
ghost use Rattle.document.specs.Policy.{Policy};
ghost use Rattle.form.specs.Walks.{names_at};
ghost use Rattle.relations.specs.Labels.{SetHolds};
ghost use Rattle.principals.specs.Nodes.{Nodes};
ghost use Rattle.lists.specs.Lists.{or_zero};
ghost use Rattle.purpose.specs.Members.{limit};
ghost use Rattle.tables.specs.Promises.{StoreLabelPromise};

use principals::names::find_purpose;
use purpose::{WORDS, insert, no_members};
use relations::labels::add_label;
use stepping::places::{number, place};
use text::bytes::byte_at;
use text::words::word_end;
use workspace::layout::{LABELS, PURPOSE_CELLS, SET_WORDS};

// The set of the purposes whose names stand from a place of the line on, among the first k.
pub fn set_of(
    text: &[u8],
    purposes: &[usize; PURPOSE_CELLS],
    k: usize,
    line: &[u8],
    at: usize,
) -> [u64; WORDS]
    ensures { (d : Policy) → Nodes limit text.now purposes.now k d.purposes → SetHolds result (map (λ w. or_zero (purpose_of d w)) (names_at line.now at)) }
{
    let mut r = no_members();
    let mut j = at;
    while byte_at(line, j) == b' ' {
        let w = j + 1;
        let p = number(find_purpose(text, purposes, k, line, w));
        let more = insert(r, p);
        r = more;
        j = word_end(line, w);
    }
    r
}

// Stores the label of the name at l of the line, behind k of them, with the purposes that it allows and denies.
pub fn store_label(
    text: &[u8],
    purposes: &[usize; PURPOSE_CELLS],
    purposes_count: usize,
    labels: &mut [usize; LABELS],
    sets: &mut [u64; SET_WORDS],
    k: usize,
    at: usize,
    line: &[u8],
    l: usize,
    allowed: usize,
    denied: usize,
)
    ensures { StoreLabelPromise text.now purposes.now purposes_count labels.old labels.new sets.old sets.new k at line.now l allowed denied }
{
    let allow = set_of(text, purposes, purposes_count, line, allowed);
    let deny = set_of(text, purposes, purposes_count, line, denied);
    let pos = place(text, at, l);
    add_label(labels, sets, k, pos, allow, deny);
}
