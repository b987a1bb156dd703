// Labels: names from 0 in one array. In an array of words, WORDS for a set, the sets of allowed purposes stand from 0 and those
// of denied ones behind 64 of them.
ghost use Rattle.std.specs.Prelude.{◌+◌, ◌<◌, ◌≤◌, ℕ, drop, get_or, length, take, List, [], ◌++◌, ◌∷◌, ◌≡◌};
ghost use Rattle.std.proofs.Math.ListN.{get_elem?};
ghost use Rattle.std.proofs.Math.Seq.{paste};
ghost use Rattle.std.proofs.Math.Option.{some};
ghost use Rattle.document.specs.Open.{marks_at};
ghost use Rattle.document.specs.Policy.{Label, Policy, tree_of};
ghost use Rattle.workspace.specs.Found.{FoundBelow, found_as};
ghost use Rattle.relations.specs.Labels.{Labels, Said, SetHolds, SetStored, label_at, opened_in, set_in, verdict_for, verdict_in};
ghost use Rattle.lists.specs.Lists.{find_index};
ghost use Rattle.purpose.specs.Meaning.{ClosureOf};
ghost use Rattle.purpose.specs.Members.{words};
ghost use Rattle.purpose.specs.Verdicts.{verdict};
ghost use Rattle.text.specs.Words.{is_called, word_at, word_of};

use purpose::{Closure, Verdict, WORDS, verdict_of};
use text::words::word_end;
use workspace::found::find_name_to;
use workspace::layout::{LABELS, SET_WORDS, VERDICTS};
use workspace::store::put;

// The label of the name from u to e of the line, among the first k.
pub fn find_label_to(
    text: &[u8],
    ws: &[usize; LABELS],
    k: usize,
    line: &[u8],
    u: usize,
    e: usize,
) -> Option<usize>
    ensures { ((sets : List ℕ) (ls : List Label) → e ≡ u + length (word_at line.now u) → Labels text.now ws.now sets k ls → found_as result ≡ find_index (λ x. is_called (word_of line.now u) x.name) ls) × FoundBelow result k }
{
    if LABELS < k {
        return None;
    }
    find_name_to(text, ws, 0, k, line, u, e)
}

// The label of the name at u of the line, among the first k.
pub fn find_label(
    text: &[u8],
    ws: &[usize; LABELS],
    k: usize,
    line: &[u8],
    u: usize,
) -> Option<usize>
    ensures { ((sets : List ℕ) (ls : List Label) → Labels text.now ws.now sets k ls → found_as result ≡ find_index (λ x. is_called (word_of line.now u) x.name) ls) × FoundBelow result k }
{
    find_label_to(text, ws, k, line, u, word_end(line, u))
}

// The position of the name of label i.
pub fn label_name(ws: &[usize; LABELS], i: usize) -> usize
    ensures { i < 64 → result ≡ get_or ws.now i 0 }
{
    if i < LABELS { ws[i] } else { 0 }
}

// The words of a set that stand from a place on.
fn load_words(sets: &[u64], at: usize) -> [u64; WORDS]
    requires { at + words ≤ length sets.now }
    ensures { result ≡ take words (drop at sets.now) }
{
    let mut r = [0u64; WORDS];
    for w in 0..WORDS {
        r[w] = sets[at + w];
    }
    r
}

// Set i; the empty set where there can be none.
pub fn load_set(sets: &[u64; SET_WORDS], i: usize) -> [u64; WORDS]
    ensures { i < 128 → result ≡ set_in sets.now i }
{
    if i < 2 * LABELS {
        return load_words(sets, WORDS * i);
    }
    [0u64; WORDS]
}

// The words of a set, stored from a place on.
fn store_words(sets: &mut [u64], at: usize, s: [u64; WORDS])
    requires { at + words ≤ length sets.old }
    ensures { sets.new ≡ paste sets.old at s words }
{
    for w in 0..WORDS {
        sets[at + w] = s[w];
    }
}

// The set s stored as set i; nothing is stored where there can be none.
pub fn store_set(sets: &mut [u64; SET_WORDS], i: usize, s: [u64; WORDS])
    ensures { SetStored sets.old sets.new i s }
{
    if i < 2 * LABELS {
        store_words(sets, WORDS * i, s);
    }
}

// One label more, behind k of them, whose name stands at pos of the text. Nothing is stored where there is no room.
pub fn add_label(
    ws: &mut [usize; LABELS],
    sets: &mut [u64; SET_WORDS],
    k: usize,
    pos: usize,
    allowed: [u64; WORDS],
    denied: [u64; WORDS],
)
    ensures { (text : List ℕ) (ls : List Label) (xs ys : List ℕ) → Labels text ws.old sets.old k ls → k < 64 → SetHolds allowed xs → SetHolds denied ys → Labels text ws.new sets.new (k + 1) (ls ++ (label_at text pos xs ys ∷ [])) }
{
    if k < LABELS {
        put(ws, k, pos);
        store_set(sets, k, allowed);
        store_set(sets, LABELS + k, denied);
    }
}

// What label i says of the purpose whose closure is given.
fn label_verdict(closure: Closure, sets: &[u64; SET_WORDS], i: usize) -> Verdict
    ensures { (tree : List ℕ) (p : ℕ) (text ws : List ℕ) (k : ℕ) (ls : List Label) (l : Label) → Labels text ws sets.now k ls → get_elem? ls i ≡ some l → ClosureOf tree p closure → result ≡ verdict tree l.marks p }
{
    if i < LABELS {
        let allowed = load_set(sets, i);
        let denied = load_set(sets, LABELS + i);
        return verdict_of(
            closure,
            purpose::Label {
                allowed: allowed,
                denied: denied,
            },
        );
    }
    Verdict {
        allowed: false,
        denied: false,
    }
}

// What label i, one of k, says of the purpose whose closure is given; one that is not there says nothing.
pub fn verdict_there(closure: Closure, sets: &[u64; SET_WORDS], k: usize, i: usize) -> Verdict
    ensures { (text ws : List ℕ) (d : Policy) (p : ℕ) → Labels text ws sets.now k d.labels → ClosureOf (tree_of d.purposes) p closure → result ≡ verdict (tree_of d.purposes) (marks_at d (some i)) p }
{
    if i < k {
        return label_verdict(closure, sets, i);
    }
    Verdict {
        allowed: false,
        denied: false,
    }
}

// What each label that there is a place for says of the purpose whose closure is given.
fn fill_said(closure: Closure, sets: &[u64; SET_WORDS], k: usize, said: &mut [bool])
    requires { 128 ≤ length said.old }
    ensures { (text ws : List ℕ) (d : Policy) (p : ℕ) → Labels text ws sets.now k d.labels → ClosureOf (tree_of d.purposes) p closure → Said d p said.new }
{
    for i in 0..LABELS {
        let v = verdict_there(closure, sets, k, i);
        said[i] = v.allowed;
        said[LABELS + i] = v.denied;
    }
}

// What each label, of which there are k, says of the purpose whose closure is given.
pub fn say_labels(closure: Closure, sets: &[u64; SET_WORDS], k: usize, said: &mut [bool; VERDICTS])
    ensures { (text ws : List ℕ) (d : Policy) (p : ℕ) → Labels text ws sets.now k d.labels → ClosureOf (tree_of d.purposes) p closure → Said d p said.new }
{
    fill_said(closure, sets, k, said);
}

// What label l says, by what was stored of each label; one that has no place says nothing.
pub fn said_at(said: &[bool; VERDICTS], l: usize) -> Verdict
    ensures { result ≡ verdict_in said.now l }
{
    if l < LABELS {
        return Verdict {
            allowed: said[l],
            denied: said[LABELS + l],
        };
    }
    Verdict {
        allowed: false,
        denied: false,
    }
}

// What a label says that may be none, which says nothing.
pub fn said_of(said: &[bool; VERDICTS], f: Option<usize>) -> Verdict
    ensures { result ≡ verdict_for said.now (found_as f) }
{
    match f {
        Some(l) => said_at(said, l),
        None => Verdict {
            allowed: false,
            denied: false,
        },
    }
}

// Whether label l is open, by what was stored of each label; one that is not there is closed.
pub fn opened_at(said: &[bool; VERDICTS], l: usize) -> bool
    ensures { result ≡ opened_in said.now l }
{
    let v = said_at(said, l);
    if v.allowed {
        return !v.denied;
    }
    false
}
