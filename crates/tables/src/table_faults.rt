// A table line: its columns are walked through again, in brackets of two words, `(COL num)`, or of three, `(COL num L)`.
ghost use Rattle.std.specs.Prelude.{◌≤◌, ℕ, length, take, List, [], ◌∷◌, map, ◌≡◌};
ghost use Rattle.document.specs.Policy.{Doc, Label};
ghost use Rattle.stepping.specs.Places.{Near};
ghost use Rattle.tables.specs.TableLine.{JudgesTable, bracket_end_by, columns_by};
ghost use Rattle.form.specs.Form.{scheme_labels};
ghost use Rattle.form.specs.Walks.{column_labels_at};
ghost use Rattle.relations.specs.Labels.{Labels};
ghost use Rattle.relations.specs.Tables.{Tables};
ghost use Rattle.form.specs.TableWords.{scheme_words};
ghost use Rattle.lists.specs.Lists.{any_of, find_index, there};
ghost use Rattle.text.specs.Offending.{missing, repeated};
ghost use Rattle.text.specs.Words.{is_called, word_of};
ghost use Rattle.text.specs.CodeEnds.{offending_of};

use form::lines::{Scheme, labels_columns};
use form::walks::{first_in, pair_end, third_in, triple_end};
use relations::labels::find_label;
use relations::tables::find_table;
use stepping::fault::Fault;
use text::bytes::byte_at;
use text::refusals::Reason;
use text::words::same_name;
use workspace::layout::{COLUMNS, LABELS, MET_WORDS, TABLE_CELLS, TABLES};
use workspace::met::{LONG_LINE, is_new};

// Where the bracket of two or three words at a position ends.
fn bracket_end(s: &[u8], at: usize, triple: bool) -> usize
    ensures { result ≡ bracket_end_by triple s.now at }
{
    if triple {
        return triple_end(s, at);
    }
    pair_end(s, at)
}

// How many columns stand from a position on.
fn count_columns(s: &[u8], at: usize, triple: bool) -> usize
    ensures { result ≡ length (columns_by triple s.now at) }
{
    let mut j = at;
    let mut n: usize = 0;
    while byte_at(s, j) == b' ' {
        j = bracket_end(s, j + 1, triple);
        n += 1;
    }
    n
}

// Whether the name at p is one of the first n columns' from a position on.
fn stands_among(s: &[u8], at: usize, n: usize, triple: bool, p: usize) -> bool
    ensures { result ≡ any_of (λ v. is_called (word_of s.now p) v.bytes) (take n (map (λ x. x.name) (columns_by triple s.now at))) }
{
    let mut j = at;
    let mut left = n;
    while byte_at(s, j) == b' ' {
        if left == 0 {
            return false;
        }
        if same_name(s, p, s, first_in(s, j + 1)) {
            return true;
        }
        j = bracket_end(s, j + 1, triple);
        left -= 1;
    }
    false
}

// The first of the columns from a position on whose name stood before. A name that is surely new is compared with none.
fn first_repeat_by(s: &[u8], at: usize, triple: bool, met: &mut [u64]) -> Option<usize>
    ensures { (offending_of s.now result ≡ repeated (map (λ x. x.name) (columns_by triple s.now at))) × Near s.now result }
{
    let mut j = at;
    let mut n: usize = 0;
    while byte_at(s, j) == b' ' {
        let p = first_in(s, j + 1);
        if !is_new(met, s, p) {
            if stands_among(s, at, n, triple, p) {
                return Some(p);
            }
        }
        j = bracket_end(s, j + 1, triple);
        n += 1;
    }
    None
}

// The first of the columns from a position on whose name stood before.
fn first_repeat(s: &[u8], at: usize, triple: bool) -> Option<usize>
    ensures { (offending_of s.now result ≡ repeated (map (λ x. x.name) (columns_by triple s.now at))) × Near s.now result }
{
    if s.len() < LONG_LINE {
        let mut few = [0u64; 1];
        return first_repeat_by(s, at, triple, &mut few);
    }
    let mut met = [0u64; MET_WORDS];
    first_repeat_by(s, at, triple, &mut met)
}

// Whether there is a label of the name at p.
fn is_label(text: &[u8], labels: &[usize; LABELS], m: usize, line: &[u8], p: usize) -> bool
    ensures { (sets : List ℕ) (ls : List Label) → Labels text.now labels.now sets m ls → result ≡ there (find_index (λ x. is_called (word_of line.now p) x.name) ls) }
{
    find_label(text, labels, m, line, p).is_some()
}

// The first of the columns' labels from a position on that is not known.
fn first_unknown_label(
    text: &[u8],
    labels: &[usize; LABELS],
    m: usize,
    line: &[u8],
    at: usize,
) -> Option<usize>
    ensures { ((sets : List ℕ) (ls : List Label) → Labels text.now labels.now sets m ls → offending_of line.now result ≡ missing (λ w. there (find_index (λ x. is_called w x.name) ls)) (column_labels_at line.now at)) × Near line.now result }
{
    let mut j = at;
    while byte_at(line, j) == b' ' {
        let third = third_in(line, j + 1);
        if !is_label(text, labels, m, line, third) {
            return Some(third);
        }
        j = bracket_end(line, j + 1, true);
    }
    None
}

// The label of the table, if it is not known.
fn unknown_table_label(
    text: &[u8],
    labels: &[usize; LABELS],
    m: usize,
    line: &[u8],
    l: usize,
) -> Option<usize>
    ensures { ((sets : List ℕ) (ls : List Label) → Labels text.now labels.now sets m ls → offending_of line.now result ≡ missing (λ w. there (find_index (λ x. is_called w x.name) ls)) (word_of line.now l ∷ [])) × (l ≤ length line.now → Near line.now result) }
{
    if is_label(text, labels, m, line, l) {
        return None;
    }
    Some(l)
}

// The first of the labels that the scheme names that is not known.
fn unknown_label(
    text: &[u8],
    labels: &[usize; LABELS],
    m: usize,
    line: &[u8],
    scheme: Scheme,
    l: usize,
    cs: usize,
) -> Option<usize>
    ensures { ((sets : List ℕ) (ls : List Label) → Labels text.now labels.now sets m ls → offending_of line.now result ≡ missing (λ w. there (find_index (λ x. is_called w x.name) ls)) (scheme_labels (scheme_words line.now scheme l cs))) × (l ≤ length line.now → Near line.now result) }
{
    match scheme {
        Scheme::Unlabelled => None,
        Scheme::ByTable => unknown_table_label(text, labels, m, line, l),
        Scheme::ByColumn => first_unknown_label(text, labels, m, line, cs),
        Scheme::ByRow => None,
        Scheme::ByCell => None,
        Scheme::Nested => None,
    }
}

// What is wrong with the line `(table T scheme ..)`: T stands at t, the table's label, if it has one, at l, and the columns
// begin at cs. There are m labels and k tables.
pub fn table_fault(
    text: &[u8],
    labels: &[usize; LABELS],
    m: usize,
    tables: &[usize; TABLE_CELLS],
    k: usize,
    line: &[u8],
    t: usize,
    scheme: Scheme,
    l: usize,
    cs: usize,
) -> Result<(), Fault>
    ensures { JudgesTable (λ (d : Doc). ((sets : List ℕ) × Labels text.now labels.now sets m d.policy.labels) × Tables text.now tables.now k d.policy.tables) ((t ≤ length line.now) × (l ≤ length line.now) × (cs ≤ length line.now)) line.now t scheme l cs k result }
{
    if TABLES <= k {
        return Err(Fault::Whole(Reason::OverBound));
    }
    let triple = labels_columns(scheme);
    if COLUMNS < count_columns(line, cs, triple) {
        return Err(Fault::Whole(Reason::OverBound));
    }
    if find_table(text, tables, k, line, t).is_some() {
        return Err(Fault::Item(Reason::NameTaken, t));
    }
    if let Some(p) = first_repeat(line, cs, triple) {
        return Err(Fault::Item(Reason::NameTaken, p));
    }
    if let Some(p) = unknown_label(text, labels, m, line, scheme, l, cs) {
        return Err(Fault::Item(Reason::NameUnknown, p));
    }
    Ok(())
}
