// Looking a name up among the first n positions of an array.
ghost use Rattle.std.specs.Prelude.{◌+◌, ◌-◌, ◌<◌, ◌≤◌, ℕ, get_or, length, false, List, ◌≡◌};
ghost use Rattle.workspace.specs.Found.{FoundBelow, found_as};
ghost use Rattle.workspace.specs.Hash.{Printed};
ghost use Rattle.workspace.specs.Tabulated.{tabulated};
ghost use Rattle.lists.specs.Lists.{find_index};
ghost use Rattle.text.specs.Names.{same_name};
ghost use Rattle.text.specs.Words.{is_called, word_at, word_of};

use crate::hashes::print_word;
use text::bytes::{byte_at, is_name_byte};
use text::words::{same_byte, word_end};

// Whether the name of len bytes at i of the line is the word at p of the text. Where that word ends is looked at first, and then the
// bytes from the last on: names that are much alike tend to differ there. A length that does not fit the line is no name's.
pub fn same_length_name(line: &[u8], i: usize, len: usize, text: &[u8], p: usize) -> bool
    ensures { (len ≡ length (word_at line.now i)) → result ≡ same_name (word_at line.now i) (word_at text.now p) }
{
    if text.len() < len {
        return false;
    }
    if text.len() - len < p {
        return len == 0;
    }
    if is_name_byte(byte_at(text, p + len)) {
        return false;
    }
    if line.len() < len {
        return false;
    }
    if line.len() - len < i {
        return len == 0;
    }
    let mut q = len;
    while 0 < q {
        q -= 1;
        if !same_byte(line[i + q], text[p + q]) {
            return false;
        }
    }
    true
}

// Whether the name of len bytes can be the word at p of the text: its first and last bytes fit. Most other names are told apart by this.
fn may_be(text: &[u8], p: usize, len: usize, first: u8, last: u8) -> bool
    ensures { (line : List ℕ) (i : ℕ) → len ≡ length (word_at line i) → first ≡ get_or line i 0 → last ≡ get_or line (i + len - 1) 0 → result ≡ false → same_name (word_at line i) (word_at text.now p) ≡ false }
{
    if len == 0 {
        return true;
    }
    if text.len() < len {
        return false;
    }
    if text.len() - len < p {
        return false;
    }
    if same_byte(last, text[p + (len - 1)]) {
        return same_byte(first, text[p]);
    }
    false
}

// The place before e, and 0 before the first.
fn before(e: usize) -> usize
    ensures { result ≡ e - 1 }
{
    if e == 0 { 0 } else { e - 1 }
}

// The first of the n names at the positions from `base` on that is the name from i to e of the line.
fn seek_name(
    text: &[u8],
    ws: &[usize],
    base: usize,
    n: usize,
    line: &[u8],
    i: usize,
    e: usize,
) -> Option<usize>
    requires { base + n ≤ length ws.now }
    ensures { (e ≡ i + length (word_at line.now i) → found_as result ≡ find_index (λ p. is_called (word_of line.now i) (word_at text.now p)) (tabulated (λ k. get_or ws.now (base + k) 0) n)) × FoundBelow result n }
{
    if e < i {
        return None;
    }
    let len = e - i;
    let first = byte_at(line, i);
    let last = byte_at(line, before(e));
    for k in 0..n {
        let p = ws[base + k];
        if may_be(text, p, len, first, last) {
            if same_length_name(line, i, len, text, p) {
                return Some(k);
            }
        }
    }
    None
}

// The same for positions of which some may lie behind the array's end: nothing is found there.
pub fn find_name_to(
    text: &[u8],
    ws: &[usize],
    base: usize,
    n: usize,
    line: &[u8],
    i: usize,
    e: usize,
) -> Option<usize>
    ensures { (base + n ≤ length ws.now → e ≡ i + length (word_at line.now i) → found_as result ≡ find_index (λ p. is_called (word_of line.now i) (word_at text.now p)) (tabulated (λ k. get_or ws.now (base + k) 0) n)) × FoundBelow result n }
{
    if ws.len() < n {
        return None;
    }
    if ws.len() - n < base {
        return None;
    }
    seek_name(text, ws, base, n, line, i, e)
}

// The same for a name whose end is not known yet.
pub fn find_name(
    text: &[u8],
    ws: &[usize],
    base: usize,
    n: usize,
    line: &[u8],
    i: usize,
) -> Option<usize>
    ensures { (base + n ≤ length ws.now → found_as result ≡ find_index (λ p. is_called (word_of line.now i) (word_at text.now p)) (tabulated (λ k. get_or ws.now (base + k) 0) n)) × FoundBelow result n }
{
    find_name_to(text, ws, base, n, line, i, word_end(line, i))
}

// The same among the first n positions, where the names' prints stand from `prints` on: a name with another print is another.
fn seek_printed(
    text: &[u8],
    ws: &[usize],
    prints: usize,
    n: usize,
    line: &[u8],
    i: usize,
) -> Option<usize>
    requires { prints + n ≤ length ws.now }
    ensures { (((j : ℕ) → j < n → Printed prints text.now ws.now j) → found_as result ≡ find_index (λ p. is_called (word_of line.now i) (word_at text.now p)) (tabulated (λ k. get_or ws.now (0 + k) 0) n)) × FoundBelow result n }
{
    let w = print_word(line, i);
    let e = w.end;
    let h = w.hash;
    let len = e - i;
    for k in 0..n {
        if ws[prints + k] == h {
            if same_length_name(line, i, len, text, ws[k]) {
                return Some(k);
            }
        }
    }
    None
}

// The same where some of them may lie behind the array's end: nothing is found there.
pub fn find_printed(
    text: &[u8],
    ws: &[usize],
    prints: usize,
    n: usize,
    line: &[u8],
    i: usize,
) -> Option<usize>
    ensures { (prints + n ≤ length ws.now → ((j : ℕ) → j < n → Printed prints text.now ws.now j) → found_as result ≡ find_index (λ p. is_called (word_of line.now i) (word_at text.now p)) (tabulated (λ k. get_or ws.now (0 + k) 0) n)) × FoundBelow result n }
{
    if ws.len() < n {
        return None;
    }
    if ws.len() - n < prints {
        return None;
    }
    seek_printed(text, ws, prints, n, line, i)
}
