// Fields of a comma-separated file: where they end, and what they come to.
ghost use Rattle.std.specs.Prelude.{Some, ◌+◌, ◌≤◌, ℕ, drop, length, false, true, ◌≡◌};
ghost use Rattle.csv_text.specs.Fields.{field, is_plain, plain_bytes, quoted};
ghost use Rattle.csv_text.specs.Scanned.{digit_bytes, field_of, quoted_end};
ghost use Rattle.text.specs.Bytes.{is_name_byte};
ghost use Rattle.text.specs.CodeEnds.{word_end};
ghost use Rattle.text.specs.Reader.{from};
ghost use Rattle.text.specs.Walking.{past};
ghost use Rattle.text.specs.Words.{value, word_at};

use text::bytes::{byte_at, is_digit, is_letter, is_name_byte};
use text::walking::skip_byte;
use text::words::value_end;

// Whether b may stand in a name. What most bytes of a list are, small letters, is tested first.
fn is_word_byte(b: u8) -> bool
    ensures { result ≡ is_name_byte b }
{
    if b < b'a' {
        return is_name_byte(b);
    }
    b <= b'z'
}

// The end of the name bytes at a position.
fn word_end(s: &[u8], at: usize) -> usize
    ensures { result ≡ at + length (word_at s.now at) }
{
    for i in at..s.len() {
        if !is_word_byte(s[i]) {
            return i;
        }
    }
    at.max(s.len())
}

// The end of the digits at a position.
fn digits_end(s: &[u8], at: usize) -> usize
    ensures { result ≡ at + length (digit_bytes (drop at s.now)) }
{
    for i in at..s.len() {
        if !is_digit(s[i]) {
            return i;
        }
    }
    at.max(s.len())
}

// Whether the digits at a position, which end there, are a number by a glance: at most 18 of them, or 19 of which the first is
// no 9. Where it says no, they may be one all the same.
fn is_short_number(s: &[u8], at: usize, end: usize) -> bool
    ensures { end ≡ at + length (digit_bytes (drop at s.now)) → result ≡ true → word_end (value (from s.now at)) ≡ Some end }
{
    if end <= at {
        return false;
    }
    if is_plain(byte_at(s, end)) {
        return false;
    }
    if byte_at(s, at) == b'0' {
        return end - at == 1;
    }
    if byte_at(s, at) == b'9' {
        return end - at < 19;
    }
    end - at < 20
}

// The end of the name or number at a position, as value_end finds it: short ones are told without arithmetic.
fn short_value_end(s: &[u8], at: usize) -> Option<usize>
    ensures { result ≡ word_end (value (from s.now at)) }
{
    if is_letter(byte_at(s, at)) {
        let e = word_end(s, at + 1);
        if e - at <= 24 {
            return Some(e);
        }
        return value_end(s, at);
    }
    let d = digits_end(s, at);
    if is_short_number(s, at, d) {
        return Some(d);
    }
    value_end(s, at)
}

// Whether b may stand in a field without quotes.
pub fn is_plain(b: u8) -> bool
    ensures { result ≡ is_plain b }
{
    if b == b'"' {
        return false;
    }
    if b == b',' {
        return false;
    }
    if b == b'\n' {
        return false;
    }
    b != b'\r'
}

// The end of the plain bytes at a position.
fn plain_end(s: &[u8], at: usize) -> usize
    ensures { result ≡ at + length (plain_bytes (drop at s.now)) }
{
    for i in at..s.len() {
        if !is_plain(s[i]) {
            return i;
        }
    }
    at.max(s.len())
}

// The end of a field in quotes, from behind its opening quote.
fn quoted_end(s: &[u8], at: usize) -> Option<usize>
    ensures { result ≡ quoted_end at (quoted false (drop at s.now)) }
{
    let mut i = at;
    while i < s.len() {
        if s[i] == b'"' {
            if byte_at(s, i + 1) != b'"' {
                return Some(i + 1);
            }
            i += 2;
            continue;
        }
        i += 1;
    }
    None
}

// The end of the field at a position. It is looked for from i on: name bytes behind the quote, or at the field's start, end no
// field, so that a word that was walked is not walked again.
fn field_end(s: &[u8], at: usize, i: usize) -> Option<usize>
    ensures { (k : ℕ) → i ≡ past 34 s.now at + k → k ≤ length (word_at s.now (past 34 s.now at)) → result ≡ word_end (field (from s.now at)) }
{
    if byte_at(s, at) == b'"' {
        return quoted_end(s, i);
    }
    Some(plain_end(s, i))
}

// A field: its end, its size, and whether it is unfit. A name or number stands in the file as it is, so that it is the word behind
// the quote or at the field's start, and takes the whole field.
pub fn read_field(s: &[u8], at: usize) -> Option<(usize, usize, usize)>
    ensures { result ≡ field_of (field (from s.now at)) }
{
    let start = skip_byte(s, at, b'"');
    let Some(w) = short_value_end(s, start) else {
        let e = field_end(s, at, start)?;
        return Some((e, 0, 1));
    };
    let e = field_end(s, at, w)?;
    if w + (start - at) == e {
        return Some((e, w - start + 1, 0));
    }
    Some((e, 0, 1))
}
