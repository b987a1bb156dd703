// Numbers of a text: decimal, from -2^63 to 2^63 - 1, held as the number plus 2^63.
ghost use Rattle.std.specs.Prelude.{◌+◌, length, ◌≡◌};
ghost use Rattle.text.specs.Reader.{from};
ghost use Rattle.text.specs.Words.{word_at, read_number};
ghost use Rattle.text.specs.Numbers.{digits_from, no_leading_zero, magnitude, rank};
ghost use Rattle.text.specs.CodeEnds.{limited, ended_at, amount_of, end_of_number};

use crate::bytes::{byte_at, is_digit, is_name_byte};

// Whether the word at a position has no leading zero.
pub fn is_canonical(s: &[u8], at: usize) -> bool
    ensures { result ≡ no_leading_zero (word_at s.now at) }
{
    let b = byte_at(s, at);
    if !is_name_byte(b) {
        return false;
    }
    if b != b'0' {
        return true;
    }
    !is_name_byte(byte_at(s, at + 1))
}

// The end of the digits at a position, and the number that they spell, if it is at most 2^63.
fn read_digits(s: &[u8], at: usize) -> Option<(usize, u64)>
    ensures { result ≡ ended_at (at + length (word_at s.now at)) (limited (digits_from 0 (word_at s.now at))) }
{
    let mut i = at;
    let mut n: u64 = 0;
    while is_digit(byte_at(s, i)) {
        if n > 922337203685477580 {
            return None;
        }
        n = n * 10 + ((byte_at(s, i) - 48) as u64);
        i += 1;
    }
    if is_name_byte(byte_at(s, i)) {
        return None;
    }
    if n <= 9223372036854775808 {
        Some((i, n))
    } else {
        None
    }
}

// The same, if they have no leading zero.
fn read_magnitude(s: &[u8], at: usize) -> Option<(usize, u64)>
    ensures { result ≡ ended_at (at + length (word_at s.now at)) (limited (magnitude (word_at s.now at))) }
{
    if is_canonical(s, at) {
        read_digits(s, at)
    } else {
        None
    }
}

// The number alone.
pub fn magnitude_at(s: &[u8], at: usize) -> Option<u64>
    ensures { result ≡ limited (magnitude (word_at s.now at)) }
{
    let (_, n) = read_magnitude(s, at)?;
    Some(n)
}

// The end of the number at a position, and its rank.
pub fn read_number(s: &[u8], at: usize) -> Option<(usize, u64)>
    ensures { result ≡ end_of_number (read_number (from s.now at)) }
{
    if byte_at(s, at) == b'-' {
        let (end, n) = read_magnitude(s, at + 1)?;
        if n == 0 {
            return None;
        }
        return Some((end, 9223372036854775808 - n));
    }
    let (end, n) = read_magnitude(s, at)?;
    if n >= 9223372036854775808 {
        return None;
    }
    Some((end, 9223372036854775808 + n))
}

// The rank of the number that the word at a position spells.
pub fn rank_at(s: &[u8], at: usize) -> Option<u64>
    ensures { result ≡ amount_of (rank (word_at s.now at)) }
{
    let (_, n) = read_number(s, at)?;
    Some(n)
}
