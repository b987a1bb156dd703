// The length of the longest answer among the tables, each with all its columns and all rows passed.
ghost use Rattle.std.specs.Prelude.{◌≤◌, length, List, ◌≡◌};
ghost use Rattle.answer.specs.Reserve.{greatest, reserve_of, whole_length, whole_lengths};
ghost use Rattle.answer.specs.Reserve as meant;
ghost use Rattle.answer.specs.Seen.{rows_in};
ghost use Rattle.document.specs.Policy.{Doc, Row};
ghost use Rattle.relations.specs.Rows.{Rows};
ghost use Rattle.reserve.specs.Sums.{HoldsRows};
ghost use Rattle.text.specs.Numbers.{decimal};

use crate::sums::table_sum;
use workspace::layout::{ROW_CELLS, ROWS, TABLES};
use writing::bytes::put_decimal;

// How long a text may be.
const TEXT_BYTES: usize = 60000;

// How long n is in decimal, found by writing it into no bytes at all.
fn decimal_length(n: usize) -> usize
    ensures { result ≡ length (decimal n) }
{
    let mut nothing = [0u8; 1];
    put_decimal(&mut nothing[..0], 0, n)
}

// How long the answer is that gives all rows of table t, among the first count, with all their columns.
fn table_length(text: &[u8], rows: &[usize; ROW_CELLS], count: usize, t: usize) -> usize
    requires { (length text.now ≤ 60000) × (count ≤ 1024) }
    ensures { (rs : List Row) → Rows text.now rows.now count rs → result ≡ whole_length (rows_in t rs) }
{
    let s = table_sum(text, rows, count, t);
    let digits = decimal_length(s.count);
    s.bytes + 11 + digits
}

// The larger of two numbers.
fn larger(a: usize, b: usize) -> usize
    ensures { result ≡ meant.larger a b }
{
    if a <= b {
        return b;
    }
    a
}

// The longest among the first k tables.
fn longest(text: &[u8], rows: &[usize; ROW_CELLS], count: usize, k: usize) -> usize
    requires { (length text.now ≤ 60000) × (count ≤ 1024) }
    ensures { (rs : List Row) → Rows text.now rows.now count rs → result ≡ greatest (whole_lengths rs k) }
{
    let mut best = 0;
    for t in 0..k {
        best = larger(table_length(text, rows, count, t), best);
    }
    best
}

// The reserve of a document of k tables and so many rows. One that the workspace holds passes the tests, which keep lengths from
// wrapping.
pub fn reserve(text: &[u8], rows: &[usize; ROW_CELLS], k: usize, count: usize) -> usize
    ensures { (d : Doc) → HoldsRows text.now rows.now k count d → result ≡ reserve_of d }
{
    if TEXT_BYTES < text.len() {
        return 0;
    }
    if ROWS < count {
        return 0;
    }
    if TABLES < k {
        return 0;
    }
    longest(text, rows, count, k)
}
