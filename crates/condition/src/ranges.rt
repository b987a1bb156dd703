// Numbers known to a range, by the ranks of its ends: whether a comparison is sure, and whether it is possible.
ghost use Rattle.std.specs.Prelude.{eqb, leb, get_or, ◌&&◌, ◌≡◌};
ghost use Rattle.text.specs.Amounts.{is_range};
ghost use Rattle.text.specs.Words.{written_at};
ghost use Rattle.condition.specs.Answers.{mode_by, op_of, range_by};
ghost use Rattle.condition.specs.Ranges.{ends_of, possible, range_meets, sure};

use crate::comparisons::known_rank;
use crate::kinds::Op;
use text::amounts::read_range;
use text::bytes::byte_at;

// The ends of a range, by their ranks; those of a plain number are equal.
#[derive(Clone, Copy)]
pub struct Ends {
    pub low: u64,
    pub high: u64,
}

// The ends of the range at a position, where a bracket opens; where there is no range, two zeros.
fn range_ends(s: &[u8], at: usize) -> Ends
    ensures { get_or s.now at 0 ≡ 40 → range_by result ≡ ends_of (written_at s.now at) }
{
    match read_range(s, at) {
        Some((_, low, high)) => Ends { low, high },
        None => Ends { low: 0, high: 0 },
    }
}

// The ends of the number or range at a position; where there is neither, two zeros.
pub fn ends_at(s: &[u8], at: usize) -> Ends
    ensures { range_by result ≡ ends_of (written_at s.now at) }
{
    if byte_at(s, at) == b'(' {
        return range_ends(s, at);
    }
    let n = known_rank(s, at);
    Ends { low: n, high: n }
}

// Whether the value at a position is a range.
pub fn is_range(s: &[u8], at: usize) -> bool
    ensures { result ≡ is_range (written_at s.now at) }
{
    read_range(s, at).is_some()
}

// Whether both ends are n.
fn ends_are(low: u64, high: u64, n: u64) -> bool
    ensures { result ≡ (eqb low n && eqb high n) }
{
    if low == n { high == n } else { false }
}

// Whether n stands from low to high.
fn is_inside(low: u64, high: u64, n: u64) -> bool
    ensures { result ≡ (leb low n && leb n high) }
{
    if low <= n { n <= high } else { false }
}

// Whether every number from low to high stands to n as the operator says.
fn sure_meets(op: Op, low: u64, high: u64, n: u64) -> bool
    ensures { result ≡ range_meets sure (op_of op) low high n }
{
    match op {
        Op::Eq => ends_are(low, high, n),
        Op::Ne => !is_inside(low, high, n),
        Op::Lt => high < n,
        Op::Le => high <= n,
        Op::Gt => n < low,
        Op::Ge => n <= low,
    }
}

// Whether some number from low to high does.
fn possibly_meets(op: Op, low: u64, high: u64, n: u64) -> bool
    ensures { result ≡ range_meets possible (op_of op) low high n }
{
    match op {
        Op::Eq => is_inside(low, high, n),
        Op::Ne => !ends_are(low, high, n),
        Op::Lt => low < n,
        Op::Le => low <= n,
        Op::Gt => n < high,
        Op::Ge => n <= high,
    }
}

// The one or the other.
pub fn range_meets(op: Op, low: u64, high: u64, n: u64, certain: bool) -> bool
    ensures { result ≡ range_meets (mode_by certain) (op_of op) low high n }
{
    if certain {
        return sure_meets(op, low, high, n);
    }
    possibly_meets(op, low, high, n)
}
