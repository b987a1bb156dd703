// The types of a query's condition (16) and its dates that do not exist (31), told from its comparisons as they were read.
ghost use Rattle.std.specs.Prelude.{◌≤◌, ℕ, List, ◌≡◌};
ghost use Rattle.judging.specs.Reading.{first_missing, first_wrong, wrong_by};
ghost use Rattle.query.specs.Query.{is_missing_date};
ghost use Rattle.text.specs.CodeEnds.{offending_value};
ghost use Rattle.text.specs.Words.{written_at};

use crate::tests::{TEST_CELLS, TESTS, TestRead, test_at};
use calendar::reading::read_date;
use condition::kinds::{op_by, takes_op};
use workspace::store::kind_by;

// The operator of a comparison, or else its value, where it is of the wrong type.
fn wrong_test(x: TestRead) -> Option<usize>
    ensures { (s : List ℕ) → offending_value s result ≡ wrong_by s x }
{
    if !takes_op(kind_by(x.kind), op_by(x.operator)) {
        return Some(x.sign);
    }
    if x.fits == 1 {
        return None;
    }
    Some(x.place)
}

// The first operator or value of the wrong type among m comparisons.
pub fn mistyped_test(tests: &[usize; TEST_CELLS], m: usize) -> Option<usize>
    ensures { (s : List ℕ) → m ≤ 64 → offending_value s result ≡ first_wrong s tests.now m }
{
    for j in 0..m {
        if j >= TESTS {
            return None;
        }
        let w = wrong_test(test_at(tests, j));
        if let Some(p) = w {
            return Some(p);
        }
    }
    None
}

// Whether a date is written at a place of the query, and there is no such date.
fn is_missing_date(query: &[u8], at: usize) -> bool
    ensures { result ≡ is_missing_date (written_at query.now at) }
{
    match read_date(query, at) {
        Some((_, Some(_))) => false,
        Some((_, None)) => true,
        None => false,
    }
}

// The first date that does not exist among m comparisons.
pub fn missing_date(query: &[u8], tests: &[usize; TEST_CELLS], m: usize) -> Option<usize>
    ensures { m ≤ 64 → offending_value query.now result ≡ first_missing query.now tests.now m }
{
    for j in 0..m {
        if j >= TESTS {
            return None;
        }
        let x = test_at(tests, j);
        if is_missing_date(query, x.place) {
            return Some(x.place);
        }
    }
    None
}
