// A join whose names are known judged: types (16), ranges (27), dates (31), labels (17).
ghost use Rattle.std.specs.Prelude.{◌≡◌};
ghost use Rattle.pairing.specs.Faults.{judged_as};
ghost use Rattle.pairing.specs.Promises.{JudgeJoinPromise, JudgeTypesPromise};

use crate::naming::Names;
use crate::refusing::{refusal_at, refusal_written};
use condition::kinds::same_kind;
use judging::tests::TEST_CELLS;
use judging::types::{missing_date, mistyped_test};
use ranging::join_ranged::ranged_join;
use resolving::join_openness::closed_join;
use resolving::joins::{JOINED, ref_kind};
use text::refusals::{Reason, Refusal};
use workspace::layout::{ROW_CELLS, TABLE_CELLS, VERDICTS};

// Keys of different types, or else a comparison of the wrong type (16).
fn judge_types(
    tables: &[usize; TABLE_CELLS],
    query: &[u8],
    g: Names,
    columns: &[usize; JOINED],
    tests: &[usize; TEST_CELLS],
) -> Result<(), Refusal>
    ensures { JudgeTypesPromise tables.now query.now g columns.now tests.now result }
{
    let p = g.tables;
    let first = ref_kind(tables, p, columns[0]);
    let second = ref_kind(tables, p, columns[1]);
    if !same_kind(first, second) {
        return Err(refusal_at(query, Reason::MistypedQuery, g.other));
    }
    let wrong = mistyped_test(tests, g.tests);
    if let Some(at) = wrong {
        return Err(refusal_written(query, Reason::MistypedQuery, at));
    }
    Ok(())
}

// The first of 16, 27, 31 and 17, in this order.
pub(crate) fn judge_join(
    text: &[u8],
    tables: &[usize; TABLE_CELLS],
    rows: &[usize; ROW_CELLS],
    count: usize,
    said: &[bool; VERDICTS],
    query: &[u8],
    g: Names,
    words: &[usize; JOINED],
    columns: &[usize; JOINED],
    tests: &[usize; TEST_CELLS],
) -> Result<(), Refusal>
    ensures { JudgeJoinPromise text.now tables.now rows.now count said.now query.now g words.now columns.now tests.now result }
{
    judge_types(tables, query, g, columns, tests)?;
    let p = g.tables;
    let ranged = ranged_join(text, tables, rows, count, p, words, g.number, columns);
    if let Some(at) = ranged {
        return Err(refusal_at(query, Reason::RangeNotTaken, at));
    }
    let absent = missing_date(query, tests, g.tests);
    if let Some(at) = absent {
        return Err(refusal_written(query, Reason::NoSuchDate, at));
    }
    let closed = closed_join(tables, p, said, words, g.number, columns);
    if let Some(at) = closed {
        return Err(refusal_at(query, Reason::Closed, at));
    }
    Ok(())
}
