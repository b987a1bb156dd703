// What becomes of each row: it is withheld, or given, or its condition does not hold.
ghost use Rattle.std.specs.Prelude.{◌+◌, ◌<◌, ◌≤◌, ℕ, drop, get_or, length, take, ◌&&◌, false, not, List, ◌≡◌};
ghost use Rattle.std.proofs.Math.Option.{Option};
ghost use Rattle.answer.specs.Answer.{matches};
ghost use Rattle.judging.specs.Judging.{JudgedTo, Judgeable, WithheldBy, counted_by, fate_here, fate_of, passed_by};
ghost use Rattle.judging.specs.Marking.{open_under};
ghost use Rattle.judging.specs.Promises.{JudgeEachPromise};
ghost use Rattle.judging.specs.Prepared.{Judged, Prepared, first_withholding};
ghost use Rattle.judging.specs.Tests.{Tested};
ghost use Rattle.condition.specs.Comparison.{Comparison};
ghost use Rattle.condition.specs.Cond.{Cond};
ghost use Rattle.condition.specs.Ranges.{Mode};
ghost use Rattle.document.specs.Policy.{Doc};
ghost use Rattle.relations.specs.Rows.{label_count_in, label_room, labels_in, row_in, value_count_in};
ghost use Rattle.lists.specs.Lists.{any_of};
ghost use Rattle.query.specs.Query.{Query};

use crate::comparing::row_matches;
use crate::marking::{Marking, cell_open, label_open, under_row};
use crate::sought::Sought;
use crate::tally::Tally;
use crate::tests::TEST_CELLS;
use form::lines::Scheme;
use query::reading::leaves_gaps;
use relations::rows::row_table;
use relations::tables::table_scheme;
use workspace::layout::{COLUMNS, ROW_CELLS, ROWS, TABLE_CELLS, VERDICTS};

// What becomes of a row: it lies in another table, or is withheld, or passes, or its condition does not hold.
#[derive(Clone, Copy)]
pub enum Fate {
    Elsewhere,
    Withheld,
    Passed,
    Unmatched,
}

// Whether a cell of row r, which is marked so, is closed in one of these columns.
fn any_closed(
    rows: &[usize; ROW_CELLS],
    said: &[bool; VERDICTS],
    m: Marking,
    r: usize,
    columns: &[usize],
) -> bool
    ensures { r < 1024 → label_count_in rows.now r ≤ label_room → result ≡ any_of (λ c. not (open_under said.now m (labels_in rows.now r) c)) columns.now }
{
    for i in 0..columns.len() {
        if !cell_open(rows, said, m, r, columns[i]) {
            return true;
        }
    }
    false
}

// Whether row r is withheld in a table of this scheme, which is marked so, where closed cells in these columns withhold it.
pub fn is_withheld(
    scheme: Scheme,
    rows: &[usize; ROW_CELLS],
    said: &[bool; VERDICTS],
    m: Marking,
    r: usize,
    columns: &[usize],
) -> bool
    ensures { WithheldBy scheme rows.now said.now m r columns.now result }
{
    match scheme {
        Scheme::Unlabelled => false,
        Scheme::ByTable => false,
        Scheme::ByColumn => false,
        Scheme::ByRow => !label_open(rows, said, r, 0),
        Scheme::ByCell => any_closed(rows, said, m, r, columns),
        Scheme::Nested => {
            let own = under_row(rows, said, m, r);
            any_closed(rows, said, own, r, columns)
        }
    }
}

// Whether row r is not withheld and its condition holds: of a withheld row the condition is not looked at.
fn row_met(
    skip: bool,
    text: &[u8],
    rows: &[usize; ROW_CELLS],
    r: usize,
    query: &[u8],
    tests: &[usize; TEST_CELLS],
    m: usize,
) -> bool
    requires { m ≤ 64 }
    ensures { (mode : Mode) (o : Option (Cond Comparison)) → Tested query.now tests.now m mode o → r < 1024 → value_count_in rows.now r ≤ 16 → result ≡ (not skip && matches mode o (row_in text.now rows.now r).values) }
{
    if skip {
        return false;
    }
    row_matches(text, rows, r, query, tests, m)
}

// What becomes of a row of the table: a withheld row is that, whether its condition holds or not.
fn fate_here(held: bool, met: bool) -> Fate
    ensures { result ≡ fate_here held met }
{
    if held {
        return Fate::Withheld;
    }
    if met {
        return Fate::Passed;
    }
    Fate::Unmatched
}

// What becomes of row r of a document, where the table has this scheme and the columns withhold from `first` on.
fn fate_of(
    text: &[u8],
    rows: &[usize; ROW_CELLS],
    r: usize,
    said: &[bool; VERDICTS],
    query: &[u8],
    s: Sought,
    first: usize,
    scheme: Scheme,
    columns: &[usize; 80],
    tests: &[usize; TEST_CELLS],
) -> Fate
    requires { (s.chosen ≤ 16) × (s.tests ≤ 64) × (first ≤ s.chosen) }
    ensures { (count : ℕ) (d : Doc) (q : Query) → Judgeable text.now rows.now count said.now query.now s first scheme columns.now tests.now d q → r < count → result ≡ fate_of d q (row_in text.now rows.now r) }
{
    let m = s.tests;
    if row_table(rows, r) != s.table {
        return Fate::Elsewhere;
    }
    let marking = s.marking;
    let named: &[usize] = columns;
    let end = s.chosen + m;
    let held = is_withheld(scheme, rows, said, marking, r, &named[first..end]);
    let met = row_met(held, text, rows, r, query, tests, m);
    fate_here(held, met)
}

// Whether the row passes.
fn is_passed(f: Fate) -> bool
    ensures { result ≡ passed_by f }
{
    match f {
        Fate::Elsewhere => false,
        Fate::Withheld => false,
        Fate::Passed => true,
        Fate::Unmatched => false,
    }
}

// One row more is counted.
fn count_row(x: Tally, f: Fate) -> Tally
    requires { (x.passed < 1024) × (x.withheld < 1024) × (x.unmatched < 1024) }
    ensures { result ≡ counted_by x f }
{
    let passed = x.passed;
    let withheld = x.withheld;
    let unmatched = x.unmatched;
    match f {
        Fate::Elsewhere => x,
        Fate::Withheld => Tally {
            passed,
            withheld: withheld + 1,
            unmatched,
        },
        Fate::Passed => Tally {
            passed: passed + 1,
            withheld,
            unmatched,
        },
        Fate::Unmatched => Tally {
            passed,
            withheld,
            unmatched: unmatched + 1,
        },
    }
}

// Judges each row once by the comparisons that were read, where there is room for the marks.
fn judge_each(
    text: &[u8],
    rows: &[usize; ROW_CELLS],
    count: usize,
    said: &[bool; VERDICTS],
    query: &[u8],
    s: Sought,
    first: usize,
    scheme: Scheme,
    columns: &[usize; 80],
    tests: &[usize; TEST_CELLS],
    marks: &mut [bool],
) -> Tally
    requires { (s.chosen ≤ 16) × (s.tests ≤ 64) × (count ≤ 1024) × (count ≤ length marks.old) × (first ≤ s.chosen) }
    ensures { JudgeEachPromise text.now rows.now count said.now query.now s first scheme columns.now tests.now marks.new result }
{
    let mut x = Tally {
        passed: 0,
        withheld: 0,
        unmatched: 0,
    };
    for r in 0..count {
        let f = fate_of(text, rows, r, said, query, s, first, scheme, columns, tests);
        marks[r] = is_passed(f);
        x = count_row(x, f);
    }
    x
}

// The first of the columns whose closed cells withhold: where gaps are left, the selected ones do not (02, Q-10).
fn first_withholding(s: Sought) -> usize
    ensures { (result ≡ first_withholding s) × (result ≤ s.chosen) }
{
    let verb = s.verb;
    if leaves_gaps(verb) {
        return s.chosen;
    }
    0
}

// Judges each row once, by the scheme of the table.
fn judge_bounded(
    text: &[u8],
    tables: &[usize; TABLE_CELLS],
    rows: &[usize; ROW_CELLS],
    count: usize,
    said: &[bool; VERDICTS],
    query: &[u8],
    s: Sought,
    tests: &[usize; TEST_CELLS],
    columns: &[usize; 80],
    marks: &mut [bool; ROWS],
) -> Tally
    requires { (s.chosen ≤ 16) × (s.tests ≤ 64) × (count ≤ 1024) }
    ensures { (d : Doc) (q : Query) → Prepared text.now tables.now rows.now count said.now query.now s tests.now columns.now d q → Judged d q marks.new result }
{
    let first = first_withholding(s);
    let scheme = table_scheme(tables, s.table);
    judge_each(
        text, rows, count, said, query, s, first, scheme, columns, tests, marks,
    )
}

// Judges each row once: marks those that are given, and counts. A prepared query passes the tests, which keep numbers within the
// arrays.
pub fn judge_rows(
    text: &[u8],
    tables: &[usize; TABLE_CELLS],
    rows: &[usize; ROW_CELLS],
    count: usize,
    said: &[bool; VERDICTS],
    query: &[u8],
    s: Sought,
    tests: &[usize; TEST_CELLS],
    columns: &[usize; 80],
    marks: &mut [bool; ROWS],
) -> Tally
    ensures { (d : Doc) (q : Query) → Prepared text.now tables.now rows.now count said.now query.now s tests.now columns.now d q → Judged d q marks.new result }
{
    if s.chosen <= COLUMNS {
        if s.tests <= 64 {
            if count <= ROWS {
                return judge_bounded(
                    text, tables, rows, count, said, query, s, tests, columns, marks,
                );
            }
        }
    }
    Tally {
        passed: 0,
        withheld: 0,
        unmatched: 0,
    }
}
