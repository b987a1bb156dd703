// The comparisons of a query, read once into one array: 16 and 31 are told from it, and the rows are judged by it. Those of a join are read
// in the same way, by both its tables (02, Q-3).
ghost use Rattle.std.specs.Prelude.{◌+◌, ◌<◌, ◌≤◌, ℕ, eqb, length, cond, List, ◌≡◌};
ghost use Rattle.judging.specs.Reading.{Comparable, ReadsComparisons, TestsRead};
ghost use Rattle.judging.specs.Tests.{KindRead, ProgramOf, TestAt, TestOf, TestStored, mode_under, test_in};
ghost use Rattle.condition.specs.Answers.{kind_of, mode_by, naming_by};
ghost use Rattle.document.specs.Lookup.{columns_at};
ghost use Rattle.document.specs.Policy.{Policy};

use crate::constants::read_constant;
use crate::sought::Sought;
use condition::columns::value_place;
use condition::kinds::{Kind, op_at, op_code};
use program::programs::read_program;
use query::reading::{Test, is_certain};
use relations::tables::column_kind;
use text::words::word_end;
use workspace::layout::{COLUMNS, TABLE_CELLS};
use workspace::store::kind_cell;

// How many comparisons a condition has at most.
pub(crate) const TESTS: usize = 64;

// How many numbers hold them: eleven for each.
pub const TEST_CELLS: usize = 704;

// The comparisons of a condition: the table whose columns they compare, and the one whose columns are numbered behind the `width` columns of
// the first; the condition and how many there are; how many numbers of columns stand before theirs; whether it is a join's condition, and
// whether it is asked for sure.
#[derive(Clone, Copy)]
pub struct Comparisons {
    pub first: usize,
    pub second: usize,
    pub width: usize,
    pub test: Test,
    pub tests: usize,
    pub behind: usize,
    pub joined: bool,
    pub certain: bool,
}

// A comparison as it is read: the number of its column, its type as a number, the code of its operator and where that stands in the
// query; where its value stands, how long it is, 1 if it is of the type and else 0, and its rank, if it is a number or a date; and the
// comparison to go on with where it holds, and where it does not; and 1 if it is asked for sure, 0 if it is for what is possible.
#[derive(Clone, Copy)]
pub(crate) struct TestRead {
    pub column: usize,
    pub kind: usize,
    pub operator: usize,
    pub sign: usize,
    pub place: usize,
    pub size: usize,
    pub fits: usize,
    pub rank: usize,
    pub hit: usize,
    pub miss: usize,
    pub certain: usize,
}

// A flag, as a number of the array.
fn flag_number(b: bool) -> usize
    ensures { eqb result 1 ≡ b }
{
    if b {
        return 1;
    }
    0
}

// Whether a comparison is asked for sure: under an odd number of `not`s it is asked the other way.
fn asked_certain(certain: bool, odd: bool) -> bool
    ensures { mode_by result ≡ mode_under (mode_by certain) odd }
{
    if odd {
        return !certain;
    }
    certain
}

// The type of the column of number c, through both tables.
fn compared_kind(tables: &[usize; TABLE_CELLS], g: Comparisons, c: usize) -> Kind
    ensures { KindRead tables.now g c (kind_of result) }
{
    if c < g.width {
        return column_kind(tables, g.first, c);
    }
    column_kind(tables, g.second, c - g.width)
}

// Reads the comparison of column c whose operator stands at a place of the query.
fn read_test(
    tables: &[usize; TABLE_CELLS],
    g: Comparisons,
    query: &[u8],
    op: usize,
    c: usize,
    hit: usize,
    miss: usize,
    certain: bool,
) -> TestRead
    ensures { TestOf tables.now g query.now op c hit miss (mode_by certain) result }
{
    let place = value_place(query, op, g.joined);
    let end = word_end(query, place);
    let size = end - place;
    let typed = compared_kind(tables, g, c);
    let kind = kind_cell(typed);
    let operator = op_code(op_at(query, op));
    let value = read_constant(query, place, typed);
    TestRead {
        column: c,
        kind,
        operator,
        sign: op,
        place,
        size,
        fits: value.fits,
        rank: value.rank,
        hit,
        miss,
        certain: flag_number(certain),
    }
}

// Stores what was read of comparison j.
fn store_test(tests: &mut [usize; TEST_CELLS], j: usize, x: TestRead)
    requires { j < 64 }
    ensures { TestStored tests.old tests.new j x }
{
    let cells: &mut [usize] = tests;
    let at = 11 * j;
    cells[at] = x.column;
    cells[at + 1] = x.kind;
    cells[at + 2] = x.operator;
    cells[at + 3] = x.sign;
    cells[at + 4] = x.place;
    cells[at + 5] = x.size;
    cells[at + 6] = x.fits;
    cells[at + 7] = x.rank;
    cells[at + 8] = x.hit;
    cells[at + 9] = x.miss;
    cells[at + 10] = x.certain;
}

// Comparison j, as it was stored.
pub(crate) fn test_at(tests: &[usize; TEST_CELLS], j: usize) -> TestRead
    requires { j < 64 }
    ensures { result ≡ test_in tests.now j }
{
    let at = 11 * j;
    TestRead {
        column: tests[at],
        kind: tests[at + 1],
        operator: tests[at + 2],
        sign: tests[at + 3],
        place: tests[at + 4],
        size: tests[at + 5],
        fits: tests[at + 6],
        rank: tests[at + 7],
        hit: tests[at + 8],
        miss: tests[at + 9],
        certain: tests[at + 10],
    }
}

// The comparison to go on with behind comparison j, where it holds and where it does not.
pub fn next_of(tests: &[usize; TEST_CELLS], j: usize, holds: bool) -> usize
    ensures { j < 64 → result ≡ cond holds (test_in tests.now j).hit (test_in tests.now j).miss }
{
    if TESTS <= j {
        return 0;
    }
    let at = 11 * j;
    if holds {
        return tests[at + 8];
    }
    tests[at + 9]
}

// Stores the program of the condition, where there is one.
fn store_program(
    query: &[u8],
    test: Test,
    joined: bool,
    trues: &mut [usize; 64],
    falses: &mut [usize; 64],
    flips: &mut [bool; 64],
)
    ensures { ProgramOf (naming_by joined) query.now test trues.new falses.new flips.new }
{
    match test {
        Test::Always => {}
        Test::When(at, _) => {
            read_program(query, at, joined, trues, falses, flips);
        }
    }
}

// Reads and stores the comparisons, whose operators stand at these places, and whose columns' numbers stand behind others.
fn store_tests(
    tables: &[usize; TABLE_CELLS],
    query: &[u8],
    g: Comparisons,
    ops: &[usize],
    columns: &[usize],
    trues: &[usize; 64],
    falses: &[usize; 64],
    flips: &[bool; 64],
    tests: &mut [usize; TEST_CELLS],
)
    requires { (g.tests ≤ 64) × (g.tests ≤ length ops.now) × (g.behind + g.tests ≤ length columns.now) }
    ensures { (j : ℕ) → j < g.tests → TestAt tables.now query.now ops.now columns.now g trues.now falses.now flips.now tests.new j }
{
    let m = g.tests;
    let behind = g.behind;
    let certain = g.certain;
    for j in 0..m {
        let x = read_test(
            tables,
            g,
            query,
            ops[j],
            columns[behind + j],
            trues[j],
            falses[j],
            asked_certain(certain, flips[j]),
        );
        store_test(tests, j, x);
    }
}

// Reads the comparisons of a condition whose columns are known, and where it goes on behind each.
pub fn read_comparisons(
    tables: &[usize; TABLE_CELLS],
    query: &[u8],
    g: Comparisons,
    ops: &[usize],
    columns: &[usize],
    tests: &mut [usize; TEST_CELLS],
)
    ensures { ReadsComparisons tables.now query.now g ops.now columns.now tests.new }
{
    let m = g.tests;
    let behind = g.behind;
    // A query passes these: they keep numbers within the arrays.
    if TESTS < m {
        return;
    }
    if ops.len() < m {
        return;
    }
    if columns.len() < behind {
        return;
    }
    if columns.len() - behind < m {
        return;
    }
    let mut trues = [0usize; 64];
    let mut falses = [0usize; 64];
    let mut flips = [false; 64];
    let test = g.test;
    store_program(query, test, g.joined, &mut trues, &mut falses, &mut flips);
    store_tests(
        tables, query, g, ops, columns, &trues, &falses, &flips, tests,
    );
}

// Reads the comparisons of a query whose columns are known: all are of its table.
pub fn read_tests(
    tables: &[usize; TABLE_CELLS],
    query: &[u8],
    s: Sought,
    ops: &[usize; 64],
    columns: &[usize; 80],
    tests: &mut [usize; TEST_CELLS],
)
    ensures { (text : List ℕ) (d : Policy) → Comparable text tables.now query.now s ops.now columns.now d → TestsRead query.now s tests.new (columns_at d s.table) }
{
    let verb = s.verb;
    let test = s.test;
    let g = Comparisons {
        first: s.table,
        second: s.table,
        width: COLUMNS,
        test,
        tests: s.tests,
        behind: s.chosen,
        joined: false,
        certain: is_certain(verb),
    };
    read_comparisons(tables, query, g, ops, columns, tests);
}
