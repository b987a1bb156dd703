// The whole answer: measured first, and then, where there is room, written straight into the lent buffer.
ghost use Rattle.std.specs.Prelude.{◌≤◌, ℕ, length, take, ◌≡◌};
ghost use Rattle.answer.specs.Answer.{answer_to};
ghost use Rattle.answer.specs.Seen.{seen_rows};
ghost use Rattle.answering.specs.Answering.{Writes};
ghost use Rattle.answering.specs.Lines.{OfMarked, gaps_by};
ghost use Rattle.judging.specs.Prepared.{Prepared};
ghost use Rattle.document.specs.Policy.{Doc};
ghost use Rattle.query.specs.Query.{Query};
ghost use Rattle.writing.specs.Write.{Stored};

use crate::lines::{put_end, put_lines};
use form::lines::Scheme;
use judging::fates::judge_rows;
use judging::marking::Marking;
use judging::sought::Sought;
use judging::tally::Tally;
use judging::tests::TEST_CELLS;
use query::reading::{Verb, leaves_gaps};
use relations::tables::{has_brackets, table_scheme};
use workspace::layout::{COLUMNS, ROW_CELLS, ROWS, TABLE_CELLS, VERDICTS};

// How long a text may be.
const TEXT_BYTES: usize = 60000;

// An answer's length and its counts.
#[derive(Clone, Copy)]
pub struct Measured {
    pub len: usize,
    pub tally: Tally,
}

// Whether gaps are written: they are left, and cells have labels of their own. In a table of another scheme a row that is given has
// no closed cell in the selected columns.
fn writes_gaps(verb: Verb, scheme: Scheme) -> bool
    ensures { result ≡ gaps_by verb scheme }
{
    if leaves_gaps(verb) {
        return has_brackets(scheme);
    }
    false
}

// Writes the answer, as far as the buffer goes: the marked rows' lines, if they are asked for, and the end line.
fn put_answer(
    out: &mut [u8],
    text: &[u8],
    rows: &[usize; ROW_CELLS],
    said: &[bool; VERDICTS],
    m: Marking,
    gaps: bool,
    count: usize,
    marks: &[bool; ROWS],
    columns: &[usize; 80],
    lines: bool,
    chosen: usize,
    tally: Tally,
) -> usize
    requires { (length text.now ≤ 60000) × (chosen ≤ 16) × (count ≤ 1024) }
    ensures { OfMarked text.now rows.now said.now m gaps (take chosen columns.now) marks.now count lines tally (λ a. Stored out.old 0 a.bytes out.new result) }
{
    let passed = tally.passed;
    let withheld = tally.withheld;
    let unmatched = tally.unmatched;
    if lines {
        let at = put_lines(
            out, text, rows, said, m, gaps, count, marks, columns, chosen,
        );
        return put_end(out, at, passed, withheld, unmatched);
    }
    put_end(out, 0, passed, withheld, unmatched)
}

// The answer's length, found by writing it into no bytes at all: nothing of it is held.
fn measure_answer(
    text: &[u8],
    rows: &[usize; ROW_CELLS],
    said: &[bool; VERDICTS],
    m: Marking,
    gaps: bool,
    count: usize,
    marks: &[bool; ROWS],
    columns: &[usize; 80],
    lines: bool,
    chosen: usize,
    tally: Tally,
) -> usize
    requires { (length text.now ≤ 60000) × (chosen ≤ 16) × (count ≤ 1024) }
    ensures { OfMarked text.now rows.now said.now m gaps (take chosen columns.now) marks.now count lines tally (λ a. result ≡ length a.bytes) }
{
    let mut nothing = [0u8; 1];
    put_answer(
        &mut nothing[..0],
        text,
        rows,
        said,
        m,
        gaps,
        count,
        marks,
        columns,
        lines,
        chosen,
        tally,
    )
}

// Measures the answer, and writes it where the buffer has room.
fn put_measured(
    out: &mut [u8],
    text: &[u8],
    rows: &[usize; ROW_CELLS],
    said: &[bool; VERDICTS],
    m: Marking,
    gaps: bool,
    count: usize,
    marks: &[bool; ROWS],
    columns: &[usize; 80],
    lines: bool,
    chosen: usize,
    tally: Tally,
) -> Measured
    requires { (length text.now ≤ 60000) × (chosen ≤ 16) × (count ≤ 1024) }
    ensures { OfMarked text.now rows.now said.now m gaps (take chosen columns.now) marks.now count lines tally (λ a. Writes a out.old out.new result) }
{
    let len = measure_answer(
        text, rows, said, m, gaps, count, marks, columns, lines, chosen, tally,
    );
    if out.len() < len {
        return Measured { len, tally };
    }
    put_answer(
        out, text, rows, said, m, gaps, count, marks, columns, lines, chosen, tally,
    );
    Measured { len, tally }
}

// For a query that was not prepared: any figures will do.
pub fn unmeasured() -> Measured
    ensures { result.len ≡ 0 }
{
    Measured {
        len: 0,
        tally: Tally {
            passed: 0,
            withheld: 0,
            unmatched: 0,
        },
    }
}

// The answer to a prepared query over the rows, of which there are count.
pub fn answer_rows(
    text: &[u8],
    tables: &[usize; TABLE_CELLS],
    rows: &[usize; ROW_CELLS],
    count: usize,
    said: &[bool; VERDICTS],
    query: &[u8],
    s: Sought,
    tests: &[usize; TEST_CELLS],
    columns: &[usize; 80],
    out: &mut [u8],
) -> Measured
    ensures { (d : Doc) (q : Query) → Prepared text.now tables.now rows.now count said.now query.now s tests.now columns.now d q → Writes (answer_to q (seen_rows d q)) out.old out.new result }
{
    // A prepared query passes these: they keep lengths from wrapping.
    if TEXT_BYTES < text.len() {
        return unmeasured();
    }
    if COLUMNS < s.chosen {
        return unmeasured();
    }
    if ROWS < count {
        return unmeasured();
    }
    let mut marks = [false; ROWS];
    let tally = judge_rows(
        text, tables, rows, count, said, query, s, tests, columns, &mut marks,
    );
    let verb = s.verb;
    let scheme = table_scheme(tables, s.table);
    let gaps = writes_gaps(verb, scheme);
    put_measured(
        out, text, rows, said, s.marking, gaps, count, &marks, columns, s.lines, s.chosen, tally,
    )
}
