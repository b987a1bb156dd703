// The answer under a grant: what the query names, and the rows.
ghost use Rattle.document.specs.Policy.{Doc};
ghost use Rattle.std.specs.Prelude.{◌≡◌};
ghost use Rattle.judging.specs.Prepared.{Prepared};
ghost use Rattle.query.specs.Query.{resolved};
ghost use Rattle.query.specs.QueryForm.{QueryForm};
ghost use Rattle.query.specs.QueryPlaces.{form_at};
ghost use Rattle.stages.specs.Stages.{Granted, sought_in};
ghost use Rattle.stages.specs.Tails.{Gives, answer_under, if_known};
ghost use Rattle.text.specs.Refusal.{accepted};

use crate::answered::Figures;
use crate::refusing::{refused_at, refused_written};
use answering::answers::answer_rows;
use index::counts::Counts;
use judging::marking::{Marking, marking_of};
use judging::sought::Sought;
use judging::tests::{TEST_CELLS, read_tests};
use judging::types::{missing_date, mistyped_test};
use query::naming::named_places;
use query::reading::{Question, asks_rows, chosen_count, comparison_count, takes_ranges, verb_in};
use ranging::ranged::ranged_column;
use relations::tables::find_table;
use resolving::columns::{NAMED, resolve_columns};
use resolving::openness::closed_part;
use text::refusals::{Reason, Refusal};
use workspace::layout::{ROW_CELLS, TABLE_CELLS, VERDICTS};

// What a query asks of the rows of table t, which is marked so.
fn sought_in(q: Question, t: usize, marking: Marking) -> Sought
    ensures { result ≡ sought_in q t marking }
{
    let wanted = q.wanted;
    let test = q.test;
    let tests = comparison_count(test);
    let lines = asks_rows(wanted);
    let verb = verb_in(wanted);
    let chosen = chosen_count(wanted);
    Sought {
        table: t,
        marking,
        test,
        tests,
        lines,
        verb,
        chosen,
    }
}

// The answer of the rows, to a query that is prepared for them.
fn ask_rows(
    text: &[u8],
    tables: &[usize; TABLE_CELLS],
    rows: &[usize; ROW_CELLS],
    count: usize,
    said: &[bool; VERDICTS],
    query: &[u8],
    s: Sought,
    tests: &[usize; TEST_CELLS],
    columns: &[usize; NAMED],
    grant: usize,
    out: &mut [u8],
) -> Result<Figures, Refusal>
    ensures { (d : Doc) (q : QueryForm) → Prepared text.now tables.now rows.now count said.now query.now s tests.now columns.now d (resolved d.policy q) → Gives (accepted (answer_under d q grant)) out.old out.new result }
{
    let x = answer_rows(
        text, tables, rows, count, said, query, s, tests, columns, out,
    );
    Ok(Figures {
        len: x.len,
        grant,
        passed: x.tally.passed,
        withheld: x.tally.withheld,
        unmatched: x.tally.unmatched,
    })
}

// The answer under a grant (15, 16, 27, 31 and 17, and the rows). What labels say of the purpose is given. Its arrays take 7 KB of
// stack: by itself it takes them only when the conditions of roles, which nest, have been walked.
#[inline(never)]
pub(crate) fn ask_granted(
    text: &[u8],
    tables: &[usize; TABLE_CELLS],
    rows: &[usize; ROW_CELLS],
    c: Counts,
    said: &[bool; VERDICTS],
    query: &[u8],
    q: Question,
    grant: usize,
    out: &mut [u8],
) -> Result<Figures, Refusal>
    ensures { (d : Doc) → Granted text.now tables.now rows.now c said.now query.now q d → Gives (if_known d (form_at query.now q) grant) out.old out.new result }
{
    let h = q.head;
    let table = find_table(text, tables, c.tables, query, h.table);
    let Some(t) = table else {
        return refused_at(query, Reason::UnknownColumn, h.table);
    };
    let mut places = [0usize; NAMED];
    let mut ops = [0usize; 64];
    let n = named_places(query, q, &mut places, &mut ops);
    let mut columns = [0usize; NAMED];
    let unknown = resolve_columns(text, tables, t, query, &places, n, &mut columns);
    if let Some(at) = unknown {
        return refused_at(query, Reason::UnknownColumn, at);
    }
    let s = sought_in(q, t, marking_of(tables, t, said));
    let mut tests = [0usize; TEST_CELLS];
    read_tests(tables, query, s, &ops, &columns, &mut tests);
    let wrong = mistyped_test(&tests, s.tests);
    if let Some(at) = wrong {
        return refused_written(query, Reason::MistypedQuery, at);
    }
    let verb = s.verb;
    let taken = takes_ranges(verb);
    let ranged = ranged_column(taken, text, rows, c.rows, t, &places, n, &columns);
    if let Some(at) = ranged {
        return refused_at(query, Reason::RangeNotTaken, at);
    }
    let absent = missing_date(query, &tests, s.tests);
    if let Some(at) = absent {
        return refused_written(query, Reason::NoSuchDate, at);
    }
    let closed = closed_part(tables, t, said, query, h.table, &places, n, &columns);
    if let Some(at) = closed {
        return refused_at(query, Reason::Closed, at);
    }
    ask_rows(
        text, tables, rows, c.rows, said, query, s, &tests, &columns, grant, out,
    )
}
