// The check of a document into lent arrays, line by line.
ghost use Rattle.std.specs.Prelude.{◌+◌, ◌<◌, ◌^◌, ◌≤◌, length, ◌≡◌};
ghost use Rattle.checker.specs.Loading.{Loads};
ghost use Rattle.stepping.specs.Judged.{Reaches, refusal_in};
ghost use Rattle.text.specs.Reasons.{refusal_of};
ghost use Rattle.text.specs.Refusal.{moved};

use crate::steps::step_line;
use index::counts::Counts;
use stepping::fault::Fault;
use text::lines::line_end;
use text::refusals::{Reason, Refusal, Source};
use text::words::{word_end, written_end};
use workspace::layout::{
    ATTRIBUTE_CELLS, COND_ROLE_CELLS, GRANT_CELLS, LABELS, PURPOSE_CELLS, ROLE_CELLS, ROW_CELLS,
    SET_WORDS, TABLE_CELLS, USER_CELLS,
};

// The most bytes of a document.
const TEXT_BYTES: usize = 60000;

// The refusal of a line that stands at a position of the text.
fn refusal_of(line: &[u8], at: usize, f: Fault) -> Refusal
    requires { (at + length line.now < 2 ^ 64) × Reaches line.now f }
    ensures { refusal_of result ≡ moved at (refusal_in line.now f) }
{
    match f {
        Fault::Whole(x) => Refusal {
            reason: x,
            source: Source::Document,
            start: at,
            len: line.len(),
        },
        Fault::Item(x, w) => {
            let e = word_end(line, w);
            Refusal {
                reason: x,
                source: Source::Document,
                start: at + w,
                len: e - w,
            }
        }
        Fault::Value(x, v) => {
            let e = written_end(line, v);
            Refusal {
                reason: x,
                source: Source::Document,
                start: at + v,
                len: e - v,
            }
        }
    }
}

// The lines of a document in order, over arrays that hold nothing yet.
fn load_lines(
    text: &[u8],
    purposes: &mut [usize; PURPOSE_CELLS],
    roles: &mut [usize; ROLE_CELLS],
    attributes: &mut [usize; ATTRIBUTE_CELLS],
    users: &mut [usize; USER_CELLS],
    conds: &mut [usize; COND_ROLE_CELLS],
    grants: &mut [usize; GRANT_CELLS],
    labels: &mut [usize; LABELS],
    sets: &mut [u64; SET_WORDS],
    tables: &mut [usize; TABLE_CELLS],
    rows: &mut [usize; ROW_CELLS],
) -> Result<(Counts, usize), Refusal>
    ensures { length text.now ≤ 60000 → Loads text.now purposes.new roles.new attributes.new users.new conds.new grants.new labels.new sets.new tables.new rows.new result }
{
    let mut c = Counts {
        purposes: 0,
        roles: 0,
        attributes: 0,
        users: 0,
        conds: 0,
        grants: 0,
        labels: 0,
        tables: 0,
        rows: 0,
    };
    let mut at: usize = 0;
    let mut n: usize = 0;
    while at < text.len() {
        let e = line_end(text, at);
        if e == text.len() {
            return Err(Refusal {
                reason: Reason::WrongForm,
                source: Source::Document,
                start: at,
                len: e - at,
            });
        }
        let line = &text[at..e];
        match step_line(
            text, at, line, purposes, roles, attributes, users, conds, grants, labels, sets,
            tables, rows, c,
        ) {
            Ok(next) => c = next,
            Err(f) => return Err(refusal_of(line, at, f)),
        }
        at = e + 1;
        n += 1;
    }
    Ok((c, n))
}

// The check of a document. What the arrays held before does not matter.
pub fn load(
    doc: &[u8],
    purposes: &mut [usize; PURPOSE_CELLS],
    roles: &mut [usize; ROLE_CELLS],
    attributes: &mut [usize; ATTRIBUTE_CELLS],
    users: &mut [usize; USER_CELLS],
    conds: &mut [usize; COND_ROLE_CELLS],
    grants: &mut [usize; GRANT_CELLS],
    labels: &mut [usize; LABELS],
    sets: &mut [u64; SET_WORDS],
    tables: &mut [usize; TABLE_CELLS],
    rows: &mut [usize; ROW_CELLS],
) -> Result<(Counts, usize), Refusal>
    ensures { Loads doc.now purposes.new roles.new attributes.new users.new conds.new grants.new labels.new sets.new tables.new rows.new result }
{
    if TEXT_BYTES < doc.len() {
        return Err(Refusal {
            reason: Reason::TooLong,
            source: Source::Document,
            start: 0,
            len: 0,
        });
    }
    load_lines(
        doc, purposes, roles, attributes, users, conds, grants, labels, sets, tables, rows,
    )
}
