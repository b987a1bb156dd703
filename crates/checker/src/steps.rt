// One line of a document: what it does to what was defined before, by its kind.
ghost use Rattle.checker.specs.Promises.{StepFormPromise, StepLinePromise, StepOtherPromise};

use attributes::steps::{step_attr, step_cond};
use form::lines::{Line, read_line};
use index::counts::Counts;
use members::steps::{step_grant, step_user};
use nodes::steps::{step_purpose_below, step_purpose_root, step_role_below, step_role_root};
use notes::steps::{step_label_note, step_public};
use rows::steps::step_row;
use stepping::fault::Fault;
use tables::steps::{step_label, step_table};
use text::refusals::Reason;
use walks::lines::take_row;
use walks::purposes::take_purpose;
use workspace::layout::{
    ATTRIBUTE_CELLS, COND_ROLE_CELLS, GRANT_CELLS, LABELS, PURPOSE_CELLS, ROLE_CELLS, ROW_CELLS,
    SET_WORDS, TABLE_CELLS, USER_CELLS,
};

// The line that stands at a position of the text, by its form.
fn step_form(
    text: &[u8],
    at: usize,
    line: &[u8],
    purposes: &mut [usize; PURPOSE_CELLS],
    roles: &mut [usize; ROLE_CELLS],
    attributes: &mut [usize; ATTRIBUTE_CELLS],
    users: &mut [usize; USER_CELLS],
    conds: &mut [usize; COND_ROLE_CELLS],
    grants: &mut [usize; GRANT_CELLS],
    labels: &mut [usize; LABELS],
    sets: &mut [u64; SET_WORDS],
    tables: &mut [usize; TABLE_CELLS],
    rows: &mut [usize; ROW_CELLS],
    c: Counts,
) -> Result<Counts, Fault>
    ensures { StepFormPromise text.now at line.now purposes.old purposes.new roles.old roles.new attributes.old attributes.new users.old users.new conds.old conds.new grants.old grants.new labels.old labels.new sets.old sets.new tables.old tables.new rows.old rows.new c result }
{
    let Some(form) = read_line(line) else {
        return Err(Fault::Whole(Reason::WrongForm));
    };
    match form {
        Line::Purpose(n) => step_purpose_root(text, at, line, purposes, c, n),
        Line::PurposeBelow(n, p) => step_purpose_below(text, at, line, purposes, c, n, p),
        Line::Role(n) => step_role_root(text, at, line, roles, c, n),
        Line::RoleBelow(n, p) => step_role_below(text, at, line, roles, c, n, p),
        Line::Attr(r, a, k) => step_attr(text, at, line, roles, attributes, c, r, a, k),
        Line::User(u, r, gs) => step_user(text, at, line, roles, attributes, users, c, u, r, gs),
        Line::CondRole(n, r, t) => step_cond(text, at, line, roles, attributes, conds, c, n, r, t),
        Line::Grant(p, h) => step_grant(text, at, line, purposes, conds, grants, c, p, h),
        Line::Label(l, allowed, denied) => step_label(
            text, at, line, purposes, labels, sets, c, l, allowed, denied,
        ),
        Line::Table(t, k, l, cs) => step_table(text, at, line, labels, tables, c, t, k, l, cs),
        Line::Row(t, items) => step_row(text, at, line, labels, tables, rows, c, t, items),
        Line::Public(t) => step_public(text, line, tables, c, t),
        Line::Weak(t, l) => step_label_note(text, line, labels, tables, rows, c, t, l, false),
        Line::Strong(t, l) => step_label_note(text, line, labels, tables, rows, c, t, l, true),
    }
}

// The line that is no row as one walk takes it: a purpose below another, which one walk takes too, or any form.
fn step_other(
    text: &[u8],
    at: usize,
    line: &[u8],
    purposes: &mut [usize; PURPOSE_CELLS],
    roles: &mut [usize; ROLE_CELLS],
    attributes: &mut [usize; ATTRIBUTE_CELLS],
    users: &mut [usize; USER_CELLS],
    conds: &mut [usize; COND_ROLE_CELLS],
    grants: &mut [usize; GRANT_CELLS],
    labels: &mut [usize; LABELS],
    sets: &mut [u64; SET_WORDS],
    tables: &mut [usize; TABLE_CELLS],
    rows: &mut [usize; ROW_CELLS],
    c: Counts,
) -> Result<Counts, Fault>
    ensures { StepOtherPromise text.now at line.now purposes.old purposes.new roles.old roles.new attributes.old attributes.new users.old users.new conds.old conds.new grants.old grants.new labels.old labels.new sets.old sets.new tables.old tables.new rows.old rows.new c result }
{
    let k = c.purposes;
    if take_purpose(text, at, line, purposes, k) {
        let mut next = c;
        next.purposes = k + 1;
        return Ok(next);
    }
    step_form(
        text, at, line, purposes, roles, attributes, users, conds, grants, labels, sets, tables,
        rows, c,
    )
}

// The line that stands at a position of the text: most are rows without a fault, which one walk takes.
pub(crate) fn step_line(
    text: &[u8],
    at: usize,
    line: &[u8],
    purposes: &mut [usize; PURPOSE_CELLS],
    roles: &mut [usize; ROLE_CELLS],
    attributes: &mut [usize; ATTRIBUTE_CELLS],
    users: &mut [usize; USER_CELLS],
    conds: &mut [usize; COND_ROLE_CELLS],
    grants: &mut [usize; GRANT_CELLS],
    labels: &mut [usize; LABELS],
    sets: &mut [u64; SET_WORDS],
    tables: &mut [usize; TABLE_CELLS],
    rows: &mut [usize; ROW_CELLS],
    c: Counts,
) -> Result<Counts, Fault>
    ensures { StepLinePromise text.now at line.now purposes.old purposes.new roles.old roles.new attributes.old attributes.new users.old users.new conds.old conds.new grants.old grants.new labels.old labels.new sets.old sets.new tables.old tables.new rows.old rows.new c result }
{
    let k = c.rows;
    if take_row(text, at, line, labels, c.labels, tables, c.tables, rows, k) {
        let mut next = c;
        next.rows = k + 1;
        return Ok(next);
    }
    step_other(
        text, at, line, purposes, roles, attributes, users, conds, grants, labels, sets, tables,
        rows, c,
    )
}
