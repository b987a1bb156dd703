// Checking a document, and loading it into lent arrays, so that it is checked once and asked often.
ghost use Rattle.gate.specs.Loads.{HoldsArrays, LoadsDocument};
ghost use Rattle.gate.specs.Reserved.{ChecksDocument};

use checker::loading;
use index::counts::Counts;
use loaded::cells::{CELLS, store_counts, store_none};
use reserve::longest::reserve;
use text::refusals::Refusal;
use workspace::layout::{
    ATTRIBUTE_CELLS, COND_ROLE_CELLS, GRANT_CELLS, LABELS, PURPOSE_CELLS, ROLE_CELLS, ROW_CELLS,
    SET_WORDS, TABLE_CELLS, USER_CELLS,
};

// The check of a document into lent arrays, which hold it then; `cells` say so, or that they hold none. What all of them held
// before does not matter. The reserve is left out, which asking has no use for.
pub(crate) fn hold(
    doc: &[u8],
    purposes: &mut [usize; PURPOSE_CELLS],
    roles: &mut [usize; ROLE_CELLS],
    attributes: &mut [usize; ATTRIBUTE_CELLS],
    users: &mut [usize; USER_CELLS],
    conds: &mut [usize; COND_ROLE_CELLS],
    grants: &mut [usize; GRANT_CELLS],
    labels: &mut [usize; LABELS],
    sets: &mut [u64; SET_WORDS],
    tables: &mut [usize; TABLE_CELLS],
    rows: &mut [usize; ROW_CELLS],
    cells: &mut [usize; CELLS],
) -> Result<(Counts, usize), Refusal>
    ensures { HoldsArrays doc.now purposes.new roles.new attributes.new users.new conds.new grants.new labels.new sets.new tables.new rows.new cells.new result }
{
    let r = loading::load(
        doc, purposes, roles, attributes, users, conds, grants, labels, sets, tables, rows,
    );
    match r {
        Ok((c, n)) => {
            store_counts(cells, c);
            Ok((c, n))
        }
        Err(x) => {
            store_none(cells);
            Err(x)
        }
    }
}

// The same, with the reserve.
pub fn load(
    doc: &[u8],
    purposes: &mut [usize; PURPOSE_CELLS],
    roles: &mut [usize; ROLE_CELLS],
    attributes: &mut [usize; ATTRIBUTE_CELLS],
    users: &mut [usize; USER_CELLS],
    conds: &mut [usize; COND_ROLE_CELLS],
    grants: &mut [usize; GRANT_CELLS],
    labels: &mut [usize; LABELS],
    sets: &mut [u64; SET_WORDS],
    tables: &mut [usize; TABLE_CELLS],
    rows: &mut [usize; ROW_CELLS],
    cells: &mut [usize; CELLS],
) -> Result<(usize, usize), Refusal>
    ensures { LoadsDocument doc.now purposes.new roles.new attributes.new users.new conds.new grants.new labels.new sets.new tables.new rows.new cells.new result }
{
    let (c, n) = hold(
        doc, purposes, roles, attributes, users, conds, grants, labels, sets, tables, rows, cells,
    )?;
    Ok((n, reserve(doc, rows, c.tables, c.rows)))
}

// The check of a document: the number of its lines and the reserve, or the first refusal.
pub fn check(doc: &[u8]) -> Result<(usize, usize), Refusal>
    ensures { ChecksDocument doc.now result }
{
    let mut purposes = [0usize; PURPOSE_CELLS];
    let mut roles = [0usize; ROLE_CELLS];
    let mut attributes = [0usize; ATTRIBUTE_CELLS];
    let mut users = [0usize; USER_CELLS];
    let mut conds = [0usize; COND_ROLE_CELLS];
    let mut grants = [0usize; GRANT_CELLS];
    let mut labels = [0usize; LABELS];
    let mut sets = [0u64; SET_WORDS];
    let mut tables = [0usize; TABLE_CELLS];
    let mut rows = [0usize; ROW_CELLS];
    let mut cells = [0usize; CELLS];
    load(
        doc,
        &mut purposes,
        &mut roles,
        &mut attributes,
        &mut users,
        &mut conds,
        &mut grants,
        &mut labels,
        &mut sets,
        &mut tables,
        &mut rows,
        &mut cells,
    )
}
