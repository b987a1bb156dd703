// The gate for hosts that load once: the arrays of gate.h's struct gate_document, a code and five figures.
ghost use Rattle.gate.specs.Arrays.{ExportsAskArrays, ExportsLoad, ExportsMeasureArrays, NotLoaded, clock_in};
ghost use Rattle.loaded.specs.Cells.{version};
ghost use Rattle.query.specs.HostClock.{clock_of};
ghost use Rattle.std.specs.Prelude.{◌≡◌};

use crate::documents::load;
use crate::exports::{store_answered, store_checked, store_five, store_measured};
use loaded::asks::ask_loaded;
use loaded::cells::{CELLS, VERSION, is_loaded};
use loaded::measures::measure_loaded;
use query::clock::Clock;
use workspace::layout::{
    ATTRIBUTE_CELLS, COND_ROLE_CELLS, GRANT_CELLS, LABELS, PURPOSE_CELLS, ROLE_CELLS, ROW_CELLS,
    SET_WORDS, TABLE_CELLS, USER_CELLS,
};

// The code of a call over arrays that this version did not fill.
const NOT_LOADED: u64 = 255;

// Stores the figures of such a call. Gives its code.
pub(crate) fn store_not_loaded(figures: &mut [u64; 5]) -> u64
    ensures { NotLoaded figures.new result }
{
    store_five(figures, 0, 0, 0, 0, 0);
    NOT_LOADED
}

// The clock of three numbers: year, day, hour.
fn clock_of(clock: &[u64; 3]) -> Clock
    ensures { clock_of result ≡ clock_in clock.now }
{
    Clock {
        year: clock[0],
        day: clock[1],
        hour: clock[2],
    }
}

// The version of the layout, which a host holds against that of its header before it lends arrays.
#[unsafe(no_mangle)]
pub extern "C" fn gate_document_version() -> u64
    ensures { result ≡ version }
{
    VERSION as u64
}

// Checks a document into arrays. Gives 0, with the number of lines and a reserve, the arrays holding the document; or a refusal's
// number, with the text and the part that the refusal points to, the arrays holding none.
#[unsafe(no_mangle)]
pub extern "C" fn gate_load_arrays(
    doc: &[u8],
    purposes: &mut [usize; PURPOSE_CELLS],
    roles: &mut [usize; ROLE_CELLS],
    attributes: &mut [usize; ATTRIBUTE_CELLS],
    users: &mut [usize; USER_CELLS],
    conds: &mut [usize; COND_ROLE_CELLS],
    grants: &mut [usize; GRANT_CELLS],
    labels: &mut [usize; LABELS],
    sets: &mut [u64; SET_WORDS],
    tables: &mut [usize; TABLE_CELLS],
    rows: &mut [usize; ROW_CELLS],
    cells: &mut [usize; CELLS],
    figures: &mut [u64; 5],
) -> u64
    ensures { ExportsLoad doc.now purposes.new roles.new attributes.new users.new conds.new grants.new labels.new
        sets.new tables.new rows.new cells.new figures.new result }
{
    let x = load(
        doc, purposes, roles, attributes, users, conds, grants, labels, sets, tables, rows, cells,
    );
    store_checked(figures, x)
}

// Asks a loaded document with a query at a time. Gives what asking its text gives; or 255, where the arrays were not filled by this
// version, and leaves the buffer.
#[unsafe(no_mangle)]
pub extern "C" fn gate_ask_arrays(
    doc: &[u8],
    purposes: &[usize; PURPOSE_CELLS],
    roles: &[usize; ROLE_CELLS],
    attributes: &[usize; ATTRIBUTE_CELLS],
    users: &[usize; USER_CELLS],
    conds: &[usize; COND_ROLE_CELLS],
    grants: &[usize; GRANT_CELLS],
    sets: &[u64; SET_WORDS],
    tables: &[usize; TABLE_CELLS],
    rows: &[usize; ROW_CELLS],
    cells: &[usize; CELLS],
    query: &[u8],
    clock: &[u64; 3],
    out: &mut [u8],
    figures: &mut [u64; 5],
) -> u64
    ensures { ExportsAskArrays doc.now purposes.now roles.now attributes.now users.now conds.now grants.now sets.now tables.now rows.now cells.now query.now (clock_in clock.now) out.old out.new figures.new result }
{
    if !is_loaded(cells) {
        return store_not_loaded(figures);
    }
    let c = clock_of(clock);
    let x = ask_loaded(
        doc, purposes, roles, attributes, users, conds, grants, sets, tables, rows, cells, c,
        query, out,
    );
    store_answered(figures, x)
}

// Measures the answer of a loaded document to a query at a time. Gives what measuring over its text gives; or 255, where the arrays
// were not filled by this version.
#[unsafe(no_mangle)]
pub extern "C" fn gate_measure_arrays(
    doc: &[u8],
    purposes: &[usize; PURPOSE_CELLS],
    roles: &[usize; ROLE_CELLS],
    attributes: &[usize; ATTRIBUTE_CELLS],
    users: &[usize; USER_CELLS],
    conds: &[usize; COND_ROLE_CELLS],
    grants: &[usize; GRANT_CELLS],
    sets: &[u64; SET_WORDS],
    tables: &[usize; TABLE_CELLS],
    rows: &[usize; ROW_CELLS],
    cells: &[usize; CELLS],
    query: &[u8],
    clock: &[u64; 3],
    figures: &mut [u64; 5],
) -> u64
    ensures { ExportsMeasureArrays doc.now purposes.now roles.now attributes.now users.now conds.now grants.now sets.now tables.now rows.now cells.now query.now (clock_in clock.now) figures.new result }
{
    if !is_loaded(cells) {
        return store_not_loaded(figures);
    }
    let c = clock_of(clock);
    let x = measure_loaded(
        doc, purposes, roles, attributes, users, conds, grants, sets, tables, rows, cells, c, query,
    );
    store_measured(figures, x)
}
