// The gate as a static library: what C calls of it (include/gate.h). Each export calls the function of its name in crate `gate`, and
// promises what that one promises.
#![tactic(auto)]

ghost use Rattle.gate.specs.Arrays.{ExportsAskArrays, ExportsLoad, ExportsMeasureArrays, clock_in};
ghost use Rattle.gate.specs.Explaining.{ExportsWhy, ExportsWhyArrays};
ghost use Rattle.gate.specs.Exports.{ExportsAsk, ExportsCheck, ExportsImport, ExportsMeasure, ExportsMeasureImport, clock_at};
ghost use Rattle.loaded.specs.Cells.{version};
ghost use Rattle.std.specs.Prelude.{◌≡◌};

use loaded::cells::CELLS;
use telling::texts::LINE_BYTES;
use workspace::layout::{
    ATTRIBUTE_CELLS, COND_ROLE_CELLS, GRANT_CELLS, LABELS, PURPOSE_CELLS, ROLE_CELLS, ROW_CELLS,
    SET_WORDS, TABLE_CELLS, USER_CELLS,
};

// Checks a document. Gives 0, with the number of lines and a reserve, or a refusal's number, with the text and the part that
// the refusal points to.
#[unsafe(no_mangle)]
pub extern "C" fn gate_check(doc: &[u8], figures: &mut [u64; 5]) -> u64
    ensures { ExportsCheck doc.now figures.new result }
{
    gate::exports::gate_check(doc, figures)
}

// Asks a document with a query at a time. Gives 0, with the answer's length, the grant and the three counts, or a refusal's
// number, with the text and the part that the refusal points to.
#[unsafe(no_mangle)]
pub extern "C" fn gate_ask(
    doc: &[u8],
    query: &[u8],
    year: u64,
    day: u64,
    hour: u64,
    out: &mut [u8],
    figures: &mut [u64; 5],
) -> u64
    ensures { ExportsAsk doc.now query.now (clock_at year day hour) out.old out.new figures.new result }
{
    gate::exports::gate_ask(doc, query, year, day, hour, out, figures)
}

// Measures the answer to a query at a time. Gives 0, with the answer's length, or a refusal's number, with the text and the part
// that the refusal points to; 18 is none of them.
#[unsafe(no_mangle)]
pub extern "C" fn gate_measure(
    doc: &[u8],
    query: &[u8],
    year: u64,
    day: u64,
    hour: u64,
    figures: &mut [u64; 5],
) -> u64
    ensures { ExportsMeasure doc.now query.now (clock_at year day hour) figures.new result }
{
    gate::exports::gate_measure(doc, query, year, day, hour, figures)
}

// Writes one row line a record of a comma-separated file into the buffer. Gives 0, with the lines' length, or a refusal's number,
// with the place in the file that the refusal points to.
#[unsafe(no_mangle)]
pub extern "C" fn gate_import(
    file: &[u8],
    table: &[u8],
    label: &[u8],
    out: &mut [u8],
    figures: &mut [u64; 5],
) -> u64
    ensures { ExportsImport file.now table.now label.now out.old out.new figures.new result }
{
    gate::exports::gate_import(file, table, label, out, figures)
}

// Measures the row lines of a comma-separated file. Gives 0, with their length, or a refusal's number, with the place in the file
// that the refusal points to; 21 only where no buffer is long enough.
#[unsafe(no_mangle)]
pub extern "C" fn gate_measure_import(
    file: &[u8],
    table: &[u8],
    label: &[u8],
    figures: &mut [u64; 5],
) -> u64
    ensures { ExportsMeasureImport file.now table.now label.now figures.new result }
{
    gate::exports::gate_measure_import(file, table, label, figures)
}

// The version of the layout, which a host holds against that of its header before it lends arrays.
#[unsafe(no_mangle)]
pub extern "C" fn gate_document_version() -> u64
    ensures { result ≡ version }
{
    gate::arrays::gate_document_version()
}

// Checks a document into arrays. Gives 0, with the number of lines and a reserve, the arrays holding the document; or a refusal's
// number, with the text and the part that the refusal points to, the arrays holding none.
#[unsafe(no_mangle)]
pub extern "C" fn gate_load_arrays(
    doc: &[u8],
    purposes: &mut [usize; PURPOSE_CELLS],
    roles: &mut [usize; ROLE_CELLS],
    attributes: &mut [usize; ATTRIBUTE_CELLS],
    users: &mut [usize; USER_CELLS],
    conds: &mut [usize; COND_ROLE_CELLS],
    grants: &mut [usize; GRANT_CELLS],
    labels: &mut [usize; LABELS],
    sets: &mut [u64; SET_WORDS],
    tables: &mut [usize; TABLE_CELLS],
    rows: &mut [usize; ROW_CELLS],
    cells: &mut [usize; CELLS],
    figures: &mut [u64; 5],
) -> u64
    ensures { ExportsLoad doc.now purposes.new roles.new attributes.new users.new conds.new grants.new labels.new
        sets.new tables.new rows.new cells.new figures.new result }
{
    gate::arrays::gate_load_arrays(
        doc, purposes, roles, attributes, users, conds, grants, labels, sets, tables, rows, cells,
        figures,
    )
}

// Asks a loaded document with a query at a time. Gives what asking its text gives; or 255, where the arrays were not filled by this
// version, and leaves the buffer.
#[unsafe(no_mangle)]
pub extern "C" fn gate_ask_arrays(
    doc: &[u8],
    purposes: &[usize; PURPOSE_CELLS],
    roles: &[usize; ROLE_CELLS],
    attributes: &[usize; ATTRIBUTE_CELLS],
    users: &[usize; USER_CELLS],
    conds: &[usize; COND_ROLE_CELLS],
    grants: &[usize; GRANT_CELLS],
    sets: &[u64; SET_WORDS],
    tables: &[usize; TABLE_CELLS],
    rows: &[usize; ROW_CELLS],
    cells: &[usize; CELLS],
    query: &[u8],
    clock: &[u64; 3],
    out: &mut [u8],
    figures: &mut [u64; 5],
) -> u64
    ensures { ExportsAskArrays doc.now purposes.now roles.now attributes.now users.now conds.now grants.now sets.now tables.now rows.now cells.now query.now (clock_in clock.now) out.old out.new figures.new result }
{
    gate::arrays::gate_ask_arrays(
        doc, purposes, roles, attributes, users, conds, grants, sets, tables, rows, cells, query,
        clock, out, figures,
    )
}

// Measures the answer of a loaded document to a query at a time. Gives what measuring over its text gives; or 255, where the arrays
// were not filled by this version.
#[unsafe(no_mangle)]
pub extern "C" fn gate_measure_arrays(
    doc: &[u8],
    purposes: &[usize; PURPOSE_CELLS],
    roles: &[usize; ROLE_CELLS],
    attributes: &[usize; ATTRIBUTE_CELLS],
    users: &[usize; USER_CELLS],
    conds: &[usize; COND_ROLE_CELLS],
    grants: &[usize; GRANT_CELLS],
    sets: &[u64; SET_WORDS],
    tables: &[usize; TABLE_CELLS],
    rows: &[usize; ROW_CELLS],
    cells: &[usize; CELLS],
    query: &[u8],
    clock: &[u64; 3],
    figures: &mut [u64; 5],
) -> u64
    ensures { ExportsMeasureArrays doc.now purposes.now roles.now attributes.now users.now conds.now grants.now sets.now tables.now rows.now cells.now query.now (clock_in clock.now) figures.new result }
{
    gate::arrays::gate_measure_arrays(
        doc, purposes, roles, attributes, users, conds, grants, sets, tables, rows, cells, query,
        clock, figures,
    )
}

// Says why a cell of a document is open or closed. Gives 0, with the line's length; or a refusal's number, with the text and the part
// that the refusal points to, and leaves the buffer.
#[unsafe(no_mangle)]
pub extern "C" fn gate_why(
    doc: &[u8],
    line: &[u8],
    out: &mut [u8; LINE_BYTES],
    figures: &mut [u64; 5],
) -> u64
    ensures { ExportsWhy doc.now line.now out.old out.new figures.new result }
{
    gate::explaining::gate_why(doc, line, out, figures)
}

// Says why a cell of a loaded document is open or closed. Gives what `gate_why` gives over its text; or 255, where the arrays were not
// filled by this version, and leaves the buffer.
#[unsafe(no_mangle)]
pub extern "C" fn gate_why_arrays(
    doc: &[u8],
    purposes: &[usize; PURPOSE_CELLS],
    labels: &[usize; LABELS],
    sets: &[u64; SET_WORDS],
    tables: &[usize; TABLE_CELLS],
    rows: &[usize; ROW_CELLS],
    cells: &[usize; CELLS],
    line: &[u8],
    out: &mut [u8; LINE_BYTES],
    figures: &mut [u64; 5],
) -> u64
    ensures { ExportsWhyArrays doc.now purposes.now labels.now sets.now tables.now rows.now cells.now line.now out.old out.new figures.new result }
{
    gate::explaining::gate_why_arrays(
        doc, purposes, labels, sets, tables, rows, cells, line, out, figures,
    )
}
