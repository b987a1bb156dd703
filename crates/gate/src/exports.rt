// The gate for hosts in C or Rust: a code, which is 0 or a refusal's number, and five figures.
ghost use Rattle.std.specs.Prelude.{ℕ, List, [], ◌∷◌, ◌≡◌};
ghost use Rattle.gate.specs.Exports.{ExportsAsk, ExportsCheck, ExportsImport, ExportsMeasure, ExportsMeasureImport, ExportsRefusal, StoresAnswer, StoresLength, clock_at, source_code};
ghost use Rattle.gate.specs.Reserved.{ChecksDocument};
ghost use Rattle.import.specs.Outside.{imported_as};
ghost use Rattle.loaded.specs.Outside.{measured_as};
ghost use Rattle.stages.specs.Figures.{answered_as};
ghost use Rattle.text.specs.Reasons.{refusal_of, source_of};

use crate::asking::ask;
use crate::documents::check;
use crate::measuring::measure;
use import::importing::{import_rows, measure_rows};
use query::clock::Clock;
use stages::answered::Figures;
use text::refusals::{Refusal, Source, number};

// Stores five figures.
pub(crate) fn store_five(figures: &mut [u64; 5], a: u64, b: u64, c: u64, d: u64, e: u64)
    ensures { figures.new ≡ a ∷ b ∷ c ∷ d ∷ e ∷ [] }
{
    *figures = [a, b, c, d, e];
}

// The number of the text that a refusal points into.
fn source_code(s: Source) -> u64
    ensures { result ≡ source_code (source_of s) }
{
    match s {
        Source::Document => 1,
        Source::Query => 2,
        Source::File => 3,
    }
}

// Stores the figures of a refusal. Gives its number.
pub(crate) fn store_refusal(figures: &mut [u64; 5], r: Refusal) -> u64
    ensures { ExportsRefusal (refusal_of r) figures.new result }
{
    let start = r.start;
    let len = r.len;
    let source = r.source;
    let reason = r.reason;
    let s = source_code(source);
    let n = number(reason);
    store_five(figures, s, start as u64, len as u64, 0, 0);
    n as u64
}

// Stores the figures of a check. Gives its code.
pub(crate) fn store_checked(figures: &mut [u64; 5], x: Result<(usize, usize), Refusal>) -> u64
    ensures { (doc : List ℕ) → ChecksDocument doc x → ExportsCheck doc figures.new result }
{
    match x {
        Err(r) => store_refusal(figures, r),
        Ok((lines, reserve)) => {
            store_five(figures, lines as u64, reserve as u64, 0, 0, 0);
            0
        }
    }
}

// Stores the figures of an answer. Gives its code.
pub(crate) fn store_answered(figures: &mut [u64; 5], x: Result<Figures, Refusal>) -> u64
    ensures { StoresAnswer (answered_as x) figures.new result }
{
    match x {
        Err(r) => store_refusal(figures, r),
        Ok(f) => {
            store_five(
                figures,
                f.len as u64,
                f.grant as u64,
                f.passed as u64,
                f.withheld as u64,
                f.unmatched as u64,
            );
            0
        }
    }
}

// Stores the figures of a measured answer. Gives its code.
pub(crate) fn store_measured(figures: &mut [u64; 5], x: Result<usize, Refusal>) -> u64
    ensures { StoresLength (measured_as x) figures.new result }
{
    match x {
        Err(r) => store_refusal(figures, r),
        Ok(len) => {
            store_five(figures, len as u64, 0, 0, 0, 0);
            0
        }
    }
}

// Checks a document. Gives 0, with the number of lines and a reserve, or a refusal's number, with the text and the part that
// the refusal points to.
#[unsafe(no_mangle)]
pub extern "C" fn gate_check(doc: &[u8], figures: &mut [u64; 5]) -> u64
    ensures { ExportsCheck doc.now figures.new result }
{
    let x = check(doc);
    store_checked(figures, x)
}

// Asks a document with a query at a time. Gives 0, with the answer's length, the grant and the three counts, or a refusal's
// number, with the text and the part that the refusal points to.
#[unsafe(no_mangle)]
pub extern "C" fn gate_ask(
    doc: &[u8],
    query: &[u8],
    year: u64,
    day: u64,
    hour: u64,
    out: &mut [u8],
    figures: &mut [u64; 5],
) -> u64
    ensures { ExportsAsk doc.now query.now (clock_at year day hour) out.old out.new figures.new result }
{
    let x = ask(doc, query, Clock { year, day, hour }, out);
    store_answered(figures, x)
}

// Measures the answer to a query at a time. Gives 0, with the answer's length, or a refusal's number, with the text and the part
// that the refusal points to; 18 is none of them.
#[unsafe(no_mangle)]
pub extern "C" fn gate_measure(
    doc: &[u8],
    query: &[u8],
    year: u64,
    day: u64,
    hour: u64,
    figures: &mut [u64; 5],
) -> u64
    ensures { ExportsMeasure doc.now query.now (clock_at year day hour) figures.new result }
{
    let x = measure(doc, query, Clock { year, day, hour });
    store_measured(figures, x)
}

// Stores the figures of an import. Gives its code.
fn store_imported(figures: &mut [u64; 5], x: Result<usize, Refusal>) -> u64
    ensures { StoresLength (imported_as x) figures.new result }
{
    match x {
        Err(r) => store_refusal(figures, r),
        Ok(len) => {
            store_five(figures, len as u64, 0, 0, 0, 0);
            0
        }
    }
}

// Writes one row line a record of a comma-separated file into the buffer. Gives 0, with the lines' length, or a refusal's number,
// with the place in the file that the refusal points to.
#[unsafe(no_mangle)]
pub extern "C" fn gate_import(
    file: &[u8],
    table: &[u8],
    label: &[u8],
    out: &mut [u8],
    figures: &mut [u64; 5],
) -> u64
    ensures { ExportsImport file.now table.now label.now out.old out.new figures.new result }
{
    let x = import_rows(file, table, label, out);
    store_imported(figures, x)
}

// Measures the row lines of a comma-separated file. Gives 0, with their length, or a refusal's number, with the place in the file
// that the refusal points to; 21 only where no buffer is long enough.
#[unsafe(no_mangle)]
pub extern "C" fn gate_measure_import(
    file: &[u8],
    table: &[u8],
    label: &[u8],
    figures: &mut [u64; 5],
) -> u64
    ensures { ExportsMeasureImport file.now table.now label.now figures.new result }
{
    let x = measure_rows(file, table, label);
    store_imported(figures, x)
}
