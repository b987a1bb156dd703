// Importing a comma-separated file as row lines: judged and measured first, and then written straight into the lent buffer.
ghost use Rattle.std.specs.Prelude.{Ok, ◌*◌, ◌+◌, ◌<◌, ◌^◌, ℕ, List, ◌≡◌};
ghost use Rattle.import.specs.Importing.{if_writable, importable, measure_import, refusal_at};
ghost use Rattle.import.specs.Outside.{Imports, imported_as, in_brief, judged_as, length_within};
ghost use Rattle.csv_text.specs.Records.{Entry, records, split};
ghost use Rattle.csv_text.specs.Scanned.{scan_of};
ghost use Rattle.text.specs.Names.{is_name};
ghost use Rattle.text.specs.Reasons.{reason_number, refusal_of};

use crate::rows::put_rows;
use csv_text::records::scan_file;
use text::refusals::{Reason, Refusal, Source};
use text::words::name_end;

// No lent buffer is longer.
const MOST: usize = 9223372036854775807;

// The refusal that hands back the empty part at a place of the file.
fn refusal_at(reason: Reason, place: usize) -> Refusal
    ensures { refusal_of result ≡ refusal_at (reason_number reason) place }
{
    Refusal {
        reason,
        source: Source::File,
        start: place,
        len: 0,
    }
}

// Whether the text is a name.
fn is_name(s: &[u8]) -> bool
    ensures { result ≡ is_name s.now }
{
    name_end(s, 0) == Some(s.len())
}

// The length of count lines of so many bytes each and some bytes more, if it is at most room. A quotient tells, since the product
// could wrap.
fn length_within(room: usize, count: usize, each: usize, more: usize) -> Option<usize>
    requires { 0 < each }
    ensures { result ≡ length_within room (count * each + more) }
{
    if room < more {
        return None;
    }
    if count <= (room - more) / each {
        return Some(count * each + more);
    }
    None
}

// 20 and 21 of a file without a malformed record.
fn judge_scanned(
    table: &[u8],
    label: &[u8],
    room: usize,
    count: usize,
    size: usize,
    unfit: Option<usize>,
) -> Result<(usize, usize), Refusal>
    ensures { (es : List Entry) → scan_of (split es) ≡ Ok (count, size, unfit) → judged_as result ≡ in_brief table.now label.now (if_writable table.now label.now room es) }
{
    if !is_name(table) {
        return Err(refusal_at(Reason::UnfitField, 0));
    }
    if !is_name(label) {
        return Err(refusal_at(Reason::UnfitField, 0));
    }
    if let Some(p) = unfit {
        return Err(refusal_at(Reason::UnfitField, p));
    }
    let Some(n) = length_within(room, count, table.len() + label.len() + 8, size) else {
        return Err(refusal_at(Reason::ImportTooShort, 0));
    };
    Ok((count, n))
}

// 19, 20 and 21 of a file, by what scanning it gave.
fn judge(
    x: Result<(usize, usize, Option<usize>), usize>,
    table: &[u8],
    label: &[u8],
    room: usize,
) -> Result<(usize, usize), Refusal>
    ensures { (bytes : List ℕ) → x ≡ scan_of (records bytes) → judged_as result ≡ in_brief table.now label.now (importable bytes table.now label.now room) }
{
    match x {
        Err(p) => Err(refusal_at(Reason::MalformedRecord, p)),
        Ok((count, size, unfit)) => judge_scanned(table, label, room, count, size, unfit),
    }
}

// Writes one row line a record of the file, with this table and this label.
pub fn import_rows(
    file: &[u8],
    table: &[u8],
    label: &[u8],
    out: &mut [u8],
) -> Result<usize, Refusal>
    ensures { Imports file.now table.now label.now out.old out.new result }
{
    let (count, n) = judge(scan_file(file), table, label, out.len())?;
    put_rows(out, file, count, table, label);
    Ok(n)
}

// How long the lines are: what import_rows has to be lent.
pub fn measure_rows(file: &[u8], table: &[u8], label: &[u8]) -> Result<usize, Refusal>
    ensures { imported_as result ≡ measure_import file.now table.now label.now }
{
    let (_, n) = judge(scan_file(file), table, label, MOST)?;
    Ok(n)
}
