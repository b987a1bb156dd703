// Records of a comma-separated file: where they end, and what the file comes to.
ghost use Rattle.std.specs.Prelude.{◌≡◌};
ghost use Rattle.csv_text.specs.Records.{fields, record_end, records};
ghost use Rattle.csv_text.specs.Scanned.{first_of, record_read_of, scan_of, width_after};
ghost use Rattle.text.specs.CodeEnds.{word_end};
ghost use Rattle.text.specs.Reader.{from};

use crate::fields::read_field;
use text::bytes::byte_at;

// The end of a record behind its last field.
fn record_end(s: &[u8], at: usize) -> Option<usize>
    ensures { result ≡ word_end (record_end (from s.now at)) }
{
    if s.len() <= at {
        return Some(at);
    }
    if byte_at(s, at) == b'\r' {
        if byte_at(s, at + 1) == b'\n' {
            return Some(at + 2);
        }
        return None;
    }
    if byte_at(s, at) == b'\n' {
        return Some(at + 1);
    }
    None
}

// A record: its end, and what its fields come to.
fn read_record(s: &[u8], at: usize) -> Option<(usize, usize, usize, usize)>
    ensures { result ≡ record_read_of (fields (from s.now at)) }
{
    let mut i = at;
    let mut count = 0;
    let mut size = 0;
    let mut unfit = 0;
    loop {
        let (e, z, u) = read_field(s, i)?;
        count += 1;
        size += z;
        unfit += u;
        if byte_at(s, e) != b',' {
            let end = record_end(s, e)?;
            return Some((end, count, size, unfit));
        }
        i = e + 1;
    }
}

// The first of two places: one that was found before, or that of a record with unfit fields.
fn first_of(found: Option<usize>, unfit: usize, at: usize) -> Option<usize>
    ensures { result ≡ first_of found unfit at }
{
    if found.is_some() {
        return found;
    }
    if unfit == 0 {
        return None;
    }
    Some(at)
}

// The number of fields that a record must have: that of the first, which has none before it, is its own.
fn expected_width(count: usize, w: usize, n: usize) -> usize
    ensures { result ≡ width_after count w n }
{
    if count == 0 {
        return n;
    }
    w
}

// A whole file.
pub fn scan_file(s: &[u8]) -> Result<(usize, usize, Option<usize>), usize>
    ensures { result ≡ scan_of (records s.now) }
{
    let mut w = 0;
    let mut i = 0;
    let mut count = 0;
    let mut size = 0;
    let mut unfit = None;
    while i < s.len() {
        let Some((e, n, z, u)) = read_record(s, i) else {
            return Err(i);
        };
        w = expected_width(count, w, n);
        if n != w {
            return Err(i);
        }
        count += 1;
        size += z;
        unfit = first_of(unfit, u, i);
        i = e;
    }
    Ok((count, size, unfit))
}
