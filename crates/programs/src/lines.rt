// The lines that programs print, each put together in a lent array, so that it is written in one call.
ghost use Rattle.std.specs.Prelude.{take, ◌∷◌, ◌≡◌};
ghost use Rattle.answer.specs.Session.{refusal_line, source_name};
ghost use Rattle.programs.specs.Counts.{IsPrefixLen};
ghost use Rattle.programs.specs.Lines.{accepted_line};
ghost use Rattle.text.specs.Reasons.{refusal_of, source_of};
ghost use Rattle.writing.specs.Write.{Wrote};

use text::refusals::{Refusal, Source, number};
use writing::bytes::{put_bytes, put_decimal, put_number};

// More than the longest line has: 3 numbers of 20 digits, and 22 bytes.
pub const ROOM: usize = 128;

// Writes a space, and `document`, `query` or `file`.
fn put_source(line: &mut [u8], at: usize, source: Source) -> usize
    ensures { Wrote line.old at (32 ∷ source_name (source_of source)) line.new result }
{
    match source {
        Source::Document => put_bytes(line, at, b" document"),
        Source::Query => put_bytes(line, at, b" query"),
        Source::File => put_bytes(line, at, b" file"),
    }
}

// Writes a refusal at the start of the line.
fn put_refusal(line: &mut [u8], refusal: Refusal) -> usize
    ensures { Wrote line.old 0 (refusal_line (refusal_of refusal)) line.new result }
{
    let reason = refusal.reason;
    let source = refusal.source;
    let a = put_bytes(line, 0, b"(refused ");
    let b = put_decimal(line, a, number(reason));
    let c = put_source(line, b, source);
    let d = put_number(line, c, refusal.start);
    let e = put_number(line, d, refusal.len);
    put_bytes(line, e, b")\n")
}

// Writes what acceptance gives at the start of the line.
fn put_accepted(line: &mut [u8], lines: usize, reserve: usize) -> usize
    ensures { Wrote line.old 0 (accepted_line lines reserve) line.new result }
{
    let a = put_bytes(line, 0, b"(accepted");
    let b = put_number(line, a, lines);
    let c = put_number(line, b, reserve);
    put_bytes(line, c, b")\n")
}

// The line of a refusal.
pub fn refusal_line(line: &mut [u8; ROOM], refusal: Refusal) -> usize
    ensures prefix_len { IsPrefixLen result line.new }
    ensures line_after { take result line.new ≡ refusal_line (refusal_of refusal) }
{
    put_refusal(line, refusal)
}

// The line of an accepted document: how many lines it has, and the reserve.
pub fn accepted_line(line: &mut [u8; ROOM], lines: usize, reserve: usize) -> usize
    ensures prefix_len { IsPrefixLen result line.new }
    ensures line_after { take result line.new ≡ accepted_line lines reserve }
{
    put_accepted(line, lines, reserve)
}
