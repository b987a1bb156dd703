// The line that is printed for a reason.
ghost use Rattle.answer.specs.Why.{reason_text};
ghost use Rattle.reasons.specs.Explaining.{reason_of};
ghost use Rattle.reasons.specs.declared.explained.Cause.TheVariants.{Denied};
ghost use Rattle.text.specs.Words.{word_at};
ghost use Rattle.writing.specs.Write.{Wrote};

use reasons::explained::Cause;
use text::bytes::byte_at;
use writing::bytes::{put_bytes, put_written};

// Writes the word that stands at a position of a text.
fn put_word(out: &mut [u8], to: usize, text: &[u8], at: usize) -> usize
    ensures { Wrote out.old to (word_at text.now «at») out.new result }
{
    if byte_at(text, at) == b'(' {
        return to;
    }
    put_written(out, to, text, at)
}

// Writes the name of a denied purpose, which stands at a position of the document, with what stands around it.
fn put_denied(out: &mut [u8], text: &[u8], at: usize) -> usize
    ensures { Wrote out.old 0 (reason_text (reason_of text.now (Denied «at»))) out.new result }
{
    let open = put_bytes(out, 0, b"(closed deny ");
    let name = put_word(out, open, text, at);
    put_bytes(out, name, b")\n")
}

// Writes the line of a reason into a buffer, from its start on, and gives its length.
pub(crate) fn put_reason(out: &mut [u8], text: &[u8], x: Cause) -> usize
    ensures { Wrote out.old 0 (reason_text (reason_of text.now x)) out.new result }
{
    match x {
        Cause::Opened => put_bytes(out, 0, b"(open)\n"),
        Cause::Denied(at) => put_denied(out, text, at),
        Cause::NoneAllowed => put_bytes(out, 0, b"(closed allow)\n"),
        Cause::Unlabelled => put_bytes(out, 0, b"(closed none)\n"),
    }
}
