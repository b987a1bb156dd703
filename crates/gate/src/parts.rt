// The part of a text that a refusal hands back.
ghost use Rattle.std.specs.Prelude.{drop, take, ◌≡◌};
ghost use Rattle.answer.specs.Ask.{part_of};
ghost use Rattle.text.specs.Reasons.{refusal_of};

use text::refusals::{Refusal, Source};

// The bytes of a text from a place on, at most len of them.
fn piece(s: &[u8], start: usize, len: usize) -> &[u8]
    ensures { result.now ≡ take len (drop start s.now) }
{
    if start > s.len() {
        return &s[..0];
    }
    if len < s.len() - start {
        let end = start + len;
        return &s[start..end];
    }
    &s[start..]
}

// The part that a refusal hands back, of the document or of the query, whichever it points into. A file's refusals hand back
// nothing of it.
pub fn part<'a>(doc: &'a [u8], query: &'a [u8], r: Refusal) -> &'a [u8]
    ensures { result.now ≡ part_of doc.now query.now (refusal_of r) }
{
    let source = r.source;
    match source {
        Source::Document => piece(doc, r.start, r.len),
        Source::Query => piece(query, r.start, r.len),
        Source::File => &query[..0],
    }
}
