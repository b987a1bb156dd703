// Refusals of a query that hand back what stands at a place of it.
ghost use Rattle.std.specs.Prelude.{◌≡◌};
ghost use Rattle.pairing.specs.Refusing.{refused_at, refused_written};
ghost use Rattle.text.specs.Reasons.{reason_number, refusal_of};

use text::refusals::{Reason, Refusal, Source};
use text::words::{word_end, written_end};

// The refusal that hands back the word at a place.
pub fn refusal_at(query: &[u8], reason: Reason, at: usize) -> Refusal
    ensures { refusal_of result ≡ refused_at (reason_number reason) query.now at }
{
    let e = word_end(query, at);
    Refusal {
        reason,
        source: Source::Query,
        start: at,
        len: e - at,
    }
}

// The refusal that hands back the value at a place, as it is written.
pub fn refusal_written(query: &[u8], reason: Reason, at: usize) -> Refusal
    ensures { refusal_of result ≡ refused_written (reason_number reason) query.now at }
{
    let e = written_end(query, at);
    Refusal {
        reason,
        source: Source::Query,
        start: at,
        len: e - at,
    }
}
