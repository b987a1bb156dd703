// Refusals of a query.
ghost use Rattle.std.specs.Prelude.{◌≡◌};
ghost use Rattle.stages.specs.Figures.{answered_as};
ghost use Rattle.stages.specs.Tails.{refused_at, refused_written};
ghost use Rattle.text.specs.Reasons.{reason_number};
ghost use Rattle.text.specs.Refusal.{refused};

use crate::answered::Figures;
use text::refusals::{Reason, Refusal, Source};
use text::words::{word_end, written_end};

// The refusal that hands back the word at a place.
pub(crate) fn refused_at(query: &[u8], reason: Reason, at: usize) -> Result<Figures, Refusal>
    ensures { answered_as result ≡ refused (refused_at (reason_number reason) query.now at) }
{
    let e = word_end(query, at);
    Err(Refusal {
        reason,
        source: Source::Query,
        start: at,
        len: e - at,
    })
}

// The refusal that hands back the value at a place, as it is written.
pub(crate) fn refused_written(query: &[u8], reason: Reason, at: usize) -> Result<Figures, Refusal>
    ensures { answered_as result ≡ refused (refused_written (reason_number reason) query.now at) }
{
    let e = written_end(query, at);
    Err(Refusal {
        reason,
        source: Source::Query,
        start: at,
        len: e - at,
    })
}
