// 18, by the answer's length.
ghost use Rattle.std.specs.Prelude.{◌≡◌};
ghost use Rattle.loaded.specs.Outside.{figures_fit};
ghost use Rattle.stages.specs.Figures.{answered_as};

use stages::answered::Figures;
use text::refusals::{Reason, Refusal, Source};

// 18 where an answer is longer than the room for it.
pub(crate) fn within_room(a: Result<Figures, Refusal>, room: usize) -> Result<Figures, Refusal>
    ensures { answered_as result ≡ figures_fit room (answered_as a) }
{
    let f = a?;
    if room < f.len {
        return Err(Refusal {
            reason: Reason::BufferTooShort,
            source: Source::Query,
            start: 0,
            len: 0,
        });
    }
    Ok(f)
}
