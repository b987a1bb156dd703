// What the explaining tool finds for a line.
ghost use Rattle.std.specs.Prelude.{◌≡◌, ℕ, List};
ghost use Rattle.reasons.specs.Explaining.{explained_as};
ghost use Rattle.text.specs.Reasons.{reason_number};
ghost use Rattle.text.specs.Refusal.{pointing, query, refused};
ghost use Rattle.text.specs.Words.{word_of};

use text::refusals::{Reason, Refusal, Source};
use text::words::word_end;

// Why a cell is open or closed: it is open; its label denies the purpose whose name stands at a position of the document; its label
// allows none above; its table has no labels and is not public.
#[derive(Clone, Copy)]
pub enum Cause {
    Opened,
    Denied(usize),
    NoneAllowed,
    Unlabelled,
}

// The refusal that hands back the word at a place of the line.
pub(crate) fn refused_at(line: &[u8], reason: Reason, at: usize) -> Result<Cause, Refusal>
    ensures { (text : List ℕ) → explained_as text result ≡ refused (pointing (reason_number reason) query (word_of line.now «at»)) }
{
    let e = word_end(line, at);
    Err(Refusal {
        reason,
        source: Source::Query,
        start: at,
        len: e - at,
    })
}
