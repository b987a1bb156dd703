// One select asked for two purposes.
ghost use Rattle.pairs.specs.Below.{AsksBelow};
ghost use Rattle.query.specs.HostClock.{clock_of};

use crate::two::Pair;
use gate::asking::ask;
use query::clock::Clock;

// Asks a document with a select, and with the same select for a purpose below, at one time, each into its own lent buffer.
pub fn ask_below(
    doc: &[u8],
    query: &[u8],
    lower: &[u8],
    clock: Clock,
    out: &mut [u8],
    other: &mut [u8],
) -> Pair
    ensures { AsksBelow doc.now query.now lower.now (clock_of clock) out.old out.new other.old other.new result }
{
    let first = ask(doc, query, clock, out);
    let second = ask(doc, lower, clock, other);
    Pair { first, second }
}
