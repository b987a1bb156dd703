// Refusals as programs write them.
ghost use Rattle.std.specs.Prelude.{◌≡◌};
ghost use Rattle.programs.specs.Kept.{part_length};

use crate::lines;
use crate::lines::refusal_line;
use crate::output::write_out;
use std::io::{Eprint, Print};
use text::refusals::Refusal;

// Writes a refusal, and says whether it was written whole.
pub fn write_refused<R: Print + Eprint>(rt: &R, r: Refusal) -> bool {
    let mut line = [0u8; lines::ROOM];
    let n = refusal_line(&mut line, r);
    write_out(rt, &line[..n]) == n
}

// The length of a refusal's part, of a line of so many bytes of which the first `kept` were seen. A line that was not kept whole is longer
// than any right one, and so is refused as a whole: its part is the whole line, or empty where even the line does not count.
pub fn part_len(part: usize, kept: usize, len: usize) -> usize
    ensures { result ≡ part_length part kept len }
{
    if part == 0 {
        return 0;
    }
    if kept < len {
        return len;
    }
    part
}
