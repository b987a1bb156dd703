// Reading from an input.
ghost use Rattle.std.specs.Prelude.{length};
ghost use Rattle.std.specs.Io.{ReadsAtMost};
ghost use Rattle.std.specs.Io.KnownBytes.{ReadConsumes};
ghost use Rattle.programs.specs.Counts.{Moved};
ghost use Rattle.programs.specs.Input.{ReadsFront, ReadsWithin};

use crate::failures::fail;
use crate::retry::is_made_again;
use std::io;
use std::io::{Eprint, ErrorKind, Read};

// One read, made again until it brings bytes, the end of the input or an error. A proved loop has to end: its turns are counted
// down, from a number that no run uses up.
pub fn read_some<I: Read>(input: &mut I, buf: &mut [u8]) -> io::Result<usize>
    ensures moved { Moved (length buf.old) result }
    ensures within { ReadsAtMost result buf.new }
    ensures bytes { ReadConsumes (I.remaining input.old) (I.remaining input.new) result buf.new }
{
    for _ in 0..u64::MAX {
        let got = input.read(buf);
        if !is_made_again(&got) {
            return got;
        }
    }
    Err(io::Error::from(ErrorKind::TimedOut))
}

// Reads until the input ends or the buffer is full. A read that fails leaves no text: what came before may be cut anywhere. The name
// is what standard error calls the input.
pub fn read_all<R: Eprint, I: Read>(
    rt: &R,
    input: &mut I,
    name: &[u8],
    text: &mut [u8],
) -> Option<usize>
    ensures within { ReadsWithin text.new result }
    ensures bytes { ReadsFront (I.remaining input.old) text.new result }
{
    let mut done = 0;
    while done < text.len() {
        match read_some(input, &mut text[done..]) {
            Ok(0) => return Some(done),
            Ok(n) => done += n,
            Err(e) => {
                fail(rt, name, &e);
                return None;
            }
        }
    }
    Some(done)
}
