// The document in policy.txt.
ghost use Rattle.programs.specs.Input.{ReadsWithin};

use crate::failures::fail;
use crate::input::read_all;
use std::fs;
use std::io::{Eprint, ErrorKind};
use std::rt::Files;

// One byte more than a document may have, which tells a longer one.
pub const ROOM: usize = 60001;

// Reads policy.txt into the buffer. A file that does not exist is the empty text; one that can't be opened for another reason is an
// error.
pub fn load<R: Files + Eprint>(rt: &R, text: &mut [u8; ROOM]) -> Option<usize>
    ensures { ReadsWithin text.new result }
{
    match fs::open(rt, "policy.txt") {
        Ok(mut file) => read_all(rt, &mut file, b"policy.txt", text),
        Err(e) => {
            if e.kind() == ErrorKind::NotFound {
                return Some(0);
            }
            fail(rt, b"policy.txt", &e);
            None
        }
    }
}
