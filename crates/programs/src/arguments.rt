// The program's arguments: that at 0 is its name.
ghost use Rattle.programs.specs.Counts.{IsPrefixLen};

use std::env::FillError;
use std::rt::Env;

// Room for an argument: as long as a path may be.
pub const ROOM: usize = 4096;

// Whether there is an argument at a place.
pub fn is_given<R: Env>(rt: &R, i: usize) -> bool {
    match rt.arg(i, &mut []) {
        Ok(_) => true,
        Err(FillError::TooLong) => true,
        Err(FillError::NotPresent) => false,
    }
}

// Puts the argument at a place into the buffer, and answers how long it is: 0 where there is none, or it is longer than the buffer.
pub fn read_argument<R: Env>(rt: &R, i: usize, buf: &mut [u8]) -> usize
    ensures { IsPrefixLen result buf.new }
{
    rt.arg(i, buf).unwrap_or(0)
}
