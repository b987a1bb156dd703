// Writing to standard output.
ghost use Rattle.std.specs.Prelude.{ltb, length, take, cond, ◌≡◌};
ghost use Rattle.std.specs.Io.KnownBytes.{Appends, WriteAppends};
ghost use Rattle.programs.specs.Counts.{IsPrefixLen, Moved};

use crate::failures::fail;
use crate::retry::is_made_again;
use std::io;
use std::io::{Eprint, ErrorKind, Print, Write};

// n, or the number of bytes where that is less.
pub fn within(n: usize, bytes: &[u8]) -> usize
    ensures prefix_len { IsPrefixLen result bytes.now }
    ensures value { result ≡ cond (ltb n (length bytes.now)) n (length bytes.now) }
{
    if n < bytes.len() {
        return n;
    }
    bytes.len()
}

// One write, made again until it takes bytes or fails. The turns are counted down as in reading.
fn write_some<W: Write>(out: &mut W, bytes: &[u8]) -> io::Result<usize>
    ensures moved { Moved (length bytes.now) result }
    ensures bytes { WriteAppends (W.contents out.old) (W.contents out.new) result bytes.now }
{
    for _ in 0..u64::MAX {
        let got = out.write(bytes);
        if !is_made_again(&got) {
            return got;
        }
    }
    Err(io::Error::from(ErrorKind::TimedOut))
}

// Writes the bytes, in one call where that takes them all, and answers how many were taken: where not all, standard error says why.
fn write_to<R: Eprint, W: Write>(rt: &R, out: &mut W, bytes: &[u8]) -> usize
    ensures prefix_len { IsPrefixLen result bytes.now }
    ensures bytes { Appends (W.contents out.old) (W.contents out.new) (take result bytes.now) }
{
    let mut done = 0;
    while done < bytes.len() {
        match write_some(out, &bytes[done..]) {
            Ok(0) => {
                let _ = eprintln!(rt; "standard output: takes nothing");
                return done;
            }
            Ok(n) => done += n,
            Err(e) => {
                fail(rt, b"standard output", &e);
                return done;
            }
        }
    }
    done
}

// Writes the bytes to standard output, as write_to does.
pub fn write_out<R: Print + Eprint>(rt: &R, bytes: &[u8]) -> usize
    ensures { IsPrefixLen result bytes.now }
{
    write_to(rt, &mut io::writer(rt), bytes)
}

// Writes the first bytes, as many as n says or as there are, and says whether all of them were taken.
pub fn write_first<R: Print + Eprint>(rt: &R, n: usize, bytes: &[u8]) -> bool {
    let m = within(n, bytes);
    write_out(rt, &bytes[..m]) == m
}
