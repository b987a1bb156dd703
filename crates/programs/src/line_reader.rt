// Lines of standard input, one at a time. Bytes that were read and not yet taken wait in a lent buffer, and so does a line's beginning in
// another; a line's whole length is counted, be it longer than what is kept of it.
use crate::failures::fail;
use crate::input::read_some;
use crate::output::within;
use std::io::{Eprint, Read};

// What was read of standard input: the place of the next byte in the buffer and how many bytes that holds; how long the line is so far,
// and whether its line feed was read; and whether there may be more.
#[derive(Clone, Copy)]
pub struct Reading {
    at: usize,
    got: usize,
    pub len: usize,
    ended: bool,
    pub more: bool,
}

// Nothing was read yet.
pub fn at_start() -> Reading {
    Reading {
        at: 0,
        got: 0,
        len: 0,
        ended: false,
        more: true,
    }
}

// A line is never so long: where the count would go beyond, it stays.
const MOST: usize = 1 << 60;

fn counted(len: usize) -> usize {
    if len < MOST {
        return len + 1;
    }
    len
}

// The byte at a place of the line, where there is room.
fn keep_byte(line: &mut [u8], at: usize, b: u8) {
    if at < line.len() {
        line[at] = b;
    }
}

// One byte of the input: a line feed ends the line, any other is kept where there is room.
fn take_byte(line: &mut [u8], s: Reading, b: u8) -> Reading {
    let mut next = s;
    if b == b'\n' {
        next.ended = true;
        return next;
    }
    keep_byte(line, s.len, b);
    next.len = counted(s.len);
    next
}

// The bytes that wait, up to a line feed.
fn take_bytes(bytes: &[u8], line: &mut [u8], s: Reading) -> Reading {
    let mut r = s;
    let mut i = s.at;
    while i < bytes.len() && !r.ended {
        r = take_byte(line, r, bytes[i]);
        i += 1;
    }
    r.at = i;
    r
}

// Some bytes of standard input, or that it ended. Where reading fails a line that was begun is dropped: what came may be cut anywhere.
fn read_more<R: Eprint, I: Read>(rt: &R, input: &mut I, bytes: &mut [u8], s: Reading) -> Reading {
    let mut next = s;
    match read_some(input, bytes) {
        Ok(n) => {
            next.at = 0;
            next.got = n;
            next.more = n != 0;
        }
        Err(e) => {
            fail(rt, b"standard input", &e);
            next.len = 0;
            next.more = false;
        }
    }
    next
}

// One step of reading a line: the bytes that wait, or new ones.
fn read_part<R: Eprint, I: Read>(
    rt: &R,
    input: &mut I,
    bytes: &mut [u8],
    line: &mut [u8],
    s: Reading,
) -> Reading {
    if s.at < s.got {
        let n = within(s.got, bytes);
        return take_bytes(&bytes[..n], line, s);
    }
    read_more(rt, input, bytes, s)
}

// The next line. A proved loop has to end, and nothing says that an input does: so the turns are counted down, from a number that no run
// uses up.
pub fn read_line<R: Eprint, I: Read>(
    rt: &R,
    input: &mut I,
    bytes: &mut [u8],
    line: &mut [u8],
    s: Reading,
) -> Reading {
    let mut r = s;
    r.len = 0;
    r.ended = false;
    for _ in 0..u64::MAX {
        if !r.more || r.ended {
            break;
        }
        r = read_part(rt, input, bytes, line, r);
    }
    r
}

// Whether there was a line: the last may lack its line feed, and is none where it has no bytes.
pub fn is_line(r: Reading) -> bool {
    r.ended || r.len > 0
}
