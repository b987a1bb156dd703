// Saying why a read or a write failed.
use arrayvec::ArrayString;
use bstr::ByteSlice;
use std::fmt::Write;
use std::io;
use std::io::Eprint;

// More than the longest of the system's words has.
const WORDS: usize = 256;

// Writes a line to standard error: what failed, a colon and the system's words for it, without the number that std puts behind them. A
// line that can't be written is lost: there is no other place to say so.
pub(crate) fn fail<R: Eprint>(rt: &R, what: &[u8], error: &io::Error) {
    let mut words = ArrayString::<WORDS>::new();
    let _ = write!(words, "{error}");
    let all = words.as_str();
    let said = match all.split_once(" (os error ") {
        Some((said, _)) => said,
        None => all,
    };
    let _ = eprintln!(rt; "{}: {said}", what.as_bstr());
}
