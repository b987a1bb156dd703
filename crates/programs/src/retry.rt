// When a read or a write is made again.
ghost use Rattle.std.specs.Prelude.{IsOk, false, ◌≡◌};

use std::io;
use std::io::ErrorKind;
use std::thread::yield_now;

// Whether the call that answered so is made again: a signal interrupted it, or it would have to wait; then others run first. One
// that did not fail is never made again: its bytes are taken.
pub(crate) fn is_made_again(got: &io::Result<usize>) -> bool
    ensures { IsOk got.now → result ≡ false }
{
    match got {
        Ok(_) => false,
        Err(e) => match e.kind() {
            ErrorKind::Interrupted => true,
            ErrorKind::WouldBlock => {
                yield_now();
                true
            }
            _ => false,
        },
    }
}
