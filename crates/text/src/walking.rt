// Going on through a text: behind one byte, and to the next word.
ghost use Rattle.std.specs.Prelude.{◌≡◌};
ghost use Rattle.text.specs.Walking.{next_word, past};

use crate::words::word_end;

// The position behind the byte b at a position, or that position where another byte stands or none.
pub fn skip_byte(s: &[u8], at: usize, b: u8) -> usize
    ensures { result ≡ past b s.now at }
{
    if at < s.len() {
        if s[at] == b {
            return at + 1;
        }
    }
    at
}

// Where the next word begins: behind the word at a position and a space.
pub fn next_word(s: &[u8], at: usize) -> usize
    ensures { result ≡ next_word s.now at }
{
    skip_byte(s, word_end(s, at), b' ')
}
