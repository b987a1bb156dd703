// Which names were met on a walk through a line, so that few have to be compared with those before them: two bits for each name.
ghost use Rattle.std.specs.Prelude.{◌/◌, ◌<◌, ℕ, eqb, length, ◌||◌, ◌≡◌};
ghost use Rattle.workspace.specs.Met.{Meets};
ghost use Rattle.purpose.specs.Members.{has};
ghost use Rattle.text.specs.Words.{word_of};

use crate::hashes::{PRINTS, print_word};
use crate::layout::MET_WORDS;

// In a shorter line names are compared by pairs: that takes less time than to clear the bits.
pub const LONG_LINE: usize = 256;

// How many there are for the first bits of names, and for the second.
const HALF: usize = 65536;

// Whether bit i is set.
fn has_bit(ms: &[u64], i: usize) -> bool
    requires { i / 64 < length ms.now }
    ensures { result ≡ has ms.now i }
{
    let k = i / 64;
    let b = i % 64;
    (ms[k] >> b) % 2 == 1
}

// Sets bit i.
fn set_bit(ms: &mut [u64], i: usize)
    requires { i / 64 < length ms.old }
    ensures { (j : ℕ) → has ms.new j ≡ (eqb j i || has ms.old j) }
{
    let k = i / 64;
    let b = i % 64;
    ms[k] = ms[k] | (1u64 << b);
}

// Whether the name at a position is surely none of those met so far; it is met now. Without words enough no name is surely new.
pub fn is_new(ms: &mut [u64], line: &[u8], at: usize) -> bool
    ensures { Meets ms.old ms.new (word_of line.now at) result }
{
    if ms.len() < MET_WORDS {
        return false;
    }
    let w = print_word(line, at);
    let h = w.hash;
    let low = h % HALF;
    let high = HALF + 668265263 * h % PRINTS / HALF;
    if has_bit(ms, low) {
        if has_bit(ms, high) {
            return false;
        }
    }
    set_bit(ms, low);
    set_bit(ms, high);
    true
}
