// Places of a line as positions in the text, and numbers that were found.
ghost use Rattle.std.specs.Prelude.{◌+◌, ◌≤◌, length, ◌≡◌};
ghost use Rattle.workspace.specs.Found.{found_as};
ghost use Rattle.lists.specs.Lists.{or_zero};

// The position in the text of place p of a line that starts at a position; 0 where it would lie behind the text's end.
pub fn place(text: &[u8], at: usize, p: usize) -> usize
    ensures { at + p ≤ length text.now → result ≡ at + p }
{
    let n = text.len();
    if at <= n {
        if p <= n - at {
            return at + p;
        }
    }
    0
}

// The number that was found; 0 where there is none.
pub fn number(f: Option<usize>) -> usize
    ensures { result ≡ or_zero (found_as f) }
{
    match f {
        Some(n) => n,
        None => 0,
    }
}
