// A line of the text, by its two ends.
ghost use Rattle.std.specs.Prelude.{◌≡◌};
ghost use Rattle.workspace.specs.Cells.{line_in};

// The line from a to e of the text, as far as the text goes.
pub fn line_of(text: &[u8], a: usize, e: usize) -> &[u8]
    ensures { result.now ≡ line_in text.now a e }
{
    if e <= a {
        return &text[0..0];
    }
    if e <= text.len() {
        return &text[a..e];
    }
    if a <= text.len() {
        return &text[a..];
    }
    &text[0..0]
}
