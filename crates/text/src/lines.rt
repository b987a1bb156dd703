// Lines of a text: where they end.
ghost use Rattle.text.specs.Lines.{LineEnd};

// The position of the first line feed at or after a position, or the text's end where there is none.
pub fn line_end(s: &[u8], at: usize) -> usize
    ensures { LineEnd s.now at result }
{
    for i in at..s.len() {
        if s[i] == b'\n' {
            return i;
        }
    }
    at.max(s.len())
}
