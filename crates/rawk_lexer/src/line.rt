//! Lines of a text.

ghost use Rattle.std.specs.Prelude.{◌≡◌, ◌+◌, ◌≤◌, length};
ghost use Rattle.rawk_lexer.specs.Lines as spec;

/// How many newlines there are in a text.
pub fn newlines(text: &[u8]) -> usize
    ensures value { result ≡ spec.newlines text.now }
    ensures within { result ≤ length text.now }
{
    text.iter().filter(|b| **b == b'\n').count()
}

/// The line, from 1, of the place with `left` bytes behind it. It reads the text up to that place.
pub fn line_of(text: &[u8], left: usize) -> u64
    ensures { result ≡ spec.line_of text.now left }
{
    let before = &text[..text.len().saturating_sub(left)];
    newlines(before) as u64 + 1
}
