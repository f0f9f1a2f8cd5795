//! The lines of sites, in the order of the text.

ghost use Rattle.std.specs.Prelude.{◌≡◌, [], ◌∷◌, ◌++◌, OnOk};
ghost use Rattle.rawk_lexer.specs.Lines as place;

use rawk_lexer::newlines;
use std::alloc::{AllocError, Global};

/// The line of a place, from that of another place; it reads what stands between them, where that one stands before.
fn line_after(text: &[u8], before: usize, line: u64, left: usize) -> u64
    requires { line ≡ place.line_of text.now before }
    ensures { result ≡ place.line_of text.now left }
{
    if left <= before && before <= text.len() {
        let from = text.len() - before;
        let to = text.len() - left;
        line + newlines(&text[from..to]) as u64
    } else {
        rawk_lexer::line_of(text, left)
    }
}

/// The lines of the sites of a text, which are added in its order. A place is the number of bytes behind it.
#[derive(Drop)]
pub struct Sites<'a> {
    pub text: &'a [u8],
    pub lines: Vec<u64>,
    /// the place up to which lines are counted, and its line
    left: usize,
    line: u64,
    ghost counted: { line ≡ place.line_of text.now left },
}

impl<'a> Sites<'a> {
    pub fn new(alloc: Global, text: &'a [u8]) -> Sites<'a>
        ensures text { result.text.now ≡ text.now }
        ensures lines { result.lines.items ≡ [] }
    {
        Sites {
            text,
            lines: Vec::new(alloc),
            left: text.len(),
            line: rawk_lexer::line_of(text, text.len()),
        }
    }

    /// Adds the site at a place.
    pub fn add(&mut self, left: usize) -> Result<(), AllocError>
        ensures text { self.new.text ≡ self.old.text }
        ensures lines { OnOk result (self.new.lines.items ≡ self.old.lines.items ++ place.line_of self.old.text.now left ∷ []) }
    {
        let line = line_after(self.text, self.left, self.line, left);
        self.line = line;
        self.left = left;
        self.lines.push(line)?;
        Ok(())
    }
}
