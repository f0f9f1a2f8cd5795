//! Searches for one match after another.

ghost use Rattle.std.specs.Prelude.{◌≡◌, ◌≤◌, length, IfOk};
ghost use Rattle.rawk_ere_tree.specs.Ends.{IsMatch};
ghost use Rattle.rawk_ere_automaton.specs.Search.{AreBetween};

use crate::expression::Ere;
use rawk_ere_begins::block::Block;
use std::alloc::{AllocError, Global};
use std::marker::Model;

/// An expression and a text in which its matches are sought, one after another. What was found out of 32 places of the text
/// together is kept from one search to the next, which no contract sees.
#[derive(Drop)]
pub struct Finder<'a> {
    ere: &'a Ere,
    text: &'a [u8],
    known: Block,
}

/// The tree of the expression, and the text.
impl<'a> Model for Finder<'a> {
    ghost use Rattle.rawk_ere.specs.Sought.{Sought, sought_code};

    ghost Value = { Sought };

    ghost coded = { sought_code };

    ghost use Rattle.rawk_ere_tree.specs.Code.{code_of};
    ghost use Rattle.rawk_ere_automaton.specs.Search.{Knows};

    ghost view = { λ f. record { ere = f.ere.now; text = f.text.now } };

    ghost invariant = { λ f. Knows (code_of f.ere.now) f.text.now f.known };
}

impl<'a> Finder<'a> {
    /// To seek the matches of an expression in a text. It takes no memory.
    #[inline(always)]
    pub fn new(ere: &'a Ere, text: &'a [u8]) -> Finder<'a>
        ensures ere { result.ere ≡ ere.now }
        ensures text { result.text ≡ text.now }
    {
        Finder {
            ere,
            text,
            known: Block::none(),
        }
    }

    /// How long the text is.
    #[inline(always)]
    pub fn len(&self) -> usize
        ensures { result ≡ length self.now.text }
    {
        self.text.len()
    }

    /// The leftmost match from `from` on, and the longest there: its begin and its end. The expression and the text stay.
    #[inline(always)]
    pub fn find(&mut self, alloc: Global, from: usize) -> Result<Option<(usize, usize)>, AllocError>
        requires { from ≤ length self.old.text }
        ensures same { self.new ≡ self.old }
        ensures is { IfOk result (IsMatch self.old.text self.old.ere from) }
        ensures within { IfOk result (AreBetween from (length self.old.text)) }
    {
        self.ere.find_on(alloc, self.text, from, &mut self.known)
    }
}
