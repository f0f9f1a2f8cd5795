//! Expressions with their texts.

ghost use Rattle.std.specs.Prelude.{◌≡◌, Some, IfOk};
ghost use Rattle.std.specs.Option.{IfSome};
ghost use Rattle.rawk_search.specs.Expressions.{ere_of};
ghost use Rattle.rawk_search.specs.Found.{IsWithin};
ghost use Rattle.rawk_search.specs.Patterns.{pattern_of, match_of, is_found};

use crate::Span;
use crate::reading::expression;
use crate::search::next_match;
use rawk_ere::Ere;
use std::alloc::{AllocError, Global};
use std::marker::Model;
use std::rc::Rc;

/// What the owners of a pattern share.
#[derive(Drop)]
struct Shared {
    text: Vec<u8>,
    ere: Ere,
}

/// An extended regular expression that was read from a text. Contracts see the text, which is one of an expression within the
/// limits. A copy of it takes no memory.
#[derive(Drop)]
pub struct Pattern {
    shared: Rc<Shared>,
}

impl Model for Pattern {
    ghost use Rattle.std.specs.Prelude.{◌≡◌, Some};
    ghost use Rattle.rawk_value.specs.Values.{Bytes};
    ghost use Rattle.rawk_search.specs.Expressions.{ere_of};

    ghost Value = { Bytes };

    ghost view = { λ p. p.shared.value.text.items };

    ghost invariant = { λ p. Some p.shared.value.ere ≡ ere_of p.shared.value.text.items };
}

impl Pattern {
    /// The expression that a text is (POSIX XBD 9.4), or None where it is none within the limits. An error: memory was refused.
    pub fn read(alloc: Global, text: &[u8]) -> Result<Option<Pattern>, AllocError>
        ensures { IfOk result (λ o. o ≡ pattern_of text.now) }
    {
        let Some(ere) = expression(alloc, text)? else {
            return Ok(None);
        };
        let text = Vec::from_slice(alloc, text)?;
        let shared = Rc::new(alloc, Shared { text, ere })?;
        Ok(Some(Pattern { shared }))
    }

    /// The text that it was read from.
    pub fn text(&self) -> &[u8]
        ensures { result.now ≡ self.now }
    {
        self.shared.as_ref().text.as_slice()
    }

    /// The expression.
    pub fn ere(&self) -> &Ere
        ensures { Some result.now ≡ ere_of self.now }
    {
        &self.shared.as_ref().ere
    }

    /// A copy. It takes no memory, and fails only where the count of owners is full.
    pub fn copy(&self) -> Result<Pattern, AllocError>
        ensures { IfOk result (λ p. p ≡ self.now) }
    {
        let shared = self.shared.clone()?;
        Ok(Pattern { shared })
    }

    /// The leftmost match in a text, and the longest there. An error: memory was refused.
    pub fn first(&self, alloc: Global, text: &[u8]) -> Result<Option<Span>, AllocError>
        ensures is { IfOk result (λ o. Some o ≡ match_of self.now text.now) }
        ensures within { IfOk result (λ o. IfSome o (IsWithin 0 text.now)) }
    {
        next_match(alloc, self.ere(), text, 0)
    }

    /// Whether a text has a match (POSIX awk, the operator `~`). An error: memory was refused.
    pub fn is_found(&self, alloc: Global, text: &[u8]) -> Result<bool, AllocError>
        ensures { IfOk result (λ b. Some b ≡ is_found self.now text.now) }
    {
        let found = self.ere().is_found(alloc, text)?;
        Ok(found)
    }
}
