//! The last expression, kept by its text.

ghost use Rattle.std.specs.Prelude.{◌≡◌, Some, IfOk};
ghost use Rattle.std.specs.Option.{IfSome, option_copied};
ghost use Rattle.std.proofs.Props.{props};
ghost use Rattle.rawk_search.specs.Expressions.{ere_of};

use crate::reading::expression;
use rawk_ere::Ere;
use std::alloc::{AllocError, Global};

/// The expression of the pattern that was asked for last.
#[derive(Drop)]
pub struct CachedExpression {
    pattern: Vec<u8>,
    ere: Option<Ere>,
    ghost is: { IfSome ere (λ e. Some e ≡ ere_of pattern.items) } by { Prim.hlevel props },
}

impl CachedExpression {
    /// No pattern was asked for. It takes no memory.
    pub fn new(alloc: Global) -> Self {
        CachedExpression {
            pattern: Vec::new(alloc),
            ere: None,
        }
    }

    /// The expression that a pattern is, or None where it is none within the limits. It is read anew only where the pattern
    /// is another one than last time, or is none. An error: memory was refused, and the expression that was kept stays.
    pub fn get(&mut self, alloc: Global, pattern: &[u8]) -> Result<Option<&Ere>, AllocError>
        ensures { IfOk result (λ o. option_copied o ≡ ere_of pattern.now) }
    {
        if self.ere.is_none() || self.pattern.as_slice() != pattern {
            let ere = expression(alloc, pattern)?;
            let mut text = Vec::new(alloc);
            text.extend_from_slice(pattern)?;
            self.ere = ere;
            self.pattern = text;
        }
        Ok(self.ere.as_ref())
    }
}
