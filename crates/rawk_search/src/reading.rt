//! The expression that a pattern is.

ghost use Rattle.std.specs.Prelude.{◌≡◌, IfOk};
ghost use Rattle.rawk_search.specs.Expressions.{ere_of};

use rawk_ere::Ere;
use rawk_ere_pattern::EreError;
use std::alloc::{AllocError, Global};

/// The expression that a pattern is (POSIX XBD 9.4), or None where it is none within the limits. An error: memory was refused.
pub fn expression(alloc: Global, pattern: &[u8]) -> Result<Option<Ere>, AllocError>
    ensures { IfOk result (λ o. o ≡ ere_of pattern.now) }
{
    match Ere::parse(alloc, pattern) {
        Ok(ere) => Ok(Some(ere)),
        Err(EreError::Syntax) => Ok(None),
        Err(EreError::TooLarge) => Ok(None),
        Err(EreError::Memory) => Err(AllocError),
    }
}
