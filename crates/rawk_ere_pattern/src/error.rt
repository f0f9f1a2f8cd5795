//! Why a pattern has no expression.

use std::alloc::AllocError;

/// Why a pattern is refused.
#[derive(Clone, Copy, PartialEq, Eq)]
pub enum EreError {
    /// It is no extended regular expression.
    Syntax,
    /// Its size is above 65,536, or more than 200 groups and repetitions stand one inside another.
    TooLarge,
    /// Memory ran out.
    Memory,
}

impl From<AllocError> for EreError {
    ghost use Rattle.std.specs.Prelude.{◌≡◌};
    ghost use Rattle.rawk_ere_pattern.specs.declared.error.EreError.TheVariants.{Memory};

    ghost from_gives = { λ _ r. r ≡ Memory };

    fn from(_error: AllocError) -> EreError {
        EreError::Memory
    }
}
