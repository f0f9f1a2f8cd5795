//! The regular expressions that stand in a program are read, and the first that is none is told.

ghost use Rattle.std.specs.Prelude.{IfOk, MatchBool, MatchOption};
ghost use Rattle.rawk_names.specs.Noted.{shown};
ghost use Rattle.rawk_syntax.specs.Patterns.{AllReadable, IsBad, IsBadPlace, IsFirstBad, IsReadable};

use rawk_ere_pattern::EreError;
use rawk_ere_pattern::read::read;
use rawk_names::Register;
use std::alloc::{AllocError, Global};

/// Whether a pattern is a regular expression.
fn is_readable(alloc: Global, pattern: &[u8]) -> Result<bool, AllocError>
    ensures { IfOk result (λ b. MatchBool b (IsReadable pattern.now) (IsBad pattern.now)) }
{
    match read(alloc, pattern) {
        Ok(tree) => {
            drop(tree);
            Ok(true)
        }
        Err(EreError::Syntax) => Ok(false),
        Err(EreError::TooLarge) => Ok(false),
        Err(EreError::Memory) => Err(AllocError),
    }
}

/// The first pattern that is no regular expression.
fn first_bad(alloc: Global, register: &Register) -> Result<Option<usize>, AllocError>
    ensures { IfOk result (λ r. MatchOption r (AllReadable (shown register.now)) (IsFirstBad (shown register.now).patterns)) }
{
    for number in 0..register.pattern_count() {
        if !is_readable(alloc, register.pattern_word(number))? {
            return Ok(Some(number));
        }
    }
    Ok(None)
}

/// The place of the first pattern that is no regular expression.
pub fn bad_of(alloc: Global, register: &Register) -> Result<Option<usize>, AllocError>
    ensures { IfOk result (λ r. MatchOption r (AllReadable (shown register.now)) (IsBadPlace (shown register.now).patterns (shown register.now).uses)) }
{
    match first_bad(alloc, register)? {
        None => Ok(None),
        Some(number) => Ok(Some(register.pattern_left(number))),
    }
}
