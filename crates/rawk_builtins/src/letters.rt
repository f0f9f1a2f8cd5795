//! Upper and lower case.

ghost use Rattle.std.specs.Prelude.{◌≡◌, IfOk, map};
ghost use Rattle.rawk_builtins.specs.Builtins.{lower, upper};

use rawk_value::Bytes;
use std::alloc::{AllocError, Global};

/// How many bytes a text has at most that is made in place and then copied, which takes one allocation at most.
const FEW: usize = 64;

/// The text with its upper-case letters of ASCII in lower case (POSIX awk, String Functions, in the POSIX locale).
/// It fails where memory is refused.
pub fn tolower(alloc: Global, text: &[u8]) -> Result<Bytes, AllocError>
    ensures { IfOk result (λ lowered. lowered ≡ map lower text.now) }
{
    if text.len() <= FEW {
        let mut own = [0; FEW];
        let lowered = &mut own[..text.len()];
        lowered.copy_from_slice(text);
        lowered.make_ascii_lowercase();
        return Bytes::from_slice(alloc, lowered);
    }
    Bytes::from_vec(alloc, text.to_ascii_lowercase(alloc)?)
}

/// The text with its lower-case letters of ASCII in upper case (POSIX awk, String Functions, in the POSIX locale).
/// It fails where memory is refused.
pub fn toupper(alloc: Global, text: &[u8]) -> Result<Bytes, AllocError>
    ensures { IfOk result (λ raised. raised ≡ map upper text.now) }
{
    if text.len() <= FEW {
        let mut own = [0; FEW];
        let raised = &mut own[..text.len()];
        raised.copy_from_slice(text);
        raised.make_ascii_uppercase();
        return Bytes::from_slice(alloc, raised);
    }
    Bytes::from_vec(alloc, text.to_ascii_uppercase(alloc)?)
}
