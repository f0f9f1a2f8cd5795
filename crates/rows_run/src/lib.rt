//! Cases of runs and sessions, of machines there and back, and of a long session; the modules say what the parts of a case are.
#![tactic(auto)]

mod back;
mod far;
mod kept;
mod played;

use kept::Told;
use std::alloc::{AllocError, Global};

/// What a case answers. It fails where memory is refused.
pub fn outcome(alloc: Global, parts: &[&[u8]]) -> Result<Vec<u8>, AllocError> {
    match parts.split_first() {
        Some((&b"@kept", parts)) => kept::answered(alloc, parts, Told::OldValues),
        Some((&b"@back", parts)) => kept::answered(alloc, parts, Told::Likeness),
        Some((&b"@far", _)) => far::answered(alloc),
        _ => played::answered(alloc, parts),
    }
}
