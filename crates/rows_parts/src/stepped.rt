//! Changes of a part that are steps of their own: `apply` stands before one that stays, `there and back` before one that is taken back.

use rawk_slots::{Reversible, there_and_back};
use std::alloc::{AllocError, Global};

/// The change behind such words, and whether it is taken back.
pub fn as_step(change: &[u8]) -> Option<(&[u8], bool)> {
    match change.strip_prefix(b"apply ".as_slice()) {
        Some(change) => Some((change, false)),
        None => Some((change.strip_prefix(b"there and back ".as_slice())?, true)),
    }
}

/// Makes a change as a step of its own, and takes it back where that is asked for.
pub fn make<P: Reversible>(
    alloc: Global,
    part: &mut P,
    change: P::Change,
    back: bool,
) -> Result<(), AllocError>
where
    P::Undo: Drop,
{
    if back {
        return there_and_back(part, alloc, change);
    }
    drop(part.apply(alloc, change)?);
    Ok(())
}
