//! A law of every part that can be changed back, said by a call.

ghost use Rattle.std.specs.Prelude.{◌≡◌};

use crate::reversible::Reversible;
use std::alloc::{AllocError, Global};

/// Makes a change and takes it back: a change and its undo give back the part. It fails where memory is refused, and then too the part is as it was.
pub fn there_and_back<P: Reversible>(
    part: &mut P,
    alloc: Global,
    change: P::Change,
) -> Result<(), AllocError>
where
    P::Undo: Drop,
    ensures seen { P.sees part.new ≡ P.sees part.old }
    ensures grown { P.grown part.old part.new }
{
    let mut undo = part.apply(alloc, change)?;
    part.undo(&mut undo);
    Ok(())
}
