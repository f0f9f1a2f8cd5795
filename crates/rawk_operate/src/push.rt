//! The operand that an instruction adds.

ghost use Rattle.std.specs.Bool.{OnTrue};
ghost use Rattle.std.specs.Prelude.{◌≡◌, ◌∷◌, OnOk};
ghost use Rattle.rawk_store.specs.Layout.{Grown};
ghost use Rattle.rawk_store.specs.Stores.{start_of};
ghost use Rattle.rawk_operands.specs.Moving.{moving, simple_in, with_operands};
ghost use Rattle.rawk_operate.specs.Done.{Done};

use crate::transfer::Transfer;
use rawk_code::{Instr, Op, Simple};
use rawk_operands::borrowed::simple_borrowed;
use rawk_operands::stack::push_copy;
use rawk_store::Store;
use std::alloc::{AllocError, Global};

/// Adds an operand that has its value at once. It fails where memory is refused.
#[inline(always)]
pub fn push<const SAVES: bool>(
    alloc: Global,
    store: &mut Store,
    from: &Simple,
) -> Result<(), AllocError>
    ensures put { OnOk result (moving store.new ≡ with_operands (simple_in from.now (moving store.old) ∷ (moving store.old).operands) (moving store.old)) }
    ensures did { OnOk result (Done (Instr.Do (Op.Push from.now)) (moving store.old) Transfer.Next (moving store.new)) }
    ensures start { OnTrue SAVES (Grown (start_of store.old) (start_of store.new)) }
{
    let value = simple_borrowed(from, &store.globals, &store.frames, &store.current);
    push_copy::<SAVES>(alloc, &mut store.operands, value)
}
