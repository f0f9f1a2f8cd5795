//! Growths, whose failure is want of memory.

ghost use Rattle.std.specs.Prelude.{◌≡◌, [], ◌∷◌, ◌++◌, IfOk, OnOk};

use std::alloc::{AllocError, Global};

/// Puts a value on the heap. Where memory is refused the value is gone.
pub fn boxed<T: Drop>(alloc: Global, value: T) -> Result<Box<T>, AllocError>
    ensures { IfOk result (λ b. b.value ≡ value) }
{
    Ok(Box::new(alloc, value)?)
}

/// One more at the end. Where memory is refused the value is gone.
pub fn push<T: Drop>(values: &mut Vec<T>, value: T) -> Result<(), AllocError>
    ensures { OnOk result (values.new.items ≡ values.old.items ++ value ∷ []) }
{
    values.push(value)?;
    Ok(())
}
