//! Texts that formats make.

ghost use Rattle.std.specs.Prelude.{◌≡◌, IfOk};
ghost use Rattle.rawk_operators.specs.Borrowed.{borrowed_value};
ghost use Rattle.rawk_operators.specs.Operators.{formatted_by};

use crate::borrowed::{Borrowed, text_borrowed};
use itoa::Buffer;
use rawk_value::{Bytes, Fault, Value};
use std::alloc::{AllocError, Global};

/// What a format makes of its arguments, in their order, or a fault. It fails where memory is refused.
pub fn format(
    alloc: Global,
    format: Borrowed<'_>,
    values: &[Value],
) -> Result<Result<Bytes, Fault>, AllocError>
    ensures { IfOk result (λ r. r ≡ formatted_by (borrowed_value format.entry) values.now) }
{
    let mut digits = Buffer::new();
    match rawk_format::format(alloc, text_borrowed(format, &mut digits), values) {
        Ok(text) => Ok(Ok(Bytes::from_vec(alloc, text)?)),
        Err(Fault::OutOfMemory) => Err(AllocError),
        Err(fault) => Ok(Err(fault)),
    }
}
