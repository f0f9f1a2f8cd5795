//! Texts that formats make of operands.

ghost use Rattle.std.specs.Prelude.{◌≡◌, drop, reverse, take, IfOk};
ghost use Rattle.rawk_operators.specs.Operators.{formatted_by};
ghost use Rattle.rawk_store.specs.Stacked.{live_values};
ghost use Rattle.rawk_code.specs.Machine.{top};

use rawk_operands::borrowed::popped_borrowed;
use rawk_operators::format;
use rawk_store::Operands;
use rawk_value::{Bytes, Fault};
use std::alloc::{AllocError, Global};

/// What the format below `count` operands makes of them, or its fault. They are read where they stand. It fails where memory is refused.
pub fn format_operands(
    alloc: Global,
    operands: &Operands,
    count: usize,
) -> Result<Result<Bytes, Fault>, AllocError>
    ensures { IfOk result (λ r. r ≡ formatted_by (top (drop count (live_values operands.now.now))) (reverse (take count (live_values operands.now.now)))) }
{
    format(
        alloc,
        popped_borrowed(operands, count),
        operands.newest_values(count),
    )
}
