//! Where a record lies.

ghost use Rattle.std.specs.Prelude.{◌≡◌, IfOk, OnOk};
ghost use Rattle.rawk_record.specs.Drafts.{IsPlaced, shown_of};
ghost use Rattle.rawk_record.specs.Helds.{IsHeld};
ghost use Rattle.rawk_record.specs.Shown.{split_record};

use crate::parts::{Parts, no_parts};
use crate::short::Short;
use crate::uncut::Uncut;
use rawk_pieces::{Separator, cut};
use std::alloc::{AllocError, Global};
use std::mem;

/// Parts in buffers of their own, a short record in place, or a text that is not cut.
#[derive(Drop)]
pub enum Held {
    Wide(Parts),
    InPlace(Short),
    Uncut(Uncut),
}

/// Makes of the parts a text with its fields; `newline` says whether a newline separates too. It fails where memory is refused.
#[inline(always)]
pub(crate) fn refill_parts(
    alloc: Global,
    parts: &mut Parts,
    text: &[u8],
    separator: Separator<'_>,
    newline: bool,
) -> Result<(), AllocError>
    ensures did { OnOk result (shown_of parts.new ≡ split_record separator.entry newline text.now) }
    ensures placed { IsPlaced parts.new }
{
    parts.kept.clear();
    parts.pieces.clear();
    parts.text.clear();
    parts.text.extend_from_slice(text)?;
    match cut(alloc, &parts.text, separator, newline, &mut parts.pieces) {
        Ok(()) => Ok(()),
        Err(refused) => {
            parts.pieces.clear();
            Err(refused)
        }
    }
}

/// Parts in new buffers: a text with its fields. It fails where memory is refused.
#[inline(never)]
pub(crate) fn new_parts(
    alloc: Global,
    text: &[u8],
    separator: Separator<'_>,
    newline: bool,
) -> Result<Parts, AllocError>
    ensures did { IfOk result (λ parts. shown_of parts ≡ split_record separator.entry newline text.now) }
    ensures placed { IfOk result IsPlaced }
{
    let mut parts = no_parts(alloc);
    refill_parts(alloc, &mut parts, text, separator, newline)?;
    Ok(parts)
}

/// The buffers, taken out, or new ones. It takes no memory.
pub(crate) fn buffers_of(alloc: Global, held: &mut Held) -> Parts
    ensures { IsHeld held.new }
{
    match mem::replace(held, Held::Wide(no_parts(alloc))) {
        Held::Wide(parts) => parts,
        Held::InPlace(_) => no_parts(alloc),
        Held::Uncut(_) => no_parts(alloc),
    }
}
