//! Parts of texts, and places in them.

ghost use Rattle.std.specs.Prelude.{◌≡◌, IfOk, pos};
ghost use Rattle.rawk_value.specs.Values.{text_of};
ghost use Rattle.rawk_builtins.specs.Builtins.{place_of, substring};
ghost use Rattle.rawk_operators.specs.Borrowed.{borrowed_value};
ghost use Rattle.rawk_operators.specs.Operators.{part_of};

use crate::borrowed::{Borrowed, number, text_borrowed};
use itoa::Buffer;
use rawk_value::{Bytes, Fault, Value};
use std::alloc::{AllocError, Global};

/// The place of the right text in the left one. It takes no memory.
pub fn place(left: Borrowed<'_>, right: Borrowed<'_>) -> i64
    ensures { result ≡ pos (place_of (text_of (borrowed_value left.entry)) (text_of (borrowed_value right.entry))) }
{
    let mut left_digits = Buffer::new();
    let mut right_digits = Buffer::new();
    rawk_builtins::index(
        text_borrowed(left, &mut left_digits),
        text_borrowed(right, &mut right_digits),
    )
}

/// The part of its text from a place on, in place but for a number's digits, which stand in the buffer; with a count, that many bytes. It takes no memory.
#[inline(always)]
pub fn part_in<'a>(
    value: Borrowed<'a>,
    digits: &'a mut Buffer,
    from: i64,
    count: Option<i64>,
) -> &'a [u8]
    ensures { result.now ≡ substring (text_of (borrowed_value value.entry)) from count }
{
    rawk_builtins::substr(text_borrowed(value, digits), from, count)
}

/// A copy of it. It fails where memory is refused.
#[inline(always)]
pub fn part(
    alloc: Global,
    value: Borrowed<'_>,
    from: i64,
    count: Option<i64>,
) -> Result<Value, AllocError>
    ensures { IfOk result (λ v. v ≡ Value.String (substring (text_of (borrowed_value value.entry)) from count)) }
{
    let mut digits = Buffer::new();
    let part = part_in(value, &mut digits, from, count);
    Ok(Value::String(Bytes::from_slice(alloc, part)?))
}

/// The part of a text from a place on, `count` bytes, or the fault of a number. It fails where memory is refused.
#[inline(always)]
pub fn make_substr(
    alloc: Global,
    value: Borrowed<'_>,
    place: Borrowed<'_>,
    count: Borrowed<'_>,
) -> Result<Result<Value, Fault>, AllocError>
    ensures { IfOk result (λ r. r ≡ part_of (borrowed_value value.entry) (borrowed_value place.entry) (borrowed_value count.entry)) }
{
    match number(place) {
        Err(fault) => Ok(Err(fault)),
        Ok(from) => match number(count) {
            Err(fault) => Ok(Err(fault)),
            Ok(size) => Ok(Ok(part(alloc, value, from, Some(size))?)),
        },
    }
}
