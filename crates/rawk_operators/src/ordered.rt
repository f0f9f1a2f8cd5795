//! Comparison of values in place.

ghost use Rattle.std.specs.Bool.{OnTrue};
ghost use Rattle.std.specs.Prelude.{◌≡◌, false, IfSome, Ok, Some, None, if◌then◌else◌};
ghost use Rattle.std.specs.Cmp.Lexicographic.{slice_cmp};
ghost use Rattle.std.specs.Ordering.{nat_cmp};
ghost use Rattle.rawk_value.specs.Values.{counts, front, front_number, holds, int_order, is_numeric, next_ok, number_of, order_of, text_of};
ghost use Rattle.rawk_operators.specs.Borrowed.{borrowed_value};

use crate::borrowed::{Borrowed, text_borrowed};
use itoa::Buffer;
use rawk_value::order::{holds, number_if_counts, number_if_numeric, number_order};
use rawk_value::{Comparison, Fault, Value};
use std::cmp::Ordering;

/// Whether a text begins with a byte past the digits, so that it is no number: letters do. No clause says when else it is none.
#[inline(always)]
fn begins_past_digits(text: &[u8]) -> bool
    ensures { OnTrue result (is_numeric text.now ≡ false) }
{
    match text {
        [first, ..] => *first > b'9',
        [] => false,
    }
}

/// The number of a numeric string; another text has none here.
#[inline(always)]
fn number_of_input(text: &[u8]) -> Option<Result<i64, Fault>>
    ensures { result ≡ (if is_numeric text.now then Some (front_number (front text.now)) else None) }
{
    if begins_past_digits(text) {
        return None;
    }
    number_if_numeric(text)
}

/// Its number, where a comparison takes it as a number.
#[inline]
fn number_if_compared(value: Borrowed<'_>) -> Option<Result<i64, Fault>>
    ensures { result ≡ (if counts (borrowed_value value.entry) then Some (number_of (borrowed_value value.entry)) else None) }
{
    match value {
        Borrowed::Nothing => Some(Ok(0)),
        Borrowed::Number(n) => Some(Ok(n)),
        Borrowed::Text(_) => None,
        Borrowed::Input(text) => number_of_input(text),
        Borrowed::Kept(value) => number_if_counts(value),
        Borrowed::Pattern(_) => None,
    }
}

/// Whether it is a text that a comparison never takes as a number, or one from the input that begins past the digits.
#[inline(always)]
fn is_string(value: Borrowed<'_>) -> bool
    ensures { OnTrue result (counts (borrowed_value value.entry) ≡ false) }
{
    match value {
        Borrowed::Text(_) => true,
        Borrowed::Input(text) => begins_past_digits(text),
        Borrowed::Kept(Value::String(_)) => true,
        Borrowed::Kept(Value::Input(text)) => begins_past_digits(text.as_slice()),
        _ => false,
    }
}

/// The bytes of a text that lies there; none of another value.
#[inline(always)]
fn bytes_lying<'a>(value: Borrowed<'a>) -> Option<&'a [u8]>
    ensures { IfSome result (λ text. text.now ≡ text_of (borrowed_value value.entry)) }
{
    match value {
        Borrowed::Text(text) => Some(text),
        Borrowed::Input(text) => Some(text),
        Borrowed::Kept(Value::String(text)) => Some(text.as_slice()),
        Borrowed::Kept(Value::Input(text)) => Some(text.as_slice()),
        _ => None,
    }
}

/// Whether a comparison of two texts holds, byte by byte. That they are the same is told without their order.
#[inline(always)]
fn compare_bytes(comparison: Comparison, left: &[u8], right: &[u8]) -> bool
    ensures { result ≡ holds comparison (slice_cmp nat_cmp left.now right.now) }
{
    match comparison {
        Comparison::Equal => left == right,
        Comparison::NotEqual => left != right,
        _ => holds(comparison, left.cmp(&right)),
    }
}

/// Whether a comparison of two texts that lie there holds, of which one is no number by its kind or its first byte; none of others.
#[inline(always)]
fn compare_lying(comparison: Comparison, left: Borrowed<'_>, right: Borrowed<'_>) -> Option<bool>
    ensures { IfSome result (λ is_so. next_ok (order_of (borrowed_value left.entry) (borrowed_value right.entry)) (λ order. Ok (holds comparison order)) ≡ Ok is_so) }
{
    if !is_string(right) && !is_string(left) {
        return None;
    }
    let first = bytes_lying(left)?;
    let second = bytes_lying(right)?;
    Some(compare_bytes(comparison, first, second))
}

/// The order of their texts, byte by byte.
fn text_order(left: Borrowed<'_>, right: Borrowed<'_>) -> Ordering
    ensures { result ≡ slice_cmp nat_cmp (text_of (borrowed_value left.entry)) (text_of (borrowed_value right.entry)) }
{
    let mut left_digits = Buffer::new();
    let mut right_digits = Buffer::new();
    text_borrowed(left, &mut left_digits).cmp(&text_borrowed(right, &mut right_digits))
}

/// How they stand to one another, or the fault of the left number, or else of the right one. Beside a text that is no number no other text is read as one.
fn order(left: Borrowed<'_>, right: Borrowed<'_>) -> Result<Ordering, Fault>
    ensures { result ≡ order_of (borrowed_value left.entry) (borrowed_value right.entry) }
{
    if is_string(right) {
        return Ok(text_order(left, right));
    }
    match number_if_compared(left) {
        None => Ok(text_order(left, right)),
        Some(x) => match number_if_compared(right) {
            None => Ok(text_order(left, right)),
            Some(y) => number_order(x, y),
        },
    }
}

/// Whether a comparison of any two holds, or the fault of the left number, or else of the right one, by a call of its own.
#[inline(never)]
fn compare_any(
    comparison: Comparison,
    left: Borrowed<'_>,
    right: Borrowed<'_>,
) -> Result<bool, Fault>
    ensures { result ≡ next_ok (order_of (borrowed_value left.entry) (borrowed_value right.entry)) (λ order. Ok (holds comparison order)) }
{
    let order = order(left, right)?;
    Ok(holds(comparison, order))
}

/// Whether a comparison of them holds, or the fault of the left number, or else of the right one. It takes no memory.
#[inline(always)]
pub fn compare(
    comparison: Comparison,
    left: Borrowed<'_>,
    right: Borrowed<'_>,
) -> Result<bool, Fault>
    ensures { result ≡ next_ok (order_of (borrowed_value left.entry) (borrowed_value right.entry)) (λ order. Ok (holds comparison order)) }
{
    match compare_lying(comparison, left, right) {
        Some(is_so) => Ok(is_so),
        None => compare_any(comparison, left, right),
    }
}

/// Whether a comparison of two numbers holds.
#[inline(always)]
pub fn compare_numbers(comparison: Comparison, left: i64, right: i64) -> bool
    ensures { result ≡ holds comparison (int_order left right) }
{
    match comparison {
        Comparison::Less => left < right,
        Comparison::LessEqual => left <= right,
        Comparison::Equal => left == right,
        Comparison::NotEqual => left != right,
        Comparison::Greater => left > right,
        Comparison::GreaterEqual => left >= right,
    }
}
