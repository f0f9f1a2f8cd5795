//! Comparison of values.

ghost use Rattle.std.specs.Prelude.{◌≡◌, Some, None, Ok, if◌then◌else◌};
ghost use Rattle.std.specs.Cmp.Lexicographic.{slice_cmp};
ghost use Rattle.std.specs.Ordering.{nat_cmp};
ghost use Rattle.rawk_value.specs.Values.{order_of, holds, next_ok, counts, number_of, text_of, int_text, int_order, front, front_number, is_numeric};

use crate::fault::Fault;
use crate::operator::Comparison;
use crate::scan::scanned;
use crate::value::Value;
use itoa::Buffer;
use std::cmp::Ordering;

/// How two values stand to one another (POSIX awk, Expressions in awk, and the gawk manual's table of comparisons): by their
/// numbers where both are numbers, numeric strings or uninitialized, and otherwise by the bytes of their texts.
/// A numeric string that is no number of 64 bits is then a fault, the left one's first. It takes no memory.
pub fn order_of(left: &Value, right: &Value) -> Result<Ordering, Fault>
    ensures { result ≡ order_of left.now right.now }
{
    match number_if_counts(left) {
        None => Ok(text_order(left, right)),
        Some(x) => match number_if_counts(right) {
            None => Ok(text_order(left, right)),
            Some(y) => number_order(x, y),
        },
    }
}

/// Whether a comparison of two values holds, with the faults of `order_of`. It takes no memory.
pub fn compare(comparison: Comparison, left: &Value, right: &Value) -> Result<bool, Fault>
    ensures { result ≡ next_ok (order_of left.now right.now) (λ order. Ok (holds comparison order)) }
{
    let order = order_of(left, right)?;
    Ok(holds(comparison, order))
}

/// Whether a comparison holds of two things that stand so to one another.
#[inline]
pub fn holds(comparison: Comparison, order: Ordering) -> bool
    ensures { result ≡ holds comparison order }
{
    match comparison {
        Comparison::Less => order.is_lt(),
        Comparison::LessEqual => order.is_le(),
        Comparison::Equal => order.is_eq(),
        Comparison::NotEqual => order.is_ne(),
        Comparison::Greater => order.is_gt(),
        Comparison::GreaterEqual => order.is_ge(),
    }
}

/// The number of a value that a comparison takes as a number.
#[inline]
pub fn number_if_counts(value: &Value) -> Option<Result<i64, Fault>>
    ensures { result ≡ (if counts value.now then Some (number_of value.now) else None) }
{
    match value {
        Value::Uninitialized => Some(Ok(0)),
        Value::Number(n) => Some(Ok(*n)),
        Value::String(_) => None,
        Value::Input(text) => number_if_numeric(text.as_slice()),
    }
}

/// The number of a numeric string; another text has none here.
#[inline]
pub fn number_if_numeric(text: &[u8]) -> Option<Result<i64, Fault>>
    ensures { result ≡ (if is_numeric text.now then Some (front_number (front text.now)) else None) }
{
    let scan = scanned(text);
    if scan.is_numeric() {
        Some(scan.number())
    } else {
        None
    }
}

/// How two numbers stand to one another, or the fault of the left one, or else of the right one.
pub fn number_order(left: Result<i64, Fault>, right: Result<i64, Fault>) -> Result<Ordering, Fault>
    ensures { result ≡ next_ok left (λ x. next_ok right (λ y. Ok (int_order x y))) }
{
    let x = left?;
    let y = right?;
    Ok(int_order(x, y))
}

fn int_order(x: i64, y: i64) -> Ordering
    ensures { result ≡ int_order x y }
{
    if x < y {
        Ordering::Less
    } else if y < x {
        Ordering::Greater
    } else {
        Ordering::Equal
    }
}

// The order of the texts, byte by byte.
fn text_order(left: &Value, right: &Value) -> Ordering
    ensures { result ≡ slice_cmp nat_cmp (text_of left.now) (text_of right.now) }
{
    let mut left_digits = Buffer::new();
    let mut right_digits = Buffer::new();
    text_in(left, &mut left_digits).cmp(&text_in(right, &mut right_digits))
}

/// The bytes of a value's text, which for a number stand in the buffer.
pub fn text_in<'a>(value: &'a Value, digits: &'a mut Buffer) -> &'a [u8]
    ensures { result.now ≡ text_of value.now }
{
    match value {
        Value::Uninitialized => &[],
        Value::Number(n) => digits_in(*n, digits),
        Value::String(text) => text.as_slice(),
        Value::Input(text) => text.as_slice(),
    }
}

/// The decimal digits of a number, with `-` before them where it is negative; they stand in the buffer.
#[inline]
pub fn digits_in(n: i64, digits: &mut Buffer) -> &[u8]
    ensures { result.now ≡ int_text n }
{
    digits.format(n).as_bytes()
}
