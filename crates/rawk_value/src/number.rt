//! The numbers and the truth of values.

ghost use Rattle.std.specs.Prelude.{◌≡◌, not};
ghost use Rattle.rawk_value.specs.Values.{front, front_number, number_of, int_of, int_front, truth_of, input_truth, next_ok, is_zero};

use crate::fault::Fault;
use crate::scan::scanned;
use crate::value::Value;

/// The number of a text: that of its numeric front, and 0 where it has none (POSIX awk, Expressions in awk).
/// It is `Fraction` where the front is a fraction or has an exponent, and `Overflow` where it does not fit 64 bits.
/// It takes no memory and one pass.
#[inline]
pub fn input_number(text: &[u8]) -> Result<i64, Fault>
    ensures { result ≡ front_number (front text.now) }
{
    scanned(text).number()
}

/// The number of a value, where one is needed (POSIX awk, Expressions in awk): an uninitialized value is 0, and a text has
/// the number of its front, with the faults of `input_number`. It takes no memory.
#[inline(always)]
pub fn number_of(value: &Value) -> Result<i64, Fault>
    ensures { result ≡ number_of value.now }
{
    match value {
        Value::Uninitialized => Ok(0),
        Value::Number(n) => Ok(*n),
        Value::String(text) => input_number(text.as_slice()),
        Value::Input(text) => input_number(text.as_slice()),
    }
}

// The number of a text without the digits after its point, as `int_of` takes it.
fn input_whole(text: &[u8]) -> Result<i64, Fault>
    ensures { result ≡ int_front (front text.now) }
{
    scanned(text).whole()
}

/// What `int` gives (POSIX awk, Arithmetic Functions): the number, or of a fraction the digits before its point with its sign.
/// It is `Fraction` where the front has an exponent, and `Overflow` where the number does not fit 64 bits. It takes no memory.
pub fn int_of(value: &Value) -> Result<i64, Fault>
    ensures { result ≡ int_of value.now }
{
    match value {
        Value::Uninitialized => Ok(0),
        Value::Number(n) => Ok(*n),
        Value::String(text) => input_whole(text.as_slice()),
        Value::Input(text) => input_whole(text.as_slice()),
    }
}

/// Whether a value is true (POSIX awk, Expressions in awk): a number or a numeric string that is not 0, or another text that
/// is not empty. A numeric string that is no number of 64 bits is a fault, as in `number_of`. It takes no memory.
pub fn truth_of(value: &Value) -> Result<bool, Fault>
    ensures { result ≡ truth_of value.now }
{
    match value {
        Value::Uninitialized => Ok(false),
        Value::Number(n) => Ok(*n != 0),
        Value::String(text) => Ok(text.as_slice().len() != 0),
        Value::Input(text) => input_truth(text.as_slice()),
    }
}

/// The same of an input text.
pub fn input_truth(text: &[u8]) -> Result<bool, Fault>
    ensures { result ≡ input_truth text.now }
{
    let scan = scanned(text);
    if scan.is_numeric() {
        truth_of_number(scan.number())
    } else {
        Ok(text.len() != 0)
    }
}

// A number is true where it is not 0.
fn truth_of_number(number: Result<i64, Fault>) -> Result<bool, Fault>
    ensures { result ≡ next_ok number (λ n. Ok (not (is_zero n))) }
{
    let n = number?;
    Ok(n != 0)
}
