//! Values: arithmetic, conversions, comparisons, and `printf`.
//!
//! `value`, a value, an operator of arithmetic or of comparison, and a value; `value`, then `number`, `int`, `truth` or `text`, and a
//! value; `printf`, a format, and values. The answer is a text, or that of a fault.

use crate::fields::fault_text;
use crate::not_a_case;
use rawk_format::format;
use rawk_value::{
    Arithmetic, Comparison, Fault, Value, combine, compare, int_of, number_of, push_number,
    text_of, truth_of,
};
use std::alloc::{AllocError, Global};

/// What a case of values answers.
pub fn answered(alloc: Global, parts: &[&[u8]]) -> Result<Vec<u8>, AllocError> {
    let found = match parts {
        [conversion, value] => converted(alloc, conversion, value),
        [left, operator, right] => operated(alloc, operator, &[left, right]),
        _ => return not_a_case(alloc),
    };
    found.or_else(|fault| fault_text(alloc, fault))
}

/// What `printf` writes.
pub fn printed(alloc: Global, parts: &[&[u8]]) -> Result<Vec<u8>, AllocError> {
    let Some((form, words)) = parts.split_first() else {
        return not_a_case(alloc);
    };
    let values = values_of(alloc, words)?;
    let found = format(alloc, form, &values);
    drop(values);
    found.or_else(|fault| fault_text(alloc, fault))
}

/// The values that parts are.
fn values_of(alloc: Global, words: &[&[u8]]) -> Result<Vec<Value>, AllocError> {
    let mut values = Vec::new(alloc);
    for word in words {
        values.push(value_of(alloc, word)?)?;
    }
    Ok(values)
}

/// The value that a part is.
pub fn value_of(alloc: Global, part: &[u8]) -> Result<Value, AllocError> {
    Ok(rows_cases::value_of(alloc, part)?.unwrap_or(Value::Uninitialized))
}

/// A number's text.
fn digits(alloc: Global, number: i64) -> Result<Vec<u8>, Fault> {
    let mut out = Vec::new(alloc);
    push_number(&mut out, number)?;
    Ok(out)
}

/// A value as a number, a whole number, a truth value or a text.
fn converted(alloc: Global, conversion: &[u8], part: &[u8]) -> Result<Vec<u8>, Fault> {
    let value = value_of(alloc, part)?;
    let found = conversion_of(alloc, conversion, &value);
    drop(value);
    found
}

/// The conversion that a word names.
fn conversion_of(alloc: Global, word: &[u8], value: &Value) -> Result<Vec<u8>, Fault> {
    match word {
        b"number" => digits(alloc, number_of(value)?),
        b"int" => digits(alloc, int_of(value)?),
        b"truth" => digits(alloc, truth_of(value)? as i64),
        _ => Ok(text_of(alloc, value)?),
    }
}

/// An operator's result on two values.
fn operated(alloc: Global, operator: &[u8], parts: &[&[u8]]) -> Result<Vec<u8>, Fault> {
    let values = values_of(alloc, parts)?;
    let found = match values.as_slice() {
        [left, right] => operation(alloc, operator, left, right),
        _ => Err(Fault::OutOfMemory),
    };
    drop(values);
    found
}

/// The operation that a word names.
fn operation(alloc: Global, word: &[u8], left: &Value, right: &Value) -> Result<Vec<u8>, Fault> {
    if let Some(operator) = arithmetic(word) {
        let result = combine(operator, number_of(left)?, number_of(right)?)?;
        return digits(alloc, result);
    }
    match comparison(word) {
        Some(operator) => digits(alloc, compare(operator, left, right)? as i64),
        None => Ok(not_a_case(alloc)?),
    }
}

/// An operator of arithmetic.
fn arithmetic(word: &[u8]) -> Option<Arithmetic> {
    match word {
        b"+" => Some(Arithmetic::Add),
        b"-" => Some(Arithmetic::Sub),
        b"*" => Some(Arithmetic::Mul),
        b"/" => Some(Arithmetic::Div),
        b"%" => Some(Arithmetic::Rem),
        b"^" => Some(Arithmetic::Pow),
        _ => None,
    }
}

/// An operator of comparison.
fn comparison(word: &[u8]) -> Option<Comparison> {
    match word {
        b"<" => Some(Comparison::Less),
        b"<=" => Some(Comparison::LessEqual),
        b"==" => Some(Comparison::Equal),
        b"!=" => Some(Comparison::NotEqual),
        b">" => Some(Comparison::Greater),
        b">=" => Some(Comparison::GreaterEqual),
        _ => None,
    }
}
