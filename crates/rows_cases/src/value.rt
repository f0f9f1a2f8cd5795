//! Values as cases write them.

use rawk_value::{Bytes, Value, push_number};
use std::alloc::{AllocError, Global};

/// The value that a part is: `u` uninitialised, `"text"` a string, `<text>` an input text, and otherwise a number.
pub fn value_of(alloc: Global, part: &[u8]) -> Result<Option<Value>, AllocError> {
    let value = match part {
        b"u" => Value::Uninitialized,
        [b'"', text @ .., b'"'] => Value::String(Bytes::from_slice(alloc, text)?),
        [b'<', text @ .., b'>'] => Value::Input(Bytes::from_slice(alloc, text)?),
        _ => match number_in(part) {
            Some(number) => Value::Number(number),
            None => return Ok(None),
        },
    };
    Ok(Some(value))
}

/// The number that a part is, if it is one.
fn number_in(part: &[u8]) -> Option<i64> {
    match str::from_utf8(part) {
        Ok(text) => text.parse().ok(),
        Err(_) => None,
    }
}

/// Adds a value as a case writes it.
pub fn push_value(out: &mut Vec<u8>, value: &Value) -> Result<(), AllocError> {
    match value {
        Value::Uninitialized => out.push(b'u')?,
        Value::Number(number) => push_number(out, *number)?,
        Value::String(text) => push_between(out, b'"', text.as_slice(), b'"')?,
        Value::Input(text) => push_between(out, b'<', text.as_slice(), b'>')?,
    }
    Ok(())
}

/// Adds a text between two bytes.
fn push_between(out: &mut Vec<u8>, before: u8, text: &[u8], behind: u8) -> Result<(), AllocError> {
    out.push(before)?;
    out.extend_from_slice(text)?;
    out.push(behind)?;
    Ok(())
}
