//! The texts of values.

ghost use Rattle.std.specs.Prelude.{◌≡◌, ◌++◌, OnOk, OnErr, IfOk};
ghost use Rattle.rawk_value.specs.Values.{int_text, text_of};

use crate::value::Value;
use itoa::Buffer;
use std::alloc::{AllocError, Global};

/// Adds the text of a number: its decimal digits, after a minus sign where it is below 0 (POSIX awk, Expressions in awk).
/// It fails where memory is refused, and the bytes are then as they were.
#[inline]
pub fn push_number(out: &mut Vec<u8>, n: i64) -> Result<(), AllocError>
    ensures ok { OnOk result (out.new.items ≡ out.old.items ++ int_text n) }
    ensures err { OnErr result (out.new.items ≡ out.old.items) }
{
    let mut buffer = Buffer::new();
    out.extend_from_slice(buffer.format(n).as_bytes())
}

/// Adds the text of a value: nothing for an uninitialized one, a number's digits, a text's bytes (POSIX awk, Expressions in
/// awk). It fails where memory is refused, and the bytes are then as they were.
#[inline]
pub fn push_text(out: &mut Vec<u8>, value: &Value) -> Result<(), AllocError>
    ensures ok { OnOk result (out.new.items ≡ out.old.items ++ text_of value.now) }
    ensures err { OnErr result (out.new.items ≡ out.old.items) }
{
    match value {
        Value::Uninitialized => Ok(()),
        Value::Number(n) => push_number(out, *n),
        Value::String(text) => out.extend_from_slice(text.as_slice()),
        Value::Input(text) => out.extend_from_slice(text.as_slice()),
    }
}

/// The text of a value, as `push_text` adds it. It fails where memory is refused.
pub fn text_of(alloc: Global, value: &Value) -> Result<Vec<u8>, AllocError>
    ensures { IfOk result (λ text. text.items ≡ text_of value.now) }
{
    let mut text = Vec::new(alloc);
    push_text(&mut text, value)?;
    Ok(text)
}
