//! How values and places are shown. Each call adds to a text; where memory is refused, it may have added a beginning of what it
//! was to add.

ghost use Rattle.std.specs.Prelude.{◌≡◌, ◌++◌, OnOk};
ghost use Rattle.std.specs.Option.{option_copied};
ghost use Rattle.rawk_value.specs.Values.{decimal};
ghost use Rattle.rawk_commands.specs.Texts as spec;

use crate::command::Place;
use itoa::Buffer;
use rawk_value::Value;
use std::alloc::AllocError;

/// Adds bytes as they are.
pub fn push_text(out: &mut Vec<u8>, text: &[u8]) -> Result<(), AllocError>
    ensures { OnOk result (out.new.items ≡ out.old.items ++ text.now) }
{
    out.extend_from_slice(text)
}

/// Adds the decimal digits of a number. One that may be below 0 is `rawk_value::push_number`'s.
#[tactic(auto, using(crate::proofs::Decimals::decimal_is))]
pub fn push_number(out: &mut Vec<u8>, n: u64) -> Result<(), AllocError>
    ensures { OnOk result (out.new.items ≡ out.old.items ++ decimal n) }
{
    let mut buffer = Buffer::new();
    out.extend_from_slice(buffer.format(n).as_bytes())
}

/// Adds a byte of a text as it is shown.
fn push_byte(out: &mut Vec<u8>, b: u8) -> Result<(), AllocError>
    ensures { OnOk result (out.new.items ≡ out.old.items ++ spec.shown_byte b) }
{
    match b {
        b'"' | b'\\' => out.extend_from_slice(&[b'\\', b]),
        b'\n' => out.extend_from_slice(b"\\n"),
        b'\t' => out.extend_from_slice(b"\\t"),
        b' '..=b'~' => out.extend_from_slice(&[b]),
        _ => out.extend_from_slice(&[b'\\', b'0' + b / 64, b'0' + b / 8 % 8, b'0' + b % 8]),
    }
}

/// Adds a text as it is shown: between quotes, on one line, in bytes that can be read.
pub fn push_shown(out: &mut Vec<u8>, text: &[u8]) -> Result<(), AllocError>
    ensures { OnOk result (out.new.items ≡ out.old.items ++ spec.shown_text text.now) }
{
    out.push(b'"')?;
    for b in text {
        push_byte(out, *b)?;
    }
    out.push(b'"')?;
    Ok(())
}

/// Adds a value as it is shown.
pub fn push_value(out: &mut Vec<u8>, value: &Value) -> Result<(), AllocError>
    ensures { OnOk result (out.new.items ≡ out.old.items ++ spec.shown_value value.now) }
{
    match value {
        Value::Uninitialized => push_text(out, b"uninitialized"),
        Value::Number(n) => rawk_value::push_number(out, *n),
        Value::String(text) => push_shown(out, text.as_slice()),
        Value::Input(text) => push_shown(out, text.as_slice()),
    }
}

/// Adds what an array has at a key, if it has anything there.
pub fn push_held(out: &mut Vec<u8>, value: Option<&Value>) -> Result<(), AllocError>
    ensures { OnOk result (out.new.items ≡ out.old.items ++ spec.shown_held (option_copied value.entry)) }
{
    match value {
        None => push_text(out, b"not in array"),
        Some(value) => push_value(out, value),
    }
}

/// Adds the name of an array's element: `NAME[KEY]`.
pub fn push_element(out: &mut Vec<u8>, name: &[u8], key: &[u8]) -> Result<(), AllocError>
    ensures { OnOk result (out.new.items ≡ out.old.items ++ spec.shown_element name.now key.now) }
{
    push_text(out, name)?;
    push_text(out, b"[")?;
    push_shown(out, key)?;
    push_text(out, b"]")
}

/// Adds a place as it is shown.
pub fn push_place(out: &mut Vec<u8>, place: &Place) -> Result<(), AllocError>
    ensures { OnOk result (out.new.items ≡ out.old.items ++ spec.shown_place place.now) }
{
    match place {
        Place::Name(name) => push_text(out, name.as_slice()),
        Place::Element(name, key) => push_element(out, name.as_slice(), key.as_slice()),
        Place::Field(number) => {
            push_text(out, b"$")?;
            push_number(out, *number as u64)
        }
    }
}
