//! Globals before a step and after it, lent.

ghost use Rattle.std.specs.Prelude.{◌≡◌, ◌<◌, List, Some, length, slice_get};
ghost use Rattle.std.specs.Option.{option_copied, option_map};
ghost use Rattle.rawk_value.specs.declared.value.Value.{Value};
ghost use Rattle.rawk_slots.specs.Back.{back};
ghost use Rattle.rawk_cells.specs.Cells.{lengthened, shortened};
ghost use Rattle.rawk_store.specs.GroupBack.{globals_in, globals_on, grown_in};
ghost use Rattle.rawk_store.specs.Lent.{lent};

use crate::rare_changes::RareChanges;
use rawk_cells::Appended;
use rawk_slots::{Saved, led_to, saved_at};
use rawk_value::Value;

/// A value, lent: whole, or a text in two parts.
#[derive(Clone, Copy)]
pub enum ValueRef<'a> {
    Whole(&'a Value),
    Text(&'a [u8], &'a [u8]),
}

/// At most the first `count` bytes of a text; another value as it is.
fn shorter(value: &Value, count: usize) -> ValueRef<'_>
    ensures { lent result ≡ shortened count value.now }
{
    match value {
        Value::String(text) => {
            let bytes = text.as_slice();
            if count < bytes.len() {
                return ValueRef::Text(&bytes[..count], b"");
            }
            ValueRef::Whole(value)
        }
        Value::Uninitialized => ValueRef::Whole(value),
        Value::Number(_) => ValueRef::Whole(value),
        Value::Input(_) => ValueRef::Whole(value),
    }
}

/// A text with bytes behind it; another value as it is.
fn longer<'a>(value: &'a Value, more: &'a [u8]) -> ValueRef<'a>
    ensures { lent result ≡ lengthened more.now value.now }
{
    match value {
        Value::String(text) => ValueRef::Text(text.as_slice(), more),
        Value::Uninitialized => ValueRef::Whole(value),
        Value::Number(_) => ValueRef::Whole(value),
        Value::Input(_) => ValueRef::Whole(value),
    }
}

/// What came behind a text in a step, if anything did.
fn grown_in(others: Option<&RareChanges>) -> Option<&Appended>
    ensures { option_copied result ≡ option_map (λ a. a.value) (grown_in (option_copied others.entry)) }
{
    match others {
        None => None,
        Some(others) => match &others.grown {
            None => None,
            Some(appended) => Some(appended),
        },
    }
}

/// A global before a step that changed `saved` of the globals and `others`, from its value now, for a number of a global. It takes no memory.
pub fn global_before<'a>(
    saved: &'a [Saved<Value>],
    others: Option<&'a RareChanges>,
    now: Option<&'a Value>,
    number: usize,
) -> Option<ValueRef<'a>>
    ensures { (xs : List Value) → number < length xs → slice_get xs number ≡ option_copied now.entry → slice_get (back (globals_in xs (option_copied others.entry)) saved.now) number ≡ option_map lent result }
{
    if let Some(old) = saved_at(saved, number) {
        return Some(ValueRef::Whole(old));
    }
    let value = now?;
    if let Some(appended) = grown_in(others) {
        if appended.place == number {
            return Some(shorter(value, appended.count));
        }
    }
    Some(ValueRef::Whole(value))
}

/// A global after a step that was put back, which left these newer values of globals and `others`, from its value now, for a number of a global. It takes no memory.
pub fn global_after<'a>(
    newer: &'a [Saved<Value>],
    others: Option<&'a RareChanges>,
    now: Option<&'a Value>,
    number: usize,
) -> Option<ValueRef<'a>>
    ensures { (xs : List Value) → number < length xs → slice_get xs number ≡ option_copied now.entry → slice_get (globals_on xs newer.now (option_copied others.entry)) number ≡ option_map lent result }
{
    let value = led_to(newer, now, number)?;
    if let Some(appended) = grown_in(others) {
        if appended.place == number {
            return Some(longer(value, appended.more.as_slice()));
        }
    }
    Some(ValueRef::Whole(value))
}
