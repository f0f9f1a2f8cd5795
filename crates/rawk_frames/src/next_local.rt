//! One more local, written into the slot behind the locals without memory.

ghost use Rattle.std.specs.Prelude.{◌≡◌, ◌<◌, ◌∷◌, drop, length};
ghost use Rattle.std.specs.Bool.{OnFalse, OnTrue};
ghost use Rattle.rawk_slots.specs.Stacked.{live_values};

use crate::frames::Local;
use rawk_slots::Stack;
use rawk_value::Value;
use std::mem;

/// Adds a value to the locals, where it is a number or none, and so is what stands in the slot behind them, and answers whether that was done; else the locals are as they were.
#[inline(always)]
pub(crate) fn add_light_to(locals: &mut Stack<Local>, value: &Value) -> bool
    ensures done { OnTrue result (live_values locals.new.now ≡ Local.Holds value.now ∷ live_values locals.old.now) }
    ensures other { OnFalse result (live_values locals.new.now ≡ live_values locals.old.now) }
{
    if !locals.has_next() {
        return false;
    }
    if write_next(locals, value) {
        return true;
    }
    locals.drop_newest(1);
    false
}

/// Adds what stands in the slot behind the locals, and writes a value there, as `put_light` does; whether that was done.
#[inline(always)]
fn write_next(locals: &mut Stack<Local>, value: &Value) -> bool
    requires { locals.old.now.live < length locals.old.now.slots }
    ensures done { OnTrue result (live_values locals.new.now ≡ Local.Holds value.now ∷ live_values locals.old.now) }
    ensures other { drop 1 (live_values locals.new.now) ≡ live_values locals.old.now }
{
    match locals.lend_next() {
        Local::Holds(held) => put_light(held, value),
        Local::Names(_) => false,
    }
}

/// Writes a number or no value over a number or no value, and answers whether that was done.
#[inline(always)]
fn put_light(held: &mut Value, value: &Value) -> bool
    ensures { OnTrue result (held.new ≡ value.now) }
{
    match value {
        Value::Number(n) => put_number(held, *n),
        Value::Uninitialized => put_none(held),
        _ => false,
    }
}

/// Writes a number over a number or no value, and answers whether that was done.
#[inline(always)]
fn put_number(held: &mut Value, n: i64) -> bool
    ensures { OnTrue result (held.new ≡ Value.Number n) }
{
    match held {
        Value::Number(_) | Value::Uninitialized => {
            *held = Value::Number(n);
            true
        }
        _ => false,
    }
}

/// Takes a number away, if there is one, and answers whether no value is there then.
#[inline(always)]
fn put_none(held: &mut Value) -> bool
    ensures { OnTrue result (held.new ≡ Value.Uninitialized) }
{
    match held {
        Value::Number(_) | Value::Uninitialized => {
            *held = Value::Uninitialized;
            true
        }
        _ => false,
    }
}

/// Adds a value to the locals, where the slot behind them holds a value, which is left in its place, and answers whether that was done; else nothing has changed.
#[inline(always)]
pub(crate) fn add_moved_to(locals: &mut Stack<Local>, value: &mut Value) -> bool
    ensures done { OnTrue result (live_values locals.new.now ≡ Local.Holds value.old ∷ live_values locals.old.now) }
    ensures other { OnFalse result (live_values locals.new.now ≡ live_values locals.old.now) }
    ensures same { OnFalse result (value.new ≡ value.old) }
{
    if !locals.has_next() {
        return false;
    }
    if move_next(locals, value) {
        return true;
    }
    locals.drop_newest(1);
    false
}

/// Adds what stands in the slot behind the locals, and puts a value there, if there is one to be left in its place; whether that was done.
#[inline(always)]
fn move_next(locals: &mut Stack<Local>, value: &mut Value) -> bool
    requires { locals.old.now.live < length locals.old.now.slots }
    ensures done { OnTrue result (live_values locals.new.now ≡ Local.Holds value.old ∷ live_values locals.old.now) }
    ensures other { drop 1 (live_values locals.new.now) ≡ live_values locals.old.now }
    ensures same { OnFalse result (value.new ≡ value.old) }
{
    match locals.lend_next() {
        Local::Holds(held) => {
            mem::swap(held, value);
            true
        }
        Local::Names(_) => false,
    }
}
