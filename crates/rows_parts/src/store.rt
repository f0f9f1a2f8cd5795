//! `store` and changes: the globals, the operands from the newest on, the output in brackets, and the place in the code. A change
//! is `global VALUE` for one more, `global N=VALUE`, `append N=VALUE` for its text behind that of a global, `operand VALUE`, `text TEXT`, `value VALUE` or `number N` for more output, or
//! `place N`; `apply` or `there and back` before `global N=VALUE`, `text TEXT`, `operand VALUE`, `newest VALUE`, `oldest N=VALUE`, `drop N`, `keep N`
//! or `clear operands` makes a change of that part as a step of its own, which the second takes back. `step` ends the step, and `back` ends it and takes it back; `undo` takes back what it did so far.

use crate::stepped::{self, as_step};
use crate::values::value_of;
use rawk_slots::StackChange;
use rawk_slots::slots::Write;
use rawk_store::{Phase, Registers, Store};
use rawk_value::{Value, text_of};
use rows_cases::{number_of, push_value};
use std::alloc::{AllocError, Global};

/// The registers of a program that begins.
fn at_begin() -> Registers {
    Registers {
        place: 0,
        phase: Phase::InBegin,
        status: 0,
        here: 0,
        site: None,
        consumed: 0,
        ending: None,
    }
}

/// The store after changes.
pub fn changed(alloc: Global, changes: &[&[u8]]) -> Result<Vec<u8>, AllocError> {
    let mut store = Store::new(alloc, 0, at_begin());
    let text = text_after(alloc, &mut store, changes);
    drop(store);
    text
}

/// Makes the changes, and shows what came of them.
fn text_after(alloc: Global, store: &mut Store, changes: &[&[u8]]) -> Result<Vec<u8>, AllocError> {
    for change in changes {
        make(alloc, store, change)?;
    }
    shown(alloc, store)
}

/// Makes one change.
fn make(alloc: Global, store: &mut Store, change: &[u8]) -> Result<(), AllocError> {
    if let Some((change, back)) = as_step(change) {
        let (word, rest) = halves(change, b' ').unwrap_or((change, b""));
        return apply(alloc, store, word, rest, back);
    }
    match halves(change, b' ') {
        Some((word, rest)) => put(alloc, store, word, rest),
        None => end(alloc, store, change),
    }
}

/// What stands before the first of these bytes, and what stands behind it.
fn halves(part: &[u8], between: u8) -> Option<(&[u8], &[u8])> {
    let at = part.iter().position(|b| *b == between)?;
    Some((&part[..at], &part[at + 1..]))
}

/// Changes a part of the store as a step of its own.
fn apply(
    alloc: Global,
    store: &mut Store,
    word: &[u8],
    rest: &[u8],
    back: bool,
) -> Result<(), AllocError> {
    match word {
        b"global" => {
            let (place, value) = numbered(alloc, rest)?;
            stepped::make(alloc, &mut store.globals, Write { place, value }, back)
        }
        b"text" => stepped::make(
            alloc,
            &mut store.output,
            Vec::from_slice(alloc, rest)?,
            back,
        ),
        _ => {
            let change = operands_change(alloc, word, rest)?;
            stepped::make(alloc, &mut store.operands, change, back)
        }
    }
}

/// The number before a `=`, and the value behind it.
fn numbered(alloc: Global, part: &[u8]) -> Result<(usize, Value), AllocError> {
    let (number, value) = halves(part, b'=').unwrap_or((part, b"u"));
    Ok((number_of(number).unwrap_or(0), value_of(alloc, value)?))
}

/// The change of the operands that a word is, with what stands behind it.
fn operands_change(
    alloc: Global,
    word: &[u8],
    rest: &[u8],
) -> Result<StackChange<Value>, AllocError> {
    Ok(match word {
        b"operand" => StackChange::Push(value_of(alloc, rest)?),
        b"newest" => StackChange::SetNewest(value_of(alloc, rest)?),
        b"oldest" => {
            let (number, value) = numbered(alloc, rest)?;
            StackChange::SetOldest { number, value }
        }
        b"drop" => StackChange::DropNewest(number_of(rest).unwrap_or(0)),
        b"keep" => StackChange::KeepOldest(number_of(rest).unwrap_or(0)),
        _ => StackChange::Clear,
    })
}

/// Ends the step in the parts that are shown, and takes it back.
fn go_back(alloc: Global, store: &mut Store) -> Result<(), AllocError> {
    let mut globals = store.globals.finish(alloc)?;
    store.globals.undo(&mut globals);
    let mut operands = store.operands.finish(alloc);
    store.operands.undo(&mut operands);
    let output = store.output.finish();
    store.output.undo(output);
    let mut registers = store.registers.finish();
    store.registers.undo(&mut registers);
    Ok(())
}

/// Takes the step in progress back in the parts that are shown.
fn undo(store: &mut Store) {
    store.globals.undo_step();
    store.operands.undo_step();
    store.output.undo_step();
    store.registers.undo_step();
}

/// Ends the step, or takes it back.
fn end(alloc: Global, store: &mut Store, word: &[u8]) -> Result<(), AllocError> {
    match word {
        b"back" => return go_back(alloc, store),
        b"undo" => undo(store),
        _ => store.forget(),
    }
    Ok(())
}

/// Changes a part of the store.
fn put(alloc: Global, store: &mut Store, word: &[u8], rest: &[u8]) -> Result<(), AllocError> {
    match word {
        b"global" => put_global(alloc, store, rest),
        b"append" => append(alloc, store, rest),
        b"operand" => store.operands.push::<true>(value_of(alloc, rest)?),
        b"text" => store.output.push(rest),
        b"value" => put_value(alloc, store, rest),
        b"number" => store.output.push_number(number_in(rest)),
        _ => {
            store.registers.now.place = number_of(rest).unwrap_or(0);
            Ok(())
        }
    }
}

/// Adds a global, or sets one.
fn put_global(alloc: Global, store: &mut Store, global: &[u8]) -> Result<(), AllocError> {
    match global {
        [_, b'=', ..] => {
            let (number, value) = numbered(alloc, global)?;
            store.globals.set::<true>(number, value)
        }
        value => store.globals.add(value_of(alloc, value)?),
    }
}

/// Adds a value's text to that of a global.
fn append(alloc: Global, store: &mut Store, global: &[u8]) -> Result<(), AllocError> {
    let (number, value) = numbered(alloc, global)?;
    let text = text_of(alloc, &value)?;
    drop(value);
    store.globals.append::<true>(alloc, number, &text)
}

/// Adds a value to the output.
fn put_value(alloc: Global, store: &mut Store, value: &[u8]) -> Result<(), AllocError> {
    let value = value_of(alloc, value)?;
    let pushed = store.output.push_value(&value);
    drop(value);
    pushed
}

/// The number that a part is, from 0.
fn number_in(part: &[u8]) -> i64 {
    let number = number_of(part).unwrap_or(0);
    i64::try_from(number).unwrap_or(0)
}

/// Adds a blank and a value.
fn push_behind_blank(out: &mut Vec<u8>, value: Option<&Value>) -> Result<(), AllocError> {
    match value {
        Some(value) => {
            out.push(b' ')?;
            push_value(out, value)
        }
        None => Ok(()),
    }
}

/// The parts of a store.
fn shown(alloc: Global, store: &Store) -> Result<Vec<u8>, AllocError> {
    let mut out = Vec::new(alloc);
    out.extend_from_slice(b"globals")?;
    for number in 0..store.globals.len() {
        push_behind_blank(&mut out, store.globals.value(number))?;
    }
    out.extend_from_slice(b", operands")?;
    for number in 0..store.operands.len() {
        push_behind_blank(&mut out, store.operands.newest(number))?;
    }
    out.extend_from_slice(b", output [")?;
    out.extend_from_slice(store.output.bytes())?;
    let place = store.registers.now.place;
    out.extend_from_slice(format!(in alloc; "], place {place}")?.as_bytes())?;
    Ok(out)
}
