//! Lines of a session, and how it shows places and values.
//!
//! `command`, a line: the command that it is, its refusal, or nothing. `shows` and `number`, `value`, `held` or `element`, and what is shown.

use crate::not_a_case;
use rawk_commands::{
    Command, Constant, Place, Spot, push_element, push_held, push_number, push_place, push_shown,
    push_value,
};
use rows_cases::{number_of, value_of};
use std::alloc::{AllocError, Global};

/// What a session shows.
pub fn shown(alloc: Global, parts: &[&[u8]]) -> Result<Vec<u8>, AllocError> {
    let mut out = Vec::new(alloc);
    match parts {
        [kind, part] => push_shown_part(alloc, &mut out, kind, part)?,
        [_element, name, key] => push_element(&mut out, name, key)?,
        _ => return not_a_case(alloc),
    }
    Ok(out)
}

/// Adds a number or a value as a session shows it; or what an array has, of `nothing` nothing.
fn push_shown_part(
    alloc: Global,
    out: &mut Vec<u8>,
    kind: &[u8],
    part: &[u8],
) -> Result<(), AllocError> {
    if kind == b"number".as_slice() {
        return push_number(out, number_of(part).unwrap_or(0) as u64);
    }
    let value = value_of(alloc, part)?;
    let pushed = match &value {
        Some(value) if kind == b"value".as_slice() => push_value(out, value),
        value => push_held(out, value.as_ref()),
    };
    drop(value);
    pushed
}

/// What a line asks for.
pub fn command_of(alloc: Global, parts: &[&[u8]]) -> Result<Vec<u8>, AllocError> {
    let [line] = parts else {
        return not_a_case(alloc);
    };
    let mut out = Vec::new(alloc);
    match Command::read(alloc, line) {
        Ok(Some(command)) => {
            let pushed = push_command(alloc, &mut out, &command);
            drop(command);
            pushed?;
        }
        Ok(None) => {}
        Err(refusal) => out.extend_from_slice(refusal.line().trim_end().as_bytes())?,
    }
    Ok(out)
}

/// Adds a command.
fn push_command(alloc: Global, out: &mut Vec<u8>, command: &Command) -> Result<(), AllocError> {
    match command {
        Command::Break(spot) => push_spot(alloc, out, spot),
        Command::Watch(place) => push_with(out, "watch ", place),
        Command::Print(place) => push_with(out, "print ", place),
        Command::Set(place, constant) => push_set(alloc, out, place, constant),
        Command::Delete(number) => push(out, format!(in alloc; "delete {number}")?),
        Command::Unwatch(number) => push(out, format!(in alloc; "unwatch {number}")?),
        Command::Move(way, goal) => push(out, format!(in alloc; "move {way:?} to {goal:?}")?),
        Command::Run => out.extend_from_slice(b"run"),
        Command::ReverseSet => out.extend_from_slice(b"reverse-set"),
        Command::Backtrace => out.extend_from_slice(b"backtrace"),
        Command::Quit => out.extend_from_slice(b"quit"),
    }
}

/// Adds a breakpoint.
fn push_spot(alloc: Global, out: &mut Vec<u8>, spot: &Spot) -> Result<(), AllocError> {
    match spot {
        Spot::Line(line) => push(out, format!(in alloc; "break at line {line}")?),
        Spot::Function(name) => {
            out.extend_from_slice(b"break at function ")?;
            out.extend_from_slice(name.as_slice())
        }
    }
}

/// Adds an assignment to a place.
fn push_set(
    alloc: Global,
    out: &mut Vec<u8>,
    place: &Place,
    constant: &Constant,
) -> Result<(), AllocError> {
    push_with(out, "set ", place)?;
    out.extend_from_slice(b" to ")?;
    match constant {
        Constant::Number(number) => push(out, format!(in alloc; "{number}")?),
        Constant::Text(text) => push_shown(out, text.as_slice()),
    }
}

/// Adds a text.
pub fn push(out: &mut Vec<u8>, text: String) -> Result<(), AllocError> {
    out.extend_from_slice(text.as_bytes())
}

/// Adds a word and a place.
fn push_with(out: &mut Vec<u8>, word: &str, place: &Place) -> Result<(), AllocError> {
    out.extend_from_slice(word.as_bytes())?;
    push_place(out, place)
}
