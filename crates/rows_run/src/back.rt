//! Machines there and back: `@back`, a program, its input and what else a machine begins with. The answer is `alike` where a machine, gone to its
//! ending, back to point 0 and forward again, shows at each point what it showed there before, and the source was not asked again.
//!
//! It shows its point, site and ending, the status, the output, the record with its fields, all globals, which ranges are on, all elements of all arrays, the activations
//! with their calling points, the locals of the innermost, and how many old values it keeps.

use crate::kept::STEPS;
use rawk_devices::BytesSource;
use rawk_machine::{Full, Machine, Step};
use rawk_store::{FieldRef, Local};
use rawk_value::{Bytes, push_number};
use rawk_words::Array;
use rows_cases::push_value;
use std::alloc::{AllocError, Global};

/// Whether a machine shows the same on each way.
pub fn compare(
    alloc: Global,
    machine: &mut Machine<BytesSource, Full>,
    text: &mut String,
) -> Result<(), AllocError> {
    let mut seen = Vec::new(alloc);
    seen.push(shown(alloc, machine)?)?;
    for _ in 0..STEPS {
        if machine.step() != Step::At {
            break;
        }
        machine.advance(alloc)?;
        seen.push(shown(alloc, machine)?)?;
    }
    if machine.step() == Step::At {
        return text.push_str("no ending");
    }
    let held = machine.held();
    let is_alike = goes_back(alloc, machine, &seen)?
        && goes_forth(alloc, machine, &seen)?
        && machine.held() == held;
    text.push_str(if is_alike { "alike" } else { "different" })
}

/// Whether the way back shows the same, from the ending to point 0, and ends there.
fn goes_back(
    alloc: Global,
    machine: &mut Machine<BytesSource, Full>,
    seen: &[Vec<u8>],
) -> Result<bool, AllocError> {
    for behind in 1..seen.len() {
        if !machine.retreat() || !is_at(alloc, machine, seen, seen.len() - 1 - behind)? {
            return Ok(false);
        }
    }
    Ok(!machine.retreat())
}

/// Whether the way forward again shows the same, from point 0 to the ending.
fn goes_forth(
    alloc: Global,
    machine: &mut Machine<BytesSource, Full>,
    seen: &[Vec<u8>],
) -> Result<bool, AllocError> {
    for at in 1..seen.len() {
        machine.advance(alloc)?;
        if !is_at(alloc, machine, seen, at)? {
            return Ok(false);
        }
    }
    Ok(machine.step() != Step::At)
}

/// Whether a machine shows what it showed at a point.
fn is_at(
    alloc: Global,
    machine: &Machine<BytesSource, Full>,
    seen: &[Vec<u8>],
    point: usize,
) -> Result<bool, AllocError> {
    match seen.get(point) {
        None => Ok(false),
        Some(before) => Ok(shown(alloc, machine)?.as_slice() == before.as_slice()),
    }
}

/// All that a machine shows where it stands.
fn shown(alloc: Global, machine: &Machine<BytesSource, Full>) -> Result<Vec<u8>, AllocError> {
    let mut out = Vec::new(alloc);
    push_machine(alloc, &mut out, machine)?;
    Ok(out)
}

fn push_machine(
    alloc: Global,
    out: &mut Vec<u8>,
    machine: &Machine<BytesSource, Full>,
) -> Result<(), AllocError> {
    push_counts(alloc, out, machine)?;
    push_site(alloc, out, machine.site())?;
    push_step(out, machine.step())?;
    out.extend_from_slice(machine.output())?;
    out.push(b'\n')?;
    push_record(out, machine)?;
    push_globals(out, machine)?;
    push_ranges(out, machine)?;
    push_arrays(alloc, out, machine)?;
    push_activations(alloc, out, machine)?;
    push_locals(alloc, out, machine)
}

fn push_counts(
    alloc: Global,
    out: &mut Vec<u8>,
    machine: &Machine<BytesSource, Full>,
) -> Result<(), AllocError> {
    let point = machine.point();
    let kept = machine.kept();
    let depth = machine.depth();
    let status = machine.status();
    let arrays = machine.array_count();
    let line = format!(in alloc; "{point} {kept} {depth} {status} {arrays}\n")?;
    out.extend_from_slice(line.as_bytes())
}

fn push_site(alloc: Global, out: &mut Vec<u8>, site: Option<usize>) -> Result<(), AllocError> {
    if let Some(site) = site {
        out.extend_from_slice(format!(in alloc; "{site}")?.as_bytes())?;
    }
    out.push(b'\n')?;
    Ok(())
}

fn push_step(out: &mut Vec<u8>, step: Step) -> Result<(), AllocError> {
    match step {
        Step::At => {}
        Step::Ended(status) => push_number(out, i64::from(status))?,
        Step::Faulted(fault) => out.extend_from_slice(fault.text().as_bytes())?,
    }
    out.push(b'\n')?;
    Ok(())
}

fn push_record(out: &mut Vec<u8>, machine: &Machine<BytesSource, Full>) -> Result<(), AllocError> {
    out.extend_from_slice(machine.text())?;
    let count = machine.field_count();
    for before in 0..count {
        out.push(b'|')?;
        match machine.field(before + 1) {
            Some(FieldRef::Piece(text)) => out.extend_from_slice(text)?,
            Some(FieldRef::Kept(value)) => push_value(out, value)?,
            None => {}
        }
    }
    out.push(b'\n')?;
    Ok(())
}

/// All globals.
fn push_globals(out: &mut Vec<u8>, machine: &Machine<BytesSource, Full>) -> Result<(), AllocError> {
    for number in 0..usize::MAX {
        let Some(value) = machine.global(number) else {
            break;
        };
        push_value(out, value)?;
        out.push(b'|')?;
    }
    out.push(b'\n')?;
    Ok(())
}

/// Which ranges are on.
fn push_ranges(out: &mut Vec<u8>, machine: &Machine<BytesSource, Full>) -> Result<(), AllocError> {
    for number in 0..usize::MAX {
        let Some(on) = machine.range(number) else {
            break;
        };
        out.push(if *on { b'+' } else { b'-' })?;
    }
    Ok(())
}

/// How many elements each array has, those of activations too, and all of them.
fn push_arrays(
    alloc: Global,
    out: &mut Vec<u8>,
    machine: &Machine<BytesSource, Full>,
) -> Result<(), AllocError> {
    for array in 0..machine.array_count() {
        let count = machine.element_count(array);
        out.extend_from_slice(format!(in alloc; "{count}|")?.as_bytes())?;
        let keys = machine.keys_named(alloc, Array::Global(array))?;
        let pushed = push_elements(out, machine, array, &keys);
        drop(keys);
        pushed?;
    }
    out.push(b'\n')?;
    Ok(())
}

/// The elements of an array under these keys.
fn push_elements(
    out: &mut Vec<u8>,
    machine: &Machine<BytesSource, Full>,
    array: usize,
    keys: &[Bytes],
) -> Result<(), AllocError> {
    for key in keys {
        out.extend_from_slice(key.as_slice())?;
        out.push(b'=')?;
        if let Some(value) = machine.element(array, key.as_slice()) {
            push_value(out, value)?;
        }
        out.push(b'|')?;
    }
    Ok(())
}

/// The activations, with their calling points.
fn push_activations(
    alloc: Global,
    out: &mut Vec<u8>,
    machine: &Machine<BytesSource, Full>,
) -> Result<(), AllocError> {
    for number in 0..machine.depth() {
        if let Some(activation) = machine.frame(number) {
            let function = activation.function;
            let called_at = activation.called_at;
            let line = format!(in alloc; "{function} {called_at} ")?;
            out.extend_from_slice(line.as_bytes())?;
            push_site(alloc, out, activation.site)?;
        }
    }
    Ok(())
}

/// All locals of the innermost activation; of an array its number.
fn push_locals(
    alloc: Global,
    out: &mut Vec<u8>,
    machine: &Machine<BytesSource, Full>,
) -> Result<(), AllocError> {
    for number in 0..usize::MAX {
        match machine.local(number) {
            Some(Local::Holds(value)) => push_value(out, value)?,
            Some(Local::Names(array)) => {
                out.extend_from_slice(format!(in alloc; "a{array}")?.as_bytes())?
            }
            None => break,
        }
        out.push(b'|')?;
    }
    Ok(())
}
