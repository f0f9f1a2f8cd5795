//! The texts that answers are made of. Each call adds to a text; where memory is refused, it may have added a beginning.

ghost use Rattle.std.specs.Prelude.{◌≡◌, ◌++◌, ◌∷◌, [], drop, OnOk, slice_index_or};
ghost use Rattle.rawk_value.specs.Values.{decimal};
ghost use Rattle.rawk_tree.specs.Sites.{line_at};
ghost use Rattle.rawk_commands.specs.Texts.{shown_held, shown_value};
ghost use Rattle.rawk_store.specs.State.{local_value};
ghost use Rattle.rawk_answers.specs.Activations.{function_at, name_of};
ghost use Rattle.rawk_store.specs.Observed.{seen};
ghost use Rattle.rawk_answers.specs.Watching.{scalar_at};
ghost use Rattle.rawk_answers.specs.Texts.{scalar_text, place_text, entry_text, watch_text, stop_line, spot_text, made_line, newest_line, last_of, at_line, fault_place, site_text, where_text, place_line, line_end, array_line, array_name, array_text, element_lines, lvalue_text, held_at, shown_line, frame_line, backtrace};

use crate::naming::local_names;
use crate::stepper::Stepper;
use crate::stop::{Entry, Lvalue, Scalar, Stop, Watched};
use rawk_commands::{push_element, push_held, push_number, push_shown, push_text, push_value};
use rawk_frames::Local;
use rawk_record::FieldRef;
use rawk_special::{FIELD_COUNT, global_name};
use rawk_store::Ending;
use rawk_tree::Program;
use rawk_value::{Bytes, Fault};
use rawk_words::Array;
use std::alloc::{AllocError, Global};

/// Adds a scalar.
fn push_scalar(out: &mut Vec<u8>, names: &[Bytes], place: Scalar) -> Result<(), AllocError>
    ensures { OnOk result (out.new.items ≡ out.old.items ++ scalar_text names.now place) }
{
    match place {
        Scalar::Global(number) => push_text(out, global_name(names, number)),
        Scalar::FieldCount => push_text(out, FIELD_COUNT),
        Scalar::Field(number) => {
            push_text(out, b"$")?;
            push_number(out, number as u64)
        }
    }
}

/// Adds a place that is watched.
fn push_place(out: &mut Vec<u8>, names: &[Bytes], place: &Watched) -> Result<(), AllocError>
    ensures { OnOk result (out.new.items ≡ out.old.items ++ place_text names.now place.now) }
{
    match place {
        Watched::Scalar(place) => push_scalar(out, names, *place),
        Watched::Element(array, key) => push_element(out, name_at(names, *array), key.as_slice()),
    }
}

/// Adds a breakpoint's or a watch's kind and number.
fn push_entry(out: &mut Vec<u8>, entry: &Entry) -> Result<(), AllocError>
    ensures { OnOk result (out.new.items ≡ out.old.items ++ entry_text entry.now) }
{
    match &entry.stop {
        Stop::Break(_) => {
            push_text(out, b"Breakpoint ")?;
            push_number(out, entry.number)
        }
        Stop::Watch(_) => {
            push_text(out, b"Watchpoint ")?;
            push_number(out, entry.number)
        }
    }
}

/// Adds a watch's place, behind a colon.
fn push_watch(out: &mut Vec<u8>, names: &[Bytes], stop: &Stop) -> Result<(), AllocError>
    ensures { OnOk result (out.new.items ≡ out.old.items ++ watch_text names.now stop.now) }
{
    match stop {
        Stop::Break(_) => Ok(()),
        Stop::Watch(place) => {
            push_text(out, b": ")?;
            push_place(out, names, place)
        }
    }
}

/// Adds the line of a breakpoint or a watch that stops.
pub fn push_stop_line(out: &mut Vec<u8>, names: &[Bytes], entry: &Entry) -> Result<(), AllocError>
    ensures { OnOk result (out.new.items ≡ out.old.items ++ stop_line names.now entry.now) }
{
    push_entry(out, entry)?;
    push_watch(out, names, &entry.stop)?;
    push_text(out, b"\n")
}

/// Adds a breakpoint's line, or a watch's place behind a colon.
fn push_spot(out: &mut Vec<u8>, program: &Program, stop: &Stop) -> Result<(), AllocError>
    ensures { OnOk result (out.new.items ≡ out.old.items ++ spot_text program.now.lines.items program.now.names.items stop.now) }
{
    match stop {
        Stop::Break(site) => {
            push_text(out, b" at line ")?;
            push_number(out, program.line_of_site(Some(*site)))
        }
        Stop::Watch(place) => {
            push_text(out, b": ")?;
            push_place(out, &program.names, place)
        }
    }
}

/// Adds the line of a breakpoint or a watch that was made.
fn push_made(out: &mut Vec<u8>, program: &Program, entry: &Entry) -> Result<(), AllocError>
    ensures { OnOk result (out.new.items ≡ out.old.items ++ made_line program.now.lines.items program.now.names.items entry.now) }
{
    push_entry(out, entry)?;
    push_spot(out, program, &entry.stop)?;
    push_text(out, b"\n")
}

/// Adds the line of the last one that was made, if there is one.
pub fn push_newest(out: &mut Vec<u8>, program: &Program, stops: &[Entry]) -> Result<(), AllocError>
    ensures { OnOk result (out.new.items ≡ out.old.items ++ newest_line program.now.lines.items program.now.names.items (last_of stops.now)) }
{
    match stops.last() {
        Some(entry) => push_made(out, program, entry),
        None => Ok(()),
    }
}

/// Adds the line of a breakpoint or a watch that was removed: what it was, and its number.
pub fn push_deleted(out: &mut Vec<u8>, what: &[u8], number: u64) -> Result<(), AllocError>
    ensures { OnOk result (out.new.items ≡ out.old.items ++ (what.now ++ decimal number ++ 10 ∷ [])) }
{
    push_text(out, what)?;
    push_number(out, number)?;
    push_text(out, b"\n")
}

/// Adds the line of a fault, where there is one.
fn push_at_line(out: &mut Vec<u8>, line: u64) -> Result<(), AllocError>
    ensures { OnOk result (out.new.items ≡ out.old.items ++ at_line line) }
{
    if line == 0 {
        return Ok(());
    }
    push_text(out, b" at line ")?;
    push_number(out, line)
}

/// Adds a fault with its line.
fn push_fault(out: &mut Vec<u8>, fault: Fault, line: u64) -> Result<(), AllocError>
    ensures { OnOk result (out.new.items ≡ out.old.items ++ fault_place fault line) }
{
    push_text(out, b"fault F")?;
    push_number(out, fault.number() as u64)?;
    push_at_line(out, line)?;
    push_text(out, b": ")?;
    push_text(out, fault.text().as_bytes())
}

/// Adds where a point is.
fn push_site(out: &mut Vec<u8>, program: &Program, site: Option<usize>) -> Result<(), AllocError>
    ensures { OnOk result (out.new.items ≡ out.old.items ++ site_text program.now.lines.items site) }
{
    match site {
        None => push_text(out, b"record read"),
        Some(_) => {
            push_text(out, b"line ")?;
            push_number(out, program.line_of_site(site))
        }
    }
}

/// The line where a machine stands, or that of the fault that ended its run.
fn line_here<M: Stepper>(machine: &M) -> u64
    ensures { result ≡ line_at (M.position machine.now).program.lines.items (M.held machine.now).site }
{
    machine.program().line_of_site(machine.site())
}

/// Adds how the run ended, or where the point is.
fn push_where<M: Stepper>(out: &mut Vec<u8>, machine: &M) -> Result<(), AllocError>
    ensures { OnOk result (out.new.items ≡ out.old.items ++ where_text (M.position machine.now).program.lines.items (M.held machine.now)) }
{
    match machine.ending() {
        None => push_site(out, machine.program(), machine.site()),
        Some(Ending::Ended) => {
            push_text(out, b"ended with status ")?;
            push_number(out, machine.status() as u64)
        }
        Some(Ending::Faulted(fault)) => push_fault(out, fault, line_here(machine)),
        Some(Ending::Limited(_)) => push_fault(out, Fault::StepLimit, line_here(machine)),
    }
}

/// Adds the line that says where the machine stands.
pub fn push_place_line<M: Stepper>(out: &mut Vec<u8>, machine: &M) -> Result<(), AllocError>
    ensures { OnOk result (out.new.items ≡ out.old.items ++ place_line (M.position machine.now) (M.held machine.now)) }
{
    push_text(out, b"point ")?;
    push_number(out, machine.point())?;
    push_text(out, b", ")?;
    push_where(out, machine)?;
    push_text(out, b"\n")
}

/// Adds an activation, by its number and the line where it stands.
fn push_frame_line(
    out: &mut Vec<u8>,
    number: usize,
    name: &[u8],
    line: u64,
) -> Result<(), AllocError>
    ensures { OnOk result (out.new.items ≡ out.old.items ++ frame_line number name.now line) }
{
    push_text(out, b"#")?;
    push_number(out, number as u64)?;
    push_text(out, b" ")?;
    push_text(out, name)?;
    push_text(out, b" line ")?;
    push_number(out, line)?;
    push_text(out, b"\n")
}

/// The name of a function, by its number.
fn function_name(program: &Program, number: usize) -> &[u8]
    ensures { result.now ≡ name_of (function_at program.now number) }
{
    match program.functions.get(number) {
        Some(function) => function.name.as_slice(),
        None => b"",
    }
}

/// Adds a line for each activation, the innermost first.
pub fn push_backtrace<M: Stepper>(out: &mut Vec<u8>, machine: &M) -> Result<(), AllocError>
    ensures { OnOk result (out.new.items ≡ out.old.items ++ backtrace (M.position machine.now).program (M.held machine.now)) }
{
    let program = machine.program();
    let depth = machine.depth();
    let mut line = line_here(machine);
    for number in 0..depth {
        let Some(call) = machine.frame(number) else {
            unreachable!()
        };
        push_frame_line(out, number, function_name(program, call.function), line)?;
        line = program.line_of_site(call.site);
    }
    push_frame_line(out, depth, b"main", line)
}

/// The output beyond its first bytes.
pub fn output_from(output: &[u8], from: usize) -> &[u8]
    ensures { result.now ≡ drop from output.now }
{
    if from < output.len() {
        &output[from..]
    } else {
        b""
    }
}

/// Adds the newline that a text lacks for whole lines.
pub fn push_line_end(out: &mut Vec<u8>, text: &[u8]) -> Result<(), AllocError>
    ensures { OnOk result (out.new.items ≡ out.old.items ++ line_end text.now) }
{
    if let Some(last) = text.last() {
        if *last != b'\n' {
            push_text(out, b"\n")?;
        }
    }
    Ok(())
}

/// Adds a global's value.
fn push_global<M: Stepper>(out: &mut Vec<u8>, machine: &M, number: usize) -> Result<(), AllocError>
    ensures { OnOk result (out.new.items ≡ out.old.items ++ shown_value (scalar_at (Scalar.Global number) (seen (M.held machine.now).state))) }
{
    match machine.global(number) {
        Some(value) => push_value(out, value),
        None => push_text(out, b"uninitialized"),
    }
}

/// Adds a field's value.
fn push_field<M: Stepper>(out: &mut Vec<u8>, machine: &M, number: usize) -> Result<(), AllocError>
    ensures { OnOk result (out.new.items ≡ out.old.items ++ shown_value (scalar_at (Scalar.Field number) (seen (M.held machine.now).state))) }
{
    if number == 0 {
        return push_shown(out, machine.text());
    }
    match machine.field(number) {
        Some(FieldRef::Piece(bytes)) => push_shown(out, bytes),
        Some(FieldRef::Kept(value)) => push_value(out, value),
        None => push_text(out, b"uninitialized"),
    }
}

/// Adds a scalar's value.
fn push_scalar_value<M: Stepper>(
    out: &mut Vec<u8>,
    machine: &M,
    place: Scalar,
) -> Result<(), AllocError>
    ensures { OnOk result (out.new.items ≡ out.old.items ++ shown_value (scalar_at place (seen (M.held machine.now).state))) }
{
    match place {
        Scalar::Global(number) => push_global(out, machine, number),
        Scalar::FieldCount => push_number(out, machine.field_count() as u64),
        Scalar::Field(number) => push_field(out, machine, number),
    }
}

/// A name, by its number.
fn name_at(names: &[Bytes], number: usize) -> &[u8]
    ensures { result.now ≡ slice_index_or names.now number [] }
{
    match names.get(number) {
        Some(name) => name.as_slice(),
        None => b"",
    }
}

/// The name of an array where these are the locals.
fn array_name<'a>(locals: &'a [Bytes], names: &'a [Bytes], array: Array) -> &'a [u8]
    ensures { result.now ≡ array_name locals.now names.now array }
{
    match array {
        Array::Global(number) => name_at(names, number),
        Array::Local(number) => name_at(locals, number),
    }
}

/// Adds a place where these are the locals.
fn push_lvalue(
    out: &mut Vec<u8>,
    locals: &[Bytes],
    names: &[Bytes],
    place: &Lvalue,
) -> Result<(), AllocError>
    ensures { OnOk result (out.new.items ≡ out.old.items ++ lvalue_text locals.now names.now place.now) }
{
    match place {
        Lvalue::Local(number) => push_text(out, name_at(locals, *number)),
        Lvalue::Shared(place) => push_scalar(out, names, *place),
        Lvalue::Element(array, key) => {
            push_element(out, array_name(locals, names, *array), key.as_slice())
        }
    }
}

/// Adds a local's value.
fn push_local<M: Stepper>(out: &mut Vec<u8>, machine: &M, number: usize) -> Result<(), AllocError>
    ensures { OnOk result (out.new.items ≡ out.old.items ++ shown_value (local_value number (M.held machine.now).state)) }
{
    match machine.local(number) {
        Some(Local::Holds(value)) => push_value(out, value),
        Some(Local::Names(_)) => push_text(out, b"uninitialized"),
        None => push_text(out, b"uninitialized"),
    }
}

/// Adds what a place holds.
fn push_held_at<M: Stepper>(
    out: &mut Vec<u8>,
    machine: &M,
    place: &Lvalue,
) -> Result<(), AllocError>
    ensures { OnOk result (out.new.items ≡ out.old.items ++ shown_held (held_at place.now (M.held machine.now).state)) }
{
    match place {
        Lvalue::Local(number) => push_local(out, machine, *number),
        Lvalue::Shared(place) => push_scalar_value(out, machine, *place),
        Lvalue::Element(array, key) => push_held(out, machine.element(*array, key.as_slice())),
    }
}

/// Adds a place and its value.
pub fn push_shown_line<M: Stepper>(
    out: &mut Vec<u8>,
    machine: &M,
    place: &Lvalue,
) -> Result<(), AllocError>
    ensures { OnOk result (out.new.items ≡ out.old.items ++ shown_line (M.position machine.now).program place.now (M.held machine.now)) }
{
    push_lvalue(out, local_names(machine), &machine.program().names, place)?;
    push_text(out, b" = ")?;
    push_held_at(out, machine, place)?;
    push_text(out, b"\n")
}

/// Adds an element and its value.
fn push_element_line<M: Stepper>(
    out: &mut Vec<u8>,
    machine: &M,
    array: Array,
    key: &[u8],
) -> Result<(), AllocError>
    ensures { OnOk result (out.new.items ≡ out.old.items ++ shown_line (M.position machine.now).program (Lvalue.Element array key.now) (M.held machine.now)) }
{
    let name = array_name(local_names(machine), &machine.program().names, array);
    push_element(out, name, key)?;
    push_text(out, b" = ")?;
    push_held(out, machine.element(array, key))?;
    push_text(out, b"\n")
}

/// Adds a line for each of these keys of an array.
fn push_elements<M: Stepper>(
    out: &mut Vec<u8>,
    machine: &M,
    array: Array,
    keys: &[Bytes],
) -> Result<(), AllocError>
    ensures { OnOk result (out.new.items ≡ out.old.items ++ element_lines (M.position machine.now).program array (M.held machine.now) keys.now) }
{
    for key in keys {
        push_element_line(out, machine, array, key.as_slice())?;
    }
    Ok(())
}

/// Adds an array's name, and how many elements it has.
fn push_array_line<M: Stepper>(
    out: &mut Vec<u8>,
    machine: &M,
    array: Array,
) -> Result<(), AllocError>
    ensures { OnOk result (out.new.items ≡ out.old.items ++ array_line (M.position machine.now).program array (M.held machine.now).state) }
{
    let name = array_name(local_names(machine), &machine.program().names, array);
    push_text(out, name)?;
    push_text(out, b": array, ")?;
    push_number(out, machine.element_count(array) as u64)?;
    push_text(out, b" elements\n")
}

/// Adds an array with its elements, in byte order of their keys.
pub fn push_array<M: Stepper>(
    alloc: Global,
    out: &mut Vec<u8>,
    machine: &M,
    array: Array,
) -> Result<(), AllocError>
    ensures { OnOk result (out.new.items ≡ out.old.items ++ array_text (M.position machine.now).program array (M.held machine.now)) }
{
    push_array_line(out, machine, array)?;
    let keys = machine.array_keys(alloc, array)?;
    push_elements(out, machine, array, &keys)
}
