//! What the names of a command are in a program.

ghost use Rattle.std.specs.Prelude.{◌≡◌, if◌then◌else◌, position, slice_get, Err, IfOk, None, Ok, Some};
ghost use Rattle.std.specs.Str.{bytes_eq};
ghost use Rattle.rawk_tree.specs.Kinds.{is_array};
ghost use Rattle.rawk_answers.specs.Activations.{local_kinds, local_names};
ghost use Rattle.rawk_answers.specs.Naming.{array_here, array_named, array_number, listed_of, scalar_named, subscript_refusal, named, named_here, place_of, lvalue_of, site_of, shared_target, target_of, constant_value};

use crate::stepper::Stepper;
use crate::stop::{Lvalue, Scalar, Watched};
use rawk_commands::{C, Constant, Place, Spot};
use rawk_special::{global_number, is_field_count};
use rawk_store::Target;
use rawk_tree::{Kind, Program};
use rawk_value::{Bytes, Value};
use rawk_words::Array;
use std::alloc::AllocError;

/// What the name of a scalar is everywhere.
fn scalar_named(names: &[Bytes], name: &[u8]) -> Option<Scalar>
    ensures { result ≡ scalar_named names.now name.now }
{
    if is_field_count(name) {
        return Some(Scalar::FieldCount);
    }
    match global_number(names, name) {
        Some(number) => Some(Scalar::Global(number)),
        None => None,
    }
}

/// The place that a name is everywhere, or why it is none: the name of an array is no place.
fn named(program: &Program, name: &[u8]) -> Result<Scalar, C>
    ensures { result ≡ named program.now name.now }
{
    if program.is_array(name) {
        return Err(C::BadArgument);
    }
    match scalar_named(&program.names, name) {
        Some(place) => Ok(place),
        None => Err(C::NoSuchVariable),
    }
}

/// The place of a name among these.
fn place_among(names: &[Bytes], name: &[u8]) -> Option<usize>
    ensures { result ≡ position (bytes_eq name.now) names.now }
{
    names.iter().position(|own| name == own.as_slice())
}

/// A local that can be shown and set where these are what the locals are: an array is no place.
fn local_place(kinds: &[Kind], number: usize) -> Result<Lvalue, C>
    ensures { result ≡ (if is_array (slice_get kinds.now number) then Err C.BadArgument else Ok (Lvalue.Local number)) }
{
    match kinds.get(number) {
        Some(Kind::Array) => Err(C::BadArgument),
        Some(Kind::Scalar) => Ok(Lvalue::Local(number)),
        None => Ok(Lvalue::Local(number)),
    }
}

/// The place that a name is where these are the locals, or why it is none.
fn named_here(locals: &[Bytes], kinds: &[Kind], program: &Program, name: &[u8]) -> Result<Lvalue, C>
    ensures { result ≡ named_here locals.now kinds.now program.now name.now }
{
    match place_among(locals, name) {
        Some(number) => local_place(kinds, number),
        None => match named(program, name) {
            Ok(place) => Ok(Lvalue::Shared(place)),
            Err(reason) => Err(reason),
        },
    }
}

/// The number of the array that a name is everywhere, if it is one.
fn array_number(program: &Program, name: &[u8]) -> Option<usize>
    ensures { result ≡ array_number program.now name.now }
{
    if !program.is_array(name) {
        return None;
    }
    place_among(&program.names, name)
}

/// The array that a name is everywhere, if it is one.
fn array_named(program: &Program, name: &[u8]) -> Option<Array>
    ensures { result ≡ array_named program.now name.now }
{
    match array_number(program, name) {
        Some(number) => Some(Array::Global(number)),
        None => None,
    }
}

/// The array that a local is, if it is one.
fn local_array(kinds: &[Kind], number: usize) -> Option<Array>
    ensures { result ≡ (if is_array (slice_get kinds.now number) then Some (Array.Local number) else None) }
{
    match kinds.get(number) {
        Some(Kind::Array) => Some(Array::Local(number)),
        Some(Kind::Scalar) => None,
        None => None,
    }
}

/// The array that a name is where these are the locals, if it is one.
fn array_here(locals: &[Bytes], kinds: &[Kind], program: &Program, name: &[u8]) -> Option<Array>
    ensures { result ≡ array_here locals.now kinds.now program.now name.now }
{
    match place_among(locals, name) {
        Some(number) => local_array(kinds, number),
        None => array_named(program, name),
    }
}

/// The array that can be shown with its elements where these are the locals, if the place is one.
pub fn listed_of(
    locals: &[Bytes],
    kinds: &[Kind],
    program: &Program,
    place: &Place,
) -> Option<Array>
    ensures { result ≡ listed_of locals.now kinds.now program.now place.now }
{
    match place {
        Place::Name(name) => array_here(locals, kinds, program, name.as_slice()),
        Place::Element(_, _) => None,
        Place::Field(_) => None,
    }
}

/// Why a name with a subscript that is no array is refused.
fn subscript_refusal<T: Drop>(named: Result<T, C>) -> C
    ensures { result ≡ subscript_refusal named }
{
    match named {
        Ok(_) => C::BadArgument,
        Err(reason) => reason,
    }
}

/// The names of the locals of the innermost activation.
pub fn local_names<M: Stepper>(machine: &M) -> &[Bytes]
    ensures { result.now ≡ local_names (M.position machine.now).program (M.held machine.now).state.frames }
{
    match machine.frame(0) {
        Some(call) => match machine.program().functions.get(call.function) {
            Some(function) => &function.parameters,
            None => &[],
        },
        None => &[],
    }
}

/// What the locals of the innermost activation are.
pub fn local_kinds<M: Stepper>(machine: &M) -> &[Kind]
    ensures { result.now ≡ local_kinds (M.position machine.now).program (M.held machine.now).state.frames }
{
    match machine.frame(0) {
        Some(call) => match machine.program().functions.get(call.function) {
            Some(function) => &function.kinds,
            None => &[],
        },
        None => &[],
    }
}

/// A place that can be shown and set where these are the locals, or why it is refused.
pub fn lvalue_of(
    locals: &[Bytes],
    kinds: &[Kind],
    program: &Program,
    place: Place,
) -> Result<Lvalue, C>
    ensures { result ≡ lvalue_of locals.now kinds.now program.now place }
{
    match place {
        Place::Name(name) => named_here(locals, kinds, program, name.as_slice()),
        Place::Element(name, key) => match array_here(locals, kinds, program, name.as_slice()) {
            Some(array) => Ok(Lvalue::Element(array, key)),
            None => Err(subscript_refusal(named_here(locals, kinds, program, name.as_slice()))),
        },
        Place::Field(number) => Ok(Lvalue::Shared(Scalar::Field(number))),
    }
}

/// A place that can be watched, or why it is refused.
pub fn place_of(program: &Program, place: Place) -> Result<Watched, C>
    ensures { result ≡ place_of program.now place }
{
    match place {
        Place::Name(name) => match named(program, name.as_slice()) {
            Ok(place) => Ok(Watched::Scalar(place)),
            Err(reason) => Err(reason),
        },
        Place::Element(name, key) => match array_number(program, name.as_slice()) {
            Some(array) => Ok(Watched::Element(array, key)),
            None => Err(subscript_refusal(named(program, name.as_slice()))),
        },
        Place::Field(number) => Ok(Watched::Scalar(Scalar::Field(number))),
    }
}

/// Where a breakpoint is to stand.
pub fn site_of(program: &Program, spot: &Spot) -> Option<usize>
    ensures { result ≡ site_of program.now spot.now }
{
    match spot {
        Spot::Line(line) => program.site_on_line(*line),
        Spot::Function(name) => program.entry_of(name.as_slice()),
    }
}

/// What is assigned of what all activations share.
fn shared_target(place: Scalar) -> Target
    ensures { result ≡ shared_target place }
{
    match place {
        Scalar::Global(number) => Target::Global(number),
        Scalar::FieldCount => Target::FieldCount,
        Scalar::Field(number) => Target::Field(number),
    }
}

/// What is assigned of a place. It fails where memory is refused.
pub fn target_of(place: &Lvalue) -> Result<Target, AllocError>
    ensures { IfOk result (λ target. target ≡ target_of place.now) }
{
    match place {
        Lvalue::Local(number) => Ok(Target::Local(*number)),
        Lvalue::Shared(place) => Ok(shared_target(*place)),
        Lvalue::Element(array, key) => {
            let key = key.copy()?;
            Ok(Target::Element(*array, key))
        }
    }
}

/// The value of a constant, moved.
pub fn constant_value(constant: Constant) -> Value
    ensures { result ≡ constant_value constant }
{
    match constant {
        Constant::Number(n) => Value::Number(n),
        Constant::Text(text) => Value::String(text),
    }
}
