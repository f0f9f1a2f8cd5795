//! Assignments.

ghost use Rattle.std.specs.Prelude.{◌≡◌, ◌<◌, IfOk, IsSome, OnErr, OnOk, slice_index_or};
ghost use Rattle.std.specs.Bool.{OnTrue};
ghost use Rattle.std.specs.Option.{option_copied};
ghost use Rattle.rawk_value.specs.declared.value.Value.{Value};
ghost use Rattle.rawk_value.specs.Values.{is_empty, text_of};
ghost use Rattle.rawk_record.specs.Changed.{rebuilt, with_value};
ghost use Rattle.rawk_record.specs.Shown.{read_as};
ghost use Rattle.rawk_arrays.specs.Laid.{GrownArrays, arrays_of};
ghost use Rattle.rawk_frames.specs.LaidFrames.{frames_of};
ghost use Rattle.rawk_store.specs.Assigned.{HasAssigned};
ghost use Rattle.rawk_store.specs.Layout.{Grown};
ghost use Rattle.rawk_store.specs.Records.{Becomes, counted_as};
ghost use Rattle.rawk_store.specs.State.{array_in, clear_elements, count_in, delete_element, element_in, has_element, keys_in, put_element, read_element};
ghost use Rattle.rawk_store.specs.Stores.{now_of, start_of};
ghost use Rattle.rawk_special.specs.declared.special.TheConstants.{FS, OFS, RS};

use crate::numbering::field_number;
use crate::store::Store;
use crate::target::Target;
use itoa::Buffer;
use rawk_arrays::Arrays;
use rawk_cells::Cells;
use rawk_current::Current;
use rawk_frames::{Frames, Local};
use rawk_special::{FS, OFS, RS};
use rawk_value::order::text_in;
use rawk_value::{Bytes, Fault, Value};
use rawk_words::Array;
use std::alloc::{AllocError, Global};
use std::mem;

/// A text of more bytes than this takes a buffer of its own size.
const LONG: usize = 64;

/// The text of a global, in place but for a number's digits, which stand in the buffer. It takes no memory.
#[inline(always)]
fn text_of_global<'a>(globals: &'a Cells, number: usize, digits: &'a mut Buffer) -> &'a [u8]
    ensures { result.now ≡ text_of (slice_index_or globals.now.now number Value.Uninitialized) }
{
    match globals.value(number) {
        Some(Value::String(text)) => text.as_slice(),
        Some(value) => text_in(value, digits),
        None => b"",
    }
}

/// Gives the field of a number, from 1, a value, and builds `$0` anew with the OFS of now. It fails where memory is refused.
fn assign_field<const SAVES: bool>(
    alloc: Global,
    globals: &Cells,
    current: &mut Current,
    number: usize,
    value: Value,
) -> Result<(), AllocError>
    requires { 0 < number }
    ensures did { OnOk result (current.new.now ≡ rebuilt (text_of (slice_index_or globals.now.now OFS Value.Uninitialized)) (with_value number value current.old.now.fields)) }
    ensures start { OnTrue SAVES (current.new.start ≡ current.old.start) }
{
    let mut digits = Buffer::new();
    let separator = text_of_global(globals, OFS, &mut digits);
    current.set_field::<SAVES>(alloc, number, value, separator)
}

/// Makes a text the record, with its fields by the separators of now, or answers the fault of the field separator, which changes nothing. It fails where memory is
/// refused. It is for a text that lies in another part of the store.
pub fn assign_record_text<const SAVES: bool>(
    alloc: Global,
    globals: &Cells,
    current: &mut Current,
    text: &[u8],
) -> Result<Option<Fault>, AllocError>
    ensures did { IfOk result (λ fault. Becomes fault (read_as text.now (text_of (slice_index_or globals.now.now FS Value.Uninitialized)) (is_empty (text_of (slice_index_or globals.now.now RS Value.Uninitialized)))) current.old.now current.new.now) }
    ensures same { IfOk result (λ fault. IsSome fault → current.new ≡ current.old) }
    ensures start { OnTrue SAVES (current.new.start ≡ current.old.start) }
{
    let mut field_digits = Buffer::new();
    let mut record_digits = Buffer::new();
    let separator = text_of_global(globals, FS, &mut field_digits);
    let record_separator = text_of_global(globals, RS, &mut record_digits);
    match current.read::<SAVES>(alloc, text, separator, record_separator.len() == 0) {
        Ok(()) => Ok(None),
        Err(Fault::OutOfMemory) => Err(AllocError),
        Err(fault) => Ok(Some(fault)),
    }
}

/// Makes the text of a value the record, with its fields by the separators of now, or answers the fault of the field separator, which changes nothing. It fails
/// where memory is refused.
fn assign_record<const SAVES: bool>(
    alloc: Global,
    globals: &Cells,
    current: &mut Current,
    value: &Value,
) -> Result<Option<Fault>, AllocError>
    ensures did { IfOk result (λ fault. Becomes fault (read_as (text_of value.now) (text_of (slice_index_or globals.now.now FS Value.Uninitialized)) (is_empty (text_of (slice_index_or globals.now.now RS Value.Uninitialized)))) current.old.now current.new.now) }
    ensures start { OnTrue SAVES (current.new.start ≡ current.old.start) }
{
    let mut digits = Buffer::new();
    let text = text_in(value, &mut digits);
    assign_record_text::<SAVES>(alloc, globals, current, text)
}

/// Cuts or extends the fields to the number of a value, and builds `$0` anew with the OFS of now, or answers the fault of the number, which changes nothing. It
/// fails where memory is refused.
fn assign_count<const SAVES: bool>(
    alloc: Global,
    globals: &Cells,
    current: &mut Current,
    value: &Value,
) -> Result<Option<Fault>, AllocError>
    ensures did { IfOk result (λ fault. Becomes fault (counted_as value.now (text_of (slice_index_or globals.now.now OFS Value.Uninitialized)) current.old.now) current.old.now current.new.now) }
    ensures start { OnTrue SAVES (current.new.start ≡ current.old.start) }
{
    match field_number(value) {
        Err(fault) => Ok(Some(fault)),
        Ok(count) => {
            let mut digits = Buffer::new();
            let separator = text_of_global(globals, OFS, &mut digits);
            current.set_field_count::<SAVES>(alloc, count, separator)?;
            Ok(None)
        }
    }
}

/// The text in a buffer: moved where it is long and fills at least half of the buffer, and else copied. It fails where memory is refused.
fn taken(alloc: Global, text: &mut Vec<u8>) -> Result<Bytes, AllocError>
    ensures { IfOk result (λ t. t ≡ text.old.items) }
{
    if text.len() > LONG && text.capacity() / 2 <= text.len() {
        return Bytes::from_vec(alloc, mem::replace(text, Vec::new(alloc)));
    }
    Bytes::from_slice(alloc, text.as_slice())
}

/// The number of the array that a name stands for; a local that holds a value names none. It takes no memory.
pub fn array_number(frames: &Frames, array: Array) -> Option<usize>
    ensures { result ≡ array_in array (frames_of frames.now.now) }
{
    match array {
        Array::Global(number) => Some(number),
        Array::Local(number) => match frames.local(number) {
            Some(Local::Names(number)) => Some(*number),
            Some(Local::Holds(_)) => None,
            None => None,
        },
    }
}

/// Gives an element a value; an array that is not there stays away. It fails where memory is refused, and then no element has changed.
fn assign_element<const SAVES: bool>(
    alloc: Global,
    arrays: &mut Arrays,
    number: Option<usize>,
    key: &[u8],
    value: Value,
) -> Result<(), AllocError>
    ensures did { OnOk result (arrays_of arrays.new.now ≡ put_element number key.now value (arrays_of arrays.old.now)) }
    ensures err { OnErr result (arrays_of arrays.new.now ≡ arrays_of arrays.old.now) }
    ensures start { OnTrue SAVES (GrownArrays arrays.old.start arrays.new.start) }
{
    match number {
        Some(number) => arrays.set::<SAVES>(alloc, number, key, value),
        None => Ok(()),
    }
}

/// Makes an element that is not there, uninitialised; an array that is not there stays away. It fails where memory is refused, and then no element has changed.
fn touch_element<const SAVES: bool>(
    alloc: Global,
    arrays: &mut Arrays,
    number: Option<usize>,
    key: &[u8],
) -> Result<(), AllocError>
    ensures did { OnOk result (arrays_of arrays.new.now ≡ read_element number key.now (arrays_of arrays.old.now)) }
    ensures err { OnErr result (arrays_of arrays.new.now ≡ arrays_of arrays.old.now) }
    ensures start { OnTrue SAVES (GrownArrays arrays.old.start arrays.new.start) }
{
    match number {
        Some(number) => arrays.touch::<SAVES>(alloc, number, key),
        None => Ok(()),
    }
}

/// Deletes an element; an array that is not there stays away. It fails where memory is refused, and then no element has changed.
fn delete_element<const SAVES: bool>(
    arrays: &mut Arrays,
    number: Option<usize>,
    key: &[u8],
) -> Result<(), AllocError>
    ensures did { OnOk result (arrays_of arrays.new.now ≡ delete_element number key.now (arrays_of arrays.old.now)) }
    ensures err { OnErr result (arrays_of arrays.new.now ≡ arrays_of arrays.old.now) }
    ensures start { OnTrue SAVES (arrays.new.start ≡ arrays.old.start) }
{
    match number {
        Some(number) => arrays.delete::<SAVES>(number, key),
        None => Ok(()),
    }
}

/// The same of the element at the key of a number.
fn delete_numbered<const SAVES: bool>(
    arrays: &mut Arrays,
    number: Option<usize>,
    key: i64,
) -> Result<(), AllocError>
    ensures did { OnOk result (arrays_of arrays.new.now ≡ delete_element number (text_of (Value.Number key)) (arrays_of arrays.old.now)) }
    ensures err { OnErr result (arrays_of arrays.new.now ≡ arrays_of arrays.old.now) }
    ensures start { OnTrue SAVES (arrays.new.start ≡ arrays.old.start) }
{
    match number {
        Some(number) => arrays.delete_numbered::<SAVES>(number, key),
        None => Ok(()),
    }
}

/// Deletes all elements of an array; one that is not there stays away. It fails where memory is refused; some are deleted then.
fn clear_elements<const SAVES: bool>(
    arrays: &mut Arrays,
    number: Option<usize>,
) -> Result<(), AllocError>
    ensures did { OnOk result (arrays_of arrays.new.now ≡ clear_elements number (arrays_of arrays.old.now)) }
    ensures start { OnTrue SAVES (arrays.new.start ≡ arrays.old.start) }
{
    match number {
        Some(number) => arrays.clear::<SAVES>(number),
        None => Ok(()),
    }
}

impl Store {
    /// Deletes an element of an array, if both are there (POSIX awk, Actions). It fails where memory is refused, and then no element has changed.
    pub fn delete_element<const SAVES: bool>(
        &mut self,
        array: Array,
        key: &[u8],
    ) -> Result<(), AllocError>
        ensures did { OnOk result (arrays_of self.new.arrays.now ≡ delete_element (array_in array (frames_of self.old.frames.now)) key.now (arrays_of self.old.arrays.now)) }
        ensures err { OnErr result (arrays_of self.new.arrays.now ≡ arrays_of self.old.arrays.now) }
        ensures rest { now_of self.new ≡ record (now_of self.old) { arrays = self.new.arrays.now } }
        ensures start { OnTrue SAVES (start_of self.new ≡ start_of self.old) }
    {
        let number = array_number(&self.frames, array);
        delete_element::<SAVES>(&mut self.arrays, number, key)
    }

    /// The same of the element at the key of a number, without a search where the keys from 1 to it came one behind another.
    pub fn delete_numbered<const SAVES: bool>(
        &mut self,
        array: Array,
        key: i64,
    ) -> Result<(), AllocError>
        ensures did { OnOk result (arrays_of self.new.arrays.now ≡ delete_element (array_in array (frames_of self.old.frames.now)) (text_of (Value.Number key)) (arrays_of self.old.arrays.now)) }
        ensures err { OnErr result (arrays_of self.new.arrays.now ≡ arrays_of self.old.arrays.now) }
        ensures rest { now_of self.new ≡ record (now_of self.old) { arrays = self.new.arrays.now } }
        ensures start { OnTrue SAVES (start_of self.new ≡ start_of self.old) }
    {
        let number = array_number(&self.frames, array);
        delete_numbered::<SAVES>(&mut self.arrays, number, key)
    }

    /// Deletes all elements of an array, if it is there, in a time linear in the slots that it has. It fails where memory is refused; some are deleted then.
    pub fn clear_elements<const SAVES: bool>(&mut self, array: Array) -> Result<(), AllocError>
        ensures did { OnOk result (arrays_of self.new.arrays.now ≡ clear_elements (array_in array (frames_of self.old.frames.now)) (arrays_of self.old.arrays.now)) }
        ensures rest { now_of self.new ≡ record (now_of self.old) { arrays = self.new.arrays.now } }
        ensures start { OnTrue SAVES (start_of self.new ≡ start_of self.old) }
    {
        let number = array_number(&self.frames, array);
        clear_elements::<SAVES>(&mut self.arrays, number)
    }

    /// The keys of an array in byte order, none where it is not there: a copy of each. It fails where memory is refused.
    pub fn array_keys(&self, alloc: Global, array: Array) -> Result<Vec<Bytes>, AllocError>
        ensures { IfOk result (λ keys. keys.items ≡ keys_in (array_in array (frames_of self.now.frames.now)) (arrays_of self.now.arrays.now)) }
    {
        match array_number(&self.frames, array) {
            Some(number) => self.arrays.keys(alloc, number),
            None => Ok(Vec::new(alloc)),
        }
    }

    /// How many elements an array has, 0 where it is not there, at once.
    pub fn element_count(&self, array: Array) -> usize
        ensures { result ≡ count_in (array_in array (frames_of self.now.frames.now)) (arrays_of self.now.arrays.now) }
    {
        match array_number(&self.frames, array) {
            Some(number) => self.arrays.count(number),
            None => 0,
        }
    }

    /// An element of an array, if both are there. It takes no memory.
    pub fn element(&self, array: Array, key: &[u8]) -> Option<&Value>
        ensures { option_copied result ≡ element_in (array_in array (frames_of self.now.frames.now)) key.now (arrays_of self.now.arrays.now) }
    {
        match array_number(&self.frames, array) {
            Some(number) => self.arrays.element(number, key),
            None => None,
        }
    }

    /// Whether an element of an array is there. It takes no memory.
    pub fn has_element(&self, array: Array, key: &[u8]) -> bool
        ensures { result ≡ has_element (array_in array (frames_of self.now.frames.now)) key.now (arrays_of self.now.arrays.now) }
    {
        match array_number(&self.frames, array) {
            Some(number) => self.arrays.has(number, key),
            None => false,
        }
    }

    /// Makes an element that is not there, uninitialised, as reading it does (POSIX awk, Expressions in awk); an array that is not there stays away. It fails where memory is
    /// refused, and then no element has changed.
    pub fn touch_element<const SAVES: bool>(
        &mut self,
        alloc: Global,
        array: Array,
        key: &[u8],
    ) -> Result<(), AllocError>
        ensures did { OnOk result (arrays_of self.new.arrays.now ≡ read_element (array_in array (frames_of self.old.frames.now)) key.now (arrays_of self.old.arrays.now)) }
        ensures err { OnErr result (arrays_of self.new.arrays.now ≡ arrays_of self.old.arrays.now) }
        ensures rest { now_of self.new ≡ record (now_of self.old) { arrays = self.new.arrays.now } }
        ensures start { OnTrue SAVES (Grown (start_of self.old) (start_of self.new)) }
    {
        let number = array_number(&self.frames, array);
        touch_element::<SAVES>(alloc, &mut self.arrays, number, key)
    }

    /// Assigns a place, or answers the fault of that, which changes nothing (POSIX awk, Expressions in awk; Variables and Special Variables): a local that is not there
    /// changes nothing, nor does an array; of NF the fields are cut or extended, of a field `$0` is built anew, and of `$0` the fields are. It fails where memory is
    /// refused, and then the step may have changed the record or the place.
    pub fn assign<const SAVES: bool>(
        &mut self,
        alloc: Global,
        target: &Target,
        value: Value,
    ) -> Result<Option<Fault>, AllocError>
        ensures did { IfOk result (λ fault. HasAssigned target.now value fault (now_of self.old) (now_of self.new)) }
        ensures start { OnTrue SAVES (Grown (start_of self.old) (start_of self.new)) }
    {
        match target {
            Target::Global(number) => self.globals.set::<SAVES>(*number, value)?,
            Target::Local(number) => self
                .frames
                .set_local::<SAVES>(*number, Local::Holds(value))?,
            Target::FieldCount => {
                return assign_count::<SAVES>(alloc, &self.globals, &mut self.current, &value);
            }
            Target::Field(0) => {
                return assign_record::<SAVES>(alloc, &self.globals, &mut self.current, &value);
            }
            Target::Field(number) => {
                assign_field::<SAVES>(alloc, &self.globals, &mut self.current, *number, value)?;
            }
            Target::Element(array, key) => {
                let number = array_number(&self.frames, *array);
                assign_element::<SAVES>(alloc, &mut self.arrays, number, key.as_slice(), value)?;
            }
        }
        Ok(None)
    }

    /// Assigns a place the text in a buffer, or answers the fault of that, which changes nothing, as `assign` does; the buffer may hold anything then. A long text is moved;
    /// the record copies it into its own buffer. It fails where memory is refused.
    pub fn assign_text<const SAVES: bool>(
        &mut self,
        alloc: Global,
        target: &Target,
        text: &mut Vec<u8>,
    ) -> Result<Option<Fault>, AllocError>
        ensures did { IfOk result (λ fault. HasAssigned target.now (Value.String text.old.items) fault (now_of self.old) (now_of self.new)) }
        ensures start { OnTrue SAVES (Grown (start_of self.old) (start_of self.new)) }
    {
        match target {
            Target::Field(0) => assign_record_text::<SAVES>(
                alloc,
                &self.globals,
                &mut self.current,
                text.as_slice(),
            ),
            _ => {
                let text = taken(alloc, text)?;
                self.assign::<SAVES>(alloc, target, Value::String(text))
            }
        }
    }
}
