//! Elements that are the parts of a text.

ghost use Rattle.std.specs.Prelude.{◌≡◌, ◌≤◌, ℕ, OnOk, length};
ghost use Rattle.std.specs.Bool.{OnTrue};
ghost use Rattle.rawk_value.specs.Values.{Bytes, text_of};
ghost use Rattle.rawk_pieces.specs.Pieces.{AllInRange, texts};
ghost use Rattle.rawk_arrays.specs.Elements.{cleared, with_element};
ghost use Rattle.rawk_arrays.specs.Laid.{ArePlaces, GrownArrays, IsPlaceOf, Run, arrays_of};
ghost use Rattle.rawk_frames.specs.LaidFrames.{frames_of};
ghost use Rattle.rawk_store.specs.State.{array_in, fill_elements, numbered};

use crate::assign::array_number;
use rawk_arrays::{Arrays, Run};
use rawk_frames::Frames;
use rawk_pieces::Piece;
use rawk_value::{Bytes, Value};
use rawk_words::Array;
use std::alloc::{AllocError, Global};

/// Gives the element at the key of a number a text of an input. It fails where memory is refused, and then no element has changed.
fn put_text<const SAVES: bool>(
    alloc: Global,
    arrays: &mut Arrays,
    array: usize,
    key: i64,
    text: &[u8],
) -> Result<(), AllocError>
    ensures did { OnOk result (arrays_of arrays.new.now ≡ with_element array (text_of (Value.Number key)) (Value.Input text.now) (arrays_of arrays.old.now)) }
    ensures start { OnTrue SAVES (GrownArrays arrays.old.start arrays.new.start) }
{
    let value = Value::Input(Bytes::from_slice(alloc, text)?);
    arrays.set_numbered::<SAVES>(alloc, array, key, value)
}

/// The same of the element at the key of a number whose place is known.
#[inline(always)]
fn put_text_at<const SAVES: bool>(
    alloc: Global,
    arrays: &mut Arrays,
    place: usize,
    text: &[u8],
) -> Result<(), AllocError>
    ensures did { OnOk result ((a : ℕ) (k : Bytes) → IsPlaceOf a k place arrays.old.now → arrays_of arrays.new.now ≡ with_element a k (Value.Input text.now) (arrays_of arrays.old.now)) }
    ensures places { OnOk result ((a : ℕ) (run : Run) → ArePlaces a run arrays.old.now → ArePlaces a run arrays.new.now) }
    ensures start { OnTrue SAVES (arrays.new.start ≡ arrays.old.start) }
{
    arrays.set_at::<SAVES>(place, Value::Input(Bytes::from_slice(alloc, text)?))
}

/// Gives the elements at the keys from 1 on, whose places are known, the first pieces of a text, at most as many. It fails where memory is refused; then some have changed.
fn put_known<const SAVES: bool>(
    alloc: Global,
    arrays: &mut Arrays,
    array: usize,
    run: Run,
    text: &[u8],
    pieces: &[Piece],
) -> Result<(), AllocError>
    requires pieces { AllInRange text.now pieces.now }
    requires few { length pieces.now ≤ run.count }
    requires places { ArePlaces array run arrays.old.now }
    ensures did { OnOk result (arrays_of arrays.new.now ≡ numbered array 1 (texts text.now pieces.now) (arrays_of arrays.old.now)) }
    ensures start { OnTrue SAVES (arrays.new.start ≡ arrays.old.start) }
{
    for (place, piece) in pieces.iter().enumerate() {
        put_text_at::<SAVES>(
            alloc,
            arrays,
            run.first as usize + place,
            &text[piece.start..piece.end],
        )?;
    }
    Ok(())
}

/// Gives the elements at the keys from 1 on the pieces of a text, as texts of an input: at places that are known, or each by its key. It fails where memory is refused; then some have changed.
fn put_all<const SAVES: bool>(
    alloc: Global,
    arrays: &mut Arrays,
    array: usize,
    text: &[u8],
    pieces: &[Piece],
) -> Result<(), AllocError>
    requires { AllInRange text.now pieces.now }
    ensures did { OnOk result (arrays_of arrays.new.now ≡ numbered array 1 (texts text.now pieces.now) (arrays_of arrays.old.now)) }
    ensures start { OnTrue SAVES (GrownArrays arrays.old.start arrays.new.start) }
{
    let run = arrays.places_from_one(array);
    if pieces.len() <= run.count as usize {
        return put_known::<SAVES>(alloc, arrays, array, run, text, pieces);
    }
    put_pieces::<SAVES>(alloc, arrays, array, text, pieces)
}

/// Gives the elements at the keys from 1 on the pieces of a text, as texts of an input. It fails where memory is refused; then some have changed.
fn put_pieces<const SAVES: bool>(
    alloc: Global,
    arrays: &mut Arrays,
    array: usize,
    text: &[u8],
    pieces: &[Piece],
) -> Result<(), AllocError>
    requires { AllInRange text.now pieces.now }
    ensures did { OnOk result (arrays_of arrays.new.now ≡ numbered array 1 (texts text.now pieces.now) (arrays_of arrays.old.now)) }
    ensures start { OnTrue SAVES (GrownArrays arrays.old.start arrays.new.start) }
{
    for (place, piece) in pieces.iter().enumerate() {
        let key = (place + 1) as i64;
        put_text::<SAVES>(alloc, arrays, array, key, &text[piece.start..piece.end])?;
    }
    Ok(())
}

/// Clears an array that has more than this many elements. It fails where memory is refused; some are deleted then.
fn clear_larger<const SAVES: bool>(
    arrays: &mut Arrays,
    array: usize,
    count: usize,
) -> Result<(), AllocError>
    ensures did { OnOk result (cleared array (arrays_of arrays.new.now) ≡ cleared array (arrays_of arrays.old.now)) }
    ensures start { OnTrue SAVES (arrays.new.start ≡ arrays.old.start) }
{
    if arrays.count(array) > count {
        return arrays.clear::<SAVES>(array);
    }
    Ok(())
}

/// Gives an array the pieces of a text as its elements at the keys from 1 on, and no others. Elements at these keys are written over where they stand; only where there turn out to be
/// others is the array cleared before. It fails where memory is refused; then elements may have changed.
fn fill_array<const SAVES: bool>(
    alloc: Global,
    arrays: &mut Arrays,
    array: usize,
    text: &[u8],
    pieces: &[Piece],
) -> Result<(), AllocError>
    requires { AllInRange text.now pieces.now }
    ensures did { OnOk result (arrays_of arrays.new.now ≡ numbered array 1 (texts text.now pieces.now) (cleared array (arrays_of arrays.old.now))) }
    ensures start { OnTrue SAVES (GrownArrays arrays.old.start arrays.new.start) }
{
    clear_larger::<SAVES>(arrays, array, pieces.len())?;
    put_all::<SAVES>(alloc, arrays, array, text, pieces)?;
    if arrays.count(array) == pieces.len() {
        return Ok(());
    }
    arrays.clear::<SAVES>(array)?;
    put_pieces::<SAVES>(alloc, arrays, array, text, pieces)
}

/// An array takes the pieces of a text as its elements at the keys from 1 on, as texts of an input, and has no others then; an array that is not there stays away
/// (POSIX awk, String Functions, `split`). It fails where memory is refused; then elements may have changed.
pub fn fill_elements<const SAVES: bool>(
    alloc: Global,
    arrays: &mut Arrays,
    frames: &Frames,
    array: Array,
    text: &[u8],
    pieces: &[Piece],
) -> Result<(), AllocError>
    requires { AllInRange text.now pieces.now }
    ensures did { OnOk result (arrays_of arrays.new.now ≡ fill_elements (array_in array (frames_of frames.now.now)) (texts text.now pieces.now) (arrays_of arrays.old.now)) }
    ensures start { OnTrue SAVES (GrownArrays arrays.old.start arrays.new.start) }
{
    match array_number(frames, array) {
        Some(number) => fill_array::<SAVES>(alloc, arrays, number, text, pieces),
        None => Ok(()),
    }
}
