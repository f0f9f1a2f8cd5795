//! `arrays` and changes: for each array its elements in brackets, in byte order. A change is `add N` for N arrays more, `keep N` for
//! no more than N, `set ARRAY KEY VALUE`, `touch ARRAY KEY`, `delete ARRAY KEY` or `clear ARRAY`, each a step of its own, which `there and back`
//! before it takes back; or `put ARRAY KEY VALUE`, which sets an element by its place.
//!
//! `packed` and a number of elements that are made and deleted before a last one: its place, and its place once the array is packed.

use crate::stepped;
use crate::values::value_of;
use rawk_arrays::{Arrays, ArraysChange};
use rawk_value::Value;
use rows_cases::{number_of, push_value};
use std::alloc::{AllocError, Global};

/// The arrays after changes.
pub fn changed(alloc: Global, changes: &[&[u8]]) -> Result<Vec<u8>, AllocError> {
    let mut arrays = Arrays::new(alloc, 1);
    let text = text_after(alloc, &mut arrays, changes);
    drop(arrays);
    text
}

/// Makes the changes, and shows what came of them.
fn text_after(
    alloc: Global,
    arrays: &mut Arrays,
    changes: &[&[u8]],
) -> Result<Vec<u8>, AllocError> {
    for change in changes {
        let back = change.strip_prefix(b"there and back ".as_slice());
        let words: Vec<&[u8]> = back.unwrap_or(change).split(|b| *b == b' ').collect(alloc)?;
        make(alloc, arrays, &words, back.is_some())?;
    }
    shown(alloc, arrays)
}

/// Makes one change.
fn make(alloc: Global, arrays: &mut Arrays, words: &[&[u8]], back: bool) -> Result<(), AllocError> {
    match words {
        [b"put", array, key, value] => put(alloc, arrays, number(array), key, value),
        _ => stepped::make(alloc, arrays, change_of(alloc, words)?, back),
    }
}

/// Sets an element by its place.
fn put(
    alloc: Global,
    arrays: &mut Arrays,
    array: usize,
    key: &[u8],
    value: &[u8],
) -> Result<(), AllocError> {
    match arrays.place(alloc, array, key)? {
        Some(place) => arrays.set_at::<true>(place, value_of(alloc, value)?),
        None => Ok(()),
    }
}

/// The number that a part is, from 0.
fn number(part: &[u8]) -> usize {
    number_of(part).unwrap_or(0)
}

/// The change of arrays that words are.
fn change_of(alloc: Global, words: &[&[u8]]) -> Result<ArraysChange, AllocError> {
    Ok(match words {
        [b"set", array, key, value] => ArraysChange::Set {
            array: number(array),
            key: Vec::from_slice(alloc, key)?,
            value: value_of(alloc, value)?,
        },
        [b"touch", array, key] => ArraysChange::Touch {
            array: number(array),
            key: Vec::from_slice(alloc, key)?,
        },
        [_, array, key] => ArraysChange::Delete {
            array: number(array),
            key: Vec::from_slice(alloc, key)?,
        },
        [b"clear", array] => ArraysChange::Clear {
            array: number(array),
        },
        [b"add", count] => ArraysChange::AddEmpty(number(count)),
        _ => ArraysChange::Truncate(words.last().map_or(0, |count| number(count))),
    })
}

/// The places of the last element.
pub fn packed(alloc: Global, parts: &[&[u8]]) -> Result<Vec<u8>, AllocError> {
    let count = parts.first().map_or(0, |count| number(count));
    let mut arrays = Arrays::new(alloc, 1);
    let text = places_of_last(alloc, &mut arrays, count);
    drop(arrays);
    text
}

/// Adds an array, makes the elements, deletes all but the last, and packs.
fn places_of_last(alloc: Global, arrays: &mut Arrays, count: usize) -> Result<Vec<u8>, AllocError> {
    arrays.add::<true>()?;
    for element in 0..count {
        let key = format!(in alloc; "{element}")?.into_bytes();
        arrays.set::<true>(alloc, 0, &key, Value::Number(1))?;
        arrays.delete::<true>(0, &key)?;
    }
    arrays.set::<true>(alloc, 0, b"last", Value::Number(1))?;
    arrays.forget();
    let before = arrays.place(alloc, 0, b"last")?.unwrap_or(0);
    arrays.forget();
    arrays.pack(alloc);
    let after = arrays.place(alloc, 0, b"last")?.unwrap_or(0);
    Ok(format!(in alloc; "{before} {after}")?.into_bytes())
}

/// The elements of each array.
fn shown(alloc: Global, arrays: &Arrays) -> Result<Vec<u8>, AllocError> {
    let mut out = Vec::new(alloc);
    for array in 0..arrays.len() {
        out.push(b'[')?;
        for key in &arrays.keys(alloc, array)? {
            let key = key.as_slice();
            push_element(&mut out, key, arrays.element(array, key))?;
        }
        out.push(b']')?;
    }
    Ok(out)
}

/// Adds a blank, a key, a `=` and the value, if there is one.
fn push_element(out: &mut Vec<u8>, key: &[u8], value: Option<&Value>) -> Result<(), AllocError> {
    out.push(b' ')?;
    out.extend_from_slice(key)?;
    out.push(b'=')?;
    match value {
        Some(value) => push_value(out, value),
        None => Ok(()),
    }
}
