//! `keys` and changes: the key that the innermost loop visits next, or `none`. A change is `begin KEY KEY ..`, `advance`, `end N` or
//! `clear`; with `apply` or `there and back` before it, a step of its own, which the second takes back. `step` ends the step, and
//! `back` takes it back.

use crate::stepped::{self, as_step};
use rawk_frames::{KeysChange, KeysLeft};
use rawk_value::Bytes;
use rows_cases::setting_of;
use std::alloc::{AllocError, Global};

/// The next key after changes.
pub fn changed(alloc: Global, changes: &[&[u8]]) -> Result<Vec<u8>, AllocError> {
    let mut left = KeysLeft::new(alloc);
    let text = text_after(alloc, &mut left, changes);
    drop(left);
    text
}

/// Makes the changes, and shows the next key.
fn text_after(
    alloc: Global,
    left: &mut KeysLeft,
    changes: &[&[u8]],
) -> Result<Vec<u8>, AllocError> {
    for change in changes {
        make(alloc, left, change)?;
    }
    match left.next() {
        Some(key) => Vec::from_slice(alloc, key.as_slice()),
        None => Vec::from_slice(alloc, b"none"),
    }
}

/// Makes one change.
fn make(alloc: Global, left: &mut KeysLeft, change: &[u8]) -> Result<(), AllocError> {
    match as_step(change) {
        Some((change, back)) => stepped::make(alloc, left, change_of(alloc, change)?, back),
        None => call(alloc, left, change),
    }
}

/// Makes one change by its call.
fn call(alloc: Global, left: &mut KeysLeft, change: &[u8]) -> Result<(), AllocError> {
    match change {
        b"step" => left.forget(),
        b"back" => left.undo_step(),
        b"clear" => left.clear(),
        _ => match change_of(alloc, change)? {
            KeysChange::Begin(keys) => return left.begin::<true>(keys),
            KeysChange::End(count) => left.end(count),
            KeysChange::Advance => return left.advance::<true>(),
            _ => {}
        },
    }
    Ok(())
}

/// The change of keys that a part is.
fn change_of(alloc: Global, change: &[u8]) -> Result<KeysChange, AllocError> {
    if let Some(words) = change.strip_prefix(b"begin ".as_slice()) {
        let mut keys = Vec::new(alloc);
        for key in words.split(|b| *b == b' ') {
            keys.push(Bytes::from_slice(alloc, key)?)?;
        }
        return Ok(KeysChange::Begin(keys));
    }
    Ok(match setting_of(change) {
        (b"end", count) => KeysChange::End(count.unwrap_or(0)),
        (b"advance", _) => KeysChange::Advance,
        _ => KeysChange::Clear,
    })
}
