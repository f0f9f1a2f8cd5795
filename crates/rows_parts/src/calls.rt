//! `calls` and changes: how many activations there are, and the locals of the newest. A change is `enter`, `local VALUE`,
//! `local N=VALUE`, `leave` or `leave all`; with `apply` or `there and back` before it, a step of its own, which the second takes back.

use crate::stepped::{self, as_step};
use rawk_frames::{Frames, FramesChange, Local};
use rawk_value::Value;
use rows_cases::{number_of, push_value, value_of};
use std::alloc::{AllocError, Global};

/// The activations after changes.
pub fn changed(alloc: Global, changes: &[&[u8]]) -> Result<Vec<u8>, AllocError> {
    let mut frames = Frames::new(alloc);
    let text = text_after(alloc, &mut frames, changes);
    drop(frames);
    text
}

/// Makes the changes, and shows what came of them.
fn text_after(
    alloc: Global,
    frames: &mut Frames,
    changes: &[&[u8]],
) -> Result<Vec<u8>, AllocError> {
    for change in changes {
        make(alloc, frames, change)?;
    }
    shown(alloc, frames)
}

/// Makes one change.
fn make(alloc: Global, frames: &mut Frames, change: &[u8]) -> Result<(), AllocError> {
    match as_step(change) {
        Some((change, back)) => stepped::make(alloc, frames, change_of(alloc, change)?, back),
        None => call(alloc, frames, change),
    }
}

/// Makes one change by its call.
fn call(alloc: Global, frames: &mut Frames, change: &[u8]) -> Result<(), AllocError> {
    match change {
        b"enter" => return frames.enter::<true>(8, 3, 101, Some(4), 25),
        b"leave" => {
            let _ = frames.leave();
        }
        b"leave all" => frames.leave_all(),
        _ => return put_local(alloc, frames, change),
    }
    Ok(())
}

/// Adds or sets a local, if the change does that.
fn put_local(alloc: Global, frames: &mut Frames, change: &[u8]) -> Result<(), AllocError> {
    let Some(local) = change.strip_prefix(b"local ".as_slice()) else {
        return Ok(());
    };
    match written(alloc, local)? {
        (Some(number), local) => frames.set_local::<true>(number, local),
        (None, local) => frames.add_local::<true>(local),
    }
}

/// A local, and the number that stands before it and a `=`.
fn written(alloc: Global, local: &[u8]) -> Result<(Option<usize>, Local), AllocError> {
    let (number, value) = match local {
        [number, b'=', value @ ..] => (number_of(&[*number]), value),
        value => (None, value),
    };
    let value = value_of(alloc, value)?.unwrap_or(Value::Uninitialized);
    Ok((number, Local::Holds(value)))
}

/// The change of activations that a part is.
fn change_of(alloc: Global, change: &[u8]) -> Result<FramesChange, AllocError> {
    Ok(match change {
        b"enter" => FramesChange::Enter {
            function: 8,
            arrays_before: 3,
            called_at: 101,
            site: Some(4),
            return_to: 25,
        },
        b"leave" => FramesChange::Leave,
        [b'l', b'o', b'c', b'a', b'l', b' ', local @ ..] => match written(alloc, local)? {
            (Some(number), local) => FramesChange::SetLocal { number, local },
            (None, local) => FramesChange::AddLocal(local),
        },
        _ => FramesChange::LeaveAll,
    })
}

/// How many activations there are, and the locals of the newest.
fn shown(alloc: Global, frames: &Frames) -> Result<Vec<u8>, AllocError> {
    let depth = frames.depth();
    let mut out = format!(in alloc; "depth {depth}")?.into_bytes();
    for number in 0..usize::MAX {
        let Some(local) = frames.local(number) else {
            break;
        };
        push_local(alloc, &mut out, local)?;
    }
    Ok(out)
}

/// Adds a blank and a local.
fn push_local(alloc: Global, out: &mut Vec<u8>, local: &Local) -> Result<(), AllocError> {
    match local {
        Local::Holds(value) => {
            out.push(b' ')?;
            push_value(out, value)
        }
        Local::Names(array) => {
            let text = format!(in alloc; " array {array}")?;
            out.extend_from_slice(text.as_bytes())
        }
    }
}
