//! Activations: how a call enters one with its arguments, and how all of them are left.

ghost use Rattle.std.specs.Bool.{OnTrue};
ghost use Rattle.std.specs.Prelude.{◌≡◌, ◌+◌, ◌^◌, ◌<◌, List, [], ◌∷◌, take, MatchOption, OnOk};
ghost use Rattle.rawk_store.specs.Layout.{Grown};
ghost use Rattle.rawk_store.specs.Stores.{start_of};
ghost use Rattle.rawk_words.specs.declared.array.Array.{Array};
ghost use Rattle.rawk_arrays.specs.Elements.{Elements};
ghost use Rattle.rawk_frames.specs.LaidFrames.{frames_of};
ghost use Rattle.rawk_code.specs.Actions.{arrays_outside, named_in};
ghost use Rattle.rawk_operands.specs.Moving.{moving};
ghost use Rattle.rawk_calls.specs.Activations.{called_in, outside};

use crate::arguments::{add_locals, each_number};
use crate::light::take_light;
use rawk_code::Entry;
use rawk_store::{Frames, Store, array_number};
use rawk_words::Array;
use std::alloc::{AllocError, Global};

/// Adds an activation of a function with this entry, whose scalars take `count` operands and whose arrays have these numbers, and goes to the entry. It fails where memory is refused.
#[inline(always)]
fn take_numbered<const SAVES: bool>(
    alloc: Global,
    numbers: &[Option<usize>],
    store: &mut Store,
    function: usize,
    count: usize,
    entry: &Entry,
) -> Result<(), AllocError>
    requires place { store.old.registers.now.place + 1 < 2 ^ 64 }
    ensures did { OnOk result ((arrays : List Array) → numbers.now ≡ named_in arrays (moving store.old).frames → moving store.new ≡ called_in entry.now function count arrays (moving store.old)) }
    ensures start { OnTrue SAVES (Grown (start_of store.old) (start_of store.new)) }
{
    let arrays_before = store.arrays.len();
    store.frames.enter::<SAVES>(
        function,
        arrays_before,
        store.registers.now.here,
        store.registers.now.site,
        store.registers.now.place + 1,
    )?;
    add_locals::<SAVES>(alloc, store, entry.kinds.as_slice(), count, numbers)?;
    store.operands.drop_newest(count);
    store.registers.now.place = entry.place;
    Ok(())
}

/// The same of a call that passes one array: no list of numbers is made.
#[inline(never)]
fn take_array<const SAVES: bool>(
    alloc: Global,
    array: Array,
    store: &mut Store,
    function: usize,
    count: usize,
    entry: &Entry,
) -> Result<(), AllocError>
    requires place { store.old.registers.now.place + 1 < 2 ^ 64 }
    ensures did { OnOk result (moving store.new ≡ called_in entry.now function count (array ∷ []) (moving store.old)) }
    ensures start { OnTrue SAVES (Grown (start_of store.old) (start_of store.new)) }
{
    let number = array_number(&store.frames, array);
    take_numbered::<SAVES>(alloc, &[number], store, function, count, entry)
}

/// The same of a call that passes these arrays.
#[inline(never)]
fn take_arrays<const SAVES: bool>(
    alloc: Global,
    arrays: &[Array],
    store: &mut Store,
    function: usize,
    count: usize,
    entry: &Entry,
) -> Result<(), AllocError>
    requires place { store.old.registers.now.place + 1 < 2 ^ 64 }
    ensures did { OnOk result (moving store.new ≡ called_in entry.now function count arrays.now (moving store.old)) }
    ensures start { OnTrue SAVES (Grown (start_of store.old) (start_of store.new)) }
{
    if let [array] = arrays {
        return take_array::<SAVES>(alloc, *array, store, function, count, entry);
    }
    let numbers = each_number(alloc, &store.frames, arrays)?;
    take_numbered::<SAVES>(alloc, &numbers, store, function, count, entry)
}

/// The same of a call that passes no arrays, in any way.
#[inline(never)]
fn take_any<const SAVES: bool>(
    alloc: Global,
    store: &mut Store,
    function: usize,
    count: usize,
    entry: &Entry,
) -> Result<(), AllocError>
    requires place { store.old.registers.now.place + 1 < 2 ^ 64 }
    ensures did { OnOk result (moving store.new ≡ called_in entry.now function count [] (moving store.old)) }
    ensures start { OnTrue SAVES (Grown (start_of store.old) (start_of store.new)) }
{
    take_numbered::<SAVES>(alloc, &[], store, function, count, entry)
}

/// The same of a call that passes no arrays.
#[inline(never)]
fn take_scalars<const SAVES: bool>(
    alloc: Global,
    store: &mut Store,
    function: usize,
    count: usize,
    entry: &Entry,
) -> Result<(), AllocError>
    requires place { store.old.registers.now.place + 1 < 2 ^ 64 }
    ensures did { OnOk result (moving store.new ≡ called_in entry.now function count [] (moving store.old)) }
    ensures start { OnTrue SAVES (Grown (start_of store.old) (start_of store.new)) }
{
    if !SAVES && store.frames.has_next() {
        return take_light(alloc, store, function, count, entry);
    }
    take_any::<SAVES>(alloc, store, function, count, entry)
}

/// The same of any call.
#[inline(always)]
pub fn take_in<const SAVES: bool>(
    alloc: Global,
    arrays: &[Array],
    store: &mut Store,
    function: usize,
    count: usize,
    entry: &Entry,
) -> Result<(), AllocError>
    requires place { store.old.registers.now.place + 1 < 2 ^ 64 }
    ensures did { OnOk result (moving store.new ≡ called_in entry.now function count arrays.now (moving store.old)) }
    ensures start { OnTrue SAVES (Grown (start_of store.old) (start_of store.new)) }
{
    if arrays.is_empty() {
        return take_scalars::<SAVES>(alloc, store, function, count, entry);
    }
    take_arrays::<SAVES>(alloc, arrays, store, function, count, entry)
}

/// How many arrays there were before the oldest activation, if there is one.
fn arrays_outside(frames: &Frames) -> Option<usize>
    ensures { MatchOption result (frames_of frames.now.now ≡ []) (λ n. (arrays : List Elements) → arrays_outside (frames_of frames.now.now) arrays ≡ take n arrays) }
{
    let depth = frames.depth();
    if depth == 0 {
        return None;
    }
    match frames.frame(depth - 1) {
        Some(oldest) => Some(oldest.arrays_before),
        None => None,
    }
}

/// Removes all activations with their arrays.
pub fn leave_all(store: &mut Store)
    ensures did { moving store.new ≡ outside (moving store.old) }
    ensures start { start_of store.new ≡ start_of store.old }
{
    if let Some(count) = arrays_outside(&store.frames) {
        store.arrays.truncate(count);
    }
    store.frames.leave_all();
}
