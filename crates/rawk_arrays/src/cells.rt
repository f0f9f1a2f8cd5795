//! Slots of elements, and the keys that they belong to.

ghost use Rattle.std.specs.Bool.{OnTrue};
ghost use Rattle.std.specs.Prelude.{◌≡◌, ℕ, ◌<◌, ◌≤◌, ◌++◌, ◌∷◌, [], All, IfOk, OnErr, OnOk, None, Some, if◌then◌else◌, is_some, length, slice_get, slice_set};
ghost use Rattle.std.specs.Option.{option_copied};
ghost use Rattle.std.specs.FinMap.{get};
ghost use Rattle.rawk_value.specs.Values.{text_of};
ghost use Rattle.rawk_slots.specs.Journaled.{Longer, at_rest};
ghost use Rattle.rawk_keys.specs.ArrayKey.{ArrayKey, array_key};
ghost use Rattle.rawk_arrays.specs.Elements.{map_keys};
ghost use Rattle.rawk_arrays.specs.Laid.{AreDistinct, AreLaid, IsCovered, IsEmptied, IsLaid, IsPacked, IsPut, IsSpread, elements_of, slot};
ghost use Rattle.rawk_arrays.specs.Counted.{AreCounted, IsAddedTo};
ghost use Rattle.rawk_arrays.specs.Heads.{IsHeaded, headed_keys};
ghost use Rattle.rawk_arrays.specs.Walks.{IsEach, IsSlotEmptied};

use crate::counts::{reach, recount};
use crate::heads::{HeadedKey, copies, headed};
use itoa::Buffer;
use rawk_keys::Keys;
use rawk_slots::Slots;
use rawk_value::order::digits_in;
use rawk_value::{Bytes, Value};
use std::alloc::{AllocError, Global};

/// Slots of elements, filled or empty.
pub(crate) type ElementSlots = Slots<Option<Value>>;

/// What stands in a slot.
pub(crate) fn filled(cells: &ElementSlots, number: usize) -> Option<&Value>
    ensures { option_copied result ≡ slot cells.now.now number }
{
    match cells.value(number) {
        Some(cell) => cell.as_ref(),
        None => None,
    }
}

/// An element, if it is there.
pub(crate) fn element<'a>(
    index: &Keys,
    cells: &'a ElementSlots,
    array: usize,
    key: &[u8],
) -> Option<&'a Value>
    requires { IsLaid index.now cells.now.now }
    ensures { option_copied result ≡ get (elements_of array index.now cells.now.now) key.now }
{
    match index.find(array, key) {
        Some(number) => filled(cells, number),
        None => None,
    }
}

// The number of a name, which is added where it is missing.
#[inline(always)]
fn number_of(alloc: Global, index: &mut Keys, array: usize, key: &[u8]) -> Result<usize, AllocError>
    ensures there { IfOk result (λ i. slice_get index.new i ≡ Some (array_key array key.now)) }
    ensures more { Longer index.old index.new }
    ensures added { IsAddedTo array index.old index.new }
    ensures distinct { AreDistinct index.old → AreDistinct index.new }
{
    let number = index.entry(alloc, array, key)?;
    Ok(number)
}

// Adds empty slots until there are `count`. It fails where memory is refused; those that were added stay.
#[inline(never)]
fn cover(cells: &mut ElementSlots, count: usize) -> Result<(), AllocError>
    ensures covered { IsCovered count cells.old cells.new }
    ensures enough { OnOk result (count ≤ length cells.new.now) }
{
    while cells.len() < count {
        cells.add(None)?;
    }
    Ok(())
}

/// The slot of a key, which is added, and empty, where it is missing. It fails where memory is refused; what was added stays.
#[inline(always)]
pub(crate) fn slot_for(
    alloc: Global,
    index: &mut Keys,
    cells: &mut ElementSlots,
    counts: &mut Vec<usize>,
    array: usize,
    key: &[u8],
) -> Result<usize, AllocError>
    requires laid { AreLaid index.old cells.old }
    requires counted { AreCounted index.old cells.old.now counts.old.items }
    ensures laid { AreLaid index.new cells.new }
    ensures counted { AreCounted index.new cells.new.now counts.new.items }
    ensures there { IfOk result (λ i. slice_get index.new i ≡ Some (array_key array key.now)) }
    ensures within { IfOk result (λ i. i < length cells.new.now) }
    ensures more { Longer index.old index.new }
    ensures now { IsSpread cells.old.now cells.new.now }
    ensures start { IsSpread cells.old.start cells.new.start }
{
    reach(counts, array)?;
    let number = number_of(alloc, index, array, key)?;
    let _count = index.len();
    cover(cells, number + 1)?;
    Ok(number)
}

/// The same of a number's key, without a search where its slot is noted; one that is found by a search, or added, is handed to the index to be noted.
#[inline(never)]
pub(crate) fn slot_for_number(
    alloc: Global,
    index: &mut Keys,
    cells: &mut ElementSlots,
    counts: &mut Vec<usize>,
    array: usize,
    key: i64,
) -> Result<usize, AllocError>
    requires laid { AreLaid index.old cells.old }
    requires counted { AreCounted index.old cells.old.now counts.old.items }
    ensures laid { AreLaid index.new cells.new }
    ensures counted { AreCounted index.new cells.new.now counts.new.items }
    ensures there { IfOk result (λ i. slice_get index.new i ≡ Some (array_key array (text_of (Value.Number key)))) }
    ensures within { IfOk result (λ i. i < length cells.new.now) }
    ensures more { Longer index.old index.new }
    ensures now { IsSpread cells.old.now cells.new.now }
    ensures start { IsSpread cells.old.start cells.new.start }
{
    if let Some(number) = index.noted(array, key) {
        if number < cells.len() {
            return Ok(number);
        }
    }
    let before = index.len();
    let mut digits = Buffer::new();
    let number = slot_for(
        alloc,
        index,
        cells,
        counts,
        array,
        digits_in(key, &mut digits),
    )?;
    if number < before {
        index.note_found(array, key, number);
    } else {
        index.note(array, key, number);
    }
    Ok(number)
}

/// Fills or empties a slot, counts what it was and is, and answers whether it was filled; a number that is no slot changes nothing, and is not filled. It fails where memory is refused, and
/// then nothing has changed.
#[inline(always)]
pub(crate) fn set_slot<const SAVES: bool>(
    index: &Keys,
    cells: &mut ElementSlots,
    counts: &mut Vec<usize>,
    number: usize,
    value: Option<Value>,
) -> Result<bool, AllocError>
    requires laid { AreLaid index.now cells.old }
    requires counted { AreCounted index.now cells.old.now counts.old.items }
    ensures laid { AreLaid index.now cells.new }
    ensures counted { AreCounted index.now cells.new.now counts.new.items }
    ensures did { OnOk result (cells.new.now ≡ slice_set cells.old.now number value) }
    ensures err { OnErr result (cells.new.now ≡ cells.old.now) }
    ensures start { OnTrue SAVES (cells.new.start ≡ cells.old.start) }
    ensures size { length cells.new.start ≡ length cells.old.start }
{
    if number >= cells.len() {
        return Ok(false);
    }
    let _names = index.len();
    let was = is_filled(cells, number);
    let is = value.is_some();
    cells.write::<SAVES>(number, value)?;
    recount(index, counts, number, was, is);
    Ok(was)
}

/// Fills or empties the slot of a key. It fails where memory is refused, and then no element has changed.
#[inline(always)]
pub(crate) fn put<const SAVES: bool>(
    alloc: Global,
    index: &mut Keys,
    cells: &mut ElementSlots,
    counts: &mut Vec<usize>,
    array: usize,
    key: &[u8],
    value: Option<Value>,
) -> Result<(), AllocError>
    requires laid { AreLaid index.old cells.old }
    requires counted { AreCounted index.old cells.old.now counts.old.items }
    ensures laid { AreLaid index.new cells.new }
    ensures counted { AreCounted index.new cells.new.now counts.new.items }
    ensures did { OnOk result (IsPut array key.now value index.old cells.old.now index.new cells.new.now) }
    ensures err { OnErr result (IsSpread cells.old.now cells.new.now) }
    ensures more { Longer index.old index.new }
    ensures start { OnTrue SAVES (IsSpread cells.old.start cells.new.start) }
{
    let number = slot_for(alloc, index, cells, counts, array, key)?;
    set_slot::<SAVES>(index, cells, counts, number, value)?;
    Ok(())
}

// Empties a slot. It fails where memory is refused, and then nothing has changed.
fn empty_slot<const SAVES: bool>(
    index: &Keys,
    cells: &mut ElementSlots,
    counts: &mut Vec<usize>,
    number: usize,
) -> Result<(), AllocError>
    requires laid { AreLaid index.now cells.old }
    requires counted { AreCounted index.now cells.old.now counts.old.items }
    ensures laid { AreLaid index.now cells.new }
    ensures counted { AreCounted index.now cells.new.now counts.new.items }
    ensures did { OnOk result (IsSlotEmptied number cells.old.now cells.new.now) }
    ensures start { OnTrue SAVES (cells.new.start ≡ cells.old.start) }
    ensures err { OnErr result (cells.new.now ≡ cells.old.now) }
    ensures size { length cells.new.start ≡ length cells.old.start }
{
    if filled(cells, number).is_none() {
        return Ok(());
    }
    set_slot::<SAVES>(index, cells, counts, number, None)?;
    Ok(())
}

/// Empties the slots of an array, in a time linear in their number, and gives about how many there are. It fails where memory is refused;
/// those that were emptied stay so.
pub(crate) fn empty<const SAVES: bool>(
    index: &Keys,
    cells: &mut ElementSlots,
    counts: &mut Vec<usize>,
    array: usize,
) -> Result<usize, AllocError>
    requires laid { AreLaid index.now cells.old }
    requires counted { AreCounted index.now cells.old.now counts.old.items }
    ensures laid { AreLaid index.now cells.new }
    ensures counted { AreCounted index.now cells.new.now counts.new.items }
    ensures did { OnOk result (IsEmptied array index.now cells.old.now cells.new.now) }
    ensures start { OnTrue SAVES (cells.new.start ≡ cells.old.start) }
{
    let mut at = index.latest(array);
    let _count = index.len();
    let mut walked = 0usize;
    while let Some(number) = at {
        empty_slot::<SAVES>(index, cells, counts, number)?;
        walked = walked.saturating_add(1);
        at = index.earlier(number);
    }
    Ok(walked)
}

/// Whether a slot is filled.
pub(crate) fn is_filled(cells: &ElementSlots, number: usize) -> bool
    ensures { result ≡ is_some (slot cells.now.now number) }
{
    filled(cells, number).is_some()
}

// The keys of an array's elements, the newest first. Room for `count` of them is taken at once.
fn keys_unsorted<'a>(
    alloc: Global,
    index: &'a Keys,
    cells: &ElementSlots,
    array: usize,
    count: usize,
) -> Result<Vec<HeadedKey<'a>>, AllocError>
    requires { IsLaid index.now cells.now.now }
    ensures each { IfOk result (λ found. IsEach (headed_keys found.items) (elements_of array index.now cells.now.now)) }
    ensures headed { IfOk result (λ found. All IsHeaded found.items) }
{
    let mut found = Vec::with_capacity(alloc, count)?;
    let mut at = index.latest(array);
    let _names = index.len();
    while let Some(number) = at {
        push_filled(index, cells, number, &mut found)?;
        at = index.earlier(number);
    }
    Ok(found)
}

// Adds the key of a slot that is filled.
fn push_filled<'a>(
    index: &'a Keys,
    cells: &ElementSlots,
    number: usize,
    found: &mut Vec<HeadedKey<'a>>,
) -> Result<(), AllocError>
    requires there { number < length index.now }
    requires headed { All IsHeaded found.old.items }
    ensures did { OnOk result ((name : ArrayKey) → slice_get index.now number ≡ Some name → headed_keys found.new.items ≡ headed_keys found.old.items ++ (if is_some (slot cells.now.now number) then name.key ∷ [] else [])) }
    ensures headed { OnOk result (All IsHeaded found.new.items) }
{
    if is_filled(cells, number) {
        found.push(headed(index.key(number)))?;
    }
    Ok(())
}

/// The keys of an array's elements, in byte order. Room for `count` of them is taken at once.
pub(crate) fn keys(
    alloc: Global,
    index: &Keys,
    cells: &ElementSlots,
    array: usize,
    count: usize,
) -> Result<Vec<Bytes>, AllocError>
    requires { IsLaid index.now cells.now.now }
    ensures { IfOk result (λ found. found.items ≡ map_keys (elements_of array index.now cells.now.now)) }
{
    let mut found = keys_unsorted(alloc, index, cells, array, count)?;
    found.sort_unstable();
    copies(alloc, &found)
}

// What one slot is of the arrays below `live`, put into others.
fn pack_one(
    alloc: Global,
    index: &Keys,
    cells: &ElementSlots,
    live: usize,
    number: usize,
    packed_names: &mut Keys,
    packed: &mut ElementSlots,
    packed_counts: &mut Vec<usize>,
) -> Result<(), AllocError>
    requires there { number < length index.now }
    requires laid { AreLaid packed_names.old packed.old }
    requires counted { AreCounted packed_names.old packed.old.now packed_counts.old.items }
    ensures laid { AreLaid packed_names.new packed.new }
    ensures counted { AreCounted packed_names.new packed.new.now packed_counts.new.items }
    ensures did { OnOk result ((name : ArrayKey) → slice_get index.now number ≡ Some name → IsPacked live name (slot cells.now.now number) packed_names.old packed.old.now packed_names.new packed.new.now) }
{
    let array = index.array(number);
    if array >= live {
        return Ok(());
    }
    match filled(cells, number) {
        Some(value) => {
            let copy = value.copy(alloc)?;
            put::<false>(
                alloc,
                packed_names,
                packed,
                packed_counts,
                array,
                index.key(number),
                Some(copy),
            )?;
            Ok(())
        }
        None => Ok(()),
    }
}

// The arrays below `live`, put into others, without the slots that are empty.
fn pack_into(
    alloc: Global,
    index: &Keys,
    cells: &ElementSlots,
    live: usize,
    packed_names: &mut Keys,
    packed: &mut ElementSlots,
    packed_counts: &mut Vec<usize>,
) -> Result<(), AllocError>
    requires from { IsLaid index.now cells.now.now }
    requires index { packed_names.old ≡ [] }
    requires cells { packed.old ≡ at_rest [] }
    requires counts { packed_counts.old.items ≡ [] }
    ensures laid { AreLaid packed_names.new packed.new }
    ensures counted { AreCounted packed_names.new packed.new.now packed_counts.new.items }
    ensures did { OnOk result ((b : ℕ) → b < live → elements_of b packed_names.new packed.new.now ≡ elements_of b index.now cells.now.now) }
{
    let _names = index.len();
    for number in 0..cells.len() {
        pack_one(
            alloc,
            index,
            cells,
            live,
            number,
            packed_names,
            packed,
            packed_counts,
        )?;
    }
    Ok(())
}

/// Removes the slots that are empty, and those of arrays from `live` on, where memory for it is there.
pub(crate) fn pack(
    alloc: Global,
    index: &mut Keys,
    cells: &mut ElementSlots,
    counts: &mut Vec<usize>,
    live: usize,
)
    requires laid { AreLaid index.old cells.old }
    requires counted { AreCounted index.old cells.old.now counts.old.items }
    requires rest { cells.old.start ≡ cells.old.now }
    ensures laid { AreLaid index.new cells.new }
    ensures counted { AreCounted index.new cells.new.now counts.new.items }
    ensures rest { cells.new.start ≡ cells.new.now }
    ensures same { (b : ℕ) → b < live → elements_of b index.new cells.new.now ≡ elements_of b index.old cells.old.now }
{
    let mut packed_names = Keys::new_like(alloc, index);
    let mut packed = Slots::new(alloc);
    let mut packed_counts = Vec::new(alloc);
    let done = pack_into(
        alloc,
        index,
        cells,
        live,
        &mut packed_names,
        &mut packed,
        &mut packed_counts,
    );
    if done.is_ok() {
        packed.forget();
        *index = packed_names;
        *cells = packed;
        *counts = packed_counts;
    }
}
