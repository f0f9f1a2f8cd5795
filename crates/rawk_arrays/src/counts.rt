//! How many elements each array has.

ghost use Rattle.std.specs.Prelude.{◌≡◌, ◌+◌, ◌-◌, ◌^◌, ◌<◌, OnOk, Some, length, slice_get, slice_index, slice_set};
ghost use Rattle.rawk_slots.specs.Back.{back, AreBelow, HasDistinctPlaces};
ghost use Rattle.rawk_keys.specs.ArrayKey.{ArrayKey};
ghost use Rattle.rawk_arrays.specs.Counted.{AreCounted, HasMore};
ghost use Rattle.rawk_arrays.specs.Laid.{IsLaid};
ghost use Rattle.rawk_arrays.specs.Walks.{one};

use crate::cells::{ElementSlots, is_filled};
use rawk_keys::Keys;
use rawk_slots::Saved;
use rawk_value::Value;
use std::alloc::AllocError;

/// The count of an array; an array that has none has no elements.
pub(crate) fn count(counts: &[usize], array: usize) -> usize
    ensures { result ≡ slice_index counts.now array }
{
    if array < counts.len() {
        counts[array]
    } else {
        0
    }
}

/// Adds counts of no elements up to that of an array. It fails where memory is refused; those that were added stay.
pub(crate) fn reach(counts: &mut Vec<usize>, array: usize) -> Result<(), AllocError>
    ensures more { HasMore counts.old.items counts.new.items }
    ensures room { OnOk result (array < length counts.new.items) }
{
    while counts.len() <= array {
        counts.push(0)?;
    }
    Ok(())
}

/// Counts the slot of a key that was filled or empty, and is it or not any more.
pub(crate) fn recount(index: &Keys, counts: &mut Vec<usize>, number: usize, was: bool, is: bool)
    requires there { number < length index.now }
    requires within { (name : ArrayKey) → slice_get index.now number ≡ Some name → name.array < length counts.old.items }
    requires room { (name : ArrayKey) → slice_get index.now number ≡ Some name → slice_index counts.old.items name.array + one is < 2 ^ 64 + one was }
    ensures { (name : ArrayKey) → slice_get index.now number ≡ Some name → counts.new.items ≡ slice_set counts.old.items name.array (slice_index counts.old.items name.array + one is - one was) }
{
    if was == is {
        return;
    }
    let array = index.array(number);
    counts[array] = if is {
        counts[array] + 1
    } else {
        counts[array].saturating_sub(1)
    };
}

/// Counts what old values make of the slots that they are put back into.
pub(crate) fn recount_back(
    index: &Keys,
    cells: &ElementSlots,
    counts: &mut Vec<usize>,
    saved: &[Saved<Option<Value>>],
)
    requires laid { IsLaid index.now cells.now.now }
    requires counted { AreCounted index.now cells.now.now counts.old.items }
    requires below { AreBelow (length cells.now.now) saved.now }
    requires distinct { HasDistinctPlaces saved.now }
    ensures { AreCounted index.now (back cells.now.now saved.now) counts.new.items }
{
    let _names = index.len();
    let mut left = saved.len();
    while left > 0 {
        left -= 1;
        let entry = &saved[left];
        let was = is_filled(cells, entry.place);
        recount(index, counts, entry.place, was, entry.old.is_some());
    }
}
