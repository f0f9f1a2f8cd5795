//! Arrays by number, and what stood in them when the step began.

ghost use Rattle.std.specs.Prelude.{◌≡◌, false, ◌≤◌, ℕ, ◌++◌, ◌∷◌, [], IfOk, IfSome, MatchOption, OnErr, OnOk, Some, length, replicate, slice_get, take};
ghost use Rattle.std.specs.FinMap.{len};
ghost use Rattle.std.specs.Bool.{OnTrue};
ghost use Rattle.std.specs.Option.{option_copied};
ghost use Rattle.rawk_value.specs.Values.{Bytes, text_of};
ghost use Rattle.rawk_slots.specs.Journaled.{at_rest};
ghost use Rattle.rawk_slots.specs.Back.{back};
ghost use Rattle.rawk_arrays.specs.Elements.{array_at, changed_arrays, cleared, element_at, is_element, keys_at, no_elements, touched, with_element, with_put, without_element};
ghost use Rattle.rawk_arrays.specs.Laid.{ArePlaces, GrownArrays, IsLaid, IsPlaceOf, arrays_of, no_arrays};
ghost use Rattle.rawk_arrays.specs.ArraysBack.{FitsArrays, arrays_back};
ghost use Rattle.rawk_arrays.specs.Slotted.{IsSlotOf};
ghost use Rattle.rawk_keys.specs.declared.series.Run.{Run};

use crate::cells::{
    ElementSlots, element, empty, filled, keys, pack, put, set_slot, slot_for, slot_for_number,
};
use crate::counts::{count, recount_back};
use itoa::Buffer;
use rawk_keys::{Keys, Run};
use rawk_slots::{Reversible, SlotGroup, Slots};
use rawk_value::order::digits_in;
use rawk_value::{Bytes, Value};
use std::alloc::{AllocError, Global};
use std::marker::Model;

/// This many empty slots are never worth removing.
const FEW: usize = 512;

/// The arrays, of which a number index one, beside what they were when the step began.
///
/// Each key has a slot, which is filled where the element is there. A contract sees the index, the slots and how many arrays there are;
/// the arrays of an array number that is not in use keep their slots until the number is used again.
#[derive(Drop)]
pub struct Arrays {
    alloc: Global,
    index: Keys,
    cells: ElementSlots,
    // How many elements each array has, by its number.
    counts: Vec<usize>,
    live: usize,
    began: usize,
    // How many slots were emptied and not filled again since the empty ones were last removed, about: one that was empty counts too where its array is cleared.
    emptied: usize,
}

impl Model for Arrays {
    ghost use Rattle.rawk_slots.specs.Journaled.{Journaled};
    ghost use Rattle.rawk_arrays.specs.Laid.{Laid};
    ghost use Rattle.rawk_arrays.specs.Counted.{AreKept};

    ghost Value = { Journaled Laid };

    ghost view = { λ a. record {
      now = record { index = a.index; slots = a.cells.now; live = a.live };
      start = record { index = a.index; slots = a.cells.start; live = a.began };
    } };

    ghost invariant = { λ a. AreKept a.index a.cells a.counts.items };
}

/// What a step changed in arrays: the slots, and how many arrays there were.
#[derive(Drop)]
pub struct ArraysGroup {
    pub slots: SlotGroup<Option<Value>>,
    pub live: usize,
}

/// A change of the arrays. A number that has no array changes nothing.
#[derive(Drop)]
pub enum ArraysChange {
    Set {
        array: usize,
        key: Vec<u8>,
        value: Value,
    },
    Touch {
        array: usize,
        key: Vec<u8>,
    },
    Delete {
        array: usize,
        key: Vec<u8>,
    },
    Clear {
        array: usize,
    },
    /// this many
    AddEmpty(usize),
    /// to this many at most
    Truncate(usize),
}

/// Counts a slot that is filled, one of `count`, off the emptied ones. One that was filled before or was added last was not emptied.
#[inline(always)]
fn count_filled(emptied: &mut usize, was_filled: bool, place: usize, count: usize) {
    if !was_filled && place < count.saturating_sub(1) {
        *emptied = emptied.saturating_sub(1);
    }
}

/// Counts a slot that is emptied among the emptied ones, where it was filled.
#[inline(always)]
fn count_emptied(emptied: &mut usize, was_filled: bool) {
    if was_filled {
        *emptied = emptied.saturating_add(1);
    }
}

impl Arrays {
    /// No arrays, whose keys are found by hashes with this seed. It takes no memory.
    pub fn new(alloc: Global, seed: u64) -> Self
        ensures { result ≡ at_rest no_arrays }
    {
        Arrays {
            alloc,
            index: Keys::new(alloc, seed),
            cells: Slots::new(alloc),
            counts: Vec::new(alloc),
            live: 0,
            began: 0,
            emptied: 0,
        }
    }

    /// How many arrays there are.
    pub fn len(&self) -> usize
        ensures { result ≡ length (arrays_of self.now.now) }
    {
        self.live
    }

    /// An element, if it is there. A number that has no array has no elements.
    pub fn element(&self, array: usize, key: &[u8]) -> Option<&Value>
        ensures { option_copied result ≡ element_at array key.now (arrays_of self.now.now) }
    {
        if array < self.live {
            return element(&self.index, &self.cells, array, key);
        }
        None
    }

    /// The number of the slot of an element, which it keeps; `None` where the key has no slot, and so no element. It makes none.
    pub fn slot_number(&self, array: usize, key: &[u8]) -> Option<usize>
        ensures { IsSlotOf array key.now self.now.now result }
    {
        match self.index.find(array, key) {
            Some(number) => {
                if number < self.cells.len() {
                    return Some(number);
                }
                None
            }
            None => None,
        }
    }

    /// A slot, filled or empty; `None` past the last. What stood there at an earlier time is given by the groups that lead back there.
    pub fn slot(&self, number: usize) -> Option<&Option<Value>>
        ensures { option_copied result ≡ slice_get self.now.now.slots number }
    {
        self.cells.value(number)
    }

    /// Whether an element is there.
    pub fn has(&self, array: usize, key: &[u8]) -> bool
        ensures { result ≡ is_element array key.now (arrays_of self.now.now) }
    {
        self.element(array, key).is_some()
    }

    /// How many elements an array has, at once.
    pub fn count(&self, array: usize) -> usize
        ensures { result ≡ len (array_at array (arrays_of self.now.now)) }
    {
        if array < self.live {
            return count(&self.counts, array);
        }
        0
    }

    /// The keys of an array's elements, in byte order: a copy of each, and one sort. It fails where memory is refused.
    pub fn keys(&self, alloc: Global, array: usize) -> Result<Vec<Bytes>, AllocError>
        ensures { IfOk result (λ found. found.items ≡ keys_at array (arrays_of self.now.now)) }
    {
        if array >= self.live {
            return Ok(Vec::new(alloc));
        }
        let count = count(&self.counts, array);
        let found = keys(alloc, &self.index, &self.cells, array, count)?;
        Ok(found)
    }

    // Fills or empties a slot of an array; a number that has no array changes nothing.
    fn put<const SAVES: bool>(
        &mut self,
        alloc: Global,
        array: usize,
        key: &[u8],
        value: Option<Value>,
    ) -> Result<(), AllocError>
        ensures did { OnOk result (arrays_of self.new.now ≡ with_put array key.now value (arrays_of self.old.now)) }
        ensures err { OnErr result (arrays_of self.new.now ≡ arrays_of self.old.now) }
        ensures start { OnTrue SAVES (GrownArrays self.old.start self.new.start) }
    {
        if array < self.live {
            put::<SAVES>(
                alloc,
                &mut self.index,
                &mut self.cells,
                &mut self.counts,
                array,
                key,
                value,
            )?;
        }
        Ok(())
    }

    /// Assigns to an element; a number that has no array changes nothing. It fails where memory is refused, and then no element has changed.
    pub fn set<const SAVES: bool>(
        &mut self,
        alloc: Global,
        array: usize,
        key: &[u8],
        value: Value,
    ) -> Result<(), AllocError>
        ensures did { OnOk result (arrays_of self.new.now ≡ with_element array key.now value (arrays_of self.old.now)) }
        ensures err { OnErr result (arrays_of self.new.now ≡ arrays_of self.old.now) }
        ensures start { OnTrue SAVES (GrownArrays self.old.start self.new.start) }
    {
        match self.place(alloc, array, key)? {
            Some(place) => self.set_at::<SAVES>(place, value),
            None => Ok(()),
        }
    }

    /// Assigns to the element at the key of a number, without a search where the keys from 1 to it came one behind another; a number that has no array changes nothing.
    /// It fails where memory is refused, and then no element has changed.
    #[inline(always)]
    pub fn set_numbered<const SAVES: bool>(
        &mut self,
        alloc: Global,
        array: usize,
        key: i64,
        value: Value,
    ) -> Result<(), AllocError>
        ensures did { OnOk result (arrays_of self.new.now ≡ with_element array (text_of (Value.Number key)) value (arrays_of self.old.now)) }
        ensures err { OnErr result (arrays_of self.new.now ≡ arrays_of self.old.now) }
        ensures start { OnTrue SAVES (GrownArrays self.old.start self.new.start) }
    {
        if let Some(place) = self.place_numbered(alloc, array, key)? {
            return self.set_at::<SAVES>(place, value);
        }
        Ok(())
    }

    /// The place of an element, to read it and to write it with one search, until the step ends; `None` for a number that has no array.
    /// The element itself is not made. It fails where memory is refused, and then no element has changed.
    #[inline(always)]
    pub fn place(
        &mut self,
        alloc: Global,
        array: usize,
        key: &[u8],
    ) -> Result<Option<usize>, AllocError>
        ensures place { IfOk result (λ found. MatchOption found (length (arrays_of self.old.now) ≤ array) (λ p. IsPlaceOf array key.now p self.new.now)) }
        ensures same { arrays_of self.new.now ≡ arrays_of self.old.now }
        ensures start { GrownArrays self.old.start self.new.start }
    {
        if array >= self.live {
            return Ok(None);
        }
        let place = slot_for(
            alloc,
            &mut self.index,
            &mut self.cells,
            &mut self.counts,
            array,
            key,
        )?;
        Ok(Some(place))
    }

    /// The place of the element at the key of a number, where the keys from 1 to it came one behind another: no search, and `None` says nothing.
    #[inline(always)]
    pub fn place_in_series(&self, array: usize, key: i64) -> Option<usize>
        ensures { IfSome result (λ p. IsPlaceOf array (text_of (Value.Number key)) p self.now.now) }
    {
        if array >= self.live {
            return None;
        }
        let place = self.index.in_series(array, key)?;
        if place < self.cells.len() {
            return Some(place);
        }
        None
    }

    /// The same where it is noted.
    #[inline(never)]
    pub fn place_noted(&self, array: usize, key: i64) -> Option<usize>
        ensures { IfSome result (λ p. IsPlaceOf array (text_of (Value.Number key)) p self.now.now) }
    {
        if array >= self.live {
            return None;
        }
        let place = self.index.noted(array, key)?;
        if place < self.cells.len() {
            return Some(place);
        }
        None
    }

    /// The places of the elements at the keys from 1 on, as far as these are known to have come one behind another, until the step ends: no search, and a run of none says nothing.
    #[inline(always)]
    pub fn places_from_one(&self, array: usize) -> Run
        ensures { ArePlaces array result self.now.now }
    {
        if array >= self.live {
            return Run { first: 0, count: 0 };
        }
        let run = self.index.from_one(array);
        let slots = self.cells.len().saturating_sub(run.first as usize);
        Run {
            first: run.first,
            count: slots.min(run.count as usize) as u32,
        }
    }

    /// The same of the element at the key of a number, without a search where the keys from 1 to it came one behind another.
    #[inline(always)]
    pub fn place_numbered(
        &mut self,
        alloc: Global,
        array: usize,
        key: i64,
    ) -> Result<Option<usize>, AllocError>
        ensures place { IfOk result (λ found. MatchOption found (length (arrays_of self.old.now) ≤ array) (λ p. IsPlaceOf array (text_of (Value.Number key)) p self.new.now)) }
        ensures same { arrays_of self.new.now ≡ arrays_of self.old.now }
        ensures start { GrownArrays self.old.start self.new.start }
    {
        if array >= self.live {
            return Ok(None);
        }
        if let Some(place) = self.place_in_series(array, key) {
            return Ok(Some(place));
        }
        let place = slot_for_number(
            alloc,
            &mut self.index,
            &mut self.cells,
            &mut self.counts,
            array,
            key,
        )?;
        Ok(Some(place))
    }

    /// The element at a place, if it is there.
    #[inline(always)]
    pub fn value_at(&self, place: usize) -> Option<&Value>
        ensures { (a : ℕ) (k : Bytes) → IsPlaceOf a k place self.now.now → option_copied result ≡ element_at a k (arrays_of self.now.now) }
    {
        filled(&self.cells, place)
    }

    /// Assigns to the element at a place. It fails where memory is refused, and then no element has changed.
    #[inline(always)]
    pub fn set_at<const SAVES: bool>(
        &mut self,
        place: usize,
        value: Value,
    ) -> Result<(), AllocError>
        ensures did { OnOk result ((a : ℕ) (k : Bytes) → IsPlaceOf a k place self.old.now → arrays_of self.new.now ≡ with_element a k value (arrays_of self.old.now)) }
        ensures places { OnOk result ((a : ℕ) (run : Run) → ArePlaces a run self.old.now → ArePlaces a run self.new.now) }
        ensures err { OnErr result (self.new.now ≡ self.old.now) }
        ensures start { OnTrue SAVES (self.new.start ≡ self.old.start) }
    {
        let was_filled = set_slot::<SAVES>(
            &self.index,
            &mut self.cells,
            &mut self.counts,
            place,
            Some(value),
        )?;
        let count = self.cells.len();
        count_filled(&mut self.emptied, was_filled, place, count);
        Ok(())
    }

    /// Makes an element that is not there, uninitialised, as reading it does. It fails where memory is refused, and then no element has changed.
    pub fn touch<const SAVES: bool>(
        &mut self,
        alloc: Global,
        array: usize,
        key: &[u8],
    ) -> Result<(), AllocError>
        ensures did { OnOk result (arrays_of self.new.now ≡ touched array key.now (arrays_of self.old.now)) }
        ensures err { OnErr result (arrays_of self.new.now ≡ arrays_of self.old.now) }
        ensures start { OnTrue SAVES (GrownArrays self.old.start self.new.start) }
    {
        if self.has(array, key) {
            return Ok(());
        }
        self.put::<SAVES>(alloc, array, key, Some(Value::Uninitialized))
    }

    /// The place of an element's key, where it has one; without one the element is not there.
    #[inline(always)]
    fn place_there(&self, array: usize, key: &[u8]) -> Option<usize>
        ensures { MatchOption result (is_element array key.now (arrays_of self.now.now) ≡ false) (λ p. IsPlaceOf array key.now p self.now.now) }
    {
        if array >= self.live {
            return None;
        }
        match self.index.find(array, key) {
            Some(place) => {
                if place < self.cells.len() {
                    return Some(place);
                }
                None
            }
            None => None,
        }
    }

    /// Deletes the element at a place, if it is there. It fails where memory is refused, and then no element has changed.
    #[inline(always)]
    fn remove_at<const SAVES: bool>(&mut self, place: usize) -> Result<(), AllocError>
        ensures did { OnOk result ((a : ℕ) (k : Bytes) → IsPlaceOf a k place self.old.now → arrays_of self.new.now ≡ without_element a k (arrays_of self.old.now)) }
        ensures err { OnErr result (self.new.now ≡ self.old.now) }
        ensures start { OnTrue SAVES (self.new.start ≡ self.old.start) }
    {
        let was = set_slot::<SAVES>(&self.index, &mut self.cells, &mut self.counts, place, None)?;
        count_emptied(&mut self.emptied, was);
        Ok(())
    }

    /// Deletes an element, if it is there. It fails where memory is refused, and then no element has changed.
    pub fn delete<const SAVES: bool>(&mut self, array: usize, key: &[u8]) -> Result<(), AllocError>
        ensures did { OnOk result (arrays_of self.new.now ≡ without_element array key.now (arrays_of self.old.now)) }
        ensures err { OnErr result (arrays_of self.new.now ≡ arrays_of self.old.now) }
        ensures start { OnTrue SAVES (self.new.start ≡ self.old.start) }
    {
        match self.place_there(array, key) {
            Some(place) => self.remove_at::<SAVES>(place),
            None => Ok(()),
        }
    }

    /// Deletes the element at the key of a number, if it is there, without a search where the keys from 1 to it came one behind another, or where its place is noted. It fails where memory is refused, and
    /// then no element has changed.
    pub fn delete_numbered<const SAVES: bool>(
        &mut self,
        array: usize,
        key: i64,
    ) -> Result<(), AllocError>
        ensures did { OnOk result (arrays_of self.new.now ≡ without_element array (text_of (Value.Number key)) (arrays_of self.old.now)) }
        ensures err { OnErr result (arrays_of self.new.now ≡ arrays_of self.old.now) }
        ensures start { OnTrue SAVES (self.new.start ≡ self.old.start) }
    {
        if let Some(place) = self.place_in_series(array, key) {
            return self.remove_at::<SAVES>(place);
        }
        if let Some(place) = self.place_noted(array, key) {
            return self.remove_at::<SAVES>(place);
        }
        let mut digits = Buffer::new();
        self.delete::<SAVES>(array, digits_in(key, &mut digits))
    }

    /// Deletes all elements of an array, in a time linear in the slots that it has. It fails where memory is refused; some are deleted then.
    pub fn clear<const SAVES: bool>(&mut self, array: usize) -> Result<(), AllocError>
        ensures did { OnOk result (arrays_of self.new.now ≡ cleared array (arrays_of self.old.now)) }
        ensures start { OnTrue SAVES (self.new.start ≡ self.old.start) }
    {
        if array < self.live {
            let walked = empty::<SAVES>(&self.index, &mut self.cells, &mut self.counts, array)?;
            self.emptied = self.emptied.saturating_add(walked);
        }
        Ok(())
    }

    /// Adds an empty array, whose number is how many there were. It fails where memory is refused.
    pub fn add<const SAVES: bool>(&mut self) -> Result<(), AllocError>
        ensures did { OnOk result (arrays_of self.new.now ≡ arrays_of self.old.now ++ no_elements ∷ []) }
        ensures start { OnTrue SAVES (self.new.start ≡ self.old.start) }
    {
        let Some(live) = self.live.checked_add(1) else {
            return Err(AllocError);
        };
        let walked = empty::<SAVES>(&self.index, &mut self.cells, &mut self.counts, self.live)?;
        self.emptied = self.emptied.saturating_add(walked);
        self.live = live;
        Ok(())
    }

    /// Adds `count` empty arrays. It fails where memory is refused.
    pub fn add_empty<const SAVES: bool>(&mut self, count: usize) -> Result<(), AllocError>
        ensures did { OnOk result (arrays_of self.new.now ≡ arrays_of self.old.now ++ replicate count no_elements) }
        ensures start { OnTrue SAVES (self.new.start ≡ self.old.start) }
    {
        for _i in 0..count {
            self.add::<SAVES>()?;
        }
        Ok(())
    }

    /// Keeps at most the first `count` arrays. The others' slots stay as they are until their numbers are used again: it takes no memory.
    pub fn truncate(&mut self, count: usize)
        ensures did { arrays_of self.new.now ≡ take count (arrays_of self.old.now) }
        ensures start { self.new.start ≡ self.old.start }
    {
        self.live = self.live.min(count);
    }

    /// Ends the step, and gives what it changed. It takes no memory.
    pub fn finish(&mut self, alloc: Global) -> ArraysGroup
        ensures now { self.new ≡ at_rest self.old.now }
        ensures back { arrays_back self.old.now result ≡ self.old.start }
        ensures fits { FitsArrays result self.old.now }
        ensures laid { IsLaid self.old.now.index self.old.now.slots }
    {
        let group = ArraysGroup {
            slots: self.cells.finish(alloc),
            live: self.began,
        };
        self.began = self.live;
        group
    }

    /// Whether the step has changed nothing yet.
    #[inline]
    pub fn is_at_rest(&self) -> bool
        ensures { OnTrue result (self.now.start ≡ self.now.now) }
    {
        self.live == self.began && self.cells.is_at_rest()
    }

    /// What is so of all arrays. It does nothing.
    #[inline]
    pub fn known(&self)
        ensures { IsLaid self.now.now.index self.now.now.slots }
    {
        let _live = self.live;
    }

    /// Ends the step, and forgets what it changed. It takes no memory.
    pub fn forget(&mut self)
        ensures now { self.new ≡ at_rest self.old.now }
        ensures laid { IsLaid self.old.now.index self.old.now.slots }
    {
        self.cells.forget();
        self.began = self.live;
    }

    /// Whether `pack` removes slots.
    #[inline(always)]
    pub fn is_sparse(&self) -> bool {
        self.emptied > FEW && self.emptied / 2 > self.cells.len() / 8 * 3 + FEW
    }

    /// Removes the slots that are empty, and those of array numbers that are not in use, where three of four slots and some 1,000 more were emptied. What leads back to earlier
    /// steps fits no more then. Where memory for that is refused, the slots stay. At most one slot is so moved for three that were emptied.
    pub fn pack(&mut self, alloc: Global)
        requires { self.old.start ≡ self.old.now }
        ensures now { arrays_of self.new.now ≡ arrays_of self.old.now }
        ensures rest { self.new.start ≡ self.new.now }
        ensures laid { IsLaid self.new.now.index self.new.now.slots }
    {
        if self.is_sparse() {
            self.emptied = 0;
            pack(
                alloc,
                &mut self.index,
                &mut self.cells,
                &mut self.counts,
                self.live,
            );
        }
    }

    /// Puts back what the step in progress changed. It takes no memory and always succeeds.
    pub fn undo_step(&mut self)
        ensures now { self.new ≡ at_rest self.old.start }
        ensures laid { IsLaid self.old.start.index self.old.start.slots }
    {
        let mut changed = self.cells.finish(self.alloc);
        recount_back(&self.index, &self.cells, &mut self.counts, &changed.entries);
        self.cells.undo(&mut changed);
        self.live = self.began;
    }

    /// Puts back what a step that ended changed, and leaves the newer elements in the group. It takes no memory and always succeeds.
    pub fn undo(&mut self, group: &mut ArraysGroup)
        requires { FitsArrays group.old self.old.now }
        ensures now { self.new ≡ at_rest (arrays_back self.old.now group.old) }
        ensures newer { arrays_back self.new.now group.new ≡ self.old.now }
        ensures fits { FitsArrays group.new self.new.now }
        ensures laid { IsLaid self.new.now.index self.new.now.slots }
    {
        recount_back(
            &self.index,
            &self.cells,
            &mut self.counts,
            &group.slots.entries,
        );
        self.cells.undo(&mut group.slots);
        let live = group.live;
        group.live = self.live;
        self.live = live;
        self.began = live;
    }
}

impl Arrays {
    // Makes a change within the step in progress. It fails where memory is refused.
    fn change(&mut self, alloc: Global, change: ArraysChange) -> Result<(), AllocError>
        ensures did { OnOk result (arrays_of self.new.now ≡ changed_arrays change (arrays_of self.old.now)) }
        ensures start { GrownArrays self.old.start self.new.start }
    {
        match change {
            ArraysChange::Set { array, key, value } => self.set::<true>(alloc, array, &key, value),
            ArraysChange::Touch { array, key } => self.touch::<true>(alloc, array, &key),
            ArraysChange::Delete { array, key } => self.delete::<true>(array, &key),
            ArraysChange::Clear { array } => self.clear::<true>(array),
            ArraysChange::AddEmpty(count) => self.add_empty::<true>(count),
            ArraysChange::Truncate(count) => {
                self.truncate(count);
                Ok(())
            }
        }
    }
}

impl Reversible for Arrays {
    ghost use Rattle.std.specs.Prelude.{◌≡◌, List};
    ghost use Rattle.std.proofs.Common.{◌∙◌, sym};
    ghost use Rattle.rawk_arrays.specs.Elements.{Elements, changed_arrays};
    ghost use Rattle.rawk_arrays.specs.Laid.{IsSameArrays, arrays_of};
    ghost use Rattle.rawk_arrays.specs.ArraysBack.{FitsArrays, arrays_back};
    ghost use Rattle.rawk_arrays.specs.ArraysLaws.{IsSameArrays-refl};

    type Change = ArraysChange;

    type Undo = ArraysGroup;

    ghost Seen = { List Elements };

    ghost sees = { λ part. arrays_of part.now };

    ghost grown = { λ old new. IsSameArrays old.now new.now };

    ghost makes = { λ old change new. arrays_of new.now ≡ changed_arrays change (arrays_of old.now) };

    ghost leads_back = { λ now undo earlier. FitsArrays undo now.now × IsSameArrays earlier.now (arrays_back now.now undo) };

    ghost grown_same = { λ part. IsSameArrays-refl part.now };

    ghost grown_seen = { λ old new h. h.same };

    ghost makes_one = { λ old new other change h k. h ∙ sym k };

    fn apply(&mut self, alloc: Global, change: ArraysChange) -> Result<ArraysGroup, AllocError> {
        self.forget();
        match self.change(alloc, change) {
            Ok(()) => Ok(self.finish(alloc)),
            Err(error) => {
                self.undo_step();
                Err(error)
            }
        }
    }

    fn undo(&mut self, undo: &mut ArraysGroup) {
        self.undo(undo);
    }
}
