//! Slots whose content can be put back as it stood when the step began.

ghost use Rattle.std.specs.Prelude.{◌≡◌, ◌<◌, ◌≤◌, ◌+◌, ◌++◌, ◌∷◌, [], IfSome, IsSome, List, OnErr, OnOk, Some, drop, if◌then◌else◌, length, slice_get, slice_range, slice_set, take, vec_len};
ghost use Rattle.std.specs.Bool.{OnFalse, OnTrue};
ghost use Rattle.std.specs.Borrow.{sem};
ghost use Rattle.std.specs.Vec.{vec_capacity};
ghost use Rattle.std.specs.Option.{is_some, option_copied};
ghost use Rattle.rawk_slots.specs.Back.{back, AreBelow, AreDistinctFrom, HasAdded};
ghost use Rattle.rawk_slots.specs.Journaled.{Longer, at_rest};

use crate::reversible::Reversible;
use crate::saved::{Saved, drop_all, is_saved, swap_back};
use crate::slot_group::SlotGroup;
use std::alloc::{AllocError, Global};
use std::marker::Model;
use std::mem;

/// Slots, beside what stood in them when the step began.
///
/// A contract sees both lists. A write takes memory at most for the list of old values, whose buffer is used again. Where `SAVES` is false, a write saves no old value and
/// takes no memory: nothing is said of the step's beginning then, but for the number of its slots.
#[derive(Drop)]
pub struct Slots<T> {
    items: Vec<T>,
    /// Where in `saved` a slot's old content stands, if it stands there; else any number.
    marks: Vec<usize>,
    saved: Vec<Saved<T>>,
}

impl<T> Model for Slots<T> {
    ghost use Rattle.std.specs.Prelude.{List};
    ghost use Rattle.rawk_slots.specs.Journaled.{Journaled};

    ghost Value = { Journaled (List T) };

    ghost use Rattle.rawk_slots.specs.Back.{back, IsJournal};

    ghost view = { λ s. record { now = s.items.items; start = back s.items.items s.saved.items } };

    ghost invariant = { λ s. IsJournal s.items.items s.marks.items s.saved.items };
}

/// Room for one more old value: for one alone where there are fewer than four, since most steps save few. It fails where memory is refused.
#[inline]
fn reserve_one<T>(saved: &mut Vec<Saved<T>>) -> Result<(), AllocError>
    ensures items { saved.new.items ≡ saved.old.items }
    ensures len { vec_len saved.new ≡ vec_len saved.old }
    ensures ok { OnOk result (vec_len saved.new < vec_capacity saved.new) }
{
    if saved.capacity() < 4 {
        return saved.reserve_exact(1);
    }
    saved.reserve(1)
}

impl<T: Drop> Slots<T> {
    ghost use Rattle.rawk_slots.specs.Lends.{lends_slot};

    /// No slots.
    pub fn new(alloc: Global) -> Self
        ensures { result ≡ at_rest [] }
    {
        Slots {
            items: Vec::new(alloc),
            marks: Vec::new(alloc),
            saved: Vec::new(alloc),
        }
    }

    /// How many slots there are.
    pub fn len(&self) -> usize
        ensures { result ≡ length self.now.now }
    {
        self.items.len()
    }

    /// What stands in a slot, and `None` for a number that is no slot.
    #[inline(always)]
    pub fn value(&self, place: usize) -> Option<&T>
        ensures { option_copied result ≡ slice_get self.now.now place }
    {
        if place < self.items.len() {
            return Some(&self.items[place]);
        }
        None
    }

    /// What stands in a slot.
    #[inline(always)]
    pub fn at(&self, place: usize) -> &T
        requires { place < length self.now.now }
        ensures { slice_get self.now.now place ≡ Some result.now }
    {
        &self.items[place]
    }

    /// What stands in the slots from one number on, up to another, which is left out.
    pub fn between(&self, begin: usize, end: usize) -> &[T]
        requires ordered { begin ≤ end }
        requires within { end ≤ length self.now.now }
        ensures { result.now ≡ slice_range self.now.now begin end }
    {
        &self.items[begin..end]
    }

    /// Writes a slot. It fails where memory is refused, and then nothing has changed.
    #[inline(always)]
    pub fn write<const SAVES: bool>(&mut self, place: usize, value: T) -> Result<(), AllocError>
        requires { place < length self.old.now }
        ensures did { OnOk result (self.new.now ≡ slice_set self.old.now place value) }
        ensures start { OnTrue SAVES (self.new.start ≡ self.old.start) }
        ensures size { length self.new.start ≡ length self.old.start }
        ensures err { OnErr result (self.new.now ≡ self.old.now) }
    {
        if !SAVES {
            self.items[place] = value;
            return Ok(());
        }
        if is_saved(&self.marks, &self.saved, place) {
            self.items[place] = value;
            return Ok(());
        }
        reserve_one(&mut self.saved)?;
        let old = mem::replace(&mut self.items[place], value);
        self.marks[place] = self.saved.len();
        self.saved.push_reserved(Saved { place, old });
        Ok(())
    }

    /// Writes a slot; a number that is no slot changes nothing. It fails where memory is refused, and then nothing has changed.
    #[inline(always)]
    pub fn set<const SAVES: bool>(&mut self, place: usize, value: T) -> Result<(), AllocError>
        ensures did { OnOk result (self.new.now ≡ slice_set self.old.now place value) }
        ensures start { OnTrue SAVES (self.new.start ≡ self.old.start) }
        ensures size { length self.new.start ≡ length self.old.start }
        ensures err { OnErr result (self.new.now ≡ self.old.now) }
    {
        if place < self.len() {
            return self.write::<SAVES>(place, value);
        }
        Ok(())
    }

    /// Puts a value into a slot, which the step's beginning then has too, while the step has changed nothing, and gives what stood there. It takes no memory.
    #[inline]
    pub fn replace_at_rest(&mut self, place: usize, value: T) -> T
        requires within { place < length self.old.now }
        requires rest { self.old.start ≡ self.old.now }
        ensures value { slice_get self.old.now place ≡ Some result }
        ensures after { self.new ≡ at_rest (slice_set self.old.now place value) }
    {
        drop_all(&mut self.saved);
        mem::replace(&mut self.items[place], value)
    }

    /// Lends what stands in a slot, and forgets what the step changed before: its beginning then has what is written there, too. It takes no memory.
    #[inline(always)]
    pub fn lend(&mut self, place: usize) -> &mut T
        requires { place < length self.old.now }
        ensures* lends { sem 𝓛 (lends_slot T.row self.entry place result) }
        ensures value { slice_get self.old.now place ≡ Some result.now }
        ensures size { length self.old.start ≡ length self.old.now }
    {
        drop_all(&mut self.saved);
        &mut self.items[place]
    }

    /// Puts a value into a slot whose content need not be saved, since the step has changed it already or saves nothing, and gives what stands there; `None` where it would
    /// have to be saved, and then nothing has changed. It takes no memory.
    #[inline]
    pub fn take_changed<const SAVES: bool>(&mut self, place: usize, spare: T) -> Option<T>
        requires { place < length self.old.now }
        ensures value { IfSome result (λ v. slice_get self.old.now place ≡ Some v) }
        ensures unsaved { OnFalse SAVES (IsSome result) }
        ensures after { self.new.now ≡ (if is_some result then slice_set self.old.now place spare else self.old.now) }
        ensures start { OnTrue SAVES (self.new.start ≡ self.old.start) }
        ensures size { length self.new.start ≡ length self.old.start }
    {
        if !SAVES {
            return Some(mem::replace(&mut self.items[place], spare));
        }
        if is_saved(&self.marks, &self.saved, place) {
            return Some(mem::replace(&mut self.items[place], spare));
        }
        None
    }

    /// Adds a slot, which the step's beginning then has too. It fails where memory is refused, and then nothing has changed.
    pub fn add(&mut self, value: T) -> Result<(), AllocError>
        ensures did { OnOk result (self.new.now ≡ self.old.now ++ value ∷ []) }
        ensures start { OnOk result (self.new.start ≡ self.old.start ++ value ∷ []) }
        ensures err { OnErr result (self.new ≡ self.old) }
    {
        self.marks.reserve(1)?;
        self.items.push(value)?;
        self.marks.push(0)?;
        Ok(())
    }

    /// Writes the slot behind the first `count`, and adds it where it is missing. It fails where memory is refused.
    #[inline(always)]
    pub fn append<const SAVES: bool>(&mut self, count: usize, value: T) -> Result<(), AllocError>
        requires { count ≤ length self.old.now }
        ensures did { OnOk result (take (count + 1) self.new.now ≡ take count self.old.now ++ value ∷ []) }
        ensures room { OnOk result (count < length self.new.now) }
        ensures err { OnErr result (self.new.now ≡ self.old.now) }
        ensures start { OnTrue SAVES (Longer self.old.start self.new.start) }
        ensures size { length self.old.start ≤ length self.new.start }
    {
        if count < self.len() {
            return self.write::<SAVES>(count, value);
        }
        self.add(value)
    }

    /// Ends the step, and gives what it changed.
    pub fn finish(&mut self, alloc: Global) -> SlotGroup<T>
        ensures now { self.new ≡ at_rest self.old.now }
        ensures back { back self.old.now result.entries.items ≡ self.old.start }
        ensures below { AreBelow (length self.old.now) result.entries.items }
    {
        SlotGroup {
            entries: mem::replace(&mut self.saved, Vec::new(alloc)),
        }
    }

    /// Ends the step, and puts what it changed behind the first `count` old values of a list, in place of the others. It fails where memory is refused, and
    /// then nothing has changed.
    #[inline]
    pub fn finish_into(&mut self, list: &mut Vec<Saved<T>>, count: usize) -> Result<(), AllocError>
        ensures did { OnOk result (HasAdded self.old.now self.old.start (take count list.old.items) list.new.items) }
        ensures now { OnOk result (self.new ≡ at_rest self.old.now) }
        ensures err { OnErr result (self.new ≡ self.old) }
        ensures same { OnErr result (list.new.items ≡ list.old.items) }
    {
        list.reserve(self.saved.len())?;
        list.truncate(count);
        list.append(&mut self.saved)?;
        Ok(())
    }

    /// Ends the step, and puts what it changed behind the old values of a list that has room for one of each slot. It takes no memory.
    #[inline]
    pub fn finish_behind(&mut self, list: &mut Vec<Saved<T>>)
        requires { vec_len list.old + length self.old.now ≤ vec_capacity list.old }
        ensures did { HasAdded self.old.now self.old.start list.old.items list.new.items }
        ensures now { self.new ≡ at_rest self.old.now }
    {
        let _moved = list.append(&mut self.saved);
    }

    /// Whether the step has changed nothing yet.
    #[inline]
    pub fn is_at_rest(&self) -> bool
        ensures { OnTrue result (self.now.start ≡ self.now.now) }
    {
        self.saved.len() == 0
    }

    /// Ends the step, and forgets what it changed. The list of old values is cleared in place: it takes no memory.
    #[inline]
    pub fn forget(&mut self)
        ensures { self.new ≡ at_rest self.old.now }
    {
        drop_all(&mut self.saved);
    }

    /// Puts back what the step in progress changed. It takes no memory and always succeeds.
    pub fn undo_step(&mut self)
        ensures { self.new ≡ at_rest self.old.start }
    {
        swap_back(&mut self.items, &mut self.saved, 0);
        self.saved.clear();
    }

    /// Puts back what a step that ended changed, and leaves the newer values in the group. It takes no memory and always succeeds.
    pub fn undo(&mut self, group: &mut SlotGroup<T>)
        requires { AreBelow (length self.old.now) group.old.entries.items }
        ensures now { self.new ≡ at_rest (back self.old.now group.old.entries.items) }
        ensures newer { back self.new.now group.new.entries.items ≡ self.old.now }
        ensures below { AreBelow (length self.new.now) group.new.entries.items }
    {
        self.saved.clear();
        swap_back(&mut self.items, &mut group.entries, 0);
    }

    /// Puts back what a step that ended changed, whose old values stand in a list from a number on, and leaves the newer values there. It takes no memory and always
    /// succeeds.
    pub fn undo_from(&mut self, list: &mut Vec<Saved<T>>, began: usize)
        requires within { began ≤ length list.old.items }
        requires below { AreBelow (length self.old.now) (drop began list.old.items) }
        requires distinct { AreDistinctFrom began list.old.items }
        ensures now { self.new ≡ at_rest (back self.old.now (drop began list.old.items)) }
        ensures earlier { take began list.new.items ≡ take began list.old.items }
        ensures newer { back self.new.now (drop began list.new.items) ≡ self.old.now }
    {
        self.saved.clear();
        swap_back(&mut self.items, list, began);
    }
}

/// A value for a slot, by its number from 0; a number that is no slot changes nothing.
#[derive(Drop)]
pub struct Write<T> {
    pub place: usize,
    pub value: T,
}

impl<T: Drop> Reversible for Slots<T> {
    ghost use Rattle.std.specs.Prelude.{◌≡◌, List, length, refl, slice_set};
    ghost use Rattle.std.proofs.Common.{◌∙◌, sym};
    ghost use Rattle.rawk_slots.specs.Back.{back, AreBelow};

    type Change = Write<T>;

    type Undo = SlotGroup<T>;

    ghost Seen = { List T };

    ghost sees = { λ part. part.now };

    ghost grown = { λ old new. new.now ≡ old.now };

    ghost makes = { λ old change new. new.now ≡ slice_set old.now change.place change.value };

    ghost leads_back = { λ now undo earlier. AreBelow (length now.now) undo.entries.items × (back now.now undo.entries.items ≡ earlier.now) };

    ghost grown_same = { λ part. refl };

    ghost grown_seen = { λ old new h. h };

    ghost makes_one = { λ old new other change h k. h ∙ sym k };

    fn apply(&mut self, alloc: Global, change: Write<T>) -> Result<SlotGroup<T>, AllocError> {
        self.forget();
        self.set::<true>(change.place, change.value)?;
        Ok(self.finish(alloc))
    }

    fn undo(&mut self, undo: &mut SlotGroup<T>) {
        self.undo(undo);
    }
}
