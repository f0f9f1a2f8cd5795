//! A stack whose values can be put back as they stood when the step began.

ghost use Rattle.std.specs.Prelude.{◌≡◌, ◌<◌, ◌≤◌, ◌+◌, ◌∷◌, [], IfSome, OnErr, OnOk, Some, drop, if◌then◌else◌, length, reverse, slice_get, slice_set, take, vec_len};
ghost use Rattle.std.specs.Vec.{vec_capacity};
ghost use Rattle.std.specs.Option.{is_some, option_copied};
ghost use Rattle.std.specs.Bool.{OnTrue};
ghost use Rattle.std.specs.Borrow.{sem};
ghost use Rattle.rawk_slots.specs.Journaled.{at_rest};
ghost use Rattle.rawk_slots.specs.Stacked.{GrownStack, IsLive, empty_stack, live_slots, live_values};
ghost use Rattle.rawk_slots.specs.Back.{back, AreBelow, AreDistinctFrom, HasAdded};
ghost use Rattle.rawk_slots.specs.StackBack.{FitsStack, FitsStackIf, stack_back, stack_in};
ghost use Rattle.rawk_slots.specs.StackChanges.{changed_values};

use crate::reversible::Reversible;
use crate::saved::Saved;
use crate::slot_group::SlotGroup;
use crate::slots::Slots;
use std::alloc::{AllocError, Global};
use std::marker::Model;

/// Values on a stack, beside what they were when the step began.
///
/// They stand in slots up to a live length. A slot beyond it keeps its content until it is written again. Where `SAVES` is false, a write saves no old value: nothing is said
/// of the step's beginning then.
#[derive(Drop)]
pub struct Stack<T> {
    slots: Slots<T>,
    live: usize,
    began: usize,
}

impl<T> Model for Stack<T> {
    ghost use Rattle.rawk_slots.specs.Journaled.{Journaled};
    ghost use Rattle.rawk_slots.specs.Stacked.{AreLive, Stacked};

    ghost Value = { Journaled (Stacked T) };

    ghost view = { λ s. record {
      now = record { slots = s.slots.now; live = s.live };
      start = record { slots = s.slots.start; live = s.began };
    } };

    ghost invariant = { λ s. AreLive s.slots s.live s.began };
}

/// What a step changed in a stack.
#[derive(Drop)]
pub struct StackGroup<T> {
    slots: SlotGroup<T>,
    live: usize,
}

impl<T> Model for StackGroup<T> {
    ghost use Rattle.rawk_slots.specs.StackGroups.{StackGroup};

    ghost Value = { StackGroup T };

    ghost view = { λ g. record { entries = g.slots.entries.items; live = g.live } };
}

impl<T: Drop> Stack<T> {
    ghost use Rattle.rawk_slots.specs.LendsOldest.{lends_oldest};
    ghost use Rattle.rawk_slots.specs.LendsNext.{lends_next};

    /// No values.
    pub fn new(alloc: Global) -> Self
        ensures { result ≡ at_rest empty_stack }
    {
        Stack {
            slots: Slots::new(alloc),
            live: 0,
            began: 0,
        }
    }

    /// How many values there are.
    pub fn len(&self) -> usize
        ensures { result ≡ length (live_values self.now.now) }
    {
        self.live
    }

    /// A value, counted from the newest, which is 0.
    #[inline(always)]
    pub fn newest(&self, number: usize) -> Option<&T>
        ensures { option_copied result ≡ slice_get (live_values self.now.now) number }
    {
        if number < self.live {
            return Some(self.slots.at(self.live - number - 1));
        }
        None
    }

    /// A value, counted from the oldest, which is 0.
    pub fn oldest(&self, number: usize) -> Option<&T>
        ensures { option_copied result ≡ slice_get (live_slots self.now.now) number }
    {
        if number < self.live {
            return Some(self.slots.at(number));
        }
        None
    }

    /// At most the newest `count` values, the oldest of them first.
    pub fn newest_values(&self, count: usize) -> &[T]
        ensures { result.now ≡ reverse (take count (live_values self.now.now)) }
    {
        let size = count.min(self.live);
        self.slots.between(self.live - size, self.live)
    }

    /// Adds a value. It fails where memory is refused, and then the values are as they were.
    #[inline(always)]
    pub fn push<const SAVES: bool>(&mut self, value: T) -> Result<(), AllocError>
        ensures did { OnOk result (live_values self.new.now ≡ value ∷ live_values self.old.now) }
        ensures err { OnErr result (self.new.now ≡ self.old.now) }
        ensures start { OnTrue SAVES (GrownStack self.old.start self.new.start) }
    {
        let live = self.live;
        self.slots.append::<SAVES>(live, value)?;
        let _count = self.slots.len();
        self.live = live + 1;
        Ok(())
    }

    /// Writes a value, counted from the oldest; a number that has none changes nothing. It fails where memory is refused, and then nothing has changed.
    #[inline(always)]
    pub fn set_oldest<const SAVES: bool>(
        &mut self,
        number: usize,
        value: T,
    ) -> Result<(), AllocError>
        ensures did { OnOk result (live_slots self.new.now ≡ slice_set (live_slots self.old.now) number value) }
        ensures start { OnTrue SAVES (self.new.start ≡ self.old.start) }
        ensures err { OnErr result (self.new.now ≡ self.old.now) }
    {
        if number < self.live {
            self.slots.write::<SAVES>(number, value)?;
        }
        Ok(())
    }

    /// Writes the newest value, if there is one. It fails where memory is refused, and then nothing has changed.
    pub fn set_newest<const SAVES: bool>(&mut self, value: T) -> Result<(), AllocError>
        ensures did { OnOk result (live_values self.new.now ≡ slice_set (live_values self.old.now) 0 value) }
        ensures start { OnTrue SAVES (self.new.start ≡ self.old.start) }
        ensures err { OnErr result (self.new.now ≡ self.old.now) }
    {
        if self.live > 0 {
            self.slots.write::<SAVES>(self.live - 1, value)?;
        }
        Ok(())
    }

    /// Puts a value in the place of the newest one, and gives that, where it need not be saved, since the step has changed its slot already or saves nothing; else `None`, and
    /// then nothing has changed. It takes no memory.
    #[inline]
    pub fn take_newest<const SAVES: bool>(&mut self, spare: T) -> Option<T>
        ensures value { IfSome result (λ v. slice_get (live_values self.old.now) 0 ≡ Some v) }
        ensures after { live_values self.new.now ≡ (if is_some result then slice_set (live_values self.old.now) 0 spare else live_values self.old.now) }
        ensures start { OnTrue SAVES (self.new.start ≡ self.old.start) }
    {
        if self.live > 0 {
            return self.slots.take_changed::<SAVES>(self.live - 1, spare);
        }
        None
    }

    /// Lends a value, counted from the oldest, and forgets what the step changed in values before: its beginning then has what is written there, too. It takes no memory.
    #[inline(always)]
    pub fn lend_oldest(&mut self, number: usize) -> &mut T
        requires { number < length (live_slots self.old.now) }
        ensures* lends { sem 𝓛 (lends_oldest T.row self.entry number result) }
        ensures value { slice_get (live_slots self.old.now) number ≡ Some result.now }
    {
        self.slots.lend(number)
    }

    /// Whether there is a slot behind the live values, and no old value is saved, so that lending it calls nothing; that it is told of where that is so, no clause says.
    #[inline(always)]
    pub fn has_next(&self) -> bool
        ensures { OnTrue result (self.now.now.live < length self.now.now.slots) }
    {
        self.live < self.slots.len() && self.slots.is_at_rest()
    }

    /// Lends the slot behind the live values, which is then the newest of them, and forgets what the step changed in values before: its beginning then has what is written there,
    /// too. It takes no memory.
    #[inline(always)]
    pub fn lend_next(&mut self) -> &mut T
        requires { self.old.now.live < length self.old.now.slots }
        ensures* lends { sem 𝓛 (lends_next T.row self.entry result) }
    {
        let live = self.live;
        let _count = self.slots.len();
        self.live = live + 1;
        self.slots.lend(live)
    }

    /// Drops the newest values, as many as there are at most.
    pub fn drop_newest(&mut self, count: usize)
        ensures did { live_values self.new.now ≡ drop count (live_values self.old.now) }
        ensures start { self.new.start ≡ self.old.start }
    {
        self.live = self.live.saturating_sub(count);
    }

    /// Keeps the oldest values, `count` of them at most, and drops the others.
    pub fn truncate(&mut self, count: usize)
        ensures did { live_slots self.new.now ≡ take count (live_slots self.old.now) }
        ensures start { self.new.start ≡ self.old.start }
    {
        self.live = self.live.min(count);
    }

    /// Drops all values.
    pub fn clear(&mut self)
        ensures did { live_values self.new.now ≡ [] }
        ensures start { self.new.start ≡ self.old.start }
    {
        self.live = 0;
    }

    /// Ends the step, and gives what it changed.
    pub fn finish(&mut self, alloc: Global) -> StackGroup<T>
        ensures now { self.new ≡ at_rest self.old.now }
        ensures back { stack_back self.old.now result ≡ self.old.start }
        ensures fits { FitsStack result self.old.now }
        ensures live { IsLive self.old.now }
    {
        let group = StackGroup {
            slots: self.slots.finish(alloc),
            live: self.began,
        };
        self.began = self.live;
        group
    }

    /// How many slots there are, live ones and others.
    #[inline]
    pub(crate) fn slot_count(&self) -> usize
        ensures { result ≡ length self.now.now.slots }
    {
        self.slots.len()
    }

    /// Ends the step, puts the old values behind those of a list that has room for one of each slot, and gives how many values were live when the step began. It takes no memory.
    #[inline]
    pub(crate) fn finish_behind(&mut self, list: &mut Vec<Saved<T>>) -> usize
        requires { vec_len list.old + length self.old.now.slots ≤ vec_capacity list.old }
        ensures now { self.new ≡ at_rest self.old.now }
        ensures did { HasAdded self.old.now.slots self.old.start.slots list.old.items list.new.items }
        ensures began { result ≡ self.old.start.live }
        ensures live { IsLive self.old.now }
        ensures within { result ≤ length self.old.now.slots }
    {
        let began = self.began;
        self.slots.finish_behind(list);
        self.began = self.live;
        began
    }

    /// Puts back what a step that ended changed, whose old values stand in a list from a number on, and leaves the newer ones there. It takes no memory and always succeeds.
    pub(crate) fn undo_from(&mut self, list: &mut Vec<Saved<T>>, began: usize, live: usize)
        requires within { began ≤ length list.old.items }
        requires below { AreBelow (length self.old.now.slots) (drop began list.old.items) }
        requires distinct { AreDistinctFrom began list.old.items }
        requires live { live ≤ length self.old.now.slots }
        ensures now { self.new ≡ at_rest (record { slots = back self.old.now.slots (drop began list.old.items); live = live }) }
        ensures earlier { take began list.new.items ≡ take began list.old.items }
        ensures live { IsLive self.new.now }
    {
        self.slots.undo_from(list, began);
        self.live = live;
        self.began = live;
    }

    /// Puts back what a step that ended changed, if it changed anything, and leaves the newer values in the group. It takes no memory and always succeeds.
    #[inline]
    pub fn undo_if(&mut self, group: &mut Option<StackGroup<T>>)
        requires { FitsStackIf group.old self.old.now }
        ensures now { self.new ≡ at_rest (stack_in self.old.now group.old) }
        ensures newer { stack_in self.new.now group.new ≡ self.old.now }
        ensures live { IsLive self.new.now }
    {
        match group {
            None => self.forget(),
            Some(changed) => self.undo(changed),
        }
    }

    /// Whether the step has changed nothing yet.
    #[inline]
    pub fn is_at_rest(&self) -> bool
        ensures { OnTrue result (self.now.start ≡ self.now.now) }
    {
        self.live == self.began && self.slots.is_at_rest()
    }

    /// What is so of each stack. It does nothing.
    #[inline]
    pub fn known(&self)
        ensures { IsLive self.now.now }
    {
        let _live = self.live;
    }

    /// Ends the step, and forgets what it changed. It takes no memory.
    #[inline]
    pub fn forget(&mut self)
        ensures now { self.new ≡ at_rest self.old.now }
        ensures live { IsLive self.old.now }
    {
        self.slots.forget();
        self.began = self.live;
    }

    /// Puts back what the step in progress changed. It takes no memory and always succeeds.
    pub fn undo_step(&mut self)
        ensures now { self.new ≡ at_rest self.old.start }
        ensures live { IsLive self.old.start }
    {
        self.slots.undo_step();
        self.live = self.began;
    }

    /// Puts back what a step that ended changed, and leaves the newer values in the group. It takes no memory and always succeeds.
    pub fn undo(&mut self, group: &mut StackGroup<T>)
        requires { FitsStack group.old self.old.now }
        ensures now { self.new ≡ at_rest (stack_back self.old.now group.old) }
        ensures newer { stack_back self.new.now group.new ≡ self.old.now }
        ensures live { IsLive self.new.now }
    {
        self.slots.undo(&mut group.slots);
        let live = group.live;
        group.live = self.live;
        self.live = live;
        self.began = live;
    }
}

/// A change of a stack. A number that has no value changes nothing, and a count stands for as many values as there are at most.
#[derive(Drop)]
pub enum StackChange<T> {
    Push(T),
    SetNewest(T),
    /// a value by its number from the oldest, which is 0
    SetOldest { number: usize, value: T },
    DropNewest(usize),
    KeepOldest(usize),
    Clear,
}

impl<T: Drop> Stack<T> {
    /// Makes a change within the step in progress. It fails where memory is refused.
    fn change(&mut self, change: StackChange<T>) -> Result<(), AllocError>
        ensures did { OnOk result (live_values self.new.now ≡ changed_values change (live_values self.old.now)) }
        ensures start { GrownStack self.old.start self.new.start }
    {
        match change {
            StackChange::Push(value) => self.push::<true>(value),
            StackChange::SetNewest(value) => self.set_newest::<true>(value),
            StackChange::SetOldest { number, value } => self.set_oldest::<true>(number, value),
            StackChange::DropNewest(count) => {
                self.drop_newest(count);
                Ok(())
            }
            StackChange::KeepOldest(count) => {
                self.truncate(count);
                Ok(())
            }
            StackChange::Clear => {
                self.clear();
                Ok(())
            }
        }
    }
}

impl<T: Drop> Reversible for Stack<T> {
    ghost use Rattle.std.specs.Prelude.{◌≡◌, List};
    ghost use Rattle.std.proofs.Common.{◌∙◌, sym};
    ghost use Rattle.rawk_slots.specs.Stacked.{IsSameStack, live_values};
    ghost use Rattle.rawk_slots.specs.StackBack.{FitsStack, stack_back};
    ghost use Rattle.rawk_slots.specs.StackChanges.{changed_values};
    ghost use Rattle.rawk_slots.specs.StackLaws.{IsSameStack-refl};

    type Change = StackChange<T>;

    type Undo = StackGroup<T>;

    ghost Seen = { List T };

    ghost sees = { λ part. live_values part.now };

    ghost grown = { λ old new. IsSameStack old.now new.now };

    ghost makes = { λ old change new. live_values new.now ≡ changed_values change (live_values old.now) };

    ghost leads_back = { λ now undo earlier. FitsStack undo now.now × IsSameStack earlier.now (stack_back now.now undo) };

    ghost grown_same = { λ part. IsSameStack-refl part.now };

    ghost grown_seen = { λ old new h. h.same };

    ghost makes_one = { λ old new other change h k. h ∙ sym k };

    fn apply(
        &mut self,
        alloc: Global,
        change: StackChange<T>,
    ) -> Result<StackGroup<T>, AllocError> {
        self.forget();
        match self.change(change) {
            Ok(()) => Ok(self.finish(alloc)),
            Err(error) => {
                self.undo_step();
                Err(error)
            }
        }
    }

    fn undo(&mut self, undo: &mut StackGroup<T>) {
        self.undo(undo);
    }
}
