//! The state of a run, beside what it was when the step began.

ghost use Rattle.std.specs.Prelude.{◌≡◌, IfOk, None, OnErr, OnOk};
ghost use Rattle.rawk_record.specs.Shown.{record_back};
ghost use Rattle.rawk_store.specs.Layout.{IsSound, state};
ghost use Rattle.rawk_store.specs.Saving.{SavesOnce};
ghost use Rattle.rawk_store.specs.Stores.{BeganNested, IsNew, few_rested, globals_rested, now_of, start_of};
ghost use Rattle.rawk_store.specs.GroupBack.{ArraysFit, FewArraysFit, FewFit, FewLead, FitsIn, FitsRareChanges, HasFewRoom, HasRoom, RareChangesLead, RareFit, RareLeads, arrays_in, few_arrays, few_keys, few_ranges, grown_in, others_put, put_back, rare_keys, rare_ranges};
ghost use Rattle.rawk_arrays.specs.Laid.{IsLaid};
ghost use Rattle.rawk_cells.specs.Cells.{FitsAppended, with_again, without};
ghost use Rattle.rawk_slots.specs.Back.{back};
ghost use Rattle.rawk_slots.specs.Journaled.{at_rest};
ghost use Rattle.rawk_frames.specs.LaidKeys.{AreKeysLive};

use crate::group::Group;
use crate::rare_changes::{FewGroup, RareChanges, RareGroup};
use crate::registers::{Bank, Registers};
use rawk_arrays::Arrays;
use rawk_cells::{Appended, Cells};
use rawk_current::Current;
use rawk_frames::{Frames, KeysLeft, Ranges};
use rawk_output::Output;
use rawk_slots::{Slots, Stack};
use rawk_value::Value;
use std::alloc::{AllocError, Global};

/// The operand stack.
pub type Operands = Stack<Value>;

/// The parts of the state of a run. Each part keeps what the step in progress changed in it.
#[derive(Drop)]
pub struct Store {
    pub globals: Cells,
    pub arrays: Arrays,
    pub frames: Frames,
    pub keys: KeysLeft,
    pub ranges: Ranges,
    pub operands: Operands,
    pub current: Current,
    pub output: Output,
    pub registers: Bank,
}

impl Store {
    /// No globals, no arrays, no activations, no keys, no ranges, no operands, the empty record, no output, and these registers. The keys of arrays are found by hashes
    /// with this seed. It takes no memory.
    pub fn new(alloc: Global, seed: u64, registers: Registers) -> Self
        ensures { IsNew registers result }
    {
        Store {
            globals: Cells::new(alloc),
            arrays: Arrays::new(alloc, seed),
            frames: Frames::new(alloc),
            keys: KeysLeft::new(alloc),
            ranges: Slots::new(alloc),
            operands: Operands::new(alloc),
            current: Current::new(alloc),
            output: Output::new(alloc),
            registers: Bank::new(registers),
        }
    }

    /// Room for what the step changed in arrays, keys that are left and ranges, where it changed any of these. It fails where memory is refused.
    #[inline]
    pub fn few_room(&self, alloc: Global) -> Result<Option<Box<FewGroup>>, AllocError>
        ensures { IfOk result (λ room. HasFewRoom room self.now) }
    {
        let rare = self.rare_room(alloc)?;
        if rare.is_none() && self.arrays.is_at_rest() {
            return Ok(None);
        }
        let mut arrays = Arrays::new(alloc, 0);
        let room = Box::new(
            alloc,
            FewGroup {
                arrays: arrays.finish(alloc),
                rare,
            },
        )?;
        Ok(Some(room))
    }

    /// Room for what the step changed in keys that are left and in ranges, where it changed any of these. It fails where memory is refused.
    #[inline]
    fn rare_room(&self, alloc: Global) -> Result<Option<Box<RareGroup>>, AllocError>
        ensures { IfOk result (λ room. HasRoom room self.now) }
    {
        if self.keys.is_at_rest() && self.ranges.is_at_rest() {
            return Ok(None);
        }
        let mut keys = KeysLeft::new(alloc);
        let mut ranges = Slots::new(alloc);
        let room = Box::new(
            alloc,
            RareGroup {
                keys: keys.finish(alloc),
                ranges: ranges.finish(alloc),
            },
        )?;
        Ok(Some(room))
    }

    /// Ends the step in keys that are left and in ranges, and gives what it changed there, in the room for it; where there is none, nothing was changed. It takes no memory.
    #[inline]
    fn finish_rare(&mut self, alloc: Global, room: Option<Box<RareGroup>>) -> Option<Box<RareGroup>>
        requires { HasRoom room self.old }
        ensures keys { self.new.keys ≡ at_rest self.old.keys.now }
        ensures ranges { self.new.ranges ≡ at_rest self.old.ranges.now }
        ensures others { self.new ≡ record self.old { keys = self.new.keys; ranges = self.new.ranges } }
        ensures back { RareLeads result self.old }
        ensures fits { RareFit result (now_of self.old) }
    {
        match room {
            None => {
                self.keys.forget();
                self.ranges.forget();
                None
            }
            Some(room) => {
                let mut room = room;
                room.keys = self.keys.finish(alloc);
                room.ranges = self.ranges.finish(alloc);
                Some(room)
            }
        }
    }

    /// Ends the step in arrays, keys that are left and ranges, and gives what it changed there, in the room for it; where there is none, nothing was changed. It takes no memory.
    #[inline]
    fn finish_few(&mut self, alloc: Global, room: Option<Box<FewGroup>>) -> Option<Box<FewGroup>>
        requires { HasFewRoom room self.old }
        ensures arrays { self.new.arrays ≡ at_rest self.old.arrays.now }
        ensures keys { self.new.keys ≡ at_rest self.old.keys.now }
        ensures ranges { self.new.ranges ≡ at_rest self.old.ranges.now }
        ensures others { self.new ≡ record self.old { arrays = self.new.arrays; keys = self.new.keys; ranges = self.new.ranges } }
        ensures back { FewLead result self.old }
        ensures fits { FewFit result (now_of self.old) }
    {
        match room {
            None => {
                self.arrays.forget();
                self.keys.forget();
                self.ranges.forget();
                None
            }
            Some(room) => {
                let mut room = room;
                room.arrays = self.arrays.finish(alloc);
                room.rare = self.finish_rare(alloc, room.rare.take());
                Some(room)
            }
        }
    }

    /// Ends the step in the parts that few steps change, and gives what it changed there, in the room for it, with what came behind a text of the globals, if anything did or
    /// was changed. It takes no memory.
    #[inline]
    pub fn finish_others(
        &mut self,
        alloc: Global,
        room: Option<Box<FewGroup>>,
        grown: Option<Box<Appended>>,
    ) -> Option<RareChanges>
        requires room { HasFewRoom room self.old }
        requires grown { FitsAppended grown self.old.globals.now }
        ensures now { now_of self.new ≡ now_of self.old }
        ensures start { start_of self.new ≡ few_rested (now_of self.old) (start_of self.old) }
        ensures back { RareChangesLead result (now_of self.old) (start_of self.old) }
        ensures fits { FitsRareChanges result (now_of self.old) }
        ensures grown { grown_in result ≡ grown }
    {
        let few = self.finish_few(alloc, room);
        if grown.is_none() && few.is_none() {
            return None;
        }
        Some(RareChanges { grown, few })
    }

    /// Ends the step, and gives what it changed, of each global and each element once. It takes memory at most where a text grew in place, or arrays, keys
    /// that are left or ranges have changed, and where that is refused nothing has changed.
    pub fn finish(&mut self, alloc: Global) -> Result<Group, AllocError>
        requires nested { BeganNested self.old }
        ensures now { now_of self.new ≡ now_of self.old }
        ensures rest { OnOk result (start_of self.new ≡ now_of self.old) }
        ensures open { OnErr result (start_of self.new ≡ start_of self.old) }
        ensures back { IfOk result (λ group. put_back (now_of self.old) group ≡ start_of self.old) }
        ensures fits { IfOk result (λ group. FitsIn group (now_of self.old)) }
        ensures once { IfOk result (λ group. SavesOnce group) }
        ensures sound { IsSound (now_of self.old) }
    {
        self.known();
        let room = self.few_room(alloc)?;
        let globals = self.globals.finish(alloc)?;
        let others = self.finish_others(alloc, room, None);
        Ok(Group {
            globals,
            frames: self.frames.finish(alloc),
            operands: Some(self.operands.finish(alloc)),
            others,
            current: self.current.finish(alloc),
            output: self.output.finish(),
            registers: self.registers.finish(),
        })
    }

    /// What is so of the parts that few steps change. It does nothing.
    #[inline]
    pub fn known(&self)
        ensures { IsSound (now_of self.now) }
    {
        self.arrays.known();
        self.frames.known();
        self.keys.known();
        self.operands.known();
    }

    /// Ends the step, and forgets what it changed. Its buffers are used again: it takes no memory.
    pub fn forget(&mut self)
        ensures now { now_of self.new ≡ now_of self.old }
        ensures rest { start_of self.new ≡ now_of self.old }
        ensures sound { IsSound (now_of self.old) }
    {
        self.globals.forget();
        self.arrays.forget();
        self.frames.forget();
        self.keys.forget();
        self.ranges.forget();
        self.operands.forget();
        self.current.forget();
        self.output.forget();
        self.registers.forget();
    }

    /// Removes slots of arrays that are empty, where most of them are. No state changes by it, but what leads back to earlier steps fits no more then. Where memory for that
    /// is refused, the slots stay.
    pub fn pack(&mut self, alloc: Global)
        requires rest { start_of self.old ≡ now_of self.old }
        ensures state { state (now_of self.new) ≡ state (now_of self.old) }
        ensures others { now_of self.new ≡ record (now_of self.old) { arrays = self.new.arrays.now } }
        ensures rest { start_of self.new ≡ now_of self.new }
        ensures sound { IsSound (now_of self.old) → IsSound (now_of self.new) }
    {
        self.arrays.pack(alloc);
    }

    /// Puts back what the step in progress changed. It takes no memory and always succeeds.
    pub fn undo_step(&mut self)
        requires nested { BeganNested self.old }
        ensures now { now_of self.new ≡ start_of self.old }
        ensures rest { start_of self.new ≡ start_of self.old }
        ensures sound { IsSound (start_of self.old) }
    {
        self.globals.undo_step();
        self.arrays.undo_step();
        self.frames.undo_step();
        self.keys.undo_step();
        self.ranges.undo_step();
        self.operands.undo_step();
        self.current.undo_step();
        self.output.undo_step();
        self.registers.undo_step();
    }

    /// Puts back what a step that ended changed in keys that are left and in ranges, and leaves the newer ones there. It takes no memory and always succeeds.
    fn undo_rare(&mut self, rare: &mut Option<Box<RareGroup>>)
        requires { RareFit rare.old (now_of self.old) }
        ensures keys { self.new.keys ≡ at_rest (rare_keys self.old.keys.now rare.old) }
        ensures ranges { self.new.ranges ≡ at_rest (rare_ranges self.old.ranges.now rare.old) }
        ensures others { self.new ≡ record self.old { keys = self.new.keys; ranges = self.new.ranges } }
        ensures live { AreKeysLive self.new.keys.now }
    {
        match rare {
            None => {
                self.keys.forget();
                self.ranges.forget();
            }
            Some(group) => {
                self.keys.undo(&mut group.keys);
                self.ranges.undo(&mut group.ranges);
            }
        }
    }

    /// Takes what came behind a text of the globals in a step that ended from there. It takes no memory and always succeeds.
    fn undo_grown(&mut self, grown: &Option<Box<Appended>>)
        requires { FitsAppended grown.now self.old.globals.now }
        ensures globals { self.new.globals ≡ at_rest (without grown.now self.old.globals.now) }
        ensures others { self.new ≡ record self.old { globals = self.new.globals } }
        ensures newer { with_again grown.now self.new.globals.now ≡ self.old.globals.now }
    {
        match grown {
            None => self.globals.forget(),
            Some(appended) => self.globals.take_back(appended),
        }
    }

    /// Puts back what a step that ended changed in arrays, keys that are left and ranges, and leaves the newer ones there. It takes no memory and always succeeds.
    fn undo_few(&mut self, few: &mut Option<Box<FewGroup>>)
        requires { FewFit few.old (now_of self.old) }
        ensures arrays { self.new.arrays ≡ at_rest (few_arrays self.old.arrays.now few.old) }
        ensures keys { self.new.keys ≡ at_rest (few_keys self.old.keys.now few.old) }
        ensures ranges { self.new.ranges ≡ at_rest (few_ranges self.old.ranges.now few.old) }
        ensures others { self.new ≡ record self.old { arrays = self.new.arrays; keys = self.new.keys; ranges = self.new.ranges } }
        ensures sound { IsLaid self.new.arrays.now.index self.new.arrays.now.slots }
        ensures live { AreKeysLive self.new.keys.now }
        ensures newer { few_arrays self.new.arrays.now few.new ≡ self.old.arrays.now }
        ensures newer_fits { FewArraysFit few.new self.new.arrays.now }
    {
        match few {
            None => {
                self.arrays.forget();
                self.keys.forget();
                self.ranges.forget();
            }
            Some(group) => {
                self.arrays.undo(&mut group.arrays);
                self.undo_rare(&mut group.rare);
            }
        }
    }

    /// Puts back what a step that ended changed in the parts that few steps change, and leaves the newer values there, and takes what came behind a text of the globals from
    /// there. It takes no memory and always succeeds.
    pub fn undo_others(&mut self, others: &mut Option<RareChanges>)
        requires { FitsRareChanges others.old (now_of self.old) }
        ensures now { now_of self.new ≡ others_put (now_of self.old) others.old }
        ensures start { start_of self.new ≡ globals_rested (now_of self.new) (start_of self.old) }
        ensures newer_globals { with_again (grown_in others.new) self.new.globals.now ≡ self.old.globals.now }
        ensures grown { grown_in others.new ≡ grown_in others.old }
        ensures newer { arrays_in self.new.arrays.now others.new ≡ self.old.arrays.now }
        ensures newer_fits { ArraysFit others.new self.new.arrays.now }
    {
        match others {
            None => {
                self.globals.forget();
                self.arrays.forget();
                self.keys.forget();
                self.ranges.forget();
            }
            Some(group) => {
                self.undo_grown(&group.grown);
                self.undo_few(&mut group.few);
            }
        }
    }

    /// Puts back what a step that ended changed, and leaves the newer values in the group. It takes no memory and always succeeds.
    pub fn undo(&mut self, group: &mut Group)
        requires { FitsIn group.old (now_of self.old) }
        ensures now { now_of self.new ≡ put_back (now_of self.old) group.old }
        ensures rest { start_of self.new ≡ now_of self.new }
        ensures sound { IsSound (now_of self.new) }
        ensures newer_globals { back self.new.globals.now group.new.globals ≡ self.old.globals.now }
        ensures newer_arrays { arrays_in self.new.arrays.now group.new.others ≡ self.old.arrays.now }
        ensures newer_fits { ArraysFit group.new.others self.new.arrays.now }
        ensures newer_record { record_back self.new.current.now group.new.current ≡ self.old.current.now }
    {
        self.undo_others(&mut group.others);
        self.frames.undo(&mut group.frames);
        self.operands.undo_if(&mut group.operands);
        self.globals.undo(&mut group.globals);
        self.current.undo(&mut group.current);
        self.output.undo(group.output);
        self.registers.undo(&mut group.registers);
        self.known();
    }
}
