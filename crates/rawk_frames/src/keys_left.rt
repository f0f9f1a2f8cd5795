//! Keys that loops over arrays still visit, and flags of ranges.

ghost use Rattle.std.specs.Prelude.{◌≡◌, ◌∷◌, [], OnOk, drop, length, slice_get};
ghost use Rattle.std.specs.Bool.{OnTrue};
ghost use Rattle.std.specs.Option.{option_copied};
ghost use Rattle.rawk_slots.specs.Journaled.{at_rest};
ghost use Rattle.rawk_slots.specs.Stacked.{live_values};
ghost use Rattle.rawk_frames.specs.LaidKeys.{AreKeysLive, GrownKeys, keys_now, keys_of, left_lists, no_keys, without_first};
ghost use Rattle.rawk_frames.specs.KeysBack.{FitsKeys, keys_back};
ghost use Rattle.rawk_frames.specs.FramesChanges.{changed_keys};

use rawk_slots::{Reversible, SlotGroup, Slots, Stack, StackGroup};
use rawk_value::Bytes;
use std::alloc::{AllocError, Global};
use std::marker::Model;

/// For each range of a program (POSIX awk, Expression Patterns) whether it is on, by its number from 0.
pub type Ranges = Slots<bool>;

/// What a step changed in the ranges.
pub type RangesGroup = SlotGroup<bool>;

/// For each loop that is running the keys that it still visits, the innermost first, beside what they were when the step began.
///
/// A loop's list stays whole, and a number says how many of its keys were visited: so a key is given back without memory.
#[derive(Drop)]
pub struct KeysLeft {
    lists: Stack<Vec<Bytes>>,
    visited: Stack<usize>,
}

impl Model for KeysLeft {
    ghost use Rattle.rawk_slots.specs.Journaled.{Journaled};
    ghost use Rattle.rawk_frames.specs.LaidKeys.{LaidKeys};

    ghost Value = { Journaled LaidKeys };

    ghost view = { λ k. record {
      now = record { lists = k.lists.now; visited = k.visited.now };
      start = record { lists = k.lists.start; visited = k.visited.start };
    } };
}

/// What a step changed in the keys that are left.
#[derive(Drop)]
pub struct KeysLeftGroup {
    pub lists: StackGroup<Vec<Bytes>>,
    pub visited: StackGroup<usize>,
}

/// A change of the keys that are left.
#[derive(Drop)]
pub enum KeysChange {
    Begin(Vec<Bytes>),
    Advance,
    End(usize),
    Clear,
}

impl KeysLeft {
    /// No loops. It takes no memory.
    pub fn new(alloc: Global) -> Self
        ensures { result ≡ at_rest no_keys }
    {
        KeysLeft {
            lists: Stack::new(alloc),
            visited: Stack::new(alloc),
        }
    }

    /// Begins a loop over these keys. It fails where memory is refused.
    pub fn begin<const SAVES: bool>(&mut self, keys: Vec<Bytes>) -> Result<(), AllocError>
        ensures did { OnOk result (keys_of self.new.now ≡ keys.items ∷ keys_of self.old.now) }
        ensures start { OnTrue SAVES (GrownKeys self.old.start self.new.start) }
    {
        self.visited.push::<SAVES>(0)?;
        self.lists.push::<SAVES>(keys)
    }

    /// The next key of the innermost loop, if one is left.
    pub fn next(&self) -> Option<&Bytes>
        ensures { option_copied result ≡ slice_get (keys_now (keys_of self.now.now)) 0 }
    {
        next_of(&self.lists, &self.visited)
    }

    /// The next key of the innermost loop is visited. It fails where memory is refused, and then nothing has changed.
    pub fn advance<const SAVES: bool>(&mut self) -> Result<(), AllocError>
        ensures did { OnOk result (keys_of self.new.now ≡ without_first (keys_of self.old.now)) }
        ensures start { OnTrue SAVES (self.new.start ≡ self.old.start) }
    {
        advance_of::<SAVES>(&self.lists, &mut self.visited)
    }

    /// Ends the `count` innermost loops.
    pub fn end(&mut self, count: usize)
        ensures did { keys_of self.new.now ≡ drop count (keys_of self.old.now) }
        ensures start { self.new.start ≡ self.old.start }
    {
        self.lists.drop_newest(count);
        self.visited.drop_newest(count);
    }

    /// Ends all loops.
    pub fn clear(&mut self)
        ensures did { keys_of self.new.now ≡ [] }
        ensures start { self.new.start ≡ self.old.start }
    {
        self.lists.clear();
        self.visited.clear();
    }

    /// Ends the step, and gives what it changed. It takes no memory.
    pub fn finish(&mut self, alloc: Global) -> KeysLeftGroup
        ensures now { self.new ≡ at_rest self.old.now }
        ensures back { keys_back self.old.now result ≡ self.old.start }
        ensures fits { FitsKeys result self.old.now }
        ensures live { AreKeysLive self.old.now }
    {
        KeysLeftGroup {
            lists: self.lists.finish(alloc),
            visited: self.visited.finish(alloc),
        }
    }

    /// Whether the step has changed nothing yet.
    #[inline]
    pub fn is_at_rest(&self) -> bool
        ensures { OnTrue result (self.now.start ≡ self.now.now) }
    {
        self.lists.is_at_rest() && self.visited.is_at_rest()
    }

    /// What is so of all loops. It does nothing.
    #[inline]
    pub fn known(&self)
        ensures { AreKeysLive self.now.now }
    {
        self.lists.known();
        self.visited.known();
    }

    /// Ends the step, and forgets what it changed. It takes no memory.
    pub fn forget(&mut self)
        ensures now { self.new ≡ at_rest self.old.now }
        ensures live { AreKeysLive self.old.now }
    {
        self.lists.forget();
        self.visited.forget();
    }

    /// Puts back what the step in progress changed. It takes no memory and always succeeds.
    pub fn undo_step(&mut self)
        ensures now { self.new ≡ at_rest self.old.start }
        ensures live { AreKeysLive self.old.start }
    {
        self.lists.undo_step();
        self.visited.undo_step();
    }

    /// Puts back what a step that ended changed, and leaves the newer keys in the group. It takes no memory and always succeeds.
    pub fn undo(&mut self, group: &mut KeysLeftGroup)
        requires { FitsKeys group.old self.old.now }
        ensures now { self.new ≡ at_rest (keys_back self.old.now group.old) }
        ensures newer { keys_back self.new.now group.new ≡ self.old.now }
        ensures live { AreKeysLive self.new.now }
    {
        self.lists.undo(&mut group.lists);
        self.visited.undo(&mut group.visited);
    }

    /// Makes a change within the step in progress. It fails where memory is refused.
    fn change(&mut self, change: KeysChange) -> Result<(), AllocError>
        ensures did { OnOk result (keys_of self.new.now ≡ changed_keys change (keys_of self.old.now)) }
        ensures start { GrownKeys self.old.start self.new.start }
    {
        match change {
            KeysChange::Begin(keys) => self.begin::<true>(keys),
            KeysChange::Advance => self.advance::<true>(),
            KeysChange::End(count) => {
                self.end(count);
                Ok(())
            }
            KeysChange::Clear => {
                self.clear();
                Ok(())
            }
        }
    }
}

impl Reversible for KeysLeft {
    ghost use Rattle.std.specs.Prelude.{◌≡◌, List};
    ghost use Rattle.std.proofs.Common.{◌∙◌, sym};
    ghost use Rattle.rawk_value.specs.Values.{Bytes};
    ghost use Rattle.rawk_frames.specs.LaidKeys.{IsSameKeys, keys_of};
    ghost use Rattle.rawk_frames.specs.KeysBack.{FitsKeys, keys_back};
    ghost use Rattle.rawk_frames.specs.FramesChanges.{changed_keys};
    ghost use Rattle.rawk_frames.specs.FramesLaws.{IsSameKeys-refl};

    type Change = KeysChange;

    type Undo = KeysLeftGroup;

    ghost Seen = { List (List Bytes) };

    ghost sees = { λ part. keys_of part.now };

    ghost grown = { λ old new. IsSameKeys old.now new.now };

    ghost makes = { λ old change new. keys_of new.now ≡ changed_keys change (keys_of old.now) };

    ghost leads_back = { λ now undo earlier. FitsKeys undo now.now × IsSameKeys earlier.now (keys_back now.now undo) };

    ghost grown_same = { λ part. IsSameKeys-refl part.now };

    ghost grown_seen = { λ old new h. h.same };

    ghost makes_one = { λ old new other change h k. h ∙ sym k };

    fn apply(&mut self, alloc: Global, change: KeysChange) -> Result<KeysLeftGroup, AllocError> {
        self.forget();
        match self.change(change) {
            Ok(()) => Ok(self.finish(alloc)),
            Err(error) => {
                self.undo_step();
                Err(error)
            }
        }
    }

    fn undo(&mut self, undo: &mut KeysLeftGroup) {
        self.undo(undo);
    }
}

/// The next key of the innermost loop.
fn next_of<'a>(lists: &'a Stack<Vec<Bytes>>, visited: &Stack<usize>) -> Option<&'a Bytes>
    ensures { option_copied result ≡ slice_get (keys_now (left_lists (live_values visited.now.now) (live_values lists.now.now))) 0 }
{
    match visited.newest(0) {
        Some(count) => match lists.newest(0) {
            Some(list) => key_of(list, *count),
            None => None,
        },
        None => None,
    }
}

/// A key of a list.
fn key_of(list: &Vec<Bytes>, number: usize) -> Option<&Bytes>
    ensures { option_copied result ≡ slice_get (drop number list.now.items) 0 }
{
    list.get(number)
}

/// One more key of the innermost loop is visited.
fn advance_of<const SAVES: bool>(
    lists: &Stack<Vec<Bytes>>,
    visited: &mut Stack<usize>,
) -> Result<(), AllocError>
    ensures did { OnOk result (left_lists (live_values visited.new.now) (live_values lists.now.now) ≡ without_first (left_lists (live_values visited.old.now) (live_values lists.now.now))) }
    ensures start { OnTrue SAVES (visited.new.start ≡ visited.old.start) }
{
    let next = match visited.newest(0) {
        Some(count) => *count,
        None => return Ok(()),
    };
    let length = match lists.newest(0) {
        Some(list) => list.len(),
        None => return Ok(()),
    };
    if next < length {
        visited.set_newest::<SAVES>(next + 1)?;
    }
    Ok(())
}
