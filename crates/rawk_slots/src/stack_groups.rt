//! What steps changed in a stack, behind one another.

ghost use Rattle.std.specs.Prelude.{◌≡◌, ◌<◌, ◌+◌, [], OnOk, length, vec_len};
ghost use Rattle.rawk_slots.specs.Journaled.{at_rest};
ghost use Rattle.rawk_slots.specs.Stacked.{IsLive};
ghost use Rattle.rawk_slots.specs.StackBack.{FitsStackIf, stack_in};
ghost use Rattle.rawk_slots.specs.StackGroups.{first_if, rest_if};

use crate::saved::Saved;
use crate::stack::Stack;
use std::alloc::{AllocError, Global};
use std::marker::Model;

/// Where a step's old values begin, and how many values were live when it began.
#[derive(Clone, Copy)]
pub struct Begins {
    pub entries: usize,
    pub live: usize,
}

/// What steps changed in a stack. The old values of all steps lie behind one another in one list, so a step takes no allocation where there is room.
#[derive(Drop)]
pub struct StackGroups<T> {
    entries: Vec<Saved<T>>,
    begins: Vec<Begins>,
}

impl<T> Model for StackGroups<T> {
    ghost use Rattle.std.specs.Prelude.{◌+◌, ◌-◌, nat_lt, reverse, if◌then◌else◌, vec_len};
    ghost use Rattle.std.specs.Vec.{vec_capacity};
    ghost use Rattle.rawk_slots.specs.StackGroups.{StackGroups, groups_of, AreBegun};

    ghost Value = { StackGroups T };

    ghost view = { λ g. record {
      groups = groups_of (reverse g.begins.items) g.entries.items;
      room = if nat_lt (vec_len g.begins) (vec_capacity g.begins) then vec_capacity g.entries - vec_len g.entries + 1 else 0;
    } };

    ghost invariant = { λ g. AreBegun (reverse g.begins.items) g.entries.items };
}

impl<T: Drop> StackGroups<T> {
    /// No steps. It takes no memory.
    pub fn new(alloc: Global) -> Self
        ensures { result.groups ≡ [] }
    {
        StackGroups {
            entries: Vec::new(alloc),
            begins: Vec::new(alloc),
        }
    }

    /// Room for one more step of a stack. Where memory is refused, no step has changed.
    #[inline]
    pub fn reserve(&mut self, stack: &Stack<T>) -> Result<(), AllocError>
        ensures groups { self.new.groups ≡ self.old.groups }
        ensures room { OnOk result (length stack.now.now.slots < self.new.room) }
    {
        self.begins.reserve(1)?;
        self.entries.reserve(stack.slot_count())?;
        Ok(())
    }

    /// Ends the step, for which there is room, adds what it changed, and answers whether that was anything: where it was nothing, nothing is added. It takes no memory.
    #[inline]
    pub fn keep(&mut self, stack: &mut Stack<T>) -> bool
        requires { length stack.old.now.slots < self.old.room }
        ensures now { stack.new ≡ at_rest stack.old.now }
        ensures back { stack_in stack.old.now (first_if result self.new.groups) ≡ stack.old.start }
        ensures fits { FitsStackIf (first_if result self.new.groups) stack.old.now }
        ensures rest { rest_if result self.new.groups ≡ self.old.groups }
        ensures live { IsLive stack.old.now }
    {
        if stack.is_at_rest() {
            stack.forget();
            return false;
        }
        let entries = self.entries.len();
        let live = stack.finish_behind(&mut self.entries);
        self.begins.push_reserved(Begins { entries, live });
        true
    }

    /// Puts back the newest step, where the step that is put back changed the stack, and drops it. It takes no memory and always succeeds.
    #[inline]
    pub fn put_back(&mut self, stack: &mut Stack<T>, has_changed: bool)
        requires { FitsStackIf (first_if has_changed self.old.groups) stack.old.now }
        ensures now { stack.new ≡ at_rest (stack_in stack.old.now (first_if has_changed self.old.groups)) }
        ensures left { self.new.groups ≡ rest_if has_changed self.old.groups }
        ensures live { IsLive stack.new.now }
    {
        if has_changed {
            if let Some(begins) = self.begins.pop() {
                stack.undo_from(&mut self.entries, begins.entries, begins.live);
                self.entries.truncate(begins.entries);
                return;
            }
        }
        stack.forget();
    }
}
