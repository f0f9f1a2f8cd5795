//! What steps changed in activations, locals and operands.

ghost use Rattle.std.specs.Prelude.{◌≡◌, [], OnOk};
ghost use Rattle.rawk_slots.specs.Journaled.{at_rest};
ghost use Rattle.rawk_slots.specs.Stacked.{IsLive};
ghost use Rattle.rawk_slots.specs.StackBack.{FitsStackIf, stack_in};
ghost use Rattle.rawk_frames.specs.FramesBack.{FitsFrames, frames_back};
ghost use Rattle.rawk_frames.specs.LaidFrames.{AreFramesLive, AreNested};
ghost use Rattle.rawk_frames.specs.KeptStacks.{HasRoomFor, lists_of, newest_frames, newest_operands, older_stacks};

use crate::frames::{Activation, Frames, Local};
use rawk_slots::{Stack, StackGroups};
use rawk_value::Value;
use std::alloc::{AllocError, Global};

/// In which of the stacks a step changed anything.
#[derive(Clone, Copy)]
pub struct HasStacks {
    pub frames: bool,
    pub locals: bool,
    pub operands: bool,
}

/// What steps changed in activations, locals and operands, step behind step.
#[derive(Drop)]
pub struct KeptStacks {
    frames: StackGroups<Activation>,
    locals: StackGroups<Local>,
    operands: StackGroups<Value>,
}

impl KeptStacks {
    /// No steps. It takes no memory.
    pub fn new(alloc: Global) -> Self
        ensures { lists_of result ≡ record { frames = []; locals = []; operands = [] } }
    {
        KeptStacks {
            frames: StackGroups::new(alloc),
            locals: StackGroups::new(alloc),
            operands: StackGroups::new(alloc),
        }
    }

    /// Room for one more step. Where memory is refused, no step has changed.
    #[inline]
    pub fn reserve(&mut self, frames: &Frames, operands: &Stack<Value>) -> Result<(), AllocError>
        ensures lists { lists_of self.new ≡ lists_of self.old }
        ensures room { OnOk result (HasRoomFor self.new frames.now.now operands.now.now) }
    {
        frames.reserve(&mut self.frames, &mut self.locals)?;
        self.operands.reserve(operands)
    }

    /// Ends the step, for which there is room, adds what it changed, and answers in which of the stacks that was anything. It takes no memory.
    #[inline]
    pub fn keep(&mut self, frames: &mut Frames, operands: &mut Stack<Value>) -> HasStacks
        requires nested { AreNested frames.old.start }
        requires room { HasRoomFor self.old frames.old.now operands.old.now }
        ensures frames { frames.new ≡ at_rest frames.old.now }
        ensures operands { operands.new ≡ at_rest operands.old.now }
        ensures frames_back { frames_back frames.old.now (newest_frames result (lists_of self.new)) ≡ frames.old.start }
        ensures frames_fit { FitsFrames (newest_frames result (lists_of self.new)) frames.old.now }
        ensures operands_back { stack_in operands.old.now (newest_operands result (lists_of self.new)) ≡ operands.old.start }
        ensures operands_fit { FitsStackIf (newest_operands result (lists_of self.new)) operands.old.now }
        ensures older { older_stacks result (lists_of self.new) ≡ lists_of self.old }
        ensures nested { AreNested frames.old.now }
        ensures live { AreFramesLive frames.old.now }
        ensures operands_live { IsLive operands.old.now }
    {
        let (has_frames, has_locals) = frames.keep(&mut self.frames, &mut self.locals);
        HasStacks {
            frames: has_frames,
            locals: has_locals,
            operands: self.operands.keep(operands),
        }
    }

    /// Puts back the newest step, which changed these stacks, and drops it. It takes no memory and always succeeds.
    pub fn put_back(&mut self, frames: &mut Frames, operands: &mut Stack<Value>, has: HasStacks)
        requires frames { FitsFrames (newest_frames has (lists_of self.old)) frames.old.now }
        requires operands { FitsStackIf (newest_operands has (lists_of self.old)) operands.old.now }
        ensures frames { frames.new ≡ at_rest (frames_back frames.old.now (newest_frames has (lists_of self.old))) }
        ensures operands { operands.new ≡ at_rest (stack_in operands.old.now (newest_operands has (lists_of self.old))) }
        ensures older { lists_of self.new ≡ older_stacks has (lists_of self.old) }
        ensures nested { AreNested frames.new.now }
        ensures live { AreFramesLive frames.new.now }
        ensures operands_live { IsLive operands.new.now }
    {
        frames.put_back(&mut self.frames, has.frames, &mut self.locals, has.locals);
        self.operands.put_back(operands, has.operands);
    }
}
