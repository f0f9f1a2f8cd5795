//! What a step changed.

ghost use Rattle.std.specs.Prelude.{◌≡◌};
ghost use Rattle.std.specs.Option.{option_copied};
ghost use Rattle.rawk_store.specs.Saving.{saved_in, saved_others};

use crate::rare_changes::RareChanges;
use crate::registers::Registers;
use rawk_frames::FramesGroup;
use rawk_record::Record;
use rawk_slots::{Saved, SlotGroup, StackGroup};
use rawk_value::Value;
use std::marker::Model;

/// What a step changed: for each place that it wrote what stood there when it began, once.
#[derive(Drop)]
pub struct Group {
    pub(crate) globals: SlotGroup<Value>,
    pub(crate) frames: FramesGroup,
    pub(crate) operands: Option<StackGroup<Value>>,
    pub(crate) others: Option<RareChanges>,
    pub(crate) current: Option<Record>,
    /// How many bytes of output there were.
    pub(crate) output: usize,
    pub(crate) registers: Registers,
}

impl Model for Group {
    ghost use Rattle.std.specs.Prelude.{◌≡◌, None};
    ghost use Rattle.rawk_store.specs.Groups.{Group};

    ghost Value = { Group };

    ghost use Rattle.rawk_store.specs.GroupBack.{grown_in};

    // No text grew: where one did, a keeper keeps the step in its lists.
    ghost invariant = { λ g. grown_in g.others ≡ None };

    ghost view = { λ g. record { globals = g.globals.entries.items; frames = g.frames; operands = g.operands; others = g.others; current = g.current; output = g.output; registers = g.registers } };
}

impl Group {
    /// The old values of globals.
    pub fn globals(&self) -> &[Saved<Value>]
        ensures { result.now ≡ self.now.globals }
    {
        &self.globals.entries
    }

    /// What was changed of the parts that few steps change, if anything was.
    pub fn others(&self) -> Option<&RareChanges>
        ensures { option_copied result ≡ self.now.others }
    {
        self.others.as_ref()
    }

    /// The record before, if the step has made it another one.
    pub fn record(&self) -> Option<&Record>
        ensures { option_copied result ≡ self.now.current }
    {
        self.current.as_ref()
    }

    /// How many old values of globals, of elements and of the record it holds: one for each of them that was written, also where an element was not there or a text grew
    /// in place. It takes no memory.
    pub fn saved(&self) -> usize
        ensures { result ≡ saved_in self.now }
    {
        let places = self.globals.entries.len() + saved_others(&self.others);
        match &self.current {
            None => places,
            Some(_) => places + 1,
        }
    }
}

/// How many old values these parts hold, if any was changed (see `RareChanges::saved`).
fn saved_others(others: &Option<RareChanges>) -> usize
    ensures { result ≡ saved_others others.now }
{
    match others {
        None => 0,
        Some(group) => group.saved(),
    }
}
