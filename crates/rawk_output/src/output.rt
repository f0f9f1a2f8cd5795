//! The output that was not given away yet.

ghost use Rattle.std.specs.Prelude.{◌≡◌, ◌≤◌, ◌++◌, [], OnErr, OnOk, length, take};
ghost use Rattle.rawk_value.specs.Values.{int_text, text_of};
ghost use Rattle.rawk_format.specs.Format.{AddsText, formatted};
ghost use Rattle.rawk_slots.specs.Journaled.{at_rest};

use rawk_slots::Reversible;
use rawk_value::{Fault, Value, push_number, push_text};
use std::alloc::{AllocError, Global};
use std::marker::Model;
use std::mem;

/// Bytes of output, beside how many of them there were when the step began.
#[derive(Drop)]
pub struct Output {
    bytes: Vec<u8>,
    began: usize,
}

impl Model for Output {
    ghost use Rattle.std.specs.Prelude.{ℕ, List, ◌≤◌, length, take};
    ghost use Rattle.rawk_slots.specs.Journaled.{Journaled};

    ghost Value = { Journaled (List ℕ) };

    ghost view = { λ o. record { now = o.bytes.items; start = take o.began o.bytes.items } };

    ghost invariant = { λ o. o.began ≤ length o.bytes.items };
}

impl Output {
    /// No output.
    pub fn new(alloc: Global) -> Self
        ensures { result ≡ at_rest [] }
    {
        Output {
            bytes: Vec::new(alloc),
            began: 0,
        }
    }

    /// The bytes.
    pub fn bytes(&self) -> &[u8]
        ensures { result.now ≡ self.now.now }
    {
        &self.bytes
    }

    /// Adds bytes. It fails where memory is refused.
    pub fn push(&mut self, bytes: &[u8]) -> Result<(), AllocError>
        ensures did { OnOk result (self.new.now ≡ self.old.now ++ bytes.now) }
        ensures start { self.new.start ≡ self.old.start }
        ensures err { OnErr result (self.new.now ≡ self.old.now) }
    {
        self.bytes.extend_from_slice(bytes)
    }

    /// Adds bytes; a single one is added without a call. It fails where memory is refused.
    #[inline(always)]
    pub fn push_few(&mut self, bytes: &[u8]) -> Result<(), AllocError>
        ensures did { OnOk result (self.new.now ≡ self.old.now ++ bytes.now) }
        ensures start { self.new.start ≡ self.old.start }
        ensures err { OnErr result (self.new.now ≡ self.old.now) }
    {
        match bytes {
            [byte] => {
                self.bytes.push(*byte)?;
                Ok(())
            }
            _ => self.push(bytes),
        }
    }

    /// Adds a value's text. It fails where memory is refused.
    pub fn push_value(&mut self, value: &Value) -> Result<(), AllocError>
        ensures did { OnOk result (self.new.now ≡ self.old.now ++ text_of value.now) }
        ensures start { self.new.start ≡ self.old.start }
        ensures err { OnErr result (self.new.now ≡ self.old.now) }
    {
        push_text(&mut self.bytes, value)
    }

    /// Adds a number's text. It fails where memory is refused.
    pub fn push_number(&mut self, number: i64) -> Result<(), AllocError>
        ensures did { OnOk result (self.new.now ≡ self.old.now ++ int_text number) }
        ensures start { self.new.start ≡ self.old.start }
        ensures err { OnErr result (self.new.now ≡ self.old.now) }
    {
        push_number(&mut self.bytes, number)
    }

    /// Adds what `printf` writes for a format and its arguments, with the faults of `rawk_format::push_format`; after one of them the
    /// bytes are as they were.
    pub fn push_format(&mut self, format: &[u8], values: &[Value]) -> Result<(), Fault>
        ensures did { AddsText self.old.now self.new.now result (formatted format.now values.now) }
        ensures start { self.new.start ≡ self.old.start }
        ensures err { OnErr result (self.new.now ≡ self.old.now) }
    {
        rawk_format::push_format(&mut self.bytes, format, values)
    }

    /// Gives the bytes away into a buffer, whose room is used for the next ones. It takes no memory.
    #[inline]
    pub fn give(&mut self, buffer: &mut Vec<u8>)
        requires { self.old.start ≡ self.old.now }
        ensures given { buffer.new.items ≡ self.old.now }
        ensures rest { self.new ≡ at_rest [] }
    {
        buffer.clear();
        if !self.bytes.is_empty() {
            mem::swap(&mut self.bytes, buffer);
            self.began = 0;
        }
    }

    /// Removes the bytes, whose room is used for the next ones. It takes no memory.
    #[inline]
    pub fn clear(&mut self)
        ensures { self.new ≡ at_rest [] }
    {
        self.bytes.clear();
        self.began = 0;
    }

    /// Ends the step, and gives how many bytes there were when it began.
    pub fn finish(&mut self) -> usize
        ensures now { self.new ≡ at_rest self.old.now }
        ensures back { take result self.old.now ≡ self.old.start }
        ensures fits { result ≤ length self.old.now }
    {
        mem::replace(&mut self.began, self.bytes.len())
    }

    /// Ends the step, and forgets how it began.
    #[inline]
    pub fn forget(&mut self)
        ensures { self.new ≡ at_rest self.old.now }
    {
        self.began = self.bytes.len();
    }

    /// Takes back what the step in progress added. It takes no memory and always succeeds.
    pub fn undo_step(&mut self)
        ensures { self.new ≡ at_rest self.old.start }
    {
        self.bytes.truncate(self.began);
    }

    /// Takes back what came after `count` bytes. It takes no memory and always succeeds.
    pub fn undo(&mut self, count: usize)
        requires { count ≤ length self.old.now }
        ensures { self.new ≡ at_rest (take count self.old.now) }
    {
        self.bytes.truncate(count);
        self.began = count;
    }
}

impl Reversible for Output {
    ghost use Rattle.std.specs.Prelude.{◌≡◌, ◌≤◌, ◌++◌, ℕ, List, length, refl, take};
    ghost use Rattle.std.proofs.Common.{◌∙◌, sym};

    type Change = Vec<u8>;

    type Undo = usize;

    ghost Seen = { List ℕ };

    ghost sees = { λ part. part.now };

    ghost grown = { λ old new. new.now ≡ old.now };

    ghost makes = { λ old change new. new.now ≡ old.now ++ change.items };

    ghost leads_back = { λ now undo earlier. (undo ≤ length now.now) × (take undo now.now ≡ earlier.now) };

    ghost grown_same = { λ part. refl };

    ghost grown_seen = { λ old new h. h };

    ghost makes_one = { λ old new other change h k. h ∙ sym k };

    /// Adds the bytes; the entry is how many there were.
    fn apply(&mut self, alloc: Global, change: Vec<u8>) -> Result<usize, AllocError> {
        self.forget();
        self.push(&change)?;
        Ok(self.finish())
    }

    fn undo(&mut self, undo: &mut usize) {
        self.undo(*undo);
    }
}
