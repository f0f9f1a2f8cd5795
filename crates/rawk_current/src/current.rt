//! The present record, and the one before the step.

ghost use Rattle.std.specs.Prelude.{◌≡◌, ◌≢◌, ◌<◌, ◌-◌, ◌^◌, IfErr, OnErr, OnOk, if◌then◌else◌, length, slice_get};
ghost use Rattle.std.specs.Bool.{OnTrue};
ghost use Rattle.std.specs.Option.{option_map};
ghost use Rattle.rawk_slots.specs.Journaled.{at_rest};
ghost use Rattle.rawk_record.specs.Changed.{rebuilt, resized, with_value};
ghost use Rattle.rawk_record.specs.Shown.{no_record, read_as, record_back, split_record};
ghost use Rattle.rawk_record.specs.FieldRefs.{ref_value};

use rawk_pieces::Separator;
use rawk_record::{FieldRef, Record};
use rawk_search::CachedExpression;
use rawk_value::{Fault, Value};
use std::alloc::{AllocError, Global};
use std::marker::Model;
use std::mem;

/// The present record, beside what it was when the step began.
///
/// Records change places: the one is the present record, the other the earlier one, or spare where the step has not changed it. A record that is built of the
/// present one's fields is built in a third.
#[derive(Drop)]
pub struct Current {
    present: Record,
    other: Record,
    built: Record,
    changed: bool,
    // Whether a text that is read is left uncut: then its fields are sought each time that they are asked for. No contract sees it, since no answer depends on it.
    uncut: bool,
    // The expression of the last field separator of several bytes.
    last: CachedExpression,
}

impl Model for Current {
    ghost use Rattle.std.specs.Prelude.{if◌then◌else◌};
    ghost use Rattle.rawk_slots.specs.Journaled.{Journaled};
    ghost use Rattle.rawk_record.specs.Shown.{Shown};

    ghost Value = { Journaled Shown };

    ghost view = { λ c. record { now = c.present; start = if c.changed then c.other else c.present } };
}

/// Makes a record a text with its fields, and leaves it uncut where that is wanted.
#[inline(always)]
fn refill(
    alloc: Global,
    to: &mut Record,
    uncut: bool,
    text: &[u8],
    separator: Separator<'_>,
    newline: bool,
) -> Result<(), AllocError>
    ensures { OnOk result (to.new ≡ split_record separator.entry newline text.now) }
{
    if uncut {
        return to.refill_uncut(alloc, text, separator, newline);
    }
    to.refill(alloc, text, separator, newline)
}

/// Makes a text with its fields the present record; the record as it was when the step began stays.
#[inline(always)]
fn fill<const SAVES: bool>(
    alloc: Global,
    present: &mut Record,
    other: &mut Record,
    changed: &mut bool,
    uncut: bool,
    text: &[u8],
    separator: Separator<'_>,
    newline: bool,
) -> Result<(), AllocError>
    ensures did { OnOk result (present.new ≡ split_record separator.entry newline text.now) }
    ensures start { OnTrue SAVES ((if changed.new then other.new else present.new) ≡ (if changed.old then other.old else present.old)) }
{
    if !SAVES || *changed {
        return refill(alloc, present, uncut, text, separator, newline);
    }
    refill(alloc, other, uncut, text, separator, newline)?;
    mem::swap(present, other);
    *changed = true;
    Ok(())
}

/// Makes the record that was built the present one; the record as it was when the step began stays.
fn put<const SAVES: bool>(
    present: &mut Record,
    other: &mut Record,
    changed: &mut bool,
    built: &mut Record,
)
    ensures present { present.new ≡ built.old }
    ensures start { OnTrue SAVES ((if changed.new then other.new else present.new) ≡ (if changed.old then other.old else present.old)) }
{
    mem::swap(present, built);
    if SAVES && !*changed {
        mem::swap(other, built);
        *changed = true;
    }
}

impl Current {
    /// The empty record. It takes no memory.
    pub fn new(alloc: Global) -> Self
        ensures { result ≡ at_rest no_record }
    {
        Current {
            present: Record::new(alloc),
            other: Record::new(alloc),
            built: Record::new(alloc),
            changed: false,
            uncut: false,
            last: CachedExpression::new(alloc),
        }
    }

    /// From now on texts that are read are left uncut: their fields are sought each time that they are asked for, which is for programs that ask for few.
    pub fn leave_uncut(&mut self)
        ensures { self.new ≡ self.old }
    {
        self.uncut = true;
    }

    /// The bytes of `$0`.
    pub fn text(&self) -> &[u8]
        ensures { result.now ≡ self.now.now.text }
    {
        self.present.text()
    }

    /// How many fields there are: `NF`.
    pub fn field_count(&self) -> usize
        ensures value { result ≡ length self.now.now.fields }
        ensures small { result < 2 ^ 63 }
    {
        self.present.field_count()
    }

    /// A field by its number, from 1, and `None` past the last. It takes no memory.
    pub fn field(&self, number: usize) -> Option<FieldRef<'_>>
        requires { 0 < number }
        ensures { option_map ref_value result ≡ slice_get self.now.now.fields (number - 1) }
    {
        self.present.field(number)
    }

    /// Becomes a text with its fields by a field separator; `newline` says whether a newline separates too.
    ///
    /// A separator of several bytes that is no extended regular expression is refused, and then nothing has changed: `BadEre`. Where memory is refused the answer is
    /// `OutOfMemory`. The expression is kept, and read anew only where the separator is another one than last time.
    #[inline(always)]
    pub fn read<const SAVES: bool>(
        &mut self,
        alloc: Global,
        text: &[u8],
        fs: &[u8],
        newline: bool,
    ) -> Result<(), Fault>
        ensures did { OnOk result (read_as text.now fs.now newline ≡ Ok self.new.now) }
        ensures fault { IfErr result (λ fault. fault ≢ Fault.OutOfMemory → read_as text.now fs.now newline ≡ Err fault) }
        ensures same { IfErr result (λ fault. fault ≢ Fault.OutOfMemory → self.new ≡ self.old) }
        ensures start { OnTrue SAVES (self.new.start ≡ self.old.start) }
    {
        let separator = Separator::named(alloc, fs, &mut self.last)?;
        match fill::<SAVES>(
            alloc,
            &mut self.present,
            &mut self.other,
            &mut self.changed,
            self.uncut,
            text,
            separator,
            newline,
        ) {
            Ok(()) => Ok(()),
            Err(AllocError) => Err(Fault::OutOfMemory),
        }
    }

    /// Gives the field of a number, from 1, a value, and builds `$0` anew: the fields' texts with the separator between two. The fields between become uninitialised.
    ///
    /// It fails where memory is refused, and then nothing has changed.
    pub fn set_field<const SAVES: bool>(
        &mut self,
        alloc: Global,
        number: usize,
        value: Value,
        separator: &[u8],
    ) -> Result<(), AllocError>
        requires { 0 < number }
        ensures did { OnOk result (self.new.now ≡ rebuilt separator.now (with_value number value self.old.now.fields)) }
        ensures start { OnTrue SAVES (self.new.start ≡ self.old.start) }
        ensures same { OnErr result (self.new ≡ self.old) }
    {
        self.built
            .rebuild_with_field(alloc, &self.present, number, value, separator)?;
        put::<SAVES>(
            &mut self.present,
            &mut self.other,
            &mut self.changed,
            &mut self.built,
        );
        Ok(())
    }

    /// Cuts or extends the fields to this many, and builds `$0` anew: the fields' texts with the separator between two. New fields are uninitialised.
    ///
    /// It fails where memory is refused, and then nothing has changed.
    pub fn set_field_count<const SAVES: bool>(
        &mut self,
        alloc: Global,
        count: usize,
        separator: &[u8],
    ) -> Result<(), AllocError>
        ensures did { OnOk result (self.new.now ≡ rebuilt separator.now (resized count self.old.now.fields)) }
        ensures start { OnTrue SAVES (self.new.start ≡ self.old.start) }
        ensures same { OnErr result (self.new ≡ self.old) }
    {
        self.built
            .rebuild_with_count(alloc, &self.present, count, separator)?;
        put::<SAVES>(
            &mut self.present,
            &mut self.other,
            &mut self.changed,
            &mut self.built,
        );
        Ok(())
    }

    /// Ends the step, and gives the record as it was when the step began, where the step changed it: a short one in place, so that its buffers are used again. It takes no memory.
    pub fn finish(&mut self, alloc: Global) -> Option<Record>
        ensures now { self.new ≡ at_rest self.old.now }
        ensures back { record_back self.old.now result ≡ self.old.start }
    {
        if !self.changed {
            return None;
        }
        self.changed = false;
        match self.other.in_place() {
            Some(short) => Some(short),
            None => Some(mem::replace(&mut self.other, Record::new(alloc))),
        }
    }

    /// Ends the step, and forgets how it began. The earlier record is spare then: it takes no memory.
    pub fn forget(&mut self)
        ensures { self.new ≡ at_rest self.old.now }
    {
        self.changed = false;
    }

    /// Puts back what the step in progress changed. It takes no memory and always succeeds.
    pub fn undo_step(&mut self)
        ensures { self.new ≡ at_rest self.old.start }
    {
        if self.changed {
            mem::swap(&mut self.present, &mut self.other);
            self.changed = false;
        }
    }

    /// Puts an earlier record back, and leaves the newer one in its place. It takes no memory and always succeeds.
    pub fn undo(&mut self, earlier: &mut Option<Record>)
        ensures now { self.new ≡ at_rest (record_back self.old.now earlier.old) }
        ensures newer { record_back self.new.now earlier.new ≡ self.old.now }
    {
        self.changed = false;
        if let Some(record) = earlier {
            mem::swap(&mut self.present, record);
        }
    }
}
