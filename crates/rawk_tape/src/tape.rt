//! What is held of an input, and its next record.
ghost use Rattle.std.specs.Bool.{OnFalse};

use crate::Found;
use crate::at_end::{last_line, last_paragraph};
use crate::buffer::Buffer;
use crate::matches::next_match;
use crate::search::{find_in, scan_paragraph};
use rawk_devices::{Ending, Source};
use rawk_search::CachedExpression;
use rawk_value::Fault;
use std::alloc::Global;
use std::marker::Model;

/// Bytes read from a source, and how many of them are consumed. Beside them the expression of the
/// last separator is kept, of which contracts see nothing.
#[derive(Drop)]
pub struct Tape<R: Source + Drop> {
    source: R,
    over: Option<Ending>,
    bytes: Buffer,
    start: usize,
    expression: CachedExpression,
    alloc: Global,
}

impl<R: Source + Drop> Model for Tape<R> {
    ghost use Rattle.std.specs.Prelude.{◌≡◌, ◌≤◌, length};
    ghost use Rattle.rawk_tape.specs.Tapes.{TapeState};

    ghost Value = { TapeState R };

    ghost view = { λ t. record { source = t.source; bytes = t.bytes; consumed = t.start } };

    ghost invariant = { λ t. (t.start ≤ length t.bytes) × (R.over t.source ≡ t.over) };
}

impl<R: Source + Drop> Tape<R> {
    ghost use Rattle.std.specs.Prelude.{◌≡◌, ◌≤◌, ◌<◌, ◌^◌, ◌+◌, ◌*◌, [], ◌∷◌, ◌⊎◌, drop, length, None, Some, Ok, OnOk, OnErr, IfErr, IfSome, slice_range};
    ghost use Rattle.rawk_devices.specs.declared.source.Ending.{Ending};
    ghost use Rattle.rawk_devices.specs.Inputs.{Input};
    ghost use Rattle.rawk_tape.specs.Records.{next_record};
    ghost use Rattle.rawk_tape.specs.Tapes.{MayBe, ReadsOn, ReadsAhead, LastRead};
    ghost use Rattle.rawk_tape.specs.Tapes.{Answers, IsWithin, IsShortOf};

    /// A tape of what the source gives. It reads nothing yet and takes no memory.
    pub fn new(alloc: Global, source: R) -> Self
        requires { R.over source ≡ None }
        ensures { result ≡ record { source = source; bytes = []; consumed = 0 } }
    {
        Tape {
            source,
            over: None,
            bytes: Buffer::new(alloc),
            start: 0,
            expression: CachedExpression::new(alloc),
            alloc,
        }
    }

    /// The source, as it was left. The bytes that are kept are let go.
    pub fn into_source(self) -> R
        ensures { result ≡ self.source }
    {
        let Tape { source, .. } = self;
        source
    }

    /// The bytes that are kept.
    fn kept(&self) -> &[u8]
        ensures { result.now ≡ self.now.bytes }
    {
        self.bytes.as_slice()
    }

    /// How many bytes are kept.
    pub(crate) fn size(&self) -> usize
        ensures value { result ≡ length self.now.bytes }
        ensures small { result < 2 ^ 63 }
        ensures in_range { self.now.consumed ≤ result }
    {
        self.bytes.len()
    }

    /// How many of the kept bytes are consumed.
    pub fn consumed(&self) -> usize
        ensures value { result ≡ self.now.consumed }
        ensures in_range { result ≤ length self.now.bytes }
    {
        self.start
    }

    /// How many bytes were read ahead: those kept behind the consumed ones.
    pub fn held(&self) -> usize
        ensures { result + self.now.consumed ≡ length self.now.bytes }
    {
        self.bytes.len() - self.start
    }

    /// How the input has ended, once the source has reported it.
    fn over(&self) -> Option<Ending>
        ensures { result ≡ R.over self.now.source }
    {
        self.over
    }

    /// Takes the bytes up to a count as consumed, and answers the count before, with which
    /// the same call undoes it.
    pub fn consume(&mut self, count: usize) -> usize
        requires { count ≤ length self.old.bytes }
        ensures value { result ≡ self.old.consumed }
        ensures after { self.new ≡ record self.old { consumed = count } }
    {
        let before = self.start;
        self.start = count;
        before
    }

    /// Whether `forget` lets bytes go.
    #[inline(always)]
    pub fn is_due(&self) -> bool
        ensures { OnFalse result (2 * self.now.consumed ≤ length self.now.bytes) }
    {
        self.start > self.bytes.len() / 2
    }

    /// Lets consumed bytes go, once they are half of those kept, and answers how many. Each
    /// byte is so moved once on average.
    pub fn forget(&mut self) -> usize
        ensures source { self.new.source ≡ self.old.source }
        ensures bytes { self.new.bytes ≡ drop result self.old.bytes }
        ensures consumed { self.new.consumed + result ≡ self.old.consumed }
        ensures fewer { 2 * self.new.consumed ≤ length self.new.bytes }
    {
        if !self.is_due() {
            return 0;
        }
        let size = self.start;
        self.bytes.drop_front(size);
        self.start = 0;
        size
    }

    /// The bytes of a record that was found.
    pub fn text(&self, found: &Found) -> &[u8]
        requires ordered { found.now.start ≤ found.now.end }
        requires in_range { found.now.end ≤ length self.now.bytes }
        ensures { result.now ≡ slice_range self.now.bytes found.now.start found.now.end }
    {
        &self.kept()[found.start..found.end]
    }

    /// Reads once more.
    #[inline(never)]
    fn fill(&mut self) -> Result<(), Fault>
        requires { R.over self.old.source ≡ None }
        ensures reads { OnOk result (ReadsOn R.may_give R.over R.handed
            self.old.source self.old.bytes self.new.source self.new.bytes) }
        ensures consumed { self.new.consumed ≡ self.old.consumed }
        ensures err { OnErr result (self.new ≡ self.old) }
        ensures memory { IfErr result (λ fault. fault ≡ Fault.OutOfMemory) }
    {
        match self.bytes.read_from(&mut self.source) {
            Ok(over) => self.over = over,
            Err(_) => return Err(Fault::OutOfMemory),
        }
        Ok(())
    }

    /// The next record, where this byte ends it among the bytes that are kept; else it is not settled yet. Nothing is read or consumed.
    #[inline(always)]
    pub fn held_line(&self, separator: u8) -> Option<Found>
        ensures next { IfSome result (λ found. (input : Input) → MayBe R.may_give self.now input →
            Answers (next_record input self.now.consumed (separator ∷ [])) self.now.bytes (Ok (Some found))) }
        ensures within { IfSome result (λ found. IsWithin self.now.bytes self.now.consumed (Ok (Some found))) }
    {
        match find_in(self.kept(), separator, self.consumed()) {
            Some(at) => Some(Found {
                start: self.consumed(),
                end: at,
                count: at + 1,
            }),
            None => None,
        }
    }

    /// The next record, which this byte ends.
    #[inline(always)]
    fn next_line(&mut self, separator: u8) -> Result<Option<Found>, Fault>
        ensures ahead { ReadsAhead R.may_give R.over R.handed self.old self.new }
        ensures next { (input : Input) → MayBe R.may_give self.new input →
            Answers (next_record input self.old.consumed (separator ∷ [])) self.new.bytes result }
        ensures lazy { (self.new ≡ self.old)
            ⊎ LastRead (separator ∷ []) self.old.consumed self.old.bytes self.new.bytes }
        ensures within { IsWithin self.new.bytes self.old.consumed result }
        ensures short { IsShortOf self.old.bytes self.old.consumed self.new.bytes result }
        ensures failed { IfErr result (λ fault.
            fault ≡ Fault.ReadFailed → R.over self.new.source ≡ Some Ending.Failed) }
    {
        let mut scanned = self.consumed();
        loop {
            match find_in(self.kept(), separator, scanned) {
                Some(at) => {
                    return Ok(Some(Found {
                        start: self.consumed(),
                        end: at,
                        count: at + 1,
                    }));
                }
                None => scanned = self.size(),
            }
            if let Some(ending) = self.over() {
                return last_line(ending, self.kept(), self.consumed());
            }
            self.fill()?;
        }
    }

    /// The next record, which a run of newlines ends.
    fn next_paragraph(&mut self) -> Result<Option<Found>, Fault>
        ensures ahead { ReadsAhead R.may_give R.over R.handed self.old self.new }
        ensures next { (input : Input) → MayBe R.may_give self.new input →
            Answers (next_record input self.old.consumed []) self.new.bytes result }
        ensures lazy { (self.new ≡ self.old)
            ⊎ LastRead [] self.old.consumed self.old.bytes self.new.bytes }
        ensures within { IsWithin self.new.bytes self.old.consumed result }
        ensures short { IsShortOf self.old.bytes self.old.consumed self.new.bytes result }
        ensures failed { IfErr result (λ fault.
            fault ≡ Fault.ReadFailed → R.over self.new.source ≡ Some Ending.Failed) }
    {
        let start = self.consumed();
        let mut found = Found {
            start,
            end: start,
            count: start,
        };
        loop {
            found = scan_paragraph(self.kept(), found);
            if found.count < self.size() {
                return Ok(Some(found));
            }
            if let Some(ending) = self.over() {
                return last_paragraph(ending, self.kept(), found);
            }
            self.fill()?;
        }
    }

    /// The next record, which a match of the expression that the separator is ends.
    fn next_expression(&mut self, separator: &[u8]) -> Result<Option<Found>, Fault>
        requires { 2 ≤ length separator.now }
        ensures ahead { ReadsAhead R.may_give R.over R.handed self.old self.new }
        ensures next { (input : Input) → MayBe R.may_give self.new input →
            Answers (next_record input self.old.consumed separator.now) self.new.bytes result }
        ensures lazy { (self.new ≡ self.old)
            ⊎ LastRead separator.now self.old.consumed self.old.bytes self.new.bytes }
        ensures within { IsWithin self.new.bytes self.old.consumed result }
        ensures failed { IfErr result (λ fault.
            fault ≡ Fault.ReadFailed → R.over self.new.source ≡ Some Ending.Failed) }
    {
        match self.expression.get(self.alloc, separator) {
            Ok(Some(ere)) => next_match(
                self.alloc,
                &mut self.source,
                &mut self.over,
                &mut self.bytes,
                self.start,
                ere,
            ),
            Ok(None) => Err(Fault::BadSeparator),
            Err(_) => Err(Fault::OutOfMemory),
        }
    }

    /// The next record of the input, or None at its end. Nothing is consumed yet.
    ///
    /// An empty separator ends a record at a run of two or more newlines, and skips newlines
    /// before it; a single byte ends a record by itself (POSIX awk, the variable RS). Several
    /// bytes are an extended regular expression: a record ends at its first match that is not
    /// empty; `^` holds at the record's first byte, `$` at the input's end. What is read only
    /// stands behind the bytes kept so far, whatever the answer, and the source is read only
    /// while the bytes kept do not settle the record.
    ///
    /// Errors: `BadSeparator` for several bytes that are no expression, before anything is read;
    /// `ReadFailed` where the source has failed before the record was settled; `OutOfMemory` where
    /// a growth was refused.
    #[inline(always)]
    pub fn next(&mut self, separator: &[u8]) -> Result<Option<Found>, Fault>
        ensures ahead { ReadsAhead R.may_give R.over R.handed self.old self.new }
        ensures next { (input : Input) → MayBe R.may_give self.new input →
            Answers (next_record input self.old.consumed separator.now) self.new.bytes result }
        ensures lazy { (self.new ≡ self.old)
            ⊎ LastRead separator.now self.old.consumed self.old.bytes self.new.bytes }
        ensures within { IsWithin self.new.bytes self.old.consumed result }
        ensures short { length separator.now ≤ 1 →
            IsShortOf self.old.bytes self.old.consumed self.new.bytes result }
        ensures failed { IfErr result (λ fault.
            fault ≡ Fault.ReadFailed → R.over self.new.source ≡ Some Ending.Failed) }
    {
        match separator {
            [] => self.next_paragraph(),
            [byte] => self.next_line(*byte),
            _ => self.next_expression(separator),
        }
    }
}
