//! The reading of a record.

ghost use Rattle.std.specs.Bool.{OnTrue};
ghost use Rattle.std.specs.Prelude.{◌≡◌, ◌≢◌, ◌≤◌, ◌⊎◌, ◌∷◌, [], List, Ok, Some, false, length, slice_range, IfOk, IfSome, OnOk};
ghost use Rattle.rawk_store.specs.Layout.{Grown};
ghost use Rattle.rawk_store.specs.Stores.{start_of};
ghost use Rattle.rawk_reading.specs.Plain.{IsPlainMove};
ghost use Rattle.rawk_operands.specs.Moving.{moving};
ghost use Rattle.rawk_reading.specs.Reading.{counter_up, taken_of, with_counted_text, text_taken_of, Takes, Counts, Finds, consumed_by, ReadsTo, ReadsText, KeepsRegisters, KeepsPlaces, IsQuietReading};
ghost use Rattle.rawk_operands.specs.Borrowed.{global_in};
ghost use Rattle.rawk_reading.specs.Drawing.{Draws, IsDue};
ghost use Rattle.rawk_record.specs.Shown.{read_as};
ghost use Rattle.rawk_value.specs.Values.{Bytes, text_of, is_empty};
ghost use Rattle.rawk_devices.specs.Inputs.{Input};
ghost use Rattle.rawk_tape.specs.Records.{next_record};
ghost use Rattle.rawk_tape.specs.Tapes.{Answers, IsWithin, MayBe};
ghost use Rattle.rawk_devices.specs.declared.source.Ending.{Ending};
ghost use Rattle.rawk_code.specs.Actions.{Point};

use itoa::Buffer;
use rawk_devices::Source;
use rawk_operands::borrowed::global_borrowed;
use rawk_operands::stack::push_input;
use rawk_operands::variables::global_number;
use rawk_operators::{number, text_borrowed};
use rawk_special::{FNR, FS, NR, RS};
use rawk_store::{Cells, Store};
use rawk_tape::{Found, Tape};
use rawk_value::{Fault, Value};
use std::alloc::{AllocError, Global};

/// What came of the reading of a record.
#[derive(Clone, Copy)]
pub enum Reading {
    Taken,
    /// the input is at its end
    Missing,
    Faulted(Fault),
}

/// A counter with one more, whatever it holds. It takes no memory.
#[inline(never)]
fn value_up(globals: &Cells, counter: usize) -> Result<i64, Fault>
    ensures { result ≡ counter_up counter globals.now.now }
{
    match number(global_borrowed(globals, counter)) {
        Err(fault) => Err(fault),
        Ok(n) => rawk_value::add(n, 1),
    }
}

/// A counter with one more. It takes no memory.
#[inline(always)]
fn counter_up(globals: &Cells, counter: usize) -> Result<i64, Fault>
    ensures { result ≡ counter_up counter globals.now.now }
{
    match global_number(globals, counter) {
        Some(n) => rawk_value::add(n, 1),
        None => value_up(globals, counter),
    }
}

/// The text of a separator, in place but for a number's digits, which stand in the buffer. It takes no memory.
#[inline(always)]
fn separator_in<'a>(globals: &'a Cells, separator: usize, digits: &'a mut Buffer) -> &'a [u8]
    ensures { result.now ≡ text_of (global_in separator globals.now.now) }
{
    match globals.value(separator) {
        Some(Value::String(text)) => text.as_slice(),
        _ => text_borrowed(global_borrowed(globals, separator), digits),
    }
}

/// The byte that a text is; none of one of more bytes or of none.
#[inline(always)]
fn only_byte(text: &[u8]) -> Option<u8>
    ensures { IfSome result (λ byte. text.now ≡ byte ∷ []) }
{
    match text {
        [byte] => Some(*byte),
        _ => None,
    }
}

/// The byte that a separator is; none of a text of more bytes or of none, and of a number.
#[inline(always)]
fn separator_byte(globals: &Cells, separator: usize) -> Option<u8>
    ensures { IfSome result (λ byte. text_of (global_in separator globals.now.now) ≡ byte ∷ []) }
{
    match globals.value(separator) {
        Some(Value::String(text)) => only_byte(text.as_slice()),
        Some(Value::Input(text)) => only_byte(text.as_slice()),
        _ => None,
    }
}

/// NR and FNR with one more, where both hold numbers that have one more; none else.
#[inline(always)]
fn counters_up(globals: &Cells) -> Option<(i64, i64)>
    ensures { IfSome result (λ c. (counter_up NR globals.now.now ≡ Ok c.0) × (counter_up FNR globals.now.now ≡ Ok c.1)) }
{
    let nr = global_number(globals, NR)?;
    let fnr = global_number(globals, FNR)?;
    let nr_up = rawk_value::add(nr, 1).ok()?;
    let fnr_up = rawk_value::add(fnr, 1).ok()?;
    Some((nr_up, fnr_up))
}

/// The record of a text, by the field separator of now, and the counters; a separator that is refused changes nothing. It fails where memory is refused.
#[inline(always)]
fn show_counted<const SAVES: bool>(
    alloc: Global,
    store: &mut Store,
    text: &[u8],
    paragraph: bool,
    nr: i64,
    fnr: i64,
) -> Result<Reading, AllocError>
    ensures did { IfOk result (λ r. Counts r nr fnr (read_as text.now (text_of (global_in FS store.old.globals.now)) paragraph) (moving store.old) (moving store.new)) }
    ensures start { OnTrue SAVES (start_of store.new ≡ start_of store.old) }
    ensures plain { IsPlainMove store.old store.new }
{
    let mut digits = Buffer::new();
    let separator = separator_in(&store.globals, FS, &mut digits);
    match store
        .current
        .read::<SAVES>(alloc, text, separator, paragraph)
    {
        Ok(()) => {
            store.globals.set_number::<SAVES>(NR, nr)?;
            store.globals.set_number::<SAVES>(FNR, fnr)?;
            Ok(Reading::Taken)
        }
        Err(Fault::OutOfMemory) => Err(AllocError),
        Err(fault) => Ok(Reading::Faulted(fault)),
    }
}

/// A text becomes the record, and is counted, whatever the counters and the separator are; a fault of a counter or a separator changes nothing. It fails where memory is
/// refused.
#[inline(never)]
fn take_any_text<const SAVES: bool>(
    alloc: Global,
    store: &mut Store,
    text: &[u8],
    paragraph: bool,
) -> Result<Reading, AllocError>
    requires { paragraph ≡ is_empty (text_of (global_in RS store.old.globals.now)) }
    ensures did { IfOk result (λ r. Takes r (taken_of text.now (moving store.old)) (moving store.old) (moving store.new)) }
    ensures start { OnTrue SAVES (start_of store.new ≡ start_of store.old) }
    ensures plain { IsPlainMove store.old store.new }
{
    match counter_up(&store.globals, NR) {
        Err(fault) => Ok(Reading::Faulted(fault)),
        Ok(nr) => match counter_up(&store.globals, FNR) {
            Err(fault) => Ok(Reading::Faulted(fault)),
            Ok(fnr) => show_counted::<SAVES>(alloc, store, text, paragraph, nr, fnr),
        },
    }
}

/// The record of a text, by a byte that separates fields, and the counters, which are written first, since such a separator is not refused. It fails where memory is refused.
#[inline(always)]
fn show_by_byte<const SAVES: bool>(
    alloc: Global,
    store: &mut Store,
    text: &[u8],
    paragraph: bool,
    byte: u8,
    nr: i64,
    fnr: i64,
) -> Result<Reading, AllocError>
    ensures did { IfOk result (λ r. Counts r nr fnr (read_as text.now (byte ∷ []) paragraph) (moving store.old) (moving store.new)) }
    ensures start { OnTrue SAVES (start_of store.new ≡ start_of store.old) }
    ensures plain { IsPlainMove store.old store.new }
{
    store.globals.set_number::<SAVES>(NR, nr)?;
    store.globals.set_number::<SAVES>(FNR, fnr)?;
    match store.current.read::<SAVES>(alloc, text, &[byte], paragraph) {
        Ok(()) => Ok(Reading::Taken),
        Err(_) => Err(AllocError),
    }
}

/// A text becomes the record, and is counted; a fault of a counter or a separator changes nothing. It fails where memory is
/// refused.
#[inline(always)]
fn take_text<const SAVES: bool>(
    alloc: Global,
    store: &mut Store,
    text: &[u8],
    paragraph: bool,
) -> Result<Reading, AllocError>
    requires { paragraph ≡ is_empty (text_of (global_in RS store.old.globals.now)) }
    ensures did { IfOk result (λ r. Takes r (taken_of text.now (moving store.old)) (moving store.old) (moving store.new)) }
    ensures start { OnTrue SAVES (start_of store.new ≡ start_of store.old) }
    ensures plain { IsPlainMove store.old store.new }
{
    if let Some(byte) = separator_byte(&store.globals, FS) {
        if let Some((nr, fnr)) = counters_up(&store.globals) {
            return show_by_byte::<SAVES>(alloc, store, text, paragraph, byte, nr, fnr);
        }
    }
    take_any_text::<SAVES>(alloc, store, text, paragraph)
}

/// A text becomes the newest operand, with these counters. It fails where memory is refused.
#[inline(always)]
fn put_counted<const SAVES: bool>(
    alloc: Global,
    store: &mut Store,
    text: &[u8],
    nr: i64,
    fnr: i64,
) -> Result<(), AllocError>
    ensures did { OnOk result (moving store.new ≡ with_counted_text nr fnr text.now (moving store.old)) }
    ensures start { OnTrue SAVES (Grown (start_of store.old) (start_of store.new)) }
{
    store.globals.set_number::<SAVES>(NR, nr)?;
    store.globals.set_number::<SAVES>(FNR, fnr)?;
    push_input::<SAVES>(alloc, &mut store.operands, text)
}

/// A text becomes the newest operand, and is counted, whatever the counters are; a fault of a counter changes nothing. It fails where memory is refused.
#[inline(never)]
fn put_any_text<const SAVES: bool>(
    alloc: Global,
    store: &mut Store,
    text: &[u8],
) -> Result<Reading, AllocError>
    ensures did { IfOk result (λ r. Takes r (text_taken_of text.now (moving store.old)) (moving store.old) (moving store.new)) }
    ensures start { OnTrue SAVES (Grown (start_of store.old) (start_of store.new)) }
{
    match counter_up(&store.globals, NR) {
        Err(fault) => Ok(Reading::Faulted(fault)),
        Ok(nr) => match counter_up(&store.globals, FNR) {
            Err(fault) => Ok(Reading::Faulted(fault)),
            Ok(fnr) => {
                put_counted::<SAVES>(alloc, store, text, nr, fnr)?;
                Ok(Reading::Taken)
            }
        },
    }
}

/// A text becomes the newest operand, and is counted; a fault of a counter changes nothing. It fails where memory is refused.
#[inline(always)]
fn put_text<const SAVES: bool>(
    alloc: Global,
    store: &mut Store,
    text: &[u8],
) -> Result<Reading, AllocError>
    ensures did { IfOk result (λ r. Takes r (text_taken_of text.now (moving store.old)) (moving store.old) (moving store.new)) }
    ensures start { OnTrue SAVES (Grown (start_of store.old) (start_of store.new)) }
{
    if let Some((nr, fnr)) = counters_up(&store.globals) {
        put_counted::<SAVES>(alloc, store, text, nr, fnr)?;
        return Ok(Reading::Taken);
    }
    put_any_text::<SAVES>(alloc, store, text)
}

/// A fault of a reading, or the want of memory.
fn refused(fault: Fault) -> Result<Reading, AllocError>
    ensures { IfOk result (λ r. (r ≡ Reading.Faulted fault) × (fault ≢ Fault.OutOfMemory)) }
{
    match fault {
        Fault::OutOfMemory => Err(AllocError),
        other => Ok(Reading::Faulted(other)),
    }
}

/// A record that was found becomes the present one, and its bytes are consumed. It fails where memory is refused.
#[inline(always)]
fn take_found<R: Source + Drop, const SAVES: bool>(
    alloc: Global,
    store: &mut Store,
    tape: &mut Tape<R>,
    found: Found,
    paragraph: bool,
) -> Result<Reading, AllocError>
    requires paragraph { paragraph ≡ is_empty (text_of (global_in RS store.old.globals.now)) }
    requires ordered { found.start ≤ found.end }
    requires end_in_range { found.end ≤ length tape.old.bytes }
    requires in_range { found.count ≤ length tape.old.bytes }
    ensures did { IfOk result (λ r. Finds r (taken_of (slice_range tape.old.bytes found.start found.end) (moving store.old)) found.count (moving store.old) (moving store.new)) }
    ensures start { OnTrue SAVES (start_of store.new ≡ start_of store.old) }
    ensures tape { tape.new ≡ record tape.old { consumed = tape.new.consumed } }
    ensures consumed { IfOk result (λ r. tape.new.consumed ≡ consumed_by r found.count tape.old.consumed) }
    ensures plain { IsPlainMove store.old store.new }
{
    match take_text::<SAVES>(alloc, store, tape.text(&found), paragraph)? {
        Reading::Taken => {
            tape.consume(found.count);
            store.registers.now.consumed = found.count;
            Ok(Reading::Taken)
        }
        other => Ok(other),
    }
}

/// The next record, where a single byte separates records and ends it among the bytes that are kept; else it is sought by others.
#[inline(always)]
fn held_record<R: Source + Drop>(globals: &Cells, tape: &Tape<R>) -> Option<Found>
    ensures next { IfSome result (λ found. (input : Input) → MayBe R.may_give tape.now input → Answers (next_record input tape.now.consumed (text_of (global_in RS globals.now.now))) tape.now.bytes (Ok (Some found))) }
    ensures within { IfSome result (λ found. IsWithin tape.now.bytes tape.now.consumed (Ok (Some found))) }
    ensures line { IfSome result (λ found. is_empty (text_of (global_in RS globals.now.now)) ≡ false) }
{
    let byte = separator_byte(globals, RS)?;
    tape.held_line(byte)
}

/// Reads a record, whatever separates records: it becomes the present one and is counted, all or nothing. It fails where memory is refused; bytes may be read
/// ahead then.
#[inline(never)]
fn read_any<R: Source + Drop, const SAVES: bool>(
    alloc: Global,
    store: &mut Store,
    tape: &mut Tape<R>,
) -> Result<Reading, AllocError>
    requires { tape.old.consumed ≡ store.old.registers.now.consumed }
    ensures may { (kept : Input) → MayBe R.may_give tape.new kept → MayBe R.may_give tape.old kept }
    ensures did { IfOk result (λ r. (points : List Point) (gone handed : Bytes) (kept : Input) → MayBe R.may_give tape.new kept → ReadsTo r points gone handed kept (moving store.old) (moving store.new)) }
    ensures registers { IfOk result (λ r. KeepsRegisters (moving store.old) (moving store.new)) }
    ensures start { OnTrue SAVES (start_of store.new ≡ start_of store.old) }
    ensures consumed { OnOk result (tape.new.consumed ≡ store.new.registers.now.consumed) }
    ensures asks { (tape.new.bytes ≡ tape.old.bytes) ⊎ IsDue (text_of (global_in RS store.old.globals.now)) store.old.registers.now.consumed tape.new.bytes }
    ensures draws { Draws R.over R.handed tape.old tape.new }
    ensures quiet { IfOk result IsQuietReading }
    ensures failed { IfOk result (λ r. r ≡ Reading.Faulted Fault.ReadFailed → R.over tape.new.source ≡ Some Ending.Failed) }
    ensures plain { IsPlainMove store.old store.new }
{
    let mut digits = Buffer::new();
    let separator = separator_in(&store.globals, RS, &mut digits);
    let paragraph = separator.len() == 0;
    match tape.next(separator) {
        Err(fault) => refused(fault),
        Ok(None) => Ok(Reading::Missing),
        Ok(Some(found)) => take_found::<R, SAVES>(alloc, store, tape, found, paragraph),
    }
}

/// Reads a record: it becomes the present one and is counted, all or nothing. It fails where memory is refused; bytes may be read
/// ahead then.
#[inline(always)]
pub fn read<R: Source + Drop, const SAVES: bool>(
    alloc: Global,
    store: &mut Store,
    tape: &mut Tape<R>,
) -> Result<Reading, AllocError>
    requires { tape.old.consumed ≡ store.old.registers.now.consumed }
    ensures may { (kept : Input) → MayBe R.may_give tape.new kept → MayBe R.may_give tape.old kept }
    ensures did { IfOk result (λ r. (points : List Point) (gone handed : Bytes) (kept : Input) → MayBe R.may_give tape.new kept → ReadsTo r points gone handed kept (moving store.old) (moving store.new)) }
    ensures registers { IfOk result (λ r. KeepsRegisters (moving store.old) (moving store.new)) }
    ensures start { OnTrue SAVES (start_of store.new ≡ start_of store.old) }
    ensures consumed { OnOk result (tape.new.consumed ≡ store.new.registers.now.consumed) }
    ensures asks { (tape.new.bytes ≡ tape.old.bytes) ⊎ IsDue (text_of (global_in RS store.old.globals.now)) store.old.registers.now.consumed tape.new.bytes }
    ensures draws { Draws R.over R.handed tape.old tape.new }
    ensures quiet { IfOk result IsQuietReading }
    ensures failed { IfOk result (λ r. r ≡ Reading.Faulted Fault.ReadFailed → R.over tape.new.source ≡ Some Ending.Failed) }
    ensures plain { IsPlainMove store.old store.new }
{
    match held_record(&store.globals, tape) {
        Some(found) => take_found::<R, SAVES>(alloc, store, tape, found, false),
        None => read_any::<R, SAVES>(alloc, store, tape),
    }
}

/// The text of a record that was found becomes the newest operand, and its bytes are consumed. It fails where memory is refused.
#[inline(always)]
fn put_found<R: Source + Drop, const SAVES: bool>(
    alloc: Global,
    store: &mut Store,
    tape: &mut Tape<R>,
    found: Found,
) -> Result<Reading, AllocError>
    requires ordered { found.start ≤ found.end }
    requires end_in_range { found.end ≤ length tape.old.bytes }
    requires in_range { found.count ≤ length tape.old.bytes }
    ensures did { IfOk result (λ r. Finds r (text_taken_of (slice_range tape.old.bytes found.start found.end) (moving store.old)) found.count (moving store.old) (moving store.new)) }
    ensures start { OnTrue SAVES (Grown (start_of store.old) (start_of store.new)) }
    ensures tape { tape.new ≡ record tape.old { consumed = tape.new.consumed } }
    ensures consumed { IfOk result (λ r. tape.new.consumed ≡ consumed_by r found.count tape.old.consumed) }
{
    match put_text::<SAVES>(alloc, store, tape.text(&found))? {
        Reading::Taken => {
            tape.consume(found.count);
            store.registers.now.consumed = found.count;
            Ok(Reading::Taken)
        }
        other => Ok(other),
    }
}

/// Reads a record, whatever separates records: its text becomes the newest operand and is counted, all or nothing; the present record stays. It fails where memory is refused; bytes may
/// be read ahead then.
#[inline(never)]
fn read_any_text<R: Source + Drop, const SAVES: bool>(
    alloc: Global,
    store: &mut Store,
    tape: &mut Tape<R>,
) -> Result<Reading, AllocError>
    requires { tape.old.consumed ≡ store.old.registers.now.consumed }
    ensures may { (kept : Input) → MayBe R.may_give tape.new kept → MayBe R.may_give tape.old kept }
    ensures did { IfOk result (λ r. (points : List Point) (gone handed : Bytes) (kept : Input) → MayBe R.may_give tape.new kept → ReadsText r points gone handed kept (moving store.old) (moving store.new)) }
    ensures registers { IfOk result (λ r. KeepsRegisters (moving store.old) (moving store.new)) }
    ensures places { IfOk result (λ r. KeepsPlaces (moving store.old) (moving store.new)) }
    ensures start { OnTrue SAVES (Grown (start_of store.old) (start_of store.new)) }
    ensures consumed { OnOk result (tape.new.consumed ≡ store.new.registers.now.consumed) }
    ensures asks { (tape.new.bytes ≡ tape.old.bytes) ⊎ IsDue (text_of (global_in RS store.old.globals.now)) store.old.registers.now.consumed tape.new.bytes }
    ensures draws { Draws R.over R.handed tape.old tape.new }
    ensures quiet { IfOk result IsQuietReading }
    ensures failed { IfOk result (λ r. r ≡ Reading.Faulted Fault.ReadFailed → R.over tape.new.source ≡ Some Ending.Failed) }
{
    let mut digits = Buffer::new();
    let separator = separator_in(&store.globals, RS, &mut digits);
    match tape.next(separator) {
        Err(fault) => refused(fault),
        Ok(None) => Ok(Reading::Missing),
        Ok(Some(found)) => put_found::<R, SAVES>(alloc, store, tape, found),
    }
}

/// Reads a record: its text becomes the newest operand and is counted, all or nothing; the present record stays. It fails where memory is refused; bytes may
/// be read ahead then.
#[inline(always)]
pub fn read_text<R: Source + Drop, const SAVES: bool>(
    alloc: Global,
    store: &mut Store,
    tape: &mut Tape<R>,
) -> Result<Reading, AllocError>
    requires { tape.old.consumed ≡ store.old.registers.now.consumed }
    ensures may { (kept : Input) → MayBe R.may_give tape.new kept → MayBe R.may_give tape.old kept }
    ensures did { IfOk result (λ r. (points : List Point) (gone handed : Bytes) (kept : Input) → MayBe R.may_give tape.new kept → ReadsText r points gone handed kept (moving store.old) (moving store.new)) }
    ensures registers { IfOk result (λ r. KeepsRegisters (moving store.old) (moving store.new)) }
    ensures places { IfOk result (λ r. KeepsPlaces (moving store.old) (moving store.new)) }
    ensures start { OnTrue SAVES (Grown (start_of store.old) (start_of store.new)) }
    ensures consumed { OnOk result (tape.new.consumed ≡ store.new.registers.now.consumed) }
    ensures asks { (tape.new.bytes ≡ tape.old.bytes) ⊎ IsDue (text_of (global_in RS store.old.globals.now)) store.old.registers.now.consumed tape.new.bytes }
    ensures draws { Draws R.over R.handed tape.old tape.new }
    ensures quiet { IfOk result IsQuietReading }
    ensures failed { IfOk result (λ r. r ≡ Reading.Faulted Fault.ReadFailed → R.over tape.new.source ≡ Some Ending.Failed) }
{
    match held_record(&store.globals, tape) {
        Some(found) => put_found::<R, SAVES>(alloc, store, tape, found),
        None => read_any_text::<R, SAVES>(alloc, store, tape),
    }
}
