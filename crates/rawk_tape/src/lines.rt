//! The lines of a source, each read when it is due.
ghost use Rattle.std.specs.Prelude.{◌≡◌, ◌≢◌, ◌≤◌, ◌<◌, ◌-◌, ◌+◌, ◌^◌, [], drop, take, length, None, Some, IfOk, IfErr, OnOk, OnErr};
ghost use Rattle.std.specs.List.{position_or_len};
ghost use Rattle.rawk_devices.specs.declared.source.Ending.{Ending as End};
ghost use Rattle.rawk_tape.specs.Records.{is_newline};
ghost use Rattle.rawk_devices.specs.Inputs.{CountsUp};
ghost use Rattle.rawk_tape.specs.Tapes.{ReadsOn};
ghost use Rattle.rawk_tape.specs.Lines.{Finds, FindsNone, PassesOver, ReadsMore, failures_at, failures_by};

use crate::room::{CHUNK, ending_of_read, make_room, move_to_front, read_behind, size_of_read};
use crate::search::find_in;
use rawk_devices::{Ending, Source};
use std::alloc::{AllocError, Global};
use std::marker::Model;

/// The line that stands first among the bytes kept.
#[derive(Clone, Copy, PartialEq, Eq)]
pub struct Line {
    /// how many bytes it has
    pub size: usize,
    /// how many it has with the newline behind it, which the last one may lack
    pub count: usize,
}

/// Why there is no next line.
#[derive(Clone, Copy, PartialEq, Eq)]
pub enum NoLine {
    /// the source is at its end
    Ended,
    /// the source could not be read
    Unread,
    /// 2^64 - 1 lines were let go, or the next one has as many bytes and memory was refused for it
    TooMany,
}

/// How many bytes stand before the first newline, where none of the first `seen` is one.
fn first_newline(bytes: &[u8], seen: usize) -> usize
    requires inside { seen ≤ length bytes.now }
    requires without { position_or_len is_newline (take seen bytes.now) ≡ seen }
    ensures { result ≡ position_or_len is_newline bytes.now }
{
    match find_in(bytes, b'\n', seen) {
        Some(at) => at,
        None => bytes.len(),
    }
}

/// Moves the bytes from `start` up to `end` to the front, where no room is behind them, and answers where they begin.
fn move_where_full(items: &mut Vec<u8>, start: usize, end: usize) -> usize
    requires low { start ≤ end }
    requires high { end ≤ length items.old.items }
    ensures kept { drop result (take (result + (end - start)) items.new.items) ≡ drop start (take end items.old.items) }
    ensures low { result ≤ start }
    ensures front { result + (end - start) ≡ length items.old.items → result ≡ 0 }
    ensures len { length items.new.items ≡ length items.old.items }
{
    if start == 0 || end < items.len() {
        return start;
    }
    move_to_front(items, start, end);
    0
}

/// The bytes that were read of a source and not let go yet. There is room for 65,536 bytes before the first read, and more
/// is taken only where a line is longer.
#[derive(Drop)]
pub struct Lines {
    items: Vec<u8>,
    start: usize,
    end: usize,
    over: Option<Ending>,
    taken: u64,
}

impl Model for Lines {
    ghost use Rattle.std.specs.Prelude.{◌≤◌, drop, take, vec_len};
    ghost use Rattle.rawk_tape.specs.Lines.{LinesState};

    ghost Value = { LinesState };

    ghost view = { λ l. record { bytes = drop l.start (take l.end l.items.items); over = l.over; taken = l.taken } };

    ghost invariant = { λ l. (l.start ≤ l.end) × (l.end ≤ vec_len l.items) × (65536 ≤ vec_len l.items) };
}

impl Lines {
    /// No bytes, of a source that was not read. It fails where memory is refused.
    pub fn new(alloc: Global) -> Result<Self, AllocError>
        ensures { IfOk result (λ lines. lines ≡ record { bytes = []; over = None; taken = 0 }) }
    {
        let mut items = Vec::new(alloc);
        items.resize(CHUNK, 0)?;
        Ok(Lines {
            items,
            start: 0,
            end: 0,
            over: None,
            taken: 0,
        })
    }

    /// The bytes that are kept.
    fn kept(&self) -> &[u8]
        ensures value { result.now ≡ self.now.bytes }
        ensures small { length result.now < 2 ^ 63 }
    {
        let held = &self.items[..self.end];
        &held[self.start..]
    }

    /// How the source is over.
    fn over(&self) -> Option<Ending>
        ensures { result ≡ self.now.over }
    {
        self.over
    }

    /// How many lines were let go.
    fn taken(&self) -> u64
        ensures { result ≡ self.now.taken }
    {
        self.taken
    }

    /// Reads once more behind the bytes. It fails where memory is refused for the room, which 65,536 bytes or more fill then.
    fn fill<C: Source>(&mut self, source: &mut C) -> Result<(), AllocError>
        requires { C.over source.old ≡ None }
        ensures reads { OnOk result (ReadsOn C.may_give C.over C.handed source.old self.old.bytes source.new self.new.bytes) }
        ensures reported { OnOk result (C.over source.new ≡ self.new.over) }
        ensures failures { OnOk result (CountsUp (C.failures source.old) (C.failures source.new) (failures_by self.new.over)) }
        ensures failed { OnOk result (self.new.over ≡ Some End.Failed → self.new.bytes ≡ self.old.bytes) }
        ensures taken { self.new.taken ≡ self.old.taken }
        ensures source { OnErr result (source.new ≡ source.old) }
        ensures same { OnErr result (self.new ≡ self.old) }
        ensures long { OnErr result (65536 ≤ length self.old.bytes) }
    {
        let start = move_where_full(&mut self.items, self.start, self.end);
        self.end = start + (self.end - self.start);
        self.start = start;
        make_room(&mut self.items, self.end)?;
        let read = read_behind(source, &mut self.items, self.end);
        self.end += size_of_read(&read);
        self.over = ending_of_read(&read);
        Ok(())
    }

    /// Lets all bytes go, and reads once. It takes no memory.
    fn read_anew<C: Source>(&mut self, source: &mut C)
        requires { C.over source.old ≡ None }
        ensures reads { ReadsOn C.may_give C.over C.handed source.old [] source.new self.new.bytes }
        ensures reported { C.over source.new ≡ self.new.over }
        ensures failures { CountsUp (C.failures source.old) (C.failures source.new) (failures_by self.new.over) }
        ensures failed { self.new.over ≡ Some End.Failed → self.new.bytes ≡ [] }
        ensures taken { self.new.taken ≡ self.old.taken }
    {
        let read = read_behind(source, &mut self.items, 0);
        self.start = 0;
        self.end = size_of_read(&read);
        self.over = ending_of_read(&read);
    }

    /// Reads until the bytes hold a newline or the source is over, and answers how many bytes stand before the newline. It fails where
    /// memory is refused for a line that is longer than the room.
    fn read_line<C: Source>(&mut self, source: &mut C) -> Result<usize, AllocError>
        requires reported { C.over source.old ≡ self.old.over }
        requires unfailed { self.old.over ≢ Some End.Failed }
        ensures place { IfOk result (λ size. size ≡ position_or_len is_newline self.new.bytes) }
        ensures settled { IfOk result (λ size. self.new.over ≡ None → size < length self.new.bytes) }
        ensures failed { self.new.over ≡ Some End.Failed → length self.new.bytes ≤ position_or_len is_newline self.new.bytes }
        ensures reported { C.over source.new ≡ self.new.over }
        ensures taken { self.new.taken ≡ self.old.taken }
        ensures reads { ReadsMore C.may_give C.handed source.old self.old.bytes source.new self.new.bytes }
        ensures failures { CountsUp (C.failures source.old) (C.failures source.new) (failures_by self.new.over) }
        ensures open { OnErr result (self.new.over ≡ None) }
        ensures without { OnErr result (length self.new.bytes ≤ position_or_len is_newline self.new.bytes) }
        ensures long { OnErr result (65536 ≤ length self.new.bytes) }
        ensures small { length self.new.bytes < 2 ^ 63 }
    {
        let mut seen = 0;
        'reads: loop {
            let kept = self.kept();
            let size = first_newline(kept, seen);
            if size < kept.len() {
                return Ok(size);
            }
            match self.over() {
                Some(_) => return Ok(size),
                None => {}
            }
            seen = size;
            self.fill(source)?;
        }
    }

    /// Passes over the line that is due, whose end is not among the bytes kept, and lets it go. It takes no memory.
    fn pass_over<C: Source>(&mut self, source: &mut C) -> Result<(), NoLine>
        requires reported { C.over source.old ≡ self.old.over }
        requires open { self.old.over ≡ None }
        requires without { length self.old.bytes ≤ position_or_len is_newline self.old.bytes }
        requires long { 65536 ≤ length self.old.bytes }
        requires few { self.old.taken < 2 ^ 64 - 1 }
        ensures passes { OnOk result (PassesOver C.may_give C.handed source.old self.old source.new self.new) }
        ensures none { IfErr result (λ why. FindsNone C.may_give C.handed source.old self.old source.new why) }
        ensures reported { OnOk result (C.over source.new ≡ self.new.over) }
        ensures unfailed { OnOk result (self.new.over ≢ Some End.Failed) }
        ensures unfailing { OnOk result (CountsUp (C.failures source.old) (C.failures source.new) 0) }
        ensures failures { IfErr result (λ why. CountsUp (C.failures source.old) (C.failures source.new) (failures_at why)) }
    {
        for reads in 0..u64::MAX {
            self.read_anew(source);
            let kept = self.kept();
            let size = first_newline(kept, 0);
            if size < kept.len() {
                self.let_go(Line {
                    size,
                    count: size + 1,
                });
                return Ok(());
            }
            match self.over() {
                Some(Ending::Ended) => {
                    self.let_go(Line { size, count: size });
                    return Ok(());
                }
                Some(Ending::Failed) => return Err(NoLine::Unread),
                None => {}
            }
        }
        Err(NoLine::TooMany)
    }

    /// The next line, of which nothing is let go yet; or nothing, where memory was refused for the reading of one, which was passed over and let go;
    /// or why there is no next line. The source is read only while the line's end is not held.
    pub fn next<C: Source>(&mut self, source: &mut C) -> Result<Option<Line>, NoLine>
        requires reported { C.over source.old ≡ self.old.over }
        requires unfailed { self.old.over ≢ Some End.Failed }
        ensures finds { IfOk result (λ found. Finds C.may_give C.handed source.old self.old source.new self.new found) }
        ensures none { IfErr result (λ why. FindsNone C.may_give C.handed source.old self.old source.new why) }
        ensures few { OnOk result (self.old.taken < 2 ^ 64 - 1) }
        ensures reported { OnOk result (C.over source.new ≡ self.new.over) }
        ensures unfailed { OnOk result (self.new.over ≢ Some End.Failed) }
        ensures unfailing { OnOk result (CountsUp (C.failures source.old) (C.failures source.new) 0) }
        ensures failures { IfErr result (λ why. CountsUp (C.failures source.old) (C.failures source.new) (failures_at why)) }
    {
        if self.taken() == u64::MAX {
            return Err(NoLine::TooMany);
        }
        let size = match self.read_line(source) {
            Ok(size) => size,
            Err(_) => {
                return match self.pass_over(source) {
                    Ok(()) => Ok(None),
                    Err(why) => Err(why),
                };
            }
        };
        let length = self.kept().len();
        if size < length {
            return Ok(Some(Line {
                size,
                count: size + 1,
            }));
        }
        match self.over() {
            Some(Ending::Ended) => {
                if length == 0 {
                    return Err(NoLine::Ended);
                }
                Ok(Some(Line {
                    size: length,
                    count: length,
                }))
            }
            Some(Ending::Failed) => Err(NoLine::Unread),
            None => unreachable!(),
        }
    }

    /// The bytes of a line that was found.
    pub fn text(&self, line: Line) -> &[u8]
        requires { line.size ≤ length self.now.bytes }
        ensures { result.now ≡ take line.size self.now.bytes }
    {
        &self.kept()[..line.size]
    }

    /// Lets a line go.
    pub fn let_go(&mut self, line: Line)
        requires held { line.count ≤ length self.old.bytes }
        requires few { self.old.taken < 2 ^ 64 - 1 }
        ensures bytes { self.new.bytes ≡ drop line.count self.old.bytes }
        ensures over { self.new.over ≡ self.old.over }
        ensures taken { self.new.taken ≡ self.old.taken + 1 }
    {
        self.start += line.count;
        self.taken += 1;
    }
}
