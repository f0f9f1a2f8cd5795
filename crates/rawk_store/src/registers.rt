//! The small part of a state, which is saved whole.

ghost use Rattle.std.specs.Prelude.{◌≡◌};

use rawk_value::Fault;
use std::mem;

/// Which part of a program runs: BEGIN, the records, or END.
#[derive(Clone, Copy, PartialEq, Eq)]
pub enum Phase {
    InBegin,
    InMain,
    InEnd,
}

/// How a run ended: by itself, by a fault, or at the limit of steps, before the point with this site.
#[derive(Clone, Copy, PartialEq, Eq)]
pub enum Ending {
    Ended,
    Faulted(Fault),
    Limited(Option<usize>),
}

/// The place in the code (from 0), the phase, the exit status, the number of the last point reached at the present depth,
/// the site of that point, the bytes of the input consumed since bytes were last dropped, and how the run ended.
#[derive(Clone, Copy, PartialEq, Eq)]
pub struct Registers {
    pub place: usize,
    pub phase: Phase,
    pub status: u8,
    pub here: u64,
    pub site: Option<usize>,
    pub consumed: usize,
    pub ending: Option<Ending>,
}

/// The registers, beside what they were when the step began.
#[derive(Clone, Copy)]
pub struct Bank {
    pub now: Registers,
    pub start: Registers,
}

impl Bank {
    /// These registers, with no step in progress.
    pub fn new(registers: Registers) -> Self
        ensures now { result.now ≡ registers }
        ensures start { result.start ≡ registers }
    {
        Bank {
            now: registers,
            start: registers,
        }
    }

    /// Ends the step, and gives the registers as they were when it began.
    pub fn finish(&mut self) -> Registers
        ensures now { self.new.now ≡ self.old.now }
        ensures start { self.new.start ≡ self.old.now }
        ensures group { result ≡ self.old.start }
    {
        mem::replace(&mut self.start, self.now)
    }

    /// Ends the step, and forgets how it began. Each register is copied by itself: some were just written, and a copy of several at once would wait for them.
    #[inline]
    pub fn forget(&mut self)
        ensures now { self.new.now ≡ self.old.now }
        ensures start { self.new.start ≡ self.old.now }
    {
        let now = &self.now;
        self.start.place = now.place;
        self.start.phase = now.phase;
        self.start.status = now.status;
        self.start.here = now.here;
        self.start.site = now.site;
        if self.start.consumed != now.consumed {
            self.start.consumed = now.consumed;
        }
        if now.ending.is_some() || self.start.ending.is_some() {
            self.start.ending = now.ending;
        }
    }

    /// Puts back what the step in progress changed.
    pub fn undo_step(&mut self)
        ensures now { self.new.now ≡ self.old.start }
        ensures start { self.new.start ≡ self.old.start }
    {
        self.now = self.start;
    }

    /// Puts back registers.
    #[inline]
    pub fn go_back(&mut self, earlier: Registers)
        ensures now { self.new.now ≡ earlier }
        ensures start { self.new.start ≡ earlier }
    {
        self.now = earlier;
        self.start = earlier;
    }

    /// Puts back registers, and leaves the newer ones in their place.
    pub fn undo(&mut self, earlier: &mut Registers)
        ensures now { self.new.now ≡ earlier.old }
        ensures start { self.new.start ≡ earlier.old }
        ensures newer { earlier.new ≡ self.old.now }
    {
        mem::swap(&mut self.now, earlier);
        self.start = self.now;
    }
}
