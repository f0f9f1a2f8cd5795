//! A debugger's session.

ghost use Rattle.std.specs.Prelude.{◌≡◌, ◌≢◌, ◌<◌, [], false, not, filter, Err, IfOk, IfErr};
ghost use Rattle.rawk_devices.specs.Inputs.{Input};
ghost use Rattle.rawk_commands.specs.declared.command.C.TheVariants.{OutOfMemory, NoSuchNumber};
ghost use Rattle.rawk_debug.specs.Commands.{Makes, Removes, Executes, IsReady, deleted, goes_forward, needs_memory, has_entry, is_entry, is_kind, listed_at, lvalue_at, most};
ghost use Rattle.rawk_debug.specs.Sessions.{stand, machine_of};
ghost use Rattle.rawk_answers.specs.Works.{Draws};

use crate::answer::Answer;
use rawk_answers::naming::{
    constant_value, listed_of, local_kinds, local_names, lvalue_of, place_of, site_of, target_of,
};
use rawk_answers::{Entry, Lvalue, Stepper, Stop};
use rawk_commands::{C, Command, Constant, Goal, Place, Spot, Way};
use rawk_words::Array;
use std::alloc::{AllocError, Global};

/// The greatest number of a breakpoint or watch.
const MOST: u64 = 9_223_372_036_854_775_807;

/// A session: a machine, the breakpoints and watches in the order of their numbers, and how many were ever made.
#[derive(Drop)]
pub struct Session<M> {
    pub(crate) machine: M,
    pub(crate) stops: Vec<Entry>,
    pub(crate) made: u64,
}

/// Whether it is a breakpoint, or else whether it is a watch.
fn is_kind(breaks: bool, stop: &Stop) -> bool
    ensures { result ≡ is_kind breaks stop.now }
{
    match stop {
        Stop::Break(_) => breaks,
        Stop::Watch(_) => !breaks,
    }
}

/// Whether it is the breakpoint, or the watch, of this number.
fn is_entry(breaks: bool, number: u64, entry: &Entry) -> bool
    ensures { result ≡ is_entry breaks number entry.now }
{
    entry.number == number && is_kind(breaks, &entry.stop)
}

/// Whether there is a breakpoint, or a watch, of a number.
fn has_entry(breaks: bool, number: u64, stops: &[Entry]) -> bool
    ensures { result ≡ has_entry breaks number stops.now }
{
    stops.iter().any(|entry| is_entry(breaks, number, entry))
}

/// What is reported of a breakpoint, or a watch, that was removed.
fn deleted(breaks: bool, number: u64) -> Answer
    ensures { result ≡ deleted breaks number }
{
    if breaks {
        Answer::BreakDeleted(number)
    } else {
        Answer::WatchDeleted(number)
    }
}

fn remove(breaks: bool, number: u64, stops: &mut Vec<Entry>)
    ensures { stops.new.items ≡ filter (λ e. not (is_entry breaks number e)) stops.old.items }
{
    stops.retain(|entry| !is_entry(breaks, number, entry));
}

impl<M: Stepper> Session<M> {
    /// A session where the machine stands. It takes no memory.
    pub fn new(alloc: Global, machine: M) -> Session<M>
        ensures stand { stand M.position result ≡ record { machine = M.position machine; stops = []; made = 0 } }
        ensures machine { machine_of result ≡ machine }
    {
        Session {
            machine,
            stops: Vec::new(alloc),
            made: 0,
        }
    }

    /// The machine. Its getters tell the state at the point where the session stands.
    pub fn machine(&self) -> &M
        ensures { result.now ≡ machine_of self.now }
    {
        &self.machine
    }

    /// The machine, where the session left it. The breakpoints and watches are let go.
    pub fn into_machine(self) -> M
        ensures { result ≡ machine_of self }
    {
        let Session { machine, stops, .. } = self;
        drop(stops);
        machine
    }
}

impl<M: Stepper> Session<M> {
    /// Makes a breakpoint or a watch.
    fn make(&mut self, stop: Stop) -> Result<Answer, C>
        requires { self.old.made < most }
        ensures makes { IfOk result (λ answer. Makes stop (stand M.position self.old) answer (stand M.position self.new)) }
        ensures err { IfErr result (λ reason. (reason ≡ OutOfMemory) × (stand M.position self.new ≡ stand M.position self.old)) }
        ensures machine { self.new.machine ≡ self.old.machine }
        ensures ready { IfOk result (λ answer. IsReady (M.fresh self.new.machine) answer) }
    {
        let entry = Entry {
            number: self.made + 1,
            stop,
        };
        match self.stops.push(entry) {
            Ok(()) => {
                self.made += 1;
                Ok(Answer::Made)
            }
            Err(_) => Err(C::OutOfMemory),
        }
    }

    /// `break`.
    fn break_at(&mut self, spot: Spot) -> Result<Answer, C>
        ensures executes { (input : Input) → M.may_be self.new.machine input
            → Executes input (Command.Break spot) (stand M.position self.old) result (M.before self.new.machine) (stand M.position self.new) }
        ensures ready { IfOk result (λ answer. IsReady (M.fresh self.new.machine) answer) }
        ensures narrows { (input : Input) → M.may_be self.new.machine input → M.may_be self.old.machine input }
        ensures reads_nothing { (input : Input) → M.may_be self.old.machine input → M.may_be self.new.machine input }
        ensures idle { M.work self.new.machine ≡ M.work self.old.machine }
    {
        if self.made >= MOST {
            return Err(C::BadArgument);
        }
        match site_of(self.machine.program(), &spot) {
            Some(site) => self.make(Stop::Break(site)),
            None => Err(C::NoSuchPlace),
        }
    }

    /// `watch`.
    fn watch(&mut self, place: Place) -> Result<Answer, C>
        ensures executes { (input : Input) → M.may_be self.new.machine input
            → Executes input (Command.Watch place) (stand M.position self.old) result (M.before self.new.machine) (stand M.position self.new) }
        ensures ready { IfOk result (λ answer. IsReady (M.fresh self.new.machine) answer) }
        ensures narrows { (input : Input) → M.may_be self.new.machine input → M.may_be self.old.machine input }
        ensures reads_nothing { (input : Input) → M.may_be self.old.machine input → M.may_be self.new.machine input }
        ensures idle { M.work self.new.machine ≡ M.work self.old.machine }
    {
        if self.made >= MOST {
            return Err(C::BadArgument);
        }
        match place_of(self.machine.program(), place) {
            Ok(watched) => self.make(Stop::Watch(watched)),
            Err(reason) => Err(reason),
        }
    }

    /// `delete`, or else `unwatch`.
    fn delete(&mut self, breaks: bool, number: u64) -> Result<Answer, C>
        ensures removes { IfOk result (λ answer. Removes breaks number (stand M.position self.old) answer (stand M.position self.new)) }
        ensures err { IfErr result (λ reason. (reason ≡ NoSuchNumber) × (has_entry breaks number self.old.stops.items ≡ false) × (stand M.position self.new ≡ stand M.position self.old)) }
        ensures machine { self.new.machine ≡ self.old.machine }
        ensures ready { IfOk result (λ answer. IsReady (M.fresh self.new.machine) answer) }
    {
        if !has_entry(breaks, number, &self.stops) {
            return Err(C::NoSuchNumber);
        }
        remove(breaks, number, &mut self.stops);
        Ok(deleted(breaks, number))
    }

    /// An array that can be shown with its elements here, if the place is one.
    fn listed_at(&self, place: &Place) -> Option<Array>
        ensures { result ≡ listed_at (stand M.position self.now) (M.held self.now.machine) place.now }
    {
        listed_of(
            local_names(&self.machine),
            local_kinds(&self.machine),
            self.machine.program(),
            place,
        )
    }

    /// A place that can be shown and set here, or why it is refused.
    fn lvalue_at(&self, place: Place) -> Result<Lvalue, C>
        ensures { result ≡ lvalue_at (stand M.position self.now) (M.held self.now.machine) place }
    {
        lvalue_of(
            local_names(&self.machine),
            local_kinds(&self.machine),
            self.machine.program(),
            place,
        )
    }

    /// `print`.
    fn print(&self, place: Place) -> Result<Answer, C>
        ensures executes { (input : Input) → M.may_be self.now.machine input
            → Executes input (Command.Print place) (stand M.position self.now) result (M.before self.now.machine) (stand M.position self.now) }
        ensures ready { IfOk result (λ answer. IsReady (M.fresh self.now.machine) answer) }
    {
        self.machine.known();
        if let Some(array) = self.listed_at(&place) {
            return Ok(Answer::Listed(array));
        }
        match self.lvalue_at(place) {
            Ok(place) => Ok(Answer::Shown(place)),
            Err(reason) => Err(reason),
        }
    }

    /// `set`.
    fn set(&mut self, alloc: Global, place: Place, constant: Constant) -> Result<Answer, C>
        ensures executes { (input : Input) → M.may_be self.new.machine input
            → Executes input (Command.Set place constant) (stand M.position self.old) result (M.before self.new.machine) (stand M.position self.new) }
        ensures ready { IfOk result (λ answer. IsReady (M.fresh self.new.machine) answer) }
        ensures narrows { (input : Input) → M.may_be self.new.machine input → M.may_be self.old.machine input }
        ensures reads_nothing { (input : Input) → M.may_be self.old.machine input → M.may_be self.new.machine input }
        ensures idle { M.work self.new.machine ≡ M.work self.old.machine }
    {
        self.machine.known();
        let place = match self.lvalue_at(place) {
            Ok(place) => place,
            Err(reason) => return Err(reason),
        };
        if self.machine.is_over() {
            return Err(C::ProgramEnded);
        }
        let Ok(target) = target_of(&place) else {
            return Err(C::OutOfMemory);
        };
        match self.machine.set(alloc, target, constant_value(constant)) {
            Ok(None) => Ok(Answer::Shown(place)),
            Ok(Some(_)) => Err(C::SetRefused),
            Err(AllocError) => Err(C::OutOfMemory),
        }
    }

    /// `step`, `next`, `finish`, `continue`, and each of them backward.
    fn go(&mut self, alloc: Global, way: Way, goal: Goal) -> Result<Answer, C>
        ensures executes { (input : Input) → M.may_be self.new.machine input
            → Executes input (Command.Move way goal) (stand M.position self.old) result (M.before self.new.machine) (stand M.position self.new) }
        ensures ready { IfOk result (λ answer. IsReady (M.fresh self.new.machine) answer) }
        ensures narrows { (input : Input) → M.may_be self.new.machine input → M.may_be self.old.machine input }
        ensures free { result ≢ Err OutOfMemory }
        ensures reads_nothing { way ≡ Way.Back → (input : Input) → M.may_be self.old.machine input → M.may_be self.new.machine input }
        ensures idle { way ≡ Way.Back → M.work self.new.machine ≡ M.work self.old.machine }
        ensures draws { Draws M.Device.over M.Device.handed (M.work self.old.machine) (M.work self.new.machine) }
    {
        self.machine.known();
        match way {
            Way::Forward => {
                if self.machine.is_over() {
                    return Err(C::ProgramEnded);
                }
                if self.leaves_none(goal) {
                    return Err(C::NotInFunction);
                }
                Ok(self.go_forward(alloc, goal))
            }
            Way::Back => {
                if self.leaves_none(goal) {
                    return Err(C::NotInFunction);
                }
                Ok(self.go_back(goal))
            }
        }
    }

    /// `reverse-set`.
    fn take_back(&mut self) -> Result<Answer, C>
        ensures executes { (input : Input) → M.may_be self.new.machine input
            → Executes input Command.ReverseSet (stand M.position self.old) result (M.before self.new.machine) (stand M.position self.new) }
        ensures ready { IfOk result (λ answer. IsReady (M.fresh self.new.machine) answer) }
        ensures narrows { (input : Input) → M.may_be self.new.machine input → M.may_be self.old.machine input }
        ensures free { result ≢ Err OutOfMemory }
        ensures reads_nothing { (input : Input) → M.may_be self.old.machine input → M.may_be self.new.machine input }
        ensures idle { M.work self.new.machine ≡ M.work self.old.machine }
    {
        if self.machine.take_back() {
            Ok(Answer::TakenBack)
        } else {
            Err(C::NoSetToTakeBack)
        }
    }

    /// Executes a command. What goes back and what takes back takes no memory, and always succeeds; what does not go forward reads nothing and runs
    /// nothing. A source that is over is asked for nothing.
    pub fn execute(&mut self, alloc: Global, command: Command) -> Result<Answer, C>
        ensures executes { (input : Input) → M.may_be (machine_of self.new) input
            → Executes input command (stand M.position self.old) result (M.before (machine_of self.new)) (stand M.position self.new) }
        ensures ready { IfOk result (λ answer. IsReady (M.fresh (machine_of self.new)) answer) }
        ensures narrows { (input : Input) → M.may_be (machine_of self.new) input → M.may_be (machine_of self.old) input }
        ensures free { needs_memory command ≡ false → result ≢ Err OutOfMemory }
        ensures reads_nothing { goes_forward command ≡ false → (input : Input) → M.may_be (machine_of self.old) input → M.may_be (machine_of self.new) input }
        ensures idle { goes_forward command ≡ false → M.work (machine_of self.new) ≡ M.work (machine_of self.old) }
        ensures draws { Draws M.Device.over M.Device.handed (M.work (machine_of self.old)) (M.work (machine_of self.new)) }
    {
        match command {
            Command::Break(spot) => self.break_at(spot),
            Command::Watch(place) => self.watch(place),
            Command::Delete(number) => self.delete(true, number),
            Command::Unwatch(number) => self.delete(false, number),
            Command::Move(way, goal) => self.go(alloc, way, goal),
            Command::Run => Ok(self.run(alloc)),
            Command::Print(place) => self.print(place),
            Command::Set(place, constant) => self.set(alloc, place, constant),
            Command::ReverseSet => self.take_back(),
            Command::Backtrace => Ok(Answer::BacktraceShown),
            Command::Quit => Ok(Answer::Quits),
        }
    }
}
