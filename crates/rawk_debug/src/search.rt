//! How a session moves.

ghost use Rattle.std.specs.Prelude.{◌≡◌, None, OnOk, OnErr, IsTrue};
ghost use Rattle.rawk_devices.specs.Inputs.{Input};
ghost use Rattle.rawk_debug.specs.Moves.{hits, stops_at, sought, Goes, Halts, Returns, is_found, from_below, from_above};
ghost use Rattle.rawk_debug.specs.Commands.{Forwards, Backwards, Does, IsReady, leaves_none, rewound};
ghost use Rattle.rawk_debug.specs.Sessions.{stand};
ghost use Rattle.rawk_answers.specs.Works.{Draws};

use crate::answer::Answer;
use crate::session::Session;
use rawk_answers::{Stepper, Stop};
use rawk_commands::{Command, Goal};
use rawk_compiler::laws;
use std::alloc::{AllocError, Global};

/// Whether a breakpoint or a watch stops where the machine stands.
pub(crate) fn hits_here<M: Stepper>(machine: &M, stop: &Stop) -> bool
    requires { IsTrue (M.fresh machine.now) }
    ensures { result ≡ hits (M.before machine.now) (M.held machine.now) stop.now }
{
    match stop {
        Stop::Break(site) => match machine.site() {
            Some(stands) => stands == *site && !machine.is_over(),
            None => false,
        },
        Stop::Watch(place) => machine.changed(place),
    }
}

impl<M: Stepper> Session<M> {
    fn stops_here(&self) -> bool
        requires { IsTrue (M.fresh self.now.machine) }
        ensures { result ≡ stops_at self.now.stops.items (M.before self.now.machine) (M.held self.now.machine) }
    {
        self.stops
            .iter()
            .any(|entry| hits_here(&self.machine, &entry.stop))
    }

    /// Whether a move that began at this depth ends here.
    fn is_sought(&self, goal: Goal, depth: usize) -> bool
        requires { IsTrue (M.fresh self.now.machine) }
        ensures { result ≡ sought goal self.now.stops.items depth (M.before self.now.machine) (M.held self.now.machine) }
    {
        match goal {
            Goal::AnyPoint => true,
            Goal::NoDeeper => self.machine.depth() <= depth || self.stops_here(),
            Goal::Shallower => self.machine.depth() < depth || self.stops_here(),
            Goal::StopOnly => self.stops_here(),
        }
    }

    /// Goes forward to the first point that is looked for, or to the ending.
    fn forward(&mut self, alloc: Global, goal: Goal) -> Result<(), AllocError>
        requires { (M.held self.old.machine).over ≡ None }
        ensures ok { OnOk result ((input : Input) → M.may_be self.new.machine input → Goes input goal (stand M.position self.old) (stand M.position self.new)) }
        ensures came { OnOk result ((input : Input) → M.may_be self.new.machine input
            → M.before self.new.machine ≡ from_below input (stand M.position self.old) (M.position self.new.machine).point) }
        ensures fresh { OnOk result (IsTrue (M.fresh self.new.machine)) }
        ensures err { OnErr result ((input : Input) → M.may_be self.new.machine input → Halts input goal (stand M.position self.old) (stand M.position self.new)) }
        ensures narrows { (input : Input) → M.may_be self.new.machine input → M.may_be self.old.machine input }
        ensures draws { Draws M.Device.over M.Device.handed (M.work self.old.machine) (M.work self.new.machine) }
    {
        self.machine.known();
        let depth = self.machine.depth();
        'search: loop {
            self.machine.advance(alloc)?;
            self.machine.known();
            if self.machine.is_over() {
                return Ok(());
            }
            if self.is_sought(goal, depth) {
                return Ok(());
            }
        }
    }

    /// Goes back to the first point that is looked for, or to the oldest one kept; says whether it ended where it looked for.
    fn back(&mut self, goal: Goal) -> bool
        ensures returns { (input : Input) → M.may_be self.new.machine input → Returns input goal (stand M.position self.old) (stand M.position self.new) }
        ensures came { (input : Input) → M.may_be self.new.machine input → IsTrue result
            → M.before self.new.machine ≡ from_above input (stand M.position self.old) (M.position self.new.machine).point }
        ensures fresh { IsTrue result → IsTrue (M.fresh self.new.machine) }
        ensures found { (input : Input) → M.may_be self.new.machine input
            → result ≡ is_found input goal (stand M.position self.old) (M.position self.new.machine).point }
        ensures narrows { (input : Input) → M.may_be self.new.machine input → M.may_be self.old.machine input }
        ensures reads_nothing { (input : Input) → M.may_be self.old.machine input → M.may_be self.new.machine input }
        ensures idle { M.work self.new.machine ≡ M.work self.old.machine }
    {
        laws::sets_below();
        self.machine.known();
        let depth = self.machine.depth();
        if !self.machine.retreat() {
            return false;
        }
        'search: loop {
            self.machine.known();
            if self.is_sought(goal, depth) {
                return true;
            }
            if !self.machine.retreat() {
                return false;
            }
        }
    }

    /// Goes back to the oldest point kept.
    fn rewind(&mut self)
        ensures rewound { stand M.position self.new ≡ rewound (stand M.position self.old) }
        ensures narrows { (input : Input) → M.may_be self.new.machine input → M.may_be self.old.machine input }
        ensures reads_nothing { (input : Input) → M.may_be self.old.machine input → M.may_be self.new.machine input }
        ensures idle { M.work self.new.machine ≡ M.work self.old.machine }
    {
        self.machine.known();
        'all: loop {
            if !self.machine.retreat() {
                return;
            }
        }
    }

    /// A forward move, to its end or until memory is refused.
    pub(crate) fn go_forward(&mut self, alloc: Global, goal: Goal) -> Answer
        requires { (M.held self.old.machine).over ≡ None }
        ensures moves { (input : Input) → M.may_be self.new.machine input
            → Forwards input goal (stand M.position self.old) result (M.before self.new.machine) (stand M.position self.new) }
        ensures ready { IsReady (M.fresh self.new.machine) result }
        ensures narrows { (input : Input) → M.may_be self.new.machine input → M.may_be self.old.machine input }
        ensures draws { Draws M.Device.over M.Device.handed (M.work self.old.machine) (M.work self.new.machine) }
    {
        self.machine.known();
        let from = self.machine.output().len();
        match self.forward(alloc, goal) {
            Ok(()) => Answer::Advanced(from),
            Err(AllocError) => Answer::Halted(from),
        }
    }

    /// A backward move. It takes no memory.
    pub(crate) fn go_back(&mut self, goal: Goal) -> Answer
        ensures moves { (input : Input) → M.may_be self.new.machine input
            → Backwards input goal (stand M.position self.old) result (M.before self.new.machine) (stand M.position self.new) }
        ensures ready { IsReady (M.fresh self.new.machine) result }
        ensures narrows { (input : Input) → M.may_be self.new.machine input → M.may_be self.old.machine input }
        ensures reads_nothing { (input : Input) → M.may_be self.old.machine input → M.may_be self.new.machine input }
        ensures idle { M.work self.new.machine ≡ M.work self.old.machine }
    {
        let found = self.back(goal);
        Answer::Returned(found)
    }

    /// From the oldest point kept to the first stop.
    pub(crate) fn run(&mut self, alloc: Global) -> Answer
        ensures does { (input : Input) → M.may_be self.new.machine input
            → Does input Command.Run (stand M.position self.old) result (M.before self.new.machine) (stand M.position self.new) }
        ensures ready { IsReady (M.fresh self.new.machine) result }
        ensures narrows { (input : Input) → M.may_be self.new.machine input → M.may_be self.old.machine input }
        ensures draws { Draws M.Device.over M.Device.handed (M.work self.old.machine) (M.work self.new.machine) }
    {
        self.rewind();
        self.machine.known();
        if self.machine.is_over() {
            Answer::Stayed
        } else {
            self.go_forward(alloc, Goal::StopOnly)
        }
    }

    /// Whether a move leaves a function where there is none.
    pub(crate) fn leaves_none(&self, goal: Goal) -> bool
        ensures { result ≡ leaves_none goal (M.held self.now.machine) }
    {
        match goal {
            Goal::Shallower => self.machine.depth() == 0,
            _ => false,
        }
    }
}
