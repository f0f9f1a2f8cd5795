//! The commands of a session, and why one is refused.

ghost use Rattle.std.specs.Prelude.{◌≡◌};
ghost use Rattle.rawk_commands.specs.declared.command.C.TheVariants.{OutOfMemory};

use rawk_value::Bytes;
use std::alloc::AllocError;

/// Where a breakpoint is to stand.
#[derive(Drop)]
pub enum Spot {
    /// The first site on a line of the program.
    Line(u64),
    /// The entry of a function.
    Function(Bytes),
}

/// A place that holds a value, as it is named.
#[derive(Drop)]
pub enum Place {
    /// `NAME`.
    Name(Bytes),
    /// `NAME["text"]` or `NAME[number]`, with the key's text.
    Element(Bytes, Bytes),
    /// `$number`, 0 to 1,000,000.
    Field(usize),
}

/// A value that is written down.
#[derive(Drop)]
pub enum Constant {
    /// A whole number.
    Number(i64),
    /// The bytes that a string stands for.
    Text(Bytes),
}

/// Which way a move goes.
#[derive(Clone, Copy, Debug, PartialEq, Eq)]
pub enum Way {
    Forward,
    Back,
}

/// What a move looks for.
#[derive(Clone, Copy, Debug, PartialEq, Eq)]
pub enum Goal {
    /// The next point: `step`.
    AnyPoint,
    /// A point in no deeper activation, or a stop: `next`.
    NoDeeper,
    /// A point in a shallower activation, or a stop: `finish`.
    Shallower,
    /// A stop alone: `continue`.
    StopOnly,
}

/// What a line asks of a session.
#[derive(Drop)]
pub enum Command {
    /// `break LINE`, `break FUNCTION`.
    Break(Spot),
    /// `watch PLACE`.
    Watch(Place),
    /// `delete N`.
    Delete(u64),
    /// `unwatch N`.
    Unwatch(u64),
    /// `step`, `next`, `finish`, `continue`, and each of them with `reverse-` before it.
    Move(Way, Goal),
    /// `run`.
    Run,
    /// `print PLACE`.
    Print(Place),
    /// `set PLACE=CONSTANT`.
    Set(Place, Constant),
    /// `reverse-set`.
    ReverseSet,
    /// `backtrace`.
    Backtrace,
    /// `quit`.
    Quit,
}

/// Why a command is not carried out, or, of `AnswerLost`, why its answer is not given. Each has a number and a text.
#[derive(Clone, Copy, PartialEq, Eq)]
pub enum C {
    /// C1: a word that is no command.
    UnknownCommand,
    /// C2: an argument that is missing, or too much, or that the command cannot read.
    BadArgument,
    /// C3: a name that the program does not have.
    NoSuchVariable,
    /// C4: a line with no statement, or a name of no function.
    NoSuchPlace,
    /// C5: a number of no breakpoint or watch.
    NoSuchNumber,
    /// C6: a move forward, or a set, at the end of the run.
    ProgramEnded,
    /// C7: no function to come out of.
    NotInFunction,
    /// C8: an assignment that is a fault.
    SetRefused,
    /// C9: no set was made at this point.
    NoSetToTakeBack,
    /// C11: a refusal of memory; what was asked for is not done, or not to its end.
    OutOfMemory,
    /// C12: memory for the answer was refused; what was asked for is done.
    AnswerLost,
}

impl From<AllocError> for C {
    ghost from_gives = { λ _ reason. reason ≡ OutOfMemory };

    fn from(_error: AllocError) -> C {
        C::OutOfMemory
    }
}
