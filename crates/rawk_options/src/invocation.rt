//! What a command line asks for, or why it is refused.
ghost use Rattle.std.specs.Prelude.{◌≤◌, ◌≡◌, ◌≢◌, Some};
ghost use Rattle.rawk_limits.specs.History.{IsHistory};
ghost use Rattle.rawk_options.specs.declared.invocation.S.TheVariants.{Memory};
ghost use Rattle.rawk_options.specs.declared.invocation.Text.{Text};

use rawk_code::Settings;
use std::alloc::AllocError;
use thiserror::Error;

/// The greatest number of steps, and that of a run that names none.
pub const MAX_STEPS: u64 = 9_223_372_036_854_775_807;

/// The number of steps of a session that names none.
pub const SESSION_STEPS: u64 = 1_000_000;

/// Why the words, or the files that they name, give no run. Each displays as the line for the standard error, without
/// `S3` and the help, whose text ends in a newline of its own.
#[derive(Debug, Drop, Error)]
pub enum S {
    /// S1
    #[error("rawk: bad assignment")]
    BadAssignment,
    /// S2
    #[error("rawk: bad operands")]
    BadOperands,
    /// S3: the text of the reader of command lines
    #[error("{0}")]
    CommandLine(String),
    /// S4
    #[error("rawk: cannot read file")]
    CannotRead,
    /// S5
    #[error("rawk: out of memory")]
    Memory(AllocError),
    /// the help or the version that was asked for: no refusal
    #[error("{0}")]
    Help(String),
}

impl From<AllocError> for S {
    ghost from_gives = { λ error refusal. refusal ≡ Memory error };

    fn from(error: AllocError) -> S {
        S::Memory(error)
    }
}

/// Where bytes come from.
#[derive(PartialEq, Eq, Drop)]
pub enum Text {
    Bytes(Vec<u8>),
    Path(String),
    StandardInput,
}

/// What is to be run.
#[derive(Drop)]
pub struct Invocation {
    /// the first values of variables, in their order
    pub settings: Settings,
    pub program: Text,
    pub input: Text,
    /// the commands of a session; a run has none
    pub commands: Option<Text>,
    /// how many points may be passed
    pub steps: u64,
    /// how many of the last steps a session keeps, to go back over: all where there is no number; no matter to a run
    pub history: Option<u64>,
    ghost steps_in_range: { steps ≤ 9223372036854775807 },
    ghost history_in_range: { IsHistory history },
    ghost read_once: { commands ≡ Some Text.StandardInput → input ≢ Text.StandardInput },
}
