//! What is reported of a run or a session.

ghost use Rattle.std.specs.Prelude.{◌≡◌};
ghost use Rattle.rawk.specs.Reports.{stopped_by, refused_by};

use rawk_syntax::{Refusal, RefusalKind};
use rawk_value::Fault;
use std::fmt;

/// Why a run or a session is over.
#[derive(Clone, Copy, PartialEq, Eq)]
pub enum Cause {
    /// it came to its end, by `exit` or by itself; a session by `quit` or with its commands
    Ended,
    /// P1 to P10: the program's text was refused, and nothing ran
    Refused(RefusalKind),
    /// S1: a first value names no variable, and nothing ran
    BadAssignment,
    /// F1 to F12
    Faulted(Fault),
}

/// What is reported of a run or a session.
#[derive(Clone, Copy, PartialEq, Eq)]
pub struct Report {
    /// the status of the process
    pub status: u8,
    /// why it is over
    pub cause: Cause,
    /// the line of a refusal or a fault, counted from 1; 0 where there is none
    pub line: u64,
    /// the last point reached, or the ending's number
    pub point: u64,
}

/// The line for the standard error, without its newline. Where it came to its end there is none.
impl fmt::Display for Report {
    fn fmt<W: fmt::Write>(&self, f: &mut fmt::Formatter<W>) -> fmt::Result {
        let text = match self.cause {
            Cause::Ended => return Ok(()),
            Cause::Refused(kind) => kind.text(),
            Cause::BadAssignment => "bad assignment",
            Cause::Faulted(fault) => fault.text(),
        };
        if self.line == 0 {
            write!(f, "rawk: {text}")
        } else {
            write!(f, "rawk: line {}: {text}", self.line)
        }
    }
}

/// The report where something outside the program stopped it at a point, or where nothing ran.
pub fn stopped(cause: Cause, point: u64) -> Report
    ensures { result ≡ stopped_by cause point }
{
    Report {
        status: 2,
        cause,
        line: 0,
        point,
    }
}

/// The report of a refused text.
pub fn text_refused(refusal: Refusal) -> Report
    ensures { result ≡ refused_by refusal }
{
    Report {
        status: 2,
        cause: Cause::Refused(refusal.kind),
        line: refusal.line,
        point: 0,
    }
}
