//! What a session answers.

ghost use Rattle.std.specs.Prelude.{◌≡◌, ◌++◌, drop, IfOk, OnOk, IsTrue};
ghost use Rattle.rawk_debug.specs.Commands.{IsReady};
ghost use Rattle.rawk_debug.specs.Sessions.{stand, machine_of};
ghost use Rattle.rawk_debug.specs.Answers.{behind_shown, shown_of, stop_lines, text_of};

use crate::search::hits_here;
use crate::session::Session;
use rawk_answers::text::{
    output_from, push_array, push_backtrace, push_deleted, push_line_end, push_newest,
    push_place_line, push_shown_line, push_stop_line,
};
use rawk_answers::{Lvalue, Stepper};
use rawk_commands::{C, push_text};
use rawk_words::Array;
use std::alloc::{AllocError, Global};

/// What a command is answered, as plain data: its text is made of it and of the session, before the next command.
#[derive(Drop)]
pub enum Answer {
    /// A forward move came to its end; the length of the output before it.
    Advanced(usize),
    /// A forward move was refused memory on the way; the length of the output before it.
    Halted(usize),
    /// A backward move; whether it ended where it looked for.
    Returned(bool),
    /// `run` where the oldest point kept is the ending.
    Stayed,
    /// A place is shown.
    Shown(Lvalue),
    /// An array is shown with its elements.
    Listed(Array),
    /// The last set of this point stands no more.
    TakenBack,
    /// A breakpoint or a watch was made, the last one.
    Made,
    /// The breakpoint of this number was removed.
    BreakDeleted(u64),
    /// The watch of this number was removed.
    WatchDeleted(u64),
    /// The activations are reported.
    BacktraceShown,
    /// The session is to end.
    Quits,
}

/// Adds a line for each breakpoint that stands where the machine does and each watch that differs.
fn push_stop_lines<M: Stepper>(out: &mut Vec<u8>, session: &Session<M>) -> Result<(), AllocError>
    requires { IsTrue (M.fresh session.now.machine) }
    ensures { OnOk result (out.new.items ≡ out.old.items
        ++ stop_lines (M.position session.now.machine).program.names.items (M.before session.now.machine) (M.held session.now.machine) session.now.stops.items) }
{
    let program = session.machine.program();
    for entry in &session.stops {
        if hits_here(&session.machine, &entry.stop) {
            push_stop_line(out, &program.names, entry)?;
        }
    }
    Ok(())
}

/// Adds what a move backward is answered, by whether it ended where it looked for.
fn push_returned<M: Stepper>(
    out: &mut Vec<u8>,
    session: &Session<M>,
    found: bool,
) -> Result<(), AllocError>
    requires { IsReady (M.fresh session.now.machine) (Answer.Returned found) }
    ensures { OnOk result (out.new.items
        ≡ out.old.items ++ behind_shown (stand M.position session.now) (M.held session.now.machine) (M.before session.now.machine) (Answer.Returned found)) }
{
    if found {
        push_stop_lines(out, session)?;
    } else {
        push_text(out, b"No more reverse-execution history.\n")?;
    }
    push_place_line(out, &session.machine)
}

/// Adds an answer's text behind the output that it shows.
fn push_behind<M: Stepper>(
    alloc: Global,
    out: &mut Vec<u8>,
    session: &Session<M>,
    answer: &Answer,
) -> Result<(), AllocError>
    requires { IsReady (M.fresh session.now.machine) answer.now }
    ensures { OnOk result (out.new.items
        ≡ out.old.items ++ behind_shown (stand M.position session.now) (M.held session.now.machine) (M.before session.now.machine) answer.now) }
{
    match answer {
        Answer::Advanced(from) => {
            push_line_end(out, output_from(session.machine.output(), *from))?;
            push_stop_lines(out, session)?;
            push_place_line(out, &session.machine)
        }
        Answer::Halted(from) => {
            push_line_end(out, output_from(session.machine.output(), *from))?;
            push_text(out, C::OutOfMemory.line().as_bytes())?;
            push_place_line(out, &session.machine)
        }
        Answer::Returned(found) => push_returned(out, session, *found),
        Answer::Stayed => push_place_line(out, &session.machine),
        Answer::Shown(place) => push_shown_line(out, &session.machine, place),
        Answer::Listed(array) => push_array(alloc, out, &session.machine, *array),
        Answer::TakenBack => push_text(out, b"set taken back\n"),
        Answer::Made => push_newest(out, session.machine.program(), &session.stops),
        Answer::BreakDeleted(number) => push_deleted(out, b"Deleted breakpoint ", *number),
        Answer::WatchDeleted(number) => push_deleted(out, b"Deleted watchpoint ", *number),
        Answer::BacktraceShown => push_backtrace(out, &session.machine),
        Answer::Quits => Ok(()),
    }
}

impl Answer {
    /// From where on it shows the output, which comes first: at the output's end where it shows none.
    pub fn shown_from(&self, output: &[u8]) -> usize
        ensures { drop result output.now ≡ shown_of self.now output.now }
    {
        match self {
            Answer::Advanced(from) => *from,
            Answer::Halted(from) => *from,
            _ => output.len(),
        }
    }

    /// Its text behind the output that it shows, before the next command. It fails where memory is refused, and then may be asked for again.
    pub fn behind<M: Stepper>(
        &self,
        alloc: Global,
        session: &Session<M>,
    ) -> Result<Vec<u8>, AllocError>
        requires { IsReady (M.fresh (machine_of session.now)) self.now }
        ensures { IfOk result (λ text. text.items ≡ behind_shown (stand M.position session.now) (M.held (machine_of session.now)) (M.before (machine_of session.now)) self.now) }
    {
        let mut out = Vec::new(alloc);
        push_behind(alloc, &mut out, session, self)?;
        Ok(out)
    }

    /// Its text, before the next command. It fails where memory is refused, and then may be asked for again.
    pub fn bytes<M: Stepper>(
        &self,
        alloc: Global,
        session: &Session<M>,
    ) -> Result<Vec<u8>, AllocError>
        requires { IsReady (M.fresh (machine_of session.now)) self.now }
        ensures { IfOk result (λ text. text.items ≡ text_of (stand M.position session.now) (M.held (machine_of session.now)) (M.before (machine_of session.now)) self.now) }
    {
        let output = session.machine.output();
        let mut out = Vec::new(alloc);
        push_text(&mut out, output_from(output, self.shown_from(output)))?;
        push_behind(alloc, &mut out, session, self)?;
        Ok(out)
    }
}
