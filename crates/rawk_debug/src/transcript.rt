//! What the lines of a session are answered.

ghost use Rattle.std.specs.Prelude.{◌≡◌, Ok};
ghost use Rattle.rawk_devices.specs.Inputs.{Input};
ghost use Rattle.rawk_debug.specs.Commands.{IsReady};
ghost use Rattle.rawk_debug.specs.Sessions.{stand, machine_of};
ghost use Rattle.rawk_answers.specs.Works.{Draws};
ghost use Rattle.rawk_debug.specs.Transcript.{reply_rest, reply_shown, reply_text, Carries, Heard, Obeys, Says, IsReply, lost, quits};

use crate::answer::Answer;
use crate::session::Session;
use rawk_answers::Stepper;
use rawk_answers::text::output_from;
use rawk_commands::{C, Command};
use std::alloc::{AllocError, Global};

/// What a line is answered.
#[derive(Drop)]
pub enum Reply {
    /// The machine's output from a place on, and behind it a text that was made.
    Text(usize, Vec<u8>),
    /// A fixed line, which takes no memory.
    Line(C),
    /// The line asks for nothing.
    Nothing,
    /// The session ends.
    Quits,
}

impl Reply {
    /// What it shows of the machine's output, which comes first.
    pub fn shown<'a>(&self, output: &'a [u8]) -> &'a [u8]
        ensures { result.now ≡ reply_shown output.now self.now }
    {
        match self {
            Reply::Text(from, _) => output_from(output, *from),
            _ => b"",
        }
    }

    /// Its bytes behind that.
    pub fn rest(&self) -> &[u8]
        ensures { result.now ≡ reply_rest self.now }
    {
        match self {
            Reply::Text(_, text) => text.as_slice(),
            Reply::Line(reason) => reason.line().as_bytes(),
            Reply::Nothing => b"",
            Reply::Quits => b"",
        }
    }
}

/// What stands for an answer whose text is refused memory.
fn lost(answer: &Answer) -> C
    ensures { result ≡ lost answer.now }
{
    match answer {
        Answer::Halted(_) => C::OutOfMemory,
        _ => C::AnswerLost,
    }
}

/// The reply of an answer: the output that it shows and its text behind that, or where that is refused memory the line that stands for it.
fn reply_to<M: Stepper>(alloc: Global, session: &Session<M>, answer: Answer) -> Reply
    requires { IsReady (M.fresh session.now.machine) answer }
    ensures says { (input : Input) → M.may_be session.now.machine input
        → Says input (stand M.position session.now) (M.before session.now.machine) (Ok answer) (reply_text (M.held session.now.machine).state.output result) }
    ensures stays { IsReply result }
{
    session.machine.known();
    match answer.behind(alloc, session) {
        Ok(text) => Reply::Text(answer.shown_from(session.machine.output()), text),
        Err(AllocError) => Reply::Line(lost(&answer)),
    }
}

fn is_quit(command: &Command) -> bool
    ensures { result ≡ quits command.now }
{
    match command {
        Command::Quit => true,
        _ => false,
    }
}

/// Executes a command that is not `quit`, and tells the outcome.
fn obey<M: Stepper>(alloc: Global, session: &mut Session<M>, command: Command) -> Reply
    ensures obeys { (input : Input) → M.may_be session.new.machine input
        → Obeys input command (stand M.position session.old) (reply_text (M.held session.new.machine).state.output result) (stand M.position session.new) }
    ensures stays { IsReply result }
    ensures narrows { (input : Input) → M.may_be session.new.machine input → M.may_be session.old.machine input }
    ensures draws { Draws M.Device.over M.Device.handed (M.work session.old.machine) (M.work session.new.machine) }
{
    match session.execute(alloc, command) {
        Ok(answer) => reply_to(alloc, session, answer),
        Err(reason) => Reply::Line(reason),
    }
}

/// Carries out a line of a session, and tells what it is answered. Where memory is refused for the answer's text, what was
/// asked for is done, and the answer says that it is lost; a move that want of memory stopped says that.
pub fn carry_out<M: Stepper>(alloc: Global, session: &mut Session<M>, line: &[u8]) -> Reply
    ensures carries { (input : Input) → M.may_be (machine_of session.new) input
        → Carries input (Heard line.now) (stand M.position session.old) (M.held (machine_of session.new)).state.output result (stand M.position session.new) }
    ensures narrows { (input : Input) → M.may_be (machine_of session.new) input → M.may_be (machine_of session.old) input }
    ensures draws { Draws M.Device.over M.Device.handed (M.work (machine_of session.old)) (M.work (machine_of session.new)) }
{
    match Command::read(alloc, line) {
        Ok(None) => Reply::Nothing,
        Ok(Some(command)) => {
            if is_quit(&command) {
                return Reply::Quits;
            }
            obey(alloc, session, command)
        }
        Err(reason) => Reply::Line(reason),
    }
}
