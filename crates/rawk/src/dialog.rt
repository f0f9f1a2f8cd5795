//! Command lines are carried out one after another.

ghost use Rattle.std.specs.Prelude.{ℕ, List, ◌≡◌, ◌≢◌, ◌<◌, ◌-◌, ◌^◌, ◌++◌, [], length, take, None, Some, IfOk, IfErr, OnOk, OnErr};
ghost use Rattle.rawk_value.specs.Values.{Bytes};
ghost use Rattle.rawk_devices.specs.declared.source.Ending.TheVariants.{Failed};
ghost use Rattle.rawk_devices.specs.Inputs.{Input, CountsUp, failures_of};
ghost use Rattle.rawk_tape.specs.Lines.{FindsNone, failures_at};
ghost use Rattle.rawk_debug.specs.Sessions.{stand, machine_of};
ghost use Rattle.rawk_debug.specs.Transcript.{reply_text};
ghost use Rattle.rawk_answers.specs.Works.{Draws};
ghost use Rattle.rawk.specs.Reads.{WasRead};
ghost use Rattle.rawk.specs.Reports.{read_failures, write_failures};
ghost use Rattle.rawk.specs.Dialogs.{Speaks, Told, over_by, quits_by, report_over};
ghost use Rattle.rawk.specs.Turns.{TakesTurn};

use rawk_debug::{Reply, Session, Stepper, carry_out};
use rawk_devices::{DeviceFault, Sink, Source, write_all};
use rawk_tape::{Lines, NoLine};
use std::alloc::Global;

/// How a dialog is over.
#[derive(Clone, Copy, PartialEq, Eq)]
pub enum Over {
    /// the commands are at their end, or one of them was `quit`
    Ended,
    /// the commands could not be read
    Unread,
    /// an answer could not be written
    Unwritten,
    /// 2^64 - 1 commands were answered, or the next one has as many bytes and memory was refused for it
    TooMany,
}

/// How a dialog is over that has no next line.
impl From<NoLine> for Over {
    ghost from_gives = { λ why over. over ≡ over_by why };

    fn from(why: NoLine) -> Over {
        match why {
            NoLine::Ended => Over::Ended,
            NoLine::Unread => Over::Unread,
            NoLine::TooMany => Over::TooMany,
        }
    }
}

/// Whether a reply ends the session.
fn quits(reply: &Reply) -> bool
    ensures { result ≡ quits_by reply.now }
{
    match reply {
        Reply::Quits => true,
        _ => false,
    }
}

/// Writes a reply: what it shows of the output, and its bytes behind that. At the first failure it stops, and less than all was taken.
fn write_reply<W: Sink>(sink: &mut W, output: &[u8], reply: &Reply) -> Result<(), DeviceFault>
    ensures ok { OnOk result ((held : List ℕ) → W.may_hold sink.old held → W.may_hold sink.new (held ++ reply_text output.now reply.now)) }
    ensures err { OnErr result ((held : List ℕ) → W.may_hold sink.old held →
        (size : ℕ) × (size < length (reply_text output.now reply.now)) × W.may_hold sink.new (held ++ take size (reply_text output.now reply.now))) }
    ensures failures { CountsUp (W.failures sink.old) (W.failures sink.new) (failures_of result) }
{
    match write_all(sink, reply.shown(output)) {
        Ok(()) => write_all(sink, reply.rest()),
        Err(fault) => Err(fault),
    }
}

/// Hands on the reply to a line that had its turn; or tells how the dialog is over, since the reply ends the session or could not be written.
pub fn tell<M: Stepper, W: Sink>(
    session: &Session<M>,
    reply: &Reply,
    sink: &mut W,
) -> Result<(), Over>
    ensures told { Told W.may_hold (M.held (machine_of session.now)).state.output reply.now sink.old sink.new result }
    ensures unfailing { OnOk result (CountsUp (W.failures sink.old) (W.failures sink.new) 0) }
    ensures failures { IfErr result (λ over. CountsUp (W.failures sink.old) (W.failures sink.new) (write_failures (report_over over).cause)) }
    ensures read { IfErr result (λ over. read_failures (report_over over).cause ≡ 0) }
{
    if quits(reply) {
        return Err(Over::Ended);
    }
    match write_reply(sink, session.machine().output(), reply) {
        Ok(()) => Ok(()),
        Err(_) => Err(Over::Unwritten),
    }
}

/// What a dialog takes its command lines from: bytes in memory, or what is kept of a source.
pub trait Dialog<C>: Drop {
    /// What must be so before the first line.
    ghost begins: { Self → C → Type 0 };

    /// Whether the commands are read, so that memory may be refused for the reading of a line.
    ghost is_read: { Type 0 };

    /// This was read of the commands from then to now, and they may be this input.
    ghost asks: { Self → C → C → Bytes → Input → Type 0 };

    /// How often a read of the commands has failed.
    ghost failures: { C → ℕ };

    /// Carries out each line of the commands when it is due, and hands its answer on before the next one, until the commands are at their
    /// end, one of them is `quit`, or a device fails. A line ends at a newline; the last one needs none. A program's source that is over is
    /// asked for nothing.
    fn hold<M: Stepper, W: Sink>(
        self,
        alloc: Global,
        session: &mut Session<M>,
        commands: &mut C,
        sink: &mut W,
    ) -> Over
        requires { begins self commands.old }
        ensures speaks { Speaks is_read M.may_be (asks self commands.old commands.new) W.may_hold (stand M.position session.old) (stand M.position session.new) (machine_of session.new) sink.old sink.new result }
        ensures narrows { (input : Input) → M.may_be (machine_of session.new) input → M.may_be (machine_of session.old) input }
        ensures draws { Draws M.Device.over M.Device.handed (M.work (machine_of session.old)) (M.work (machine_of session.new)) }
        ensures failures { CountsUp (W.failures sink.old) (W.failures sink.new) (write_failures (report_over result).cause) }
        ensures read { CountsUp (failures commands.old) (failures commands.new) (read_failures (report_over result).cause) };
}

/// Carries out the line of the commands that is due, lets it go, and answers the reply; or why none is due. A line for whose
/// reading memory is refused is passed over, and replied to as refused.
fn take_turn<M: Stepper, C: Source>(
    alloc: Global,
    session: &mut Session<M>,
    lines: &mut Lines,
    commands: &mut C,
) -> Result<Reply, NoLine>
    requires reported { C.over commands.old ≡ lines.old.over }
    requires unfailed { lines.old.over ≢ Some Failed }
    ensures takes { IfOk result (TakesTurn M.may_be C.may_give C.handed (stand M.position session.old) (stand M.position session.new) (machine_of session.new) (M.held (machine_of session.new)).state.output commands.old lines.old commands.new lines.new) }
    ensures none { IfErr result (FindsNone C.may_give C.handed commands.old lines.old commands.new) }
    ensures few { OnOk result (lines.old.taken < 2 ^ 64 - 1) }
    ensures same { OnErr result (session.new ≡ session.old) }
    ensures narrows { (input : Input) → M.may_be (machine_of session.new) input → M.may_be (machine_of session.old) input }
    ensures draws { Draws M.Device.over M.Device.handed (M.work (machine_of session.old)) (M.work (machine_of session.new)) }
    ensures reported { OnOk result (C.over commands.new ≡ lines.new.over) }
    ensures unfailed { OnOk result (lines.new.over ≢ Some Failed) }
    ensures unfailing { OnOk result (CountsUp (C.failures commands.old) (C.failures commands.new) 0) }
    ensures failures { IfErr result (λ why. CountsUp (C.failures commands.old) (C.failures commands.new) (failures_at why)) }
{
    match lines.next(commands) {
        Ok(Some(line)) => {
            let reply = carry_out(alloc, session, lines.text(line));
            lines.let_go(line);
            Ok(reply)
        }
        Ok(None) => Ok(Reply::Line(rawk_commands::C::OutOfMemory)),
        Err(why) => Err(why),
    }
}

/// Commands that are read from a source. A line that was carried out is let go; one for whose reading memory is refused is passed over, and
/// its answer says so. The commands are read only while the bytes kept do not hold the end of the line that is due.
impl<C: Source> Dialog<C> for Lines {
    ghost begins = { λ lines commands. (lines ≡ record { bytes = []; over = None; taken = 0 }) × (C.over commands ≡ None) };

    ghost is_read = { Unit {0} };

    ghost asks = { λ lines old new. WasRead C.may_give C.handed old new };

    ghost failures = { λ commands. C.failures commands };

    fn hold<M: Stepper, W: Sink>(
        self,
        alloc: Global,
        session: &mut Session<M>,
        commands: &mut C,
        sink: &mut W,
    ) -> Over {
        let mut lines = self;
        'lines: loop {
            let reply = match take_turn(alloc, session, &mut lines, commands) {
                Ok(reply) => reply,
                Err(why) => return Over::from(why),
            };
            match tell(session, &reply, sink) {
                Ok(()) => drop(reply),
                Err(over) => return over,
            }
        }
    }
}
