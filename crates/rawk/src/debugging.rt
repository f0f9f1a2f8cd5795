//! Sessions, answered as they go.

ghost use Rattle.std.specs.Prelude.{◌≡◌, ◌≤◌, [], true, None, IfOk, IfErr};
ghost use Rattle.rawk_value.specs.Values.{Bytes};
ghost use Rattle.rawk_devices.specs.Inputs.{CountsUp};
ghost use Rattle.rawk_history.specs.Keeping.{keeps_any};
ghost use Rattle.rawk_code.specs.Correct.{CodeOf};
ghost use Rattle.rawk_machine.specs.Standing.{MayCome};
ghost use Rattle.rawk.specs.Preparing.{IsReady};
ghost use Rattle.rawk.specs.Staged.{position_of, work_of};
ghost use Rattle.rawk.specs.Reads.{IsUnstood, ReadsOf, WasRead};
ghost use Rattle.rawk.specs.Reports.{read_failures, write_failures};
ghost use Rattle.rawk.specs.Dialogs.{IsHeld, report_over};
ghost use Rattle.rawk_limits.specs.History.{IsHistory};
ghost use Rattle.rawk.specs.Debugs.{Debugs, asks_all, first_position, stand_at};

use crate::dialog::{Dialog, Over};
use crate::in_memory::InMemory;
use crate::preparing::{Prepared, prepare};
use crate::report::{Cause, Report, stopped};
use crate::running::Finished;
use crate::stage::Stage;
use rawk_code::Settings;
use rawk_debug::{Session, Stepper};
use rawk_devices::{Sink, Source};
use rawk_history::{Full, Keeper, Ring};
use rawk_machine::Machine;
use rawk_tape::Lines;
use rawk_value::Fault;
use std::alloc::Global;

/// The report of a session, by how its dialog was over.
fn report_of(over: Over) -> Report
    ensures { result ≡ report_over over }
{
    match over {
        Over::Ended => Report {
            status: 0,
            cause: Cause::Ended,
            line: 0,
            point: 0,
        },
        Over::Unread => stopped(Cause::Faulted(Fault::ReadFailed), 0),
        Over::Unwritten => stopped(Cause::Faulted(Fault::WriteFailed), 0),
        Over::TooMany => stopped(Cause::Faulted(Fault::OutOfMemory), 0),
    }
}

/// A dialog that is over.
#[derive(Drop)]
struct Held<R: Source + Drop> {
    /// How it is over.
    over: Over,
    /// The program's source, as it was left.
    source: R,
}

/// Holds a session on a machine, from where it stands, by a dialog, and hands the program's source back.
fn session_on<M: Stepper, D: Dialog<C>, C, W: Sink>(
    alloc: Global,
    machine: M,
    dialog: D,
    commands: &mut C,
    sink: &mut W,
) -> Held<M::Device>
    requires { D.begins dialog commands.old }
    ensures held { (source : M.Device) → ReadsOf M.Device.may_give M.Device.handed (M.may_be machine) (M.work machine) source
        → IsHeld D.is_read M.Device.may_give M.Device.over M.Device.handed (D.asks dialog commands.old commands.new) W.may_hold source result.source (stand_at (M.position machine)) sink.old sink.new result.over }
    ensures failures { CountsUp (W.failures sink.old) (W.failures sink.new) (write_failures (report_over result.over).cause) }
    ensures read { CountsUp (D.failures commands.old) (D.failures commands.new) (read_failures (report_over result.over).cause) }
{
    let mut session = Session::new(alloc, machine);
    let over = dialog.hold(alloc, &mut session, commands, sink);
    let machine = session.into_machine();
    machine.known();
    let source = machine.into_source();
    Held { over, source }
}

/// The machine of a program, with the program, before its first step. It fails where memory is refused, and then hands the source back.
fn stage_of<R: Source + Drop, K: Keeper>(
    alloc: Global,
    settings: &Settings,
    prepared: Prepared,
    source: R,
    keeper: K,
    steps: u64,
) -> Result<Stage<R, K>, R>
    requires compiled { CodeOf prepared.program prepared.code }
    requires open { R.over source ≡ None }
    requires empty { K.kept keeper ≡ [] }
    requires keeps { keeps_any (K.limit keeper) ≡ true }
    ensures position { IfOk result (λ s. position_of s.program s.machine ≡ first_position prepared.program settings.now steps (K.limit keeper)) }
    ensures reads { IfOk result (λ s. ReadsOf R.may_give R.handed (MayCome R.may_give s.machine []) (work_of s.machine) source) }
    ensures err { IfErr result (λ left. IsUnstood R.may_give R.over R.handed prepared.program settings.now source steps left) }
{
    let Prepared { program, code } = prepared;
    match Machine::new(alloc, code, settings, source, keeper, steps) {
        Ok(machine) => Ok(Stage::new(program, machine)),
        Err((_, source)) => {
            drop(program);
            Err(source)
        }
    }
}

/// Holds a session over a program that is ready to run, under a keeper that keeps. Its text is any that the program was made of.
fn session_over<R: Source + Drop, K: Keeper, D: Dialog<C>, C, W: Sink>(
    alloc: Global,
    settings: &Settings,
    prepared: Prepared,
    source: R,
    keeper: K,
    dialog: D,
    commands: &mut C,
    sink: &mut W,
    steps: u64,
) -> Finished<R>
    requires compiled { CodeOf prepared.program prepared.code }
    requires open { R.over source ≡ None }
    requires begins { D.begins dialog commands.old }
    requires empty { K.kept keeper ≡ [] }
    requires keeps { keeps_any (K.limit keeper) ≡ true }
    ensures reported { (text : Bytes) → IsReady text settings.now prepared.program prepared.code
        → Debugs D.is_read R.may_give R.over R.handed (D.asks dialog commands.old commands.new) (commands.new ≡ commands.old) W.may_hold text settings.now source result.source steps (K.limit keeper) sink.old sink.new result.report }
    ensures failures { CountsUp (W.failures sink.old) (W.failures sink.new) (write_failures result.report.cause) }
    ensures read { CountsUp (D.failures commands.old) (D.failures commands.new) (read_failures result.report.cause) }
{
    match stage_of(alloc, settings, prepared, source, keeper, steps) {
        Ok(stage) => {
            let held = session_on(alloc, stage, dialog, commands, sink);
            let Held { over, source } = held;
            let report = report_of(over);
            Finished { report, source }
        }
        Err(source) => {
            drop(dialog);
            let report = stopped(Cause::Faulted(Fault::OutOfMemory), 0);
            Finished { report, source }
        }
    }
}

/// Holds a session over a program that is ready to run, and keeps `history` steps, or all. Its text is any that the program was made of.
fn session_kept<R: Source + Drop, D: Dialog<C>, C, W: Sink>(
    alloc: Global,
    settings: &Settings,
    prepared: Prepared,
    source: R,
    dialog: D,
    commands: &mut C,
    sink: &mut W,
    steps: u64,
    history: Option<u64>,
) -> Finished<R>
    requires compiled { CodeOf prepared.program prepared.code }
    requires history { IsHistory history }
    requires open { R.over source ≡ None }
    requires begins { D.begins dialog commands.old }
    ensures reported { (text : Bytes) → IsReady text settings.now prepared.program prepared.code
        → Debugs D.is_read R.may_give R.over R.handed (D.asks dialog commands.old commands.new) (commands.new ≡ commands.old) W.may_hold text settings.now source result.source steps history sink.old sink.new result.report }
    ensures failures { CountsUp (W.failures sink.old) (W.failures sink.new) (write_failures result.report.cause) }
    ensures read { CountsUp (D.failures commands.old) (D.failures commands.new) (read_failures result.report.cause) }
{
    match history {
        None => {
            let keeper = Full::new(alloc);
            session_over(
                alloc, settings, prepared, source, keeper, dialog, commands, sink, steps,
            )
        }
        Some(count) => {
            let ring = Ring::new(alloc, count as usize);
            session_over(
                alloc, settings, prepared, source, ring, dialog, commands, sink, steps,
            )
        }
    }
}

/// Holds a session on the program's text, with commands from a source of their own, and writes the answers to a sink, each one before the next command
/// is read, and none is read behind `quit`. `history` is how many steps it keeps, to go back over; without one it keeps all. It hands the program's source
/// back: what was read of that settles what is answered, whatever may still come. A session that stands at a failed read when it is over has a source that
/// failed.
///
/// The report has status 0, but for: a refusal of the text (P1 to P10) or of a first value (S1), where nothing was written; F11, where the sink failed;
/// F12, where memory was refused before the session stood, or where 2^64 - 1 commands were answered, or one of that many bytes was refused memory; F10, exactly where
/// a read of the commands failed. Where the session did not stand, no command was read, and of the program's source nothing either, but where memory was
/// refused on the way to point 0. What else a session meets, it answers: want of memory for the reading of a
/// command, which has 65,536 bytes or more then, by C11, and passes the command over.
pub fn debug_from<R: Source + Drop, C: Source, W: Sink>(
    alloc: Global,
    settings: &Settings,
    program: &[u8],
    source: R,
    commands: &mut C,
    sink: &mut W,
    steps: u64,
    history: Option<u64>,
) -> Finished<R>
    requires limit { steps ≤ 9223372036854775807 }
    requires history { IsHistory history }
    requires open { R.over source ≡ None }
    requires unread { C.over commands.old ≡ None }
    ensures reported { Debugs (Unit {0}) R.may_give R.over R.handed (WasRead C.may_give C.handed commands.old commands.new) (commands.new ≡ commands.old) W.may_hold program.now settings.now source result.source steps history sink.old sink.new result.report }
    ensures failures { CountsUp (W.failures sink.old) (W.failures sink.new) (write_failures result.report.cause) }
    ensures read { CountsUp (C.failures commands.old) (C.failures commands.new) (read_failures result.report.cause) }
{
    let prepared = match prepare(alloc, settings, program) {
        Ok(prepared) => prepared,
        Err(report) => return Finished { report, source },
    };
    match Lines::new(alloc) {
        Ok(lines) => session_kept(
            alloc, settings, prepared, source, lines, commands, sink, steps, history,
        ),
        Err(_) => {
            drop(prepared);
            let report = stopped(Cause::Faulted(Fault::OutOfMemory), 0);
            Finished { report, source }
        }
    }
}

/// `debug_from` with commands in memory, one on each line. Each is carried out, whatever its length: none is read, so that none needs memory for its
/// reading or is passed over. F12 is reported only where memory was refused before the session stood, and F10 never.
pub fn debug_with<R: Source + Drop, W: Sink>(
    alloc: Global,
    settings: &Settings,
    program: &[u8],
    source: R,
    commands: &[u8],
    sink: &mut W,
    steps: u64,
    history: Option<u64>,
) -> Finished<R>
    requires limit { steps ≤ 9223372036854775807 }
    requires history { IsHistory history }
    requires open { R.over source ≡ None }
    ensures reported { Debugs ⊥ R.may_give R.over R.handed (asks_all commands.now) (Unit {0}) W.may_hold program.now settings.now source result.source steps history sink.old sink.new result.report }
    ensures failures { CountsUp (W.failures sink.old) (W.failures sink.new) (write_failures result.report.cause) }
{
    match prepare(alloc, settings, program) {
        Ok(prepared) => session_kept(
            alloc,
            settings,
            prepared,
            source,
            InMemory { commands },
            &mut (),
            sink,
            steps,
            history,
        ),
        Err(report) => Finished { report, source },
    }
}

/// `debug_with` that keeps all steps.
pub fn debug<R: Source + Drop, W: Sink>(
    alloc: Global,
    settings: &Settings,
    program: &[u8],
    source: R,
    commands: &[u8],
    sink: &mut W,
    steps: u64,
) -> Finished<R>
    requires limit { steps ≤ 9223372036854775807 }
    requires open { R.over source ≡ None }
    ensures reported { Debugs ⊥ R.may_give R.over R.handed (asks_all commands.now) (Unit {0}) W.may_hold program.now settings.now source result.source steps None sink.old sink.new result.report }
    ensures failures { CountsUp (W.failures sink.old) (W.failures sink.new) (write_failures result.report.cause) }
{
    debug_with(
        alloc, settings, program, source, commands, sink, steps, None,
    )
}
