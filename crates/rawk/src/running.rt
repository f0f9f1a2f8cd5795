//! Runs, written as they go.

ghost use Rattle.std.specs.Prelude.{◌≡◌, ◌+◌, ◌≤◌, [], None, Some, IfSome, OnOk, OnErr};
ghost use Rattle.rawk_devices.specs.Inputs.{Input, CountsUp, failures_of};
ghost use Rattle.rawk_devices.specs.declared.source.Ending.{Ending};
ghost use Rattle.rawk_machine.specs.Standing.{MayCome, IsAt, step_of};
ghost use Rattle.rawk_machine.specs.Asked.{AskedBy};
ghost use Rattle.rawk_code.specs.Correct.{CodeOf};
ghost use Rattle.rawk.specs.Reports.{write_failures};
ghost use Rattle.rawk.specs.Runs.{HandsOn, IsCut, IsRun, Runs, refused_behind, step_report};
ghost use Rattle.rawk.specs.Tells.{Tells};

use crate::preparing::{Prepared, prepare};
use crate::report::{Cause, Report, stopped};
use rawk_code::Settings;
use rawk_compiler::laws;
use rawk_devices::{DeviceFault, Sink, Source, write_all};
use rawk_machine::{Runner, Step};
use rawk_syntax::Program;
use rawk_value::Fault;
use std::alloc::Global;

/// The report of a run that is at its ending; nothing at a point.
#[cold]
#[inline(never)]
fn reported<R: Source + Drop>(program: &Program, runner: &Runner<R>) -> Option<Report>
    ensures report { result ≡ step_report program.now.lines.items (step_of runner.now.ending runner.now.state.status) runner.now.site runner.now.point }
    ensures failures { IfSome result (λ report. write_failures report.cause ≡ 0) }
    ensures failed { IfSome result (λ report. report.cause ≡ Cause.Faulted Fault.ReadFailed → R.over runner.now.tape.source ≡ Some Ending.Failed) }
{
    let (status, cause) = match runner.step() {
        Step::At => return None,
        Step::Ended(status) => (status, Cause::Ended),
        Step::Faulted(fault) => (2, Cause::Faulted(fault)),
    };
    let line = program.line_of_site(runner.site());
    Some(Report {
        status,
        cause,
        line,
        point: runner.point(),
    })
}

/// The report of a run that was refused memory behind a point with this site.
#[cold]
#[inline(never)]
fn refused(program: &Program, point: u64, site: Option<usize>) -> Report
    ensures { result ≡ refused_behind program.now point site }
{
    Report {
        status: 2,
        cause: Cause::Faulted(Fault::OutOfMemory),
        line: program.line_of_site(site),
        point,
    }
}

/// Hands on the output that a run did not give yet, and, where the step left any, lets go what it needs no more of its input. Where the sink fails, the run stands
/// at its point.
#[cold]
#[inline(never)]
fn hand_on<R: Source + Drop, W: Sink>(
    alloc: Global,
    runner: &mut Runner<R>,
    sink: &mut W,
    eventful: bool,
) -> Result<(), DeviceFault>
    ensures ok { OnOk result (HandsOn R.may_give W.may_hold runner.old sink.old runner.new sink.new) }
    ensures err { OnErr result (IsCut W.may_hold runner.old.state.output sink.old sink.new) }
    ensures point { runner.new.point ≡ runner.old.point }
    ensures source { runner.new.tape.source ≡ runner.old.tape.source }
    ensures failures { CountsUp (W.failures sink.old) (W.failures sink.new) (failures_of result) }
{
    match write_all(sink, runner.output()) {
        Ok(()) => {}
        Err(fault) => return Err(fault),
    }
    runner.drop_output();
    if !eventful {
        return Ok(());
    }
    runner.drop_consumed(alloc);
    Ok(())
}

/// Goes on with a run to its end, and writes the output of each step before the next one.
fn run_on<R: Source + Drop, W: Sink>(
    alloc: Global,
    runner: &mut Runner<R>,
    program: &Program,
    sink: &mut W,
) -> Report
    requires fresh { runner.old.point ≡ 0 }
    requires stands { (input : Input) → MayCome R.may_give runner.old [] input → IsAt runner.old input [] [] }
    requires asked { (input : Input) → MayCome R.may_give runner.old [] input → AskedBy runner.old input 0 runner.old.tape.bytes }
    requires still { (input : Input) × MayCome R.may_give runner.old [] input }
    requires compiled { CodeOf program.now runner.old.code }
    ensures runs { Runs R.may_give R.over R.handed W.may_hold program.now runner.old runner.new.tape.source sink.old sink.new result }
    ensures failures { CountsUp (W.failures sink.old) (W.failures sink.new) (write_failures result.cause) }
{
    laws::output();
    let mut eventful = true;
    'steps: loop {
        match hand_on(alloc, runner, sink, eventful) {
            Ok(()) => {}
            Err(_) => return stopped(Cause::Faulted(Fault::WriteFailed), runner.point()),
        }
        match reported(program, runner) {
            Some(report) => return report,
            None => {}
        }
        eventful = false;
        match runner.go_on(alloc, &mut eventful) {
            Ok(_) => {}
            Err(_) => return refused(program, runner.point(), runner.site()),
        }
    }
}

/// A run or a session that is over.
#[derive(Drop)]
pub struct Finished<R: Source + Drop> {
    /// What is reported of it.
    pub report: Report,
    /// Its source, as it was left.
    pub source: R,
}

/// Runs a program that is ready to run.
fn run_prepared<R: Source + Drop, W: Sink>(
    alloc: Global,
    settings: &Settings,
    prepared: Prepared,
    source: R,
    sink: &mut W,
    steps: u64,
) -> Finished<R>
    requires open { R.over source ≡ None }
    requires compiled { CodeOf prepared.program prepared.code }
    ensures ran { IsRun R.may_give R.over R.handed W.may_hold prepared.program settings.now source result.source steps sink.old sink.new result.report }
    ensures failures { CountsUp (W.failures sink.old) (W.failures sink.new) (write_failures result.report.cause) }
{
    laws::first_output();
    let Prepared { program, code } = prepared;
    let mut runner = match Runner::new(alloc, code, settings, source, steps) {
        Ok(runner) => runner,
        Err((_, source)) => {
            drop(program);
            return Finished {
                report: stopped(Cause::Faulted(Fault::OutOfMemory), 0),
                source,
            };
        }
    };
    let report = run_on(alloc, &mut runner, &program, sink);
    let source = runner.into_source();
    drop(program);
    Finished { report, source }
}

/// Runs a program's text on the input of a source, with these first values and at most `steps` steps, and writes its
/// output to a sink: each step's output before the next step (POSIX awk, Overall Program Structure). It hands the source back.
///
/// The report has the program's status, how it ended, the line of a fault or a refusal, and the ending's number.
/// Refusals of the text (P1 to P10) come before S1, a first value that can't be assigned; then nothing ran, nothing was read and nothing was
/// written. F11 is reported exactly where the sink failed, at the point behind the step whose output failed. F12 is
/// reported where memory was refused, at the last point reached and with its line. F10 is reported only where a read of the source failed during
/// the call. The source is asked for nothing after its end or failure, and only for the record at hand: before the last read, which gave 65,536 bytes
/// at most, what was read did not settle that record.
pub fn run_from<R: Source + Drop, W: Sink>(
    alloc: Global,
    settings: &Settings,
    program: &[u8],
    source: R,
    sink: &mut W,
    steps: u64,
) -> Finished<R>
    requires limit { steps ≤ 9223372036854775807 }
    requires open { R.over source ≡ None }
    ensures reported { Tells R.may_give R.over R.handed W.may_hold program.now settings.now source result.source steps sink.old sink.new result.report }
    ensures failures { CountsUp (W.failures sink.old) (W.failures sink.new) (write_failures result.report.cause) }
{
    laws::first_output();
    match prepare(alloc, settings, program) {
        Ok(prepared) => run_prepared(alloc, settings, prepared, source, sink, steps),
        Err(report) => Finished { report, source },
    }
}

/// `run_from` where the source is let go.
pub fn run<R: Source + Drop, W: Sink>(
    alloc: Global,
    settings: &Settings,
    program: &[u8],
    source: R,
    sink: &mut W,
    steps: u64,
) -> Report
    requires limit { steps ≤ 9223372036854775807 }
    requires open { R.over source ≡ None }
    ensures reported { (last : R) × Tells R.may_give R.over R.handed W.may_hold program.now settings.now source last steps sink.old sink.new result }
    ensures failures { CountsUp (W.failures sink.old) (W.failures sink.new) (write_failures result.cause) }
{
    let finished = run_from(alloc, settings, program, source, sink, steps);
    let Finished { report, source } = finished;
    drop(source);
    report
}
