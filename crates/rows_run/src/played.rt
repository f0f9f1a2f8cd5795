//! Runs and sessions.
//!
//! The parts are the words of a command line, but: one that begins with `<` is the input; one that begins with `>` are the
//! commands of a session (`--debug` is put before the words). `@let NAME=TEXT` is a first value; `@pieces N`: a read gives at most N
//! bytes, and with `@reads N` the first N reads alone are so short; `@source fails N`, `@sink fails N`: the source or the sink fails behind
//! N bytes; `@sink fails everywhere`: the case is asked with a sink that fails behind each count of bytes below those that it writes.
//!
//! A session is held twice: with commands that are read, in pieces as the input is, and with the same in memory. Where these differ, both answers are given.
//!
//! The answer is what the sink took, and in parentheses the line for the standard error, if there is one, the status, the point
//! of a run, and how many bytes the source handed out; or the first line of the refusal of the words.

ghost use Rattle.std.specs.Prelude.{◌≡◌, IfOk, None};

use rawk::{
    BytesSink, BytesSource, Finished, Invocation, Report, S, Settings, Text, debug_from,
    debug_with, run, settings_of,
};
use rows_cases::setting_of;
use std::alloc::{AllocError, Global};

/// A case, as its parts say it.
#[derive(Drop)]
struct Plan<'a> {
    words: Vec<String>,
    input: &'a [u8],
    commands: Option<&'a [u8]>,
    settings: Settings,
    piece: Option<usize>,
    short_reads: usize,
    source_fails: Option<usize>,
    sink_fails: Option<usize>,
    is_everywhere: bool,
}

impl<'a> Plan<'a> {
    /// Takes a part.
    fn take(&mut self, alloc: Global, part: &'a [u8]) -> Result<(), AllocError> {
        match part {
            [b'<', input @ ..] => self.input = input,
            [b'>', commands @ ..] => self.commands = Some(commands),
            [b'@', b'l', b'e', b't', b' ', value @ ..] => self.assign(value)?,
            [b'@', setting @ ..] => self.set(setting),
            word => self.words.push(text_of(alloc, word)?)?,
        }
        Ok(())
    }

    /// Takes a first value, `NAME=TEXT`.
    fn assign(&mut self, value: &[u8]) -> Result<(), AllocError> {
        match value.iter().position(|b| *b == b'=') {
            Some(at) => self.settings.assign(&value[..at], &value[at + 1..]),
            None => Ok(()),
        }
    }

    /// Takes how a device behaves.
    fn set(&mut self, setting: &[u8]) {
        match setting_of(setting) {
            (b"pieces", piece) => self.piece = piece,
            (b"reads", Some(count)) => self.short_reads = count,
            (b"source fails", place) => self.source_fails = place,
            (b"sink fails", None) => self.is_everywhere = true,
            (b"sink fails", place) => self.sink_fails = place,
            _ => {}
        }
    }
}

/// The text of a word.
fn text_of(alloc: Global, word: &[u8]) -> Result<String, AllocError> {
    str::from_utf8(word).unwrap_or("?").to_string(alloc)
}

/// What a case answers.
pub fn answered(alloc: Global, parts: &[&[u8]]) -> Result<Vec<u8>, AllocError> {
    let mut plan = Plan {
        words: Vec::new(alloc),
        input: &[],
        commands: None,
        settings: Settings::new(alloc),
        piece: None,
        short_reads: usize::MAX,
        source_fails: None,
        sink_fails: None,
        is_everywhere: false,
    };
    let text = match fill(alloc, &mut plan, parts) {
        Ok(()) => answer(alloc, &plan),
        Err(error) => Err(error),
    };
    drop(plan);
    text
}

/// Takes the parts of a case.
fn fill<'a>(alloc: Global, plan: &mut Plan<'a>, parts: &[&'a [u8]]) -> Result<(), AllocError> {
    for part in parts {
        plan.take(alloc, part)?;
    }
    if plan.commands.is_some() {
        plan.words.insert(0, "--debug".to_string(alloc)?)?;
        plan.words.insert(1, "commands".to_string(alloc)?)?;
    }
    Ok(())
}

/// What a case answers whose parts are taken.
fn answer(alloc: Global, plan: &Plan<'_>) -> Result<Vec<u8>, AllocError> {
    let asked = settings_of(alloc, plan.words.as_slice());
    let text = match &asked {
        Ok(invocation) if plan.is_everywhere => beginnings(alloc, plan, invocation),
        Ok(invocation) => once(alloc, plan, invocation),
        Err(refusal) => first_line(alloc, refusal),
    };
    drop(asked);
    text
}

/// From where a session has its commands.
#[derive(Clone, Copy)]
enum Commands {
    Read,
    InMemory,
}

/// What one run or session answers; a session that answers another thing by commands in memory answers both.
fn once(alloc: Global, plan: &Plan<'_>, invocation: &Invocation) -> Result<Vec<u8>, AllocError> {
    let mut text = answer_by(alloc, plan, invocation, Commands::Read)?;
    if plan.commands.is_some() {
        let other = answer_by(alloc, plan, invocation, Commands::InMemory)?;
        push_other(&mut text, &other)?;
    }
    Ok(text)
}

/// Adds another answer, where it is one.
fn push_other(text: &mut Vec<u8>, other: &[u8]) -> Result<(), AllocError> {
    if text.as_slice() == other {
        return Ok(());
    }
    text.extend_from_slice(b"\nby commands in memory: ")?;
    text.extend_from_slice(other)
}

/// What one run answers, or one session by these commands.
fn answer_by(
    alloc: Global,
    plan: &Plan<'_>,
    invocation: &Invocation,
    commands: Commands,
) -> Result<Vec<u8>, AllocError> {
    let played = play(alloc, plan, invocation, commands, plan.sink_fails)?;
    let text = told(alloc, &played);
    drop(played);
    text
}

/// The first line of a refusal.
fn first_line(alloc: Global, refusal: &S) -> Result<Vec<u8>, AllocError> {
    let text = format!(in alloc; "{refusal}")?;
    let line = text.as_str().lines().next().unwrap_or("");
    Vec::from_slice(alloc, line.as_bytes())
}

/// What came of a run or a session.
#[derive(Drop)]
struct Played {
    written: Vec<u8>,
    line: String,
    status: u8,
    point: u64,
    handed: u128,
}

/// Runs a program, or holds a session on it.
fn play(
    alloc: Global,
    plan: &Plan<'_>,
    invocation: &Invocation,
    commands: Commands,
    sink_fails: Option<usize>,
) -> Result<Played, AllocError> {
    let mut source = source_of(alloc, plan, plan.input, plan.source_fails)?;
    let mut sink = BytesSink::new(alloc, sink_fails);
    let report = reported(alloc, plan, invocation, commands, &mut source, &mut sink)?;
    let handed = source.handed();
    drop(source);
    let played = played_of(alloc, &report, sink.bytes(), handed);
    drop(sink);
    played
}

/// A source of these bytes, in the pieces of a case, that fails behind `fails` bytes, where it does.
fn source_of(
    alloc: Global,
    plan: &Plan<'_>,
    bytes: &[u8],
    fails: Option<usize>,
) -> Result<BytesSource, AllocError>
    ensures { IfOk result (λ source. source.over ≡ None) }
{
    let cuts = cuts_of(alloc, plan.short_reads.min(bytes.len()), plan.piece)?;
    let bytes = Vec::from_slice(alloc, bytes)?;
    Ok(BytesSource::new(bytes, cuts, fails))
}

/// What came of a run or a session, by its report, what the sink took and how many bytes the source handed out.
fn played_of(
    alloc: Global,
    report: &Report,
    written: &[u8],
    handed: u128,
) -> Result<Played, AllocError> {
    let line = format!(in alloc; "{report}")?;
    Ok(Played {
        written: Vec::from_slice(alloc, written)?,
        line,
        status: report.status,
        point: report.point,
        handed,
    })
}

/// So many cuts in pieces of one size, where there is one.
fn cuts_of(alloc: Global, count: usize, piece: Option<usize>) -> Result<Vec<usize>, AllocError> {
    let mut cuts = Vec::new(alloc);
    if let Some(piece) = piece {
        for _ in 0..count {
            cuts.push(piece)?;
        }
    }
    Ok(cuts)
}

/// The text of the program.
fn program_of(invocation: &Invocation) -> &[u8] {
    match &invocation.program {
        Text::Bytes(bytes) => bytes.as_slice(),
        _ => &[],
    }
}

/// The report of a run, or of a session by these commands.
fn reported(
    alloc: Global,
    plan: &Plan<'_>,
    invocation: &Invocation,
    commands: Commands,
    source: &mut BytesSource,
    sink: &mut BytesSink,
) -> Result<Report, AllocError>
    requires { source.old.over ≡ None }
{
    let program = program_of(invocation);
    let settings = &plan.settings;
    let steps = invocation.steps;
    let history = invocation.history;
    let Some(lines) = plan.commands else {
        return Ok(run(alloc, settings, program, source, sink, steps));
    };
    let finished = match commands {
        Commands::Read => {
            let mut lines = source_of(alloc, plan, lines, None)?;
            let finished = debug_from(
                alloc, settings, program, source, &mut lines, sink, steps, history,
            );
            drop(lines);
            finished
        }
        Commands::InMemory => debug_with(
            alloc, settings, program, source, lines, sink, steps, history,
        ),
    };
    let Finished { report, source } = finished;
    drop(source);
    Ok(report)
}

/// What was written, and how it ended.
fn told(alloc: Global, played: &Played) -> Result<Vec<u8>, AllocError> {
    let mut text = played.written.clone()?;
    push_end(alloc, &mut text, played)?;
    Ok(text)
}

/// Adds how it ended.
fn push_end(alloc: Global, text: &mut Vec<u8>, played: &Played) -> Result<(), AllocError> {
    text.push(b'(')?;
    if !played.line.is_empty() {
        text.extend_from_slice(played.line.as_bytes())?;
        text.extend_from_slice(b"; ")?;
    }
    let end = end_of(alloc, played.status, played.point, played.handed)?;
    text.extend_from_slice(end.as_bytes())
}

/// The status, the point of a run, and how many bytes the source handed out.
fn end_of(alloc: Global, status: u8, point: u64, handed: u128) -> Result<String, AllocError> {
    match point {
        0 => format!(in alloc; "status {status}, {handed} read)"),
        point => format!(in alloc; "status {status}, point {point}, {handed} read)"),
    }
}

/// Whether a sink that fails behind each count of bytes has taken that beginning of what is written else.
fn beginnings(
    alloc: Global,
    plan: &Plan<'_>,
    invocation: &Invocation,
) -> Result<Vec<u8>, AllocError> {
    let whole = play(alloc, plan, invocation, Commands::Read, None)?;
    let text = beginnings_of(alloc, plan, invocation, whole.written.as_slice());
    drop(whole);
    Ok(text?.into_bytes())
}

/// The same of what is written else.
fn beginnings_of(
    alloc: Global,
    plan: &Plan<'_>,
    invocation: &Invocation,
    written: &[u8],
) -> Result<String, AllocError> {
    for place in 0..written.len() {
        let cut = play(alloc, plan, invocation, Commands::Read, Some(place))?;
        let is_well = cut.written.as_slice() == &written[..place] && is_write_failed(&cut);
        drop(cut);
        if !is_well {
            return format!(in alloc; "another answer behind {place} bytes");
        }
    }
    let count = written.len();
    format!(in alloc; "each of {count} beginnings, and write failed")
}

/// Whether a failed write is what ended it.
fn is_write_failed(played: &Played) -> bool {
    played.line.as_str() == "rawk: write failed" && played.status == 2
}
