//! The program from its words to its status.

use rawk::{
    Cause, Finished, Invocation, Report, S, StdSink, StdSource, Text, debug_from, run_from,
    settings_of,
};
use rawk_limits::PROGRAM_BYTES;
use std::alloc::{AllocError, Global};
use std::env::Env;
use std::fs::OpenFile;
use std::io::{BufWriter, ErrorKind, Input, Read, Write};
use std::rt::Files;
use std::{env, fs, io};

/// The size of the buffer before the standard output, in bytes.
const OUTPUT_BUFFER: usize = 65_536;

/// The most bytes of a program that are read: one more than a program may have.
const READ_BYTES: u64 = PROGRAM_BYTES as u64 + 1;

/// The status of a refusal or a fault.
const REFUSED: u8 = 2;

/// The input: a file, or the standard input.
#[derive(Drop)]
enum InputReader<F, I> {
    File(F),
    Standard(I),
}

impl<F: Read, I: Read> Read for InputReader<F, I> {
    fn read(&mut self, buf: &mut [u8]) -> io::Result<usize> {
        match self {
            InputReader::File(file) => file.read(buf),
            InputReader::Standard(standard) => standard.read(buf),
        }
    }
}

/// Does what the words of the command line ask for, and answers the status of the process. Each answer of a session appears before
/// the next command is read, and where the standard output is a terminal, each step's output before the next step; else a run's
/// output is held back up to 64 KiB.
pub fn perform<R: Env + Files + AllocGlobal + Input + Print + Eprint>(
    rt: &R,
    is_terminal: bool,
) -> u8 {
    match invocation(rt) {
        Ok(mut invocation) => {
            invocation.settings.set_seed(seed(rt));
            let at_once = is_terminal || invocation.commands.is_some();
            let done = run_invocation(rt, &invocation, if at_once { 0 } else { OUTPUT_BUFFER });
            drop(invocation);
            done.unwrap_or_else(|refusal| refused(rt, refusal))
        }
        Err(refusal) => refused(rt, refusal),
    }
}

/// A seed from the system; where it gives none, 0.
fn seed<R: Files>(rt: &R) -> u64 {
    let mut bytes = [0; 8];
    let read = match fs::open(rt, "/dev/urandom") {
        Ok(mut file) => file.read_exact(&mut bytes),
        Err(error) => Err(error),
    };
    match read {
        Ok(()) => u64::from_le_bytes(bytes),
        Err(_) => 0,
    }
}

/// Tells a refusal, or shows the help, and answers the status.
fn refused<R: Print + Eprint>(rt: &R, refusal: S) -> u8 {
    let status = show_refusal(rt, &refusal);
    drop(refusal);
    status
}

/// The same of a refusal that stays.
fn show_refusal<R: Print + Eprint>(rt: &R, refusal: &S) -> u8 {
    match refusal {
        S::Help(text) => match rt.print(text.as_str()) {
            Ok(()) => 0,
            Err(_) => write_failed(rt),
        },
        S::CommandLine(text) => {
            let _ = rt.eprint(text.as_str());
            REFUSED
        }
        _ => {
            let _ = rt.eprintln(refusal);
            REFUSED
        }
    }
}

/// Tells that the output could not be written, and answers the status.
fn write_failed<R: Eprint>(rt: &R) -> u8 {
    let _ = rt.eprintln("rawk: write failed");
    REFUSED
}

/// What the words ask for.
fn invocation<R: Env + AllocGlobal>(rt: &R) -> Result<Invocation, S> {
    let alloc = rt.alloc();
    match env::args(rt) {
        Ok(args) => {
            let words: Vec<String> = args.skip(1).collect(alloc)?;
            let asked = settings_of(alloc, words.as_slice());
            drop(words);
            asked
        }
        Err(error) if error.kind() == ErrorKind::OutOfMemory => Err(S::Memory(AllocError)),
        Err(_) => Err(not_text(alloc)),
    }
}

/// The refusal of words that are no text.
fn not_text(alloc: Global) -> S {
    match "error: an argument is not UTF-8 text\n".to_string(alloc) {
        Ok(text) => S::CommandLine(text),
        Err(error) => S::Memory(error),
    }
}

/// Runs, or holds a session, and answers the status.
fn run_invocation<R: Files + AllocGlobal + Input + Print + Eprint>(
    rt: &R,
    invocation: &Invocation,
    room: usize,
) -> Result<u8, S> {
    let program = bytes_of(rt, &invocation.program)?;
    let done = match &invocation.commands {
        Some(commands) => hold_session(rt, invocation, program.as_slice(), commands, room),
        None => run_program(rt, invocation, program.as_slice(), room),
    };
    drop(program);
    done
}

/// Runs a program, and answers the status.
fn run_program<R: Files + AllocGlobal + Input + Print + Eprint>(
    rt: &R,
    invocation: &Invocation,
    program: &[u8],
    room: usize,
) -> Result<u8, S> {
    let alloc = rt.alloc();
    let Ok(mut buffer) = BufWriter::with_capacity(alloc, room, io::writer(rt)) else {
        return Err(S::Memory(AllocError));
    };
    let input = input_of(rt, &invocation.input)?;
    let finished = run_from(
        alloc,
        &invocation.settings,
        program,
        StdSource::new(input),
        &mut StdSink::new(&mut buffer),
        invocation.steps,
    );
    let Finished { report, source } = finished;
    drop(source);
    let flushed = buffer.flush();
    Ok(ended(rt, flushed, &report))
}

/// Holds a session on a program, and answers the status.
fn hold_session<R: Files + AllocGlobal + Input + Print + Eprint>(
    rt: &R,
    invocation: &Invocation,
    program: &[u8],
    commands: &Text,
    room: usize,
) -> Result<u8, S> {
    let alloc = rt.alloc();
    let Ok(mut buffer) = BufWriter::with_capacity(alloc, room, io::writer(rt)) else {
        return Err(S::Memory(AllocError));
    };
    let commands = input_of(rt, commands)?;
    let input = input_of(rt, &invocation.input)?;
    let finished = debug_from(
        alloc,
        &invocation.settings,
        program,
        StdSource::new(input),
        &mut StdSource::new(commands),
        &mut StdSink::new(&mut buffer),
        invocation.steps,
        invocation.history,
    );
    let Finished { report, source } = finished;
    drop(source);
    let flushed = buffer.flush();
    Ok(ended(rt, flushed, &report))
}

/// Tells how a run or a session went, or that its output could not be written, and answers the status.
fn ended<R: Eprint>(rt: &R, flushed: io::Result<()>, report: &Report) -> u8 {
    match flushed {
        Ok(()) => reported(rt, report),
        Err(_) => write_failed(rt),
    }
}

/// Tells how a run went, and answers the status.
fn reported<R: Eprint>(rt: &R, report: &Report) -> u8 {
    if report.cause != Cause::Ended {
        let _ = rt.eprintln(report);
    }
    report.status
}

/// The bytes of a program.
fn bytes_of<R: Files + AllocGlobal + Input>(rt: &R, text: &Text) -> Result<Vec<u8>, S> {
    let mut bytes = Vec::new(rt.alloc());
    let read = match text {
        Text::Bytes(given) => {
            bytes.extend_from_slice(given.as_slice())?;
            return Ok(bytes);
        }
        Text::Path(path) => match fs::open(rt, path.as_str()) {
            Ok(file) => file.take(READ_BYTES).read_to_end(&mut bytes),
            Err(_) => return Err(S::CannotRead),
        },
        Text::StandardInput => rt.reader().take(READ_BYTES).read_to_end(&mut bytes),
    };
    match read {
        Ok(_) => Ok(bytes),
        Err(error) if error.kind() == ErrorKind::OutOfMemory => Err(S::Memory(AllocError)),
        Err(_) => Err(S::CannotRead),
    }
}

/// What the input is read from.
fn input_of<R: Files + AllocGlobal + Input>(
    rt: &R,
    text: &Text,
) -> Result<InputReader<R::File, R::Reader>, S> {
    let Text::Path(path) = text else {
        return Ok(InputReader::Standard(rt.reader()));
    };
    let Ok(file) = fs::open(rt, path.as_str()) else {
        return Err(S::CannotRead);
    };
    match file.metadata() {
        Ok(metadata) if !metadata.is_dir() => Ok(InputReader::File(file)),
        _ => Err(S::CannotRead),
    }
}
