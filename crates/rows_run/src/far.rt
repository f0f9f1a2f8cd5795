//! A session over a million steps: to the limit, back to point 0, and to the limit again. The answer is its transcript, and how many bytes of
//! the input were handed out, none of them twice.

ghost use Rattle.std.specs.Prelude.{◌≡◌, None};

use rawk::{BytesSink, BytesSource, Finished, Settings, debug_from};
use std::alloc::{AllocError, Global};

/// How many lines the input has: each costs three steps.
const LINES: usize = 333_400;

/// How many steps the session may take.
const STEPS: u64 = 1_000_000;

/// Bytes in memory, as a source.
fn source_of(bytes: Vec<u8>, alloc: Global) -> BytesSource
    ensures { result.over ≡ None }
{
    BytesSource::new(bytes, Vec::new(alloc), None)
}

/// Lines with a number each.
fn input(alloc: Global) -> Result<Vec<u8>, AllocError> {
    let mut bytes = Vec::new(alloc);
    for _ in 0..LINES {
        bytes.extend_from_slice(b"7\n")?;
    }
    Ok(bytes)
}

/// What the session answers.
pub fn answered(alloc: Global) -> Result<Vec<u8>, AllocError> {
    let source = source_of(input(alloc)?, alloc);
    let mut commands = source_of(
        Vec::from_slice(alloc, b"c\nprint s\nrc\nprint s\nc\nprint s\n")?,
        alloc,
    );
    let mut sink = BytesSink::new(alloc, None);
    let settings = Settings::new(alloc);
    let finished = debug_from(
        alloc,
        &settings,
        b"{ s += $1 }",
        source,
        &mut commands,
        &mut sink,
        STEPS,
        None,
    );
    let Finished { report, source } = finished;
    drop(settings);
    drop(commands);
    let handed = source.handed();
    drop(source);
    let text = told(alloc, sink.bytes(), report.status, handed);
    drop(sink);
    text
}

/// What was written, how it ended, and how many bytes the source handed out.
fn told(alloc: Global, written: &[u8], status: u8, handed: u128) -> Result<Vec<u8>, AllocError> {
    let end = format!(in alloc; "status {status}, {handed} bytes handed out")?;
    let mut text = Vec::from_slice(alloc, written)?;
    text.extend_from_slice(end.as_bytes())?;
    Ok(text)
}
