//! Records: `records`, the record separator, the input, and how the source behaves.
//!
//! `pieces N`: a read gives at most N bytes. `fails N`: the source fails behind N bytes. `records N`: no more records
//! than that are asked for. The answer is the records in brackets, what came behind them (`end`, or a fault), and how many bytes
//! the source handed out.

ghost use Rattle.std.specs.Prelude.{◌≡◌, None};

use rawk_devices::{BytesSource, Source};
use rawk_tape::Tape;
use rawk_value::Fault;
use rows_cases::setting_of;
use std::alloc::{AllocError, Global};

/// How a source behaves, and what is asked of it.
#[derive(Clone, Copy)]
struct Plan {
    piece: Option<usize>,
    fails_at: Option<usize>,
    records: Option<usize>,
}

impl Plan {
    /// The plan with what a part says of it.
    fn with(self, part: &[u8]) -> Plan {
        let (word, count) = setting_of(part);
        match word {
            b"pieces" => Plan {
                piece: count,
                ..self
            },
            b"fails" => Plan {
                fails_at: count,
                ..self
            },
            b"records" => Plan {
                records: count,
                ..self
            },
            _ => self,
        }
    }
}

/// The plan that marks make.
fn plan_of(marks: &[&[u8]]) -> Plan {
    let mut plan = Plan {
        piece: None,
        fails_at: None,
        records: None,
    };
    for mark in marks {
        plan = plan.with(mark);
    }
    plan
}

/// What a case of records answers.
pub fn answered(alloc: Global, parts: &[&[u8]]) -> Result<Vec<u8>, AllocError> {
    let [separator, input, marks @ ..] = parts else {
        return crate::not_a_case(alloc);
    };
    let plan = plan_of(marks);
    let cuts = cuts_of(alloc, input.len(), plan.piece)?;
    let input = Vec::from_slice(alloc, input)?;
    let mut source = BytesSource::new(input, cuts, plan.fails_at);
    let mut out = Vec::new(alloc);
    let pushed = push_records(alloc, &mut out, &mut source, separator, plan.records);
    let handed = source.handed();
    drop(source);
    pushed?;
    let end = format!(in alloc; ", {handed} read")?;
    out.extend_from_slice(end.as_bytes())?;
    Ok(out)
}

/// The cuts of an input in pieces of one size.
fn cuts_of(alloc: Global, len: usize, piece: Option<usize>) -> Result<Vec<usize>, AllocError> {
    let mut cuts = Vec::new(alloc);
    if let Some(piece) = piece {
        for _ in 0..len {
            cuts.push(piece)?;
        }
    }
    Ok(cuts)
}

/// Adds the records of an input, and what comes behind them.
fn push_records<R: Source + Drop>(
    alloc: Global,
    out: &mut Vec<u8>,
    source: R,
    separator: &[u8],
    most: Option<usize>,
) -> Result<(), AllocError>
    requires { R.over source ≡ None }
{
    let mut tape = Tape::new(alloc, source);
    let pushed = push_all(out, &mut tape, separator, most.unwrap_or(usize::MAX));
    drop(tape);
    pushed
}

/// The same from a tape.
fn push_all<R: Source + Drop>(
    out: &mut Vec<u8>,
    tape: &mut Tape<R>,
    separator: &[u8],
    most: usize,
) -> Result<(), AllocError> {
    for _ in 0..most {
        match tape.next(separator) {
            Ok(Some(found)) => {
                push_record(out, tape.text(&found))?;
                let _ = tape.consume(found.count);
                let _ = tape.forget();
            }
            Ok(None) => return push_word(out, "end"),
            Err(Fault::OutOfMemory) => return Err(AllocError),
            Err(fault) => return push_word(out, fault.text()),
        }
    }
    Ok(())
}

/// Adds a record in brackets.
fn push_record(out: &mut Vec<u8>, record: &[u8]) -> Result<(), AllocError> {
    out.push(b'[')?;
    out.extend_from_slice(record)?;
    out.push(b']')?;
    Ok(())
}

/// Adds what came behind the records.
fn push_word(out: &mut Vec<u8>, word: &str) -> Result<(), AllocError> {
    if !out.is_empty() {
        out.push(b' ')?;
    }
    out.extend_from_slice(word.as_bytes())
}
