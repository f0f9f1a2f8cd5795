//! Counts the records of the standard input and their fields by a field separator. It takes the way of a run: the next record of a tape, the present
//! record by the separator, consumed bytes forgotten. With a word behind the separator, runs of newlines end records.

use anyhow::Result;
use rawk_devices::{Source, StdSource};
use rawk_store::Current;
use rawk_tape::Tape;
use rawk_value::Fault;
use std::alloc::Global;
use std::io::Input;

/// Prints the counts.
pub fn counted<R: Input + Print + AllocGlobal>(
    rt: &R,
    fs: &str,
    is_paragraphs: bool,
) -> Result<()> {
    let alloc = rt.alloc();
    let rs: &[u8] = if is_paragraphs { b"" } else { b"\n" };
    let mut tape = Tape::new(alloc, StdSource::new(rt.reader()));
    let counted = count(alloc, &mut tape, fs.as_bytes(), rs);
    drop(tape);
    match counted {
        Ok((records, fields)) => {
            rt.println(format!(in alloc; "{records} records, {fields} fields")?)?;
        }
        Err(fault) => {
            let number = fault.number();
            rt.println(format!(in alloc; "F{number}")?)?;
        }
    }
    Ok(())
}

/// How many records there are, and how many fields they have together.
fn count<R: Source + Drop>(
    alloc: Global,
    tape: &mut Tape<R>,
    fs: &[u8],
    rs: &[u8],
) -> Result<(u64, u64), Fault> {
    let mut current = Current::new(alloc);
    let counted = count_by(alloc, tape, &mut current, fs, rs);
    drop(current);
    counted
}

/// The same, with the present record in a place of its own.
fn count_by<R: Source + Drop>(
    alloc: Global,
    tape: &mut Tape<R>,
    current: &mut Current,
    fs: &[u8],
    rs: &[u8],
) -> Result<(u64, u64), Fault> {
    let mut records = 0u64;
    let mut fields = 0u64;
    for _ in 0..u64::MAX {
        match tape.next(rs)? {
            Some(found) => {
                current.read::<true>(alloc, tape.text(&found), fs, rs.len() == 0)?;
                current.forget();
                tape.consume(found.count);
                tape.forget();
                records = records.saturating_add(1);
                fields = fields.saturating_add(current.field_count() as u64);
            }
            None => break,
        }
    }
    Ok((records, fields))
}
