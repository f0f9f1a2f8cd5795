//! Counts the lines of the standard input in which an extended regular expression is found. With a word behind it, counts the
//! matches that cut the input, as a text that may go on, and shows where the next one may begin.

use anyhow::{Result, anyhow};
use memchr::memchr_iter;
use rawk_ere::Ere;
use rawk_ere_pattern::EreError;
use std::alloc::{AllocError, Global};
use std::io::{BufRead, BufReader, Input, Read};

/// How many bytes are read at once.
const PIECE: usize = 65536;

/// Prints the count.
pub fn counted<R: Input + Print + AllocGlobal>(rt: &R, pattern: &str, is_open: bool) -> Result<()> {
    let alloc = rt.alloc();
    let ere = expression(alloc, pattern)?;
    let counted = count(rt, &ere, is_open);
    drop(ere);
    counted
}

/// Prints the count of an expression.
fn count<R: Input + Print + AllocGlobal>(rt: &R, ere: &Ere, is_open: bool) -> Result<()> {
    let alloc = rt.alloc();
    let mut reader = BufReader::with_capacity(alloc, PIECE, rt.reader())?;
    if is_open {
        let mut text = Vec::new(alloc);
        let _read = reader.read_to_end(&mut text)?;
        let (count, next) = count_open(alloc, ere, &text)?;
        rt.println(format!(in alloc; "{count} {next}")?)?;
        return Ok(());
    }
    let count = count_lines(alloc, ere, &mut reader)?;
    rt.println(format!(in alloc; "{count}")?)?;
    Ok(())
}

/// The expression that a pattern is.
fn expression(alloc: Global, pattern: &str) -> Result<Ere> {
    match Ere::parse(alloc, pattern.as_bytes()) {
        Ok(ere) => Ok(ere),
        Err(EreError::Syntax) => Err(anyhow!("no extended regular expression")),
        Err(EreError::TooLarge) => Err(anyhow!("too large")),
        Err(EreError::Memory) => Err(anyhow!("no memory")),
    }
}

/// How many nonempty matches follow one another in a text that may go on, and the place where the next one may begin.
fn count_open(alloc: Global, ere: &Ere, text: &[u8]) -> Result<(u64, usize), AllocError> {
    let mut count = 0u64;
    let mut from = 0;
    for _ in 0..u64::MAX {
        if from > text.len() {
            break;
        }
        match ere.find_open(alloc, text, from)? {
            None => return Ok((count, ere.open_from(alloc, text, from)?)),
            Some((_begin, end)) => {
                count = count.saturating_add(1);
                from = end;
            }
        }
    }
    Ok((count, from))
}

/// How many lines the expression is found in.
fn count_lines<R: BufRead>(alloc: Global, ere: &Ere, reader: &mut R) -> Result<u64> {
    let mut count = 0u64;
    let mut kept = Vec::new(alloc);
    for _ in 0..u64::MAX {
        let piece = reader.fill_buf()?;
        let length = piece.len();
        if length == 0 {
            break;
        }
        count = count.saturating_add(count_in(alloc, ere, piece, &mut kept)?);
        reader.consume(length);
    }
    if kept.len() > 0 && ere.find(alloc, &kept, 0)?.is_some() {
        count = count.saturating_add(1);
    }
    Ok(count)
}

/// The same of the lines that end in the piece. What is kept is the part of a line that stood before it, and then the part
/// that is left.
fn count_in(alloc: Global, ere: &Ere, piece: &[u8], kept: &mut Vec<u8>) -> Result<u64, AllocError> {
    let mut count = 0u64;
    let mut from = 0;
    for at in memchr_iter(b'\n', piece) {
        if from <= at && at <= piece.len() {
            let is_found = is_found(alloc, ere, &piece[from..at], kept)?;
            count = count.saturating_add(u64::from(is_found));
            from = at + 1;
        }
    }
    if from <= piece.len() {
        kept.extend_from_slice(&piece[from..])?;
    }
    Ok(count)
}

/// Whether the expression is found in the line that ends with this part.
fn is_found(alloc: Global, ere: &Ere, part: &[u8], kept: &mut Vec<u8>) -> Result<bool, AllocError> {
    if kept.len() == 0 {
        return Ok(ere.find(alloc, part, 0)?.is_some());
    }
    kept.extend_from_slice(part)?;
    let found = ere.find(alloc, kept, 0)?;
    kept.clear();
    Ok(found.is_some())
}
