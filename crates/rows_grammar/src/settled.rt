//! Texts that are read as programs of the language so far.
//!
//! `syntax`, a text: `read`, or the number of its refusal and the line. `sites`, a text: the line of each site, and how many names there
//! are. `site`, a line and a text: the first site on the line, from 0. `entry`, a name and a text: the site of the entry of the function.

use crate::reading::numbered_refusal;
use rawk_syntax::{Program, Refusal, RefusalKind, parse};
use rows_cases::number_of;
use std::alloc::{AllocError, Global};

/// Whether a text is read.
pub fn is_read(alloc: Global, text: &[u8]) -> Result<Vec<u8>, AllocError> {
    match parse(alloc, text) {
        Ok(_) => Vec::from_slice(alloc, b"read"),
        Err(refusal) => refused(alloc, refusal),
    }
}

/// The sites of a text.
pub fn sites(alloc: Global, text: &[u8]) -> Result<Vec<u8>, AllocError> {
    match parse(alloc, text) {
        Ok(program) => lines(alloc, &program),
        Err(refusal) => refused(alloc, refusal),
    }
}

/// The site in a text on a line or at a function's entry, as the word says.
pub fn site(alloc: Global, word: &[u8], place: &[u8], text: &[u8]) -> Result<Vec<u8>, AllocError> {
    match parse(alloc, text) {
        Ok(program) => numbered(alloc, site_at(&program, word, place)),
        Err(refusal) => refused(alloc, refusal),
    }
}

/// The number of a refusal, and its line.
fn refused(alloc: Global, refusal: Refusal) -> Result<Vec<u8>, AllocError> {
    if refusal.kind == RefusalKind::OutOfMemory {
        return Err(AllocError);
    }
    numbered_refusal(alloc, refusal.kind.number(), refusal.line)
}

/// The line of each site, and how many names there are.
fn lines(alloc: Global, program: &Program) -> Result<Vec<u8>, AllocError> {
    let mut text = String::new(alloc);
    for line in &program.lines {
        text.push_str(format!(in alloc; "{line} ")?.as_str())?;
    }
    let names = program.names.len();
    text.push_str(format!(in alloc; "and {names} names")?.as_str())?;
    Ok(text.into_bytes())
}

/// The site on a line, or that of a function's entry.
fn site_at(program: &Program, word: &[u8], place: &[u8]) -> Option<usize> {
    if word == b"entry".as_slice() {
        return program.entry_of(place);
    }
    program.site_on_line(number_of(place).unwrap_or(0) as u64)
}

/// The number of a site, if there is one.
fn numbered(alloc: Global, site: Option<usize>) -> Result<Vec<u8>, AllocError> {
    match site {
        Some(site) => Ok(format!(in alloc; "{site}")?.into_bytes()),
        None => Vec::from_slice(alloc, b"none"),
    }
}
