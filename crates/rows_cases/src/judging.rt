//! What is answered, beside what is wanted.

use crate::case::Case;
use crate::escape::shown;
use std::alloc::{AllocError, Global};
use std::io;

/// Asks for the answer to each case. It writes where an answer differs from what is wanted, and at the end how many cases there
/// were, and how many of them were answered wrongly.
pub fn judge<R, F>(rt: &R, cases: &[Case], answer: F) -> io::Result<()>
where
    R: Print + AllocGlobal,
    F: Fn(Global, &[&[u8]]) -> Result<Vec<u8>, AllocError>,
    requires { F.IsAlwaysCallable answer }
{
    let alloc = rt.alloc();
    let mut wrong = 0usize;
    for case in cases {
        let parts = parts_of(alloc, case)?;
        let came = answer(alloc, parts.as_slice())?;
        if came.as_slice() != case.wanted.as_slice() {
            wrong = wrong.saturating_add(1);
            tell(rt, case, &came)?;
        }
    }
    let count = cases.len();
    println!(rt; "{count} cases, {wrong} wrong")
}

/// The parts of a case.
fn parts_of<'a>(alloc: Global, case: &'a Case) -> Result<Vec<&'a [u8]>, AllocError> {
    case.parts.iter().map(|part| part.as_slice()).collect(alloc)
}

/// Writes where an answer differs from what is wanted.
fn tell<R: Print + AllocGlobal>(rt: &R, case: &Case, came: &[u8]) -> io::Result<()> {
    rt.println(difference(rt.alloc(), case, came)?)
}

/// Where an answer differs first from what is wanted, what was wanted there, and what came.
fn difference(alloc: Global, case: &Case, came: &[u8]) -> Result<String, AllocError> {
    let mut number = case.line;
    let mut at = case.answers_at.iter();
    let mut wanted_lines = case.wanted.as_slice().split(|b| *b == b'\n');
    for line in came.split(|b| *b == b'\n') {
        number = at.next().copied().unwrap_or(number);
        let wanted = wanted_lines.next();
        if wanted != Some(line) {
            return told(alloc, number, wanted, Some(line));
        }
    }
    number = at.next().copied().unwrap_or(number);
    told(alloc, number, wanted_lines.next(), None)
}

/// What was wanted at a line, and what came.
fn told(
    alloc: Global,
    number: usize,
    wanted: Option<&[u8]>,
    came: Option<&[u8]>,
) -> Result<String, AllocError> {
    let wanted = line_text(alloc, wanted)?;
    let came = line_text(alloc, came)?;
    format!(in alloc; "line {number}:\n  wanted {wanted}\n  came   {came}")
}

/// A line of an answer as it is shown.
fn line_text(alloc: Global, line: Option<&[u8]>) -> Result<String, AllocError> {
    match line {
        Some(line) => shown(alloc, line),
        None => "no further line".to_string(alloc),
    }
}
