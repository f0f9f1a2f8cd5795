//! `fields`, a field separator, `line` or `paragraph`, and a text: how many fields there are, and each in brackets. `split`, an
//! extended regular expression and a text: the parts between its matches.

use crate::not_a_case;
use rawk_search::expression;
use rawk_store::{Fields, fields_of, pieces_between};
use rawk_value::Fault;
use std::alloc::{AllocError, Global};

/// The fields of a text.
pub fn cut(alloc: Global, parts: &[&[u8]]) -> Result<Vec<u8>, AllocError> {
    let [fs, mode, text] = parts else {
        return not_a_case(alloc);
    };
    match fields_of(
        alloc,
        Vec::new(alloc),
        text,
        fs,
        *mode == b"paragraph".as_slice(),
    ) {
        Ok(fields) => shown(alloc, text, fields),
        Err(fault) => fault_text(alloc, fault),
    }
}

/// The parts of a text between the matches of an expression.
pub fn split(alloc: Global, parts: &[&[u8]]) -> Result<Vec<u8>, AllocError> {
    let [pattern, text] = parts else {
        return not_a_case(alloc);
    };
    let Some(ere) = expression(alloc, pattern)? else {
        return Vec::from_slice(alloc, b"refused");
    };
    let fields = pieces_between(alloc, Vec::new(alloc), text, &ere);
    drop(ere);
    shown(alloc, text, fields?)
}

/// How many fields there are, and each of them.
fn shown(alloc: Global, text: &[u8], fields: Fields) -> Result<Vec<u8>, AllocError> {
    let text = fields_text(alloc, text, &fields);
    drop(fields);
    text
}

/// The same of fields that stay.
fn fields_text(alloc: Global, text: &[u8], fields: &Fields) -> Result<Vec<u8>, AllocError> {
    let count = fields.pieces.len();
    let mut out = format!(in alloc; "{count}")?.into_bytes();
    for piece in &fields.pieces {
        out.extend_from_slice(b" [")?;
        out.extend_from_slice(text.get(piece.start..piece.end).unwrap_or(b"?"))?;
        out.push(b']')?;
    }
    Ok(out)
}

/// The text of a fault.
pub fn fault_text(alloc: Global, fault: Fault) -> Result<Vec<u8>, AllocError> {
    if fault == Fault::OutOfMemory {
        return Err(AllocError);
    }
    Vec::from_slice(alloc, fault.text().as_bytes())
}
