//! The names of programs: which are arrays, and which texts are refused for a regular expression or misuse a name.
//!
//! `names`, a text: `ok` and the names of its arrays, those of parameters with a dot before them; or the number of the refusal and its
//! line.

use crate::reading::{read_text, refused};
use rawk_names::{Names, Variable};
use rawk_parsing::ParseError;
use rawk_syntax::names_of;
use std::alloc::{AllocError, Global};

/// The names of a text's arrays, or why it is refused.
pub fn answered(alloc: Global, text: &[u8]) -> Result<Vec<u8>, AllocError> {
    match read_text(alloc, text) {
        Ok(items) => named(alloc, text, &names_of(alloc, items.as_slice())),
        Err(ParseError::OutOfMemory) => Err(AllocError),
        Err(ParseError::Here(kind, left)) => refused(alloc, text, kind.number(), left),
    }
}

fn named(
    alloc: Global,
    text: &[u8],
    answer: &Result<Names, ParseError>,
) -> Result<Vec<u8>, AllocError> {
    match answer {
        Ok(names) => arrays(alloc, names),
        Err(ParseError::OutOfMemory) => Err(AllocError),
        Err(ParseError::Here(kind, left)) => refused(alloc, text, kind.number(), *left),
    }
}

/// The names of the arrays.
fn arrays(alloc: Global, names: &Names) -> Result<Vec<u8>, AllocError> {
    let mut out = Vec::from_slice(alloc, b"ok")?;
    for variable in 0..names.variable_count() {
        if names.is_array(variable) {
            match names.variable(variable) {
                Variable::Parameter(_) => out.extend_from_slice(b" .")?,
                _ => out.extend_from_slice(b" ")?,
            }
            out.extend_from_slice(names.variable_name(variable))?;
        }
    }
    Ok(out)
}
