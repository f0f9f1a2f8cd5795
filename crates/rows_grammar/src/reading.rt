//! Reads texts by the grammar.

use crate::programs::put_program;
use rawk_grammar::program;
use rawk_grammar::tree::Item;
use rawk_items::Items;
use rawk_lexer::{Cursor, line_of};
use rawk_limits::OPEN_CONSTRUCTS;
use rawk_parsing::ParseError;
use std::alloc::{AllocError, Global};
use std::io;

/// A text's items, or its refusal.
pub fn read_text(alloc: Global, text: &[u8]) -> Result<Items<Item>, ParseError> {
    let mut tokens = Cursor::new(text);
    program(alloc, &mut tokens, OPEN_CONSTRUCTS + 1)
}

/// The tree of a text, or why it is refused.
pub fn answered(alloc: Global, text: &[u8]) -> Result<Vec<u8>, AllocError> {
    match read_text(alloc, text) {
        Ok(items) => tree(alloc, items.as_slice()),
        Err(ParseError::OutOfMemory) => Err(AllocError),
        Err(ParseError::Here(kind, left)) => refused(alloc, text, kind.number(), left),
    }
}

/// The tree of a program's items.
fn tree(alloc: Global, items: &[Item]) -> Result<Vec<u8>, AllocError> {
    let mut out = Vec::new(alloc);
    put_program(&mut out, items)?;
    Ok(out)
}

/// The number of a refusal, and the line of what is left of a text.
pub fn refused(alloc: Global, text: &[u8], number: u8, left: usize) -> Result<Vec<u8>, AllocError> {
    numbered_refusal(alloc, number, line_of(text, left))
}

/// The number of a refusal, and its line.
pub fn numbered_refusal(alloc: Global, number: u8, line: u64) -> Result<Vec<u8>, AllocError> {
    Ok(format!(in alloc; "P{number} at line {line}")?.into_bytes())
}

/// Reads the standard input as one text, and writes how many items it has, or why it is refused.
pub fn read_once<R: Input + Print + AllocGlobal>(rt: &R) -> io::Result<()> {
    let alloc = rt.alloc();
    let text = io::read_to_string(alloc, rt.reader())?;
    match read_text(alloc, text.as_bytes()) {
        Ok(items) => {
            let count = items.len();
            println!(rt; "{count} items")
        }
        Err(error) => println!(rt; "{error:?}"),
    }
}
