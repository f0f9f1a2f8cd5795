//! Cases of what is asked for: lines of a session and words of a command line. The first word of a case says of which; the modules say what the others are.
#![tactic(auto)]

mod lines;
mod words;

use std::alloc::{AllocError, Global};

/// What a case is of.
#[derive(Clone, Copy)]
enum Asked {
    Command,
    Words,
    Help,
    Shows,
}

/// The first words of cases.
const ASKED: [(&str, Asked); 4] = [
    ("command", Asked::Command),
    ("words", Asked::Words),
    ("help", Asked::Help),
    ("shows", Asked::Shows),
];

/// What a word says that a case is of.
fn asked_of(word: &[u8]) -> Option<Asked> {
    for (name, asked) in &ASKED {
        if name.as_bytes() == word {
            return Some(*asked);
        }
    }
    None
}

/// What a case answers. It fails where memory is refused.
pub fn outcome(alloc: Global, parts: &[&[u8]]) -> Result<Vec<u8>, AllocError> {
    let Some((word, parts)) = parts.split_first() else {
        return not_a_case(alloc);
    };
    match asked_of(word) {
        Some(Asked::Command) => lines::command_of(alloc, parts),
        Some(Asked::Words) => words::words_of(alloc, parts),
        Some(Asked::Help) => words::help_of(alloc, parts),
        Some(Asked::Shows) => lines::shown(alloc, parts),
        None => not_a_case(alloc),
    }
}

/// The answer to what is no case.
fn not_a_case(alloc: Global) -> Result<Vec<u8>, AllocError> {
    Vec::from_slice(alloc, b"not a case")
}
