//! Cases of single parts. The first word of a case says of which; the modules say what the others are.
#![tactic(auto)]

mod arrays;
mod calls;
mod expressions;
mod fields;
mod keys;
mod record;
mod records;
mod stepped;
mod store;
mod values;

use std::alloc::{AllocError, Global};

/// What a case is of.
#[derive(Clone, Copy)]
enum Part {
    Value,
    Printf,
    Expression,
    Records,
    Fields,
    Split,
    Record,
    Change,
    Calls,
    Keys,
    Arrays,
    Packed,
    Store,
}

/// The first words of cases.
const PARTS: [(&str, Part); 13] = [
    ("value", Part::Value),
    ("printf", Part::Printf),
    ("expression", Part::Expression),
    ("records", Part::Records),
    ("fields", Part::Fields),
    ("split", Part::Split),
    ("record", Part::Record),
    ("change", Part::Change),
    ("calls", Part::Calls),
    ("keys", Part::Keys),
    ("arrays", Part::Arrays),
    ("packed", Part::Packed),
    ("store", Part::Store),
];

/// The part that a word names.
fn part_of(word: &[u8]) -> Option<Part> {
    for (name, part) in &PARTS {
        if name.as_bytes() == word {
            return Some(*part);
        }
    }
    None
}

/// What a case answers. It fails where memory is refused.
pub fn outcome(alloc: Global, parts: &[&[u8]]) -> Result<Vec<u8>, AllocError> {
    let Some((word, parts)) = parts.split_first() else {
        return not_a_case(alloc);
    };
    let Some(part) = part_of(word) else {
        return not_a_case(alloc);
    };
    match part {
        Part::Value => values::answered(alloc, parts),
        Part::Printf => values::printed(alloc, parts),
        Part::Expression => expressions::answered(alloc, parts),
        Part::Records => records::answered(alloc, parts),
        Part::Fields => fields::cut(alloc, parts),
        Part::Split => fields::split(alloc, parts),
        Part::Record => record::changed(alloc, parts),
        Part::Change => record::there_and_back(alloc, parts),
        Part::Calls => calls::changed(alloc, parts),
        Part::Keys => keys::changed(alloc, parts),
        Part::Arrays => arrays::changed(alloc, parts),
        Part::Packed => arrays::packed(alloc, parts),
        Part::Store => store::changed(alloc, parts),
    }
}

/// The answer to what is no case.
fn not_a_case(alloc: Global) -> Result<Vec<u8>, AllocError> {
    Vec::from_slice(alloc, b"not a case")
}
