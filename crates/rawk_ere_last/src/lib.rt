//! Expressions of which each match ends at the end of the text and has the same length, and where that match is.
#![tactic(auto)]

pub mod find;
pub mod shape;
