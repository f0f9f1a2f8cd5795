//! Trees of extended regular expressions over bytes, what they match, and the instructions of their automata.
#![tactic(auto)]

pub mod byte_set;
pub mod code;
pub mod emit;
pub mod node;
pub mod proof_tree;
pub mod set;
