//! Walks through the codes of extended regular expressions over bytes, by sets of states.
#![tactic(auto)]

pub mod walk;
