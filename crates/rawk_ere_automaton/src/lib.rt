//! The tables of codes of extended regular expressions over bytes, and the searches by them and by sets of states.
#![tactic(auto)]

pub mod progress;
pub mod search;
pub mod table;
