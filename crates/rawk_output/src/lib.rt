//! The output of a state, and the way back.
#![tactic(auto)]

pub mod output;

pub use output::Output;
