//! The present record of a run, which can be put back as it stood when a step began.
#![tactic(auto)]

pub mod current;

pub use current::Current;
