//! The globals of a program, which go back to how they stood when a step began.
#![tactic(auto)]

pub mod cells;

pub use cells::{Appended, Cells};
