//! Arrays whose elements can be put back as they stood when the step began.
#![tactic(auto)]

pub mod arrays;
mod cells;
mod counts;
mod heads;

pub use arrays::{Arrays, ArraysChange, ArraysGroup};
pub use rawk_keys::Run;
