//! The records and the lines of an input.
#![tactic(auto)]

mod at_end;
mod buffer;
mod consumption;
mod found;
mod lines;
mod matches;
mod room;
mod search;
mod tape;

pub use consumption::Consumption;
pub use found::Found;
pub use lines::{Line, Lines, NoLine};
pub use tape::Tape;
