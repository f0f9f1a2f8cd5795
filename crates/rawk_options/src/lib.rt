//! What the words of a command line ask for.
#![tactic(auto)]

mod assignments;
mod help;
pub mod invocation;
pub mod options;
mod words;

pub use invocation::{Invocation, S, Text};
pub use options::settings_of;
