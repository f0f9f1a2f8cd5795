//! What the names of a program are: functions, parameters and globals, and which of the last two are arrays.
#![tactic(auto)]

mod arrays;
mod expressions;
mod items;
pub mod laws;
pub mod names;
mod register;
mod statements;
mod table;
pub mod usage;

pub use names::{Meaning, NameError, Names, Variable, note, resolve};
pub use register::Register;
pub use usage::Signature;
