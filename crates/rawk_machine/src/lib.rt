//! A machine that runs the code of a program from point to point.
#![tactic(auto, using(rawk_store::specs::Growth::grows))]

mod earlier;
mod getters;
mod last_move;
mod machine;
mod runner;
mod step;

pub use machine::Machine;
pub use rawk_history::{Full, Keeper, Off};
pub use runner::Runner;
pub use step::Step;
