//! What the lines of a debugger's session ask for, and how values and places are shown.
#![tactic(auto)]

mod asked;
pub mod command;
mod front;
pub mod laws;
mod reading;
mod refusal;
pub mod text;
mod verb;

pub use command::{C, Command, Constant, Goal, Place, Spot, Way};
pub use text::{
    push_element, push_held, push_number, push_place, push_shown, push_text, push_value,
};
