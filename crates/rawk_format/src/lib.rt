//! printf over whole numbers.
#![tactic(auto)]

mod figure;
mod layout;
mod printf;
mod specification;

pub use printf::{format, push_format};
