//! The grammar of programs, from tokens to a tree; expressions are `rawk_expression`'s.
#![tactic(auto)]

pub mod context;
mod dangling;
mod heads;
mod items;
pub mod laws;
mod simple;
mod statements;
pub mod tree;

pub use items::program;
