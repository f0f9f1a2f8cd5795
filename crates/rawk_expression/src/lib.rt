//! Expressions of AWK, from tokens to a tree.
#![tactic(auto)]

mod grammar;
mod junctions;
pub mod laws;
mod levels;
mod lists;
mod operands;
mod places;
mod primaries;

pub use grammar::{Wanted, expression};
pub use lists::{place, printed};
