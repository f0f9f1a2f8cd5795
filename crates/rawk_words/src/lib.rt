//! Words of the language that stand in more than one tree.
#![tactic(auto)]

pub mod array;
pub mod operator;

pub use array::Array;
pub use operator::{Extent, Logic, Sign};
