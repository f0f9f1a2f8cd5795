//! The instructions of expressions: those that leave a value, and those of a condition, up to a jump that is left open.
#![tactic(auto)]

pub mod expressions;
