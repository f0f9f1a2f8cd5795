//! The expressions that texts are, kept for their next use.
#![tactic(auto)]

mod expressions;

pub use expressions::Expressions;
