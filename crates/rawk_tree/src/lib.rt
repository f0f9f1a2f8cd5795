//! The tree of a program, with names as numbers and a site where a point is reached.
#![tactic(auto)]

mod kinds;
mod lines;
pub mod tree;

pub use rawk_words::{Array, Extent, Logic, Sign};
pub use tree::{
    Branch, Expr, Function, Guard, Joiner, Kind, Link, Place, Program, Rule, Scalar, Separation,
    Stmt, Unary,
};
