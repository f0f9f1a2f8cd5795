//! The program of a text: the parser's tree with its names as numbers, and its sites.
#![tactic(auto)]

mod deletion;
mod items;
pub mod laws;
mod lines;
mod names;
mod parsing;
mod patterns;
mod statements;

pub use names::names_of;
pub use parsing::parse;
pub use rawk_lexer::unescaped;
pub use rawk_parsing::{Refusal, RefusalKind};
pub use rawk_tree::{
    Array, Branch, Expr, Function, Guard, Joiner, Kind, Link, Logic, Place, Program, Rule, Scalar,
    Separation, Sign, Stmt, Unary,
};
