//! What the parsers of AWK share: trees of expressions, the tables of operators, steps over tokens, and refusals.
#![tactic(auto)]

pub mod parse_error;
pub mod refusal;
pub mod tables;
pub mod tokens;
pub mod tree;

pub use parse_error::ParseError;
pub use refusal::{Refusal, RefusalKind};
