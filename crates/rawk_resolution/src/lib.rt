//! Expressions, from the parser's tree to that of programs: each name is the number of what it stands for.
#![tactic(auto)]

mod arrays;
mod calls;
mod expressions;
pub mod growth;
mod kinds;
mod nodes;
pub mod scope;

pub use expressions::{settle_expr, settle_formatted, settle_list, settle_printed};
pub use kinds::{global_kinds, parameter_kinds};
pub use scope::{Scope, the_array, the_scalar};
