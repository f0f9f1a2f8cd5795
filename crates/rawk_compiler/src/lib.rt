//! From programs to instructions that do what they mean; and the laws of that meaning.
#![tactic(auto)]

pub mod compiler;
mod emit_statements;
mod key_loops;
pub mod laws;
mod loops;

pub use compiler::compile;
