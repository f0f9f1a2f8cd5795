//! Kinds of tokens, the words that are no names, the built-in functions, and what can be a name.
#![tactic(auto)]

pub mod builtin;
pub mod class;
mod name;
pub mod token;
pub mod words;

pub use builtin::{Builtin, builtin_named, takes};
pub use class::{Class, is_in};
pub use name::{begins_name, has_name_form, is_in_name, is_reserved};
pub use token::Kind;
pub use words::keyword;
