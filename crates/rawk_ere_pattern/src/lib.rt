//! Patterns of extended regular expressions over bytes, read to trees.
#![tactic(auto)]

pub mod bracket;
pub mod byte_kind;
pub mod byte_set;
pub mod bytes;
pub mod error;
pub mod interval;
pub mod part;
pub mod read;
pub mod scan;
pub mod token;

pub use error::EreError;
