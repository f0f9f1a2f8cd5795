//! What `sub` and `gsub` make of texts.
#![tactic(auto)]

pub mod replacing;

pub use rawk_words::Extent;
pub use replacing::replace;
