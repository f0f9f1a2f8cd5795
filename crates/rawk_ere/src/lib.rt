//! Extended regular expressions over bytes: their trees, and the leftmost longest match.
#![tactic(auto)]

pub mod expression;
pub mod finder;
pub mod tables;

pub use expression::Ere;
pub use finder::Finder;
