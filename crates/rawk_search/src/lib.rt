//! What extended regular expressions find: the definitions as functions, and the calls that answer them.
#![tactic(auto)]

pub mod cached;
pub mod laws;
pub mod pattern;
pub mod reading;
pub mod replace;
pub mod search;
pub mod span;

pub use cached::CachedExpression;
pub use pattern::Pattern;
pub use reading::expression;
pub use replace::next_cut;
pub use search::{next_match, next_match_on, next_nonempty, next_nonempty_on, next_open, skip_to};
pub use span::Span;
