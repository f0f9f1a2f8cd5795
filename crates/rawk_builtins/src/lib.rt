//! AWK's functions on texts: `length`, `index`, `substr`, `tolower` and `toupper`. `int` is `rawk_value::int_of`.
#![tactic(auto)]

pub mod letters;
pub mod part;
pub mod place;

pub use letters::{tolower, toupper};
pub use part::{substr, substr_range};
pub use place::{index, length};
