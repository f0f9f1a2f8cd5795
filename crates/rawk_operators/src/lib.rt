//! What operators and functions make of values, which lie where they stand.
#![tactic(auto)]

mod borrowed;
mod formats;
mod made;
mod ordered;
mod parts;
pub mod searches;
mod separations;

pub use borrowed::{Borrowed, copy, join, number, text_borrowed, truth};
pub use formats::format;
pub use made::{flag, make, make_unary};
pub use ordered::{compare, compare_numbers};
pub use parts::{make_substr, part_in, place};
pub use searches::{Match, find, matches, replace};
pub use separations::separate;
