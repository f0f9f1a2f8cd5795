//! Owned children of a tree, which contracts see as what they hold: a tree of them is plain data, with no pointer in it.
#![tactic(auto)]

mod boxed;
mod items;

pub use boxed::Boxed;
pub use items::Items;
