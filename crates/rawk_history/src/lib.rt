//! Keepers of the steps that lead back: of none, of each, or of the last ones.
#![tactic(auto)]

mod full;
mod keeper;
mod ring;
mod saving;

pub use full::Full;
pub use keeper::{Keeper, Off, StepRef};
pub use ring::Ring;
pub use saving::saved_in_groups;
