//! Places that are assigned, found once, and what operators make of operands of any kind.
#![tactic(auto, using(rawk_store::specs::Growth::grows))]

pub mod formats;
pub mod operands;
pub mod place;
pub mod spot;
