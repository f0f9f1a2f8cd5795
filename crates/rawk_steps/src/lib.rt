//! One step over the parts of a state: from a point to the next, kept by what leads back, and back again.
#![tactic(auto, using(rawk_store::specs::Growth::grows))]

pub mod arrival;
pub mod back;
pub mod journal;
pub mod start;
pub mod stride;
