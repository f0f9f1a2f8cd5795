//! The reading of a record, and of its text.
#![tactic(auto, using(rawk_store::specs::Growth::grows))]

pub mod reading;
