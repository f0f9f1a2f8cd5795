//! What operations do to the parts of the state.
#![tactic(auto, using(rawk_store::specs::Growth::grows))]

pub mod assign;
pub mod elements;
pub mod in_place;
pub mod key_loops;
pub mod push;
pub mod transfer;
