//! What an instruction does to the parts of the state, and where it leads.
#![tactic(auto, using(rawk_store::specs::Growth::grows))]

pub mod act;
mod found;
