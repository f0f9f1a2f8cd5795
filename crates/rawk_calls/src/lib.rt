//! What calls do with arguments and activations.
#![tactic(auto, using(rawk_store::specs::Growth::grows))]

pub mod activations;
mod arguments;
pub mod light;
