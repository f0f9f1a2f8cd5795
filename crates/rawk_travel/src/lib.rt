//! Instructions, one after another, up to the next point or the end.
#![tactic(auto, using(rawk_store::specs::Growth::grows))]

mod call;
pub mod count;
mod onward;
pub mod travel;
