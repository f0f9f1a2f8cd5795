//! Operations on texts: texts that are added to, matches replaced, parts that fill an array, lines of output.
#![tactic(auto, using(rawk_store::specs::Growth::grows))]

pub mod append;
pub mod made;
pub mod print;
pub mod replace;
pub mod split;
pub mod taken;
