//! Where a match may begin, found from the bytes of a text, many places at once.
#![tactic(auto)]

pub mod block;
pub mod filter;
mod lanes;
pub mod nibbles;
pub mod seek;
