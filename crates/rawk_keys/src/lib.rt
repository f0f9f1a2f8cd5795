//! Keys of arrays, each found by its bytes.
#![tactic(auto)]

pub mod chains;
mod hash;
pub mod keys;
mod notes;
mod series;

pub use chains::Chains;
pub use keys::Keys;
pub use series::Run;
