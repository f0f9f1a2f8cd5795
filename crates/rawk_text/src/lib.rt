//! Texts of 16 bytes that are copied without memory: short ones in place, long ones shared.
#![tactic(auto)]

mod text;

pub use text::Text;
