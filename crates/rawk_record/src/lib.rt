//! A record and its fields.
#![tactic(auto)]

mod build;
pub mod change;
pub mod held;
pub mod parts;
pub mod record;
pub mod short;
pub mod uncut;

pub use change::RecordChange;
pub use parts::FieldRef;
pub use record::Record;
