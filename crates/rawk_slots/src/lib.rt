//! Slots and stacks that go back to how they stood when a step began.
#![tactic(auto)]

pub mod laws;
pub mod reversible;
pub mod saved;
pub mod slot_group;
pub mod slots;
pub mod stack;
pub mod stack_groups;

pub use laws::there_and_back;
pub use reversible::Reversible;
pub use saved::Saved;
pub use slot_group::{SlotGroup, led_to, saved_at};
pub use slots::Slots;
pub use stack::{Stack, StackChange, StackGroup};
pub use stack_groups::{Begins, StackGroups};
