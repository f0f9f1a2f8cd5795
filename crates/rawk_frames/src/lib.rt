//! Activations of functions, keys that loops still visit, and flags of ranges, which can be put back as they stood when the step began.
#![tactic(auto)]

pub mod frames;
pub mod kept_stacks;
pub mod keys_left;
mod next_local;

pub use frames::{Activation, Frames, FramesChange, FramesGroup, Local};
pub use kept_stacks::{HasStacks, KeptStacks};
pub use keys_left::{KeysChange, KeysLeft, KeysLeftGroup, Ranges, RangesGroup};
