//! The parts of a state, their changes and the way back.
#![tactic(auto)]

mod assign;
pub mod group;
pub mod lent;
pub mod numbering;
pub mod rare_changes;
pub mod registers;
mod split;
pub mod store;
pub mod target;

pub use assign::{array_number, assign_record_text};
pub use group::Group;
pub use lent::{ValueRef, global_after, global_before};
pub use numbering::field_number;
pub use rare_changes::{FewGroup, RareChanges, RareGroup};
pub use rawk_arrays::{Arrays, ArraysGroup};
pub use rawk_cells::Cells;
pub use rawk_current::Current;
pub use rawk_frames::{
    Activation, Frames, FramesGroup, HasStacks, KeptStacks, KeysLeft, KeysLeftGroup, Local, Ranges,
    RangesGroup,
};
pub use rawk_output::Output;
pub use rawk_pieces::{Fields, Piece, Separator, fields_of, pieces_between};
pub use rawk_record::{FieldRef, Record, RecordChange};
pub use rawk_slots::{Reversible, Saved, SlotGroup, Slots, Stack, StackGroup, led_to, saved_at};
pub use registers::{Bank, Ending, Phase, Registers};
pub use split::fill_elements;
pub use store::{Operands, Store};
pub use target::Target;
