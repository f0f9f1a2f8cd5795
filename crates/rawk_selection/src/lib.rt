//! Instruction selection: which operands expressions are, and which conditions are jumps; and instructions, one behind another.
#![tactic(auto)]

pub mod in_place;
pub mod instructions;
pub mod logic;
pub mod operands;
