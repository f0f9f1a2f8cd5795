//! Operands of instructions, read where they stand: what has its value at once, formulas, the stack, variables.
#![tactic(auto, using(rawk_store::specs::Growth::grows))]

pub mod borrowed;
pub mod conditions;
pub mod formulas;
pub mod numbers;
pub mod stack;
pub mod variables;
