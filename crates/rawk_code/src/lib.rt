//! What programs mean, and what instructions do.
#![tactic(auto)]

pub mod code;
pub mod fitting;
pub mod formula;
pub mod sets;
pub mod settings;

pub use code::{Computation, Destination, Entry, Instr, Op, Operand, Simple, Simples, Variable};
pub use fitting::fits;
pub use formula::{Formula, Measure, Shape};
pub use sets::SetAt;
pub use settings::{FirstValue, Settings};
