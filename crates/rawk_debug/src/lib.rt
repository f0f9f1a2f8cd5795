//! The session of a debugger, which goes forward and backward over a machine.
#![tactic(auto)]

pub mod answer;
pub mod laws;
mod search;
pub mod session;
pub mod transcript;

pub use answer::Answer;
pub use rawk_answers::{Call, Entry, Lvalue, Scalar, Stepper, Stop, Watched};
pub use session::Session;
pub use transcript::{Reply, carry_out};
