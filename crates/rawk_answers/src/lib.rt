//! What a session asks of a machine, what names are in its program, and the texts that its answers are made of.
#![tactic(auto)]

pub mod naming;
pub mod stepper;
pub mod stop;
pub mod text;

pub use stepper::{Call, Stepper};
pub use stop::{Entry, Lvalue, Scalar, Stop, Watched};
