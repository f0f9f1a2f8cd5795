//! Where an advance arrives.

use rawk_value::Fault;

/// Where an advance arrives.
#[derive(Clone, Copy, PartialEq, Eq)]
pub enum Step {
    /// at the next point
    At,
    /// at the end of the program, with its status
    Ended(u8),
    /// at a fault; at the limit of steps it is `Fault::StepLimit`
    Faulted(Fault),
}
