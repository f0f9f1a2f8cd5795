//! The last move of a machine.

/// The last move, from which what was seen before it can be handed.
#[derive(Clone, Copy)]
pub enum LastMove {
    /// none, or something was set or taken back since
    Nothing,
    /// a step on, which the keeper keeps
    On,
    /// a step back, which the keeper can lead forward again
    Back,
}
