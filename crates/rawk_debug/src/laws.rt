//! Laws of a session's commands, for every program and input: the contracts say them, and the bodies do nothing.

ghost use Rattle.rawk_debug.specs.Laws.{SetLaw, StepLaw};

/// A step that succeeds, and a step back, lead to the same state, where at least one step is kept.
pub fn step_and_back()
    ensures { StepLaw }
{}

/// A set that succeeds, and its taking back, lead to the same state.
pub fn set_and_back()
    ensures { SetLaw }
{}
