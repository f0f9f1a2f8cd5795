// A law of refusals, for every text: the contract says it, and the body does nothing.

ghost use Rattle.rawk_syntax.specs.Texts.{IsRefusedOnce};

/// A text has one refusal at most.
pub fn is_refused_once()
    ensures { IsRefusedOnce }
{}
