// Laws of what is reported of names, for every program: the contracts say them, and the bodies do nothing.

ghost use Rattle.rawk_names.specs.Named.{IsNamedOrRefused, IsRefusedOnce};

/// A program has one refusal of names at most, but for want of memory.
pub fn is_refused_once()
    ensures { IsRefusedOnce }
{}

/// A program whose names are in order is refused for want of memory alone.
pub fn is_named_or_refused()
    ensures { IsNamedOrRefused }
{}
