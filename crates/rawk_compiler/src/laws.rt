// Laws of the meaning, for every program: the contracts say them, and the bodies do nothing.

ghost use Rattle.rawk_code.specs.Laws.{FirstOutputLaw, LimitLaw, OutputLaw, SetsLaw, SetsLawBelow};

/// One more step changes nothing of a run that ended or had a fault, and no earlier point of one that met the limit.
pub fn limit()
    ensures { LimitLaw }
{}

/// Sets at later points change no earlier point.
pub fn sets()
    ensures { SetsLaw }
{}

/// Sets at a point and later ones change no point before it.
pub fn sets_below()
    ensures { SetsLawBelow }
{}

/// Output only grows: what a point has written begins what each later point and the ending have.
pub fn output()
    ensures { OutputLaw }
{}

/// Nothing is written before point 0, nor by a run that reaches no point.
pub fn first_output()
    ensures { FirstOutputLaw }
{}
