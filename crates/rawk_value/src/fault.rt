//! What ends a run before its end.

ghost use Rattle.std.specs.Prelude.{◌≡◌};
ghost use Rattle.rawk_value.specs.declared.fault.Fault.TheVariants.{OutOfMemory};

use std::alloc::{AllocError, AllocFailed};

/// What ends a run before its end. Each has a number, F1 to F12, and a text.
#[derive(Clone, Copy, PartialEq, Eq)]
pub enum Fault {
    /// F1: a number that does not fit 64 bits with a sign.
    Overflow,
    /// F2: a fraction or an exponent where a whole number is needed, or a quotient that leaves a remainder.
    Fraction,
    /// F3: a division by 0.
    ZeroDivisor,
    /// F4: a field number outside its range.
    FieldNumber,
    /// F5: a text that is no extended regular expression, or too large a one.
    BadEre,
    /// F6: a format that `printf` cannot follow, or that lacks an argument.
    BadFormat,
    /// F7: a record separator that cannot be used.
    BadSeparator,
    /// F8: `next` where no main rule runs.
    NextOutside,
    /// F9: the limit of steps.
    StepLimit,
    /// F10: a read that failed.
    ReadFailed,
    /// F11: a write that failed.
    WriteFailed,
    /// F12: a refusal of memory.
    OutOfMemory,
}

impl Fault {
    ghost use Rattle.rawk_value.specs.Faults.{fault_number, fault_text};

    /// The n of its name Fn: 1 to 12.
    pub fn number(&self) -> u8
        ensures { result ≡ fault_number self.now }
    {
        match self {
            Fault::Overflow => 1,
            Fault::Fraction => 2,
            Fault::ZeroDivisor => 3,
            Fault::FieldNumber => 4,
            Fault::BadEre => 5,
            Fault::BadFormat => 6,
            Fault::BadSeparator => 7,
            Fault::NextOutside => 8,
            Fault::StepLimit => 9,
            Fault::ReadFailed => 10,
            Fault::WriteFailed => 11,
            Fault::OutOfMemory => 12,
        }
    }

    /// What a report says of it.
    pub fn text(&self) -> &'static str
        ensures { result.now ≡ fault_text self.now }
    {
        match self {
            Fault::Overflow => "overflow",
            Fault::Fraction => "fraction",
            Fault::ZeroDivisor => "division by zero",
            Fault::FieldNumber => "field number out of range",
            Fault::BadEre => "bad regular expression",
            Fault::BadFormat => "bad format",
            Fault::BadSeparator => "bad record separator",
            Fault::NextOutside => "next outside a main rule",
            Fault::StepLimit => "step limit reached",
            Fault::ReadFailed => "read failed",
            Fault::WriteFailed => "write failed",
            Fault::OutOfMemory => "out of memory",
        }
    }
}

impl From<AllocError> for Fault {
    ghost from_gives = { λ _ fault. fault ≡ OutOfMemory };

    fn from(_error: AllocError) -> Fault {
        Fault::OutOfMemory
    }
}

impl<T: Drop> From<AllocFailed<T>> for Fault {
    ghost from_gives = { λ _ fault. fault ≡ OutOfMemory };

    fn from(_error: AllocFailed<T>) -> Fault {
        Fault::OutOfMemory
    }
}
