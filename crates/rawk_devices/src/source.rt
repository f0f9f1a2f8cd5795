//! Where bytes come from.
ghost use Rattle.std.specs.Prelude.{◌≡◌, ◌≤◌, ◌<◌, ◌+◌, ℕ, length, take, Option, None, Some};
ghost use Rattle.rawk_devices.specs.declared.source.Ending.{Ending};
ghost use Rattle.rawk_devices.specs.Inputs.{Input, before, nothing, size_taken, ending_of, failures_of, CountsUp};

/// How an input ends.
#[derive(Clone, Copy, PartialEq, Eq)]
pub enum Ending {
    /// A read gave no bytes.
    Ended,
    /// A read failed.
    Failed,
}

/// A read or a write has failed.
#[derive(Clone, Copy, PartialEq, Eq)]
pub struct DeviceFault;

/// A device that hands out an input piece by piece.
///
/// A contract sees it as the set of inputs that may still come: a reader of std knows none of
/// its bytes beforehand, bytes in memory are one input.
pub trait Source {
    /// This input may be what is still to come.
    ghost may_give: { Self → Input → Type 0 };

    /// How the input has ended, once a read has reported it.
    ghost over: { Self → Option Ending };

    /// How many bytes were handed out.
    ghost handed: { Self → ℕ };

    /// How often a read has failed.
    ghost failures: { Self → ℕ };

    /// Takes the next bytes, at least one, into the front of a buffer. The answer is their
    /// count, and 0 at the end. After the end or a failure no further read is allowed.
    fn read(&mut self, buf: &mut [u8]) -> Result<usize, DeviceFault>
        requires open { over self.old ≡ None }
        requires room { 0 < length buf.old }
        ensures in_bounds { size_taken result ≤ length buf.new }
        ensures bytes { (rest : Input) → may_give self.new rest →
            may_give self.old (before (take (size_taken result) buf.new) rest) }
        ensures over { over self.new ≡ ending_of result }
        ensures handed { CountsUp (handed self.old) (handed self.new) (size_taken result) }
        ensures failures { CountsUp (failures self.old) (failures self.new) (failures_of result) };

    /// After its end there is nothing to come.
    ghost over_gives: { (s : Self) (e : Ending) (rest : Input) →
        over s ≡ Some e → may_give s rest → rest ≡ nothing e };

    /// Some input may always be what is still to come: no read rules all of them out.
    ghost gives_some: { (s : Self) → (rest : Input) × may_give s rest };
}

impl<R: Source> Source for &mut R {
    ghost may_give = { λ s rest. R.may_give s.now rest };

    ghost over = { λ s. R.over s.now };

    ghost handed = { λ s. R.handed s.now };

    ghost failures = { λ s. R.failures s.now };

    ghost over_gives = { λ s e rest is gives. R.over_gives s.now e rest is gives };

    ghost gives_some = { λ s. R.gives_some s.now };

    fn read(&mut self, buf: &mut [u8]) -> Result<usize, DeviceFault> {
        Source::read(&mut **self, buf)
    }
}
