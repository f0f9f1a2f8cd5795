//! Where bytes go.
ghost use Rattle.std.specs.Prelude.{◌≡◌, ◌<◌, ◌≤◌, ◌++◌, ℕ, List, length, take, OnOk, OnErr, IfOk};
ghost use Rattle.rawk_devices.specs.Inputs.{size_taken, failures_of, CountsUp};

use crate::DeviceFault;

/// A device that takes bytes.
///
/// A contract sees it as the set of what it may have taken: bytes in memory hold one list, of a
/// writer of std nothing is known.
pub trait Sink {
    /// This may be what was taken so far.
    ghost may_hold: { Self → List ℕ → Type 0 };

    /// How often a write has failed.
    ghost failures: { Self → ℕ };

    /// Takes a beginning of the bytes, at least one, and answers how many. A failed write takes
    /// none.
    fn write(&mut self, bytes: &[u8]) -> Result<usize, DeviceFault>
        requires { 0 < length bytes.now }
        ensures progress { IfOk result (λ size. 0 < size) }
        ensures in_bounds { size_taken result ≤ length bytes.now }
        ensures bytes { (held : List ℕ) → may_hold self.old held →
            may_hold self.new (held ++ take (size_taken result) bytes.now) }
        ensures failures { CountsUp (failures self.old) (failures self.new) (failures_of result) };
}

impl<W: Sink> Sink for &mut W {
    ghost may_hold = { λ s held. W.may_hold s.now held };

    ghost failures = { λ s. W.failures s.now };

    fn write(&mut self, bytes: &[u8]) -> Result<usize, DeviceFault> {
        Sink::write(&mut **self, bytes)
    }
}

/// Writes all of the bytes. At the first failure it stops, and a proper beginning of them was
/// taken.
pub fn write_all<W: Sink>(sink: &mut W, bytes: &[u8]) -> Result<(), DeviceFault>
    ensures ok { OnOk result ((held : List ℕ) → W.may_hold sink.old held →
        W.may_hold sink.new (held ++ bytes.now)) }
    ensures err { OnErr result ((held : List ℕ) → W.may_hold sink.old held →
        (size : ℕ) × (size < length bytes.now) × W.may_hold sink.new (held ++ take size bytes.now)) }
    ensures failures { CountsUp (W.failures sink.old) (W.failures sink.new) (failures_of result) }
{
    let mut at = 0;
    while at < bytes.len() {
        match sink.write(&bytes[at..]) {
            Ok(size) => at += size,
            Err(fault) => return Err(fault),
        }
    }
    Ok(())
}
