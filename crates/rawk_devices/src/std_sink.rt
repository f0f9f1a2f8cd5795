//! A sink over a writer of std.

ghost use Rattle.std.specs.Prelude.{◌≡◌, ◌<◌, ◌≤◌, length, IfOk};
ghost use Rattle.std.specs.Io.KnownBytes.{WriteAppends};
ghost use Rattle.rawk_devices.specs.Inputs.{size_taken, failures_of, CountsUp};

use crate::{DeviceFault, Sink};
use std::io::Write;

/// A writer of std as a sink. Any error of the writer, and a write that takes nothing, is a
/// failure. It never flushes: the owner of the writer does.
#[derive(Drop)]
pub struct StdSink<T: Write + Drop> {
    writer: T,
    failures: u128,
}

impl<T: Write + Drop> StdSink<T> {
    /// A sink that writes there.
    pub fn new(writer: T) -> Self
        ensures writer { result.writer ≡ writer }
        ensures failures { result.failures ≡ 0 }
    {
        StdSink {
            writer,
            failures: 0,
        }
    }
}

impl<T: Write + Drop> Sink for StdSink<T> {
    ghost may_hold = { λ _ _. Unit {0} };

    ghost failures = { λ s. s.failures };

    /// As for each sink; and where the writer's contents are known, they grow by the bytes taken.
    fn write(&mut self, bytes: &[u8]) -> Result<usize, DeviceFault>
        requires { 0 < length bytes.now }
        ensures progress { IfOk result (λ size. 0 < size) }
        ensures in_bounds { size_taken result ≤ length bytes.now }
        ensures failures { CountsUp self.old.failures self.new.failures (failures_of result) }
        ensures known { WriteAppends
            (T.contents self.old.writer) (T.contents self.new.writer) result bytes.now }
    {
        match self.writer.write(bytes) {
            Ok(size) if size != 0 => Ok(size),
            _ => {
                self.failures = self.failures.saturating_add(1);
                Err(DeviceFault)
            }
        }
    }
}
