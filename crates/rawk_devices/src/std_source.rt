//! A source over a reader of std.
ghost use Rattle.std.specs.Prelude.{◌≡◌, ◌<◌, ◌≤◌, length, take, None};
ghost use Rattle.std.specs.Io.KnownBytes.{ReadConsumes};
ghost use Rattle.rawk_devices.specs.Inputs.{Input, AllowedBy, before, size_taken, ending_of, failures_of, CountsUp};
ghost use Rattle.rawk_devices.specs.Sources.{some_allowed};

use crate::{DeviceFault, Ending, Source};
use std::io::Read;

/// A reader of std as a source. Any error of the reader is a failure, and a read of 0 bytes the
/// end. Of its input a contract knows only the bytes that it has handed out.
#[derive(Drop)]
pub struct StdSource<T: Read + Drop> {
    reader: T,
    over: Option<Ending>,
    handed: u128,
    failures: u128,
}

impl<T: Read + Drop> StdSource<T> {
    /// A source of what the reader still has.
    pub fn new(reader: T) -> Self
        ensures over { result.over ≡ None }
        ensures reader { result.reader ≡ reader }
        ensures handed { result.handed ≡ 0 }
        ensures failures { result.failures ≡ 0 }
    {
        StdSource {
            reader,
            over: None,
            handed: 0,
            failures: 0,
        }
    }
}

impl<T: Read + Drop> Source for StdSource<T> {
    ghost may_give = { λ s rest. AllowedBy s.over rest };

    ghost over = { λ s. s.over };

    ghost handed = { λ s. s.handed };

    ghost failures = { λ s. s.failures };

    ghost over_gives = { λ s e rest is allowed. allowed e is };

    ghost gives_some = { λ s. some_allowed s.over };

    /// As for each source; and where the reader's bytes are known, it gives those.
    fn read(&mut self, buf: &mut [u8]) -> Result<usize, DeviceFault>
        requires open { self.old.over ≡ None }
        requires room { 0 < length buf.old }
        ensures in_bounds { size_taken result ≤ length buf.new }
        ensures bytes { (rest : Input) → AllowedBy self.new.over rest →
            AllowedBy self.old.over (before (take (size_taken result) buf.new) rest) }
        ensures over { self.new.over ≡ ending_of result }
        ensures handed { CountsUp self.old.handed self.new.handed (size_taken result) }
        ensures failures { CountsUp self.old.failures self.new.failures (failures_of result) }
        ensures known { ReadConsumes
            (T.remaining self.old.reader) (T.remaining self.new.reader) result buf.new }
    {
        match self.reader.read(buf) {
            Ok(0) => {
                self.over = Some(Ending::Ended);
                Ok(0)
            }
            Ok(size) => {
                self.handed = self.handed.saturating_add(size as u128);
                Ok(size)
            }
            Err(_) => {
                self.over = Some(Ending::Failed);
                self.failures = self.failures.saturating_add(1);
                Err(DeviceFault)
            }
        }
    }
}
