//! A sink in memory.
ghost use Rattle.std.specs.Prelude.{◌≡◌, ◌≤◌, ◌+◌, ℕ, [], length, Some};

use crate::{DeviceFault, Sink};
use std::alloc::Global;

/// Keeps the bytes that it takes. With a place of failure it takes the bytes before that place,
/// and a write of any behind it fails; a write also fails where memory is refused.
#[derive(Drop)]
pub struct BytesSink {
    bytes: Vec<u8>,
    fails_at: Option<usize>,
    failures: u128,
    ghost in_room: { (place : ℕ) → fails_at ≡ Some place → length bytes.items ≤ place },
}

impl BytesSink {
    /// A sink that holds nothing yet. It takes no memory.
    pub fn new(alloc: Global, fails_at: Option<usize>) -> Self
        ensures empty { result.bytes.items ≡ [] }
        ensures place { result.fails_at ≡ fails_at }
        ensures failures { result.failures ≡ 0 }
    {
        BytesSink {
            bytes: Vec::new(alloc),
            fails_at,
            failures: 0,
        }
    }

    /// The bytes taken so far.
    pub fn bytes(&self) -> &[u8]
        ensures { result.now ≡ self.now.bytes.items }
    {
        self.bytes.as_slice()
    }

    /// How many bytes may still be taken.
    fn room(&self) -> usize
        ensures { (place : ℕ) → self.now.fails_at ≡ Some place →
            length self.now.bytes.items + result ≤ place }
    {
        match self.fails_at {
            Some(place) => place.saturating_sub(self.bytes.len()),
            None => usize::MAX,
        }
    }
}

impl Sink for BytesSink {
    ghost may_hold = { λ s held. held ≡ s.bytes.items };

    ghost failures = { λ s. s.failures };

    fn write(&mut self, bytes: &[u8]) -> Result<usize, DeviceFault> {
        let size = self.room().min(bytes.len());
        if size == 0 || self.bytes.extend_from_slice(&bytes[..size]).is_err() {
            self.failures = self.failures.saturating_add(1);
            return Err(DeviceFault);
        }
        Ok(size)
    }
}
