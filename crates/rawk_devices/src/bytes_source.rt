//! A source over bytes in memory.
ghost use Rattle.std.specs.Prelude.{◌≡◌, ◌≤◌, length, take, vec_len, None, Some, refl};
ghost use Rattle.rawk_devices.specs.declared.source.Ending.{Ending};
ghost use Rattle.rawk_devices.specs.Inputs.{left_from, cut_off};
ghost use Rattle.rawk_devices.specs.Sources.{nothing_left};

use crate::{DeviceFault, Ending, Source};

/// Hands out its bytes, each time as many as the next cut says, and then ends or fails.
#[derive(Drop)]
pub struct BytesSource {
    bytes: Vec<u8>,
    at: usize,
    cuts: Vec<usize>,
    turn: usize,
    ending: Ending,
    over: Option<Ending>,
    handed: u128,
    failures: u128,
    ghost in_range: { at ≤ vec_len bytes },
    ghost all_given: { (e : Ending) → over ≡ Some e → length bytes.items ≤ at },
    ghost ends_so: { (e : Ending) → over ≡ Some e → ending ≡ e },
}

impl BytesSource {
    /// A source of these bytes. Its reads hand out as many bytes, at most, as the cuts say in
    /// turn (a cut of 0 counts as 1; after the last cut, as many as are wanted). With a place of
    /// failure only the bytes before that place are handed out, and then a read fails.
    pub fn new(mut bytes: Vec<u8>, cuts: Vec<usize>, fails_at: Option<usize>) -> Self
        ensures over { result.over ≡ None }
        ensures handed { result.handed ≡ 0 }
        ensures failures { result.failures ≡ 0 }
        ensures input { left_from result.bytes.items result.at result.ending ≡ cut_off bytes.items fails_at }
    {
        let ending = match fails_at {
            None => Ending::Ended,
            Some(place) => {
                bytes.truncate(place);
                Ending::Failed
            }
        };
        BytesSource {
            bytes,
            at: 0,
            cuts,
            turn: 0,
            ending,
            over: None,
            handed: 0,
            failures: 0,
        }
    }

    /// How many bytes were handed out.
    pub fn handed(&self) -> u128
        ensures { result ≡ self.now.handed }
    {
        self.handed
    }

    /// How many bytes the next read hands out, at most.
    fn cut(&self) -> usize {
        match self.cuts.get(self.turn) {
            Some(size) => *size,
            None => usize::MAX,
        }
    }
}

/// Writes bytes to the front of a buffer.
fn copy_front(buf: &mut [u8], bytes: &[u8])
    requires { length bytes.now ≤ length buf.old }
    ensures { take (length bytes.now) buf.new ≡ bytes.now }
{
    buf[..bytes.len()].copy_from_slice(bytes);
}

impl Source for BytesSource {
    ghost may_give = { λ s rest. rest ≡ left_from s.bytes.items s.at s.ending };

    ghost over = { λ s. s.over };

    ghost handed = { λ s. s.handed };

    ghost failures = { λ s. s.failures };

    ghost over_gives = { λ s e rest is gives.
        nothing_left s.bytes.items s.at s.ending e rest (s.all_given e is) (s.ends_so e is) gives };

    ghost gives_some = { λ s. (left_from s.bytes.items s.at s.ending, refl) };

    fn read(&mut self, buf: &mut [u8]) -> Result<usize, DeviceFault> {
        let left = self.bytes.len() - self.at;
        if left == 0 {
            self.over = Some(self.ending);
            return match self.ending {
                Ending::Ended => Ok(0),
                Ending::Failed => {
                    self.failures = self.failures.saturating_add(1);
                    Err(DeviceFault)
                }
            };
        }
        let size = self.cut().max(1).min(left).min(buf.len());
        copy_front(buf, &self.bytes[self.at..self.at + size]);
        self.at += size;
        self.turn = self.turn.saturating_add(1);
        self.handed = self.handed.saturating_add(size as u128);
        Ok(size)
    }
}
