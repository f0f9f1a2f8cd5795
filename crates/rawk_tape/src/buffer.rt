//! The bytes that were read and are kept.
ghost use Rattle.std.specs.Prelude.{◌≡◌, ◌≤◌, ◌<◌, ◌^◌, [], drop, length, None, OnOk, OnErr, IfOk};
ghost use Rattle.rawk_tape.specs.Tapes.{ReadsOn};

use crate::room::{ending_of_read, make_room, move_to_front, read_behind, size_of_read};
use rawk_devices::{Ending, Source};
use std::alloc::{AllocError, Global};
use std::marker::Model;

/// Bytes, with room behind them. Contracts see the bytes.
#[derive(Drop)]
pub(crate) struct Buffer {
    items: Vec<u8>,
    end: usize,
}

impl Model for Buffer {
    ghost use Rattle.std.specs.Prelude.{List, ℕ, take, vec_len, ◌≤◌};

    ghost Value = { List ℕ };

    ghost view = { λ b. take b.end b.items.items };

    ghost invariant = { λ b. b.end ≤ vec_len b.items };
}

impl Buffer {
    /// No bytes. It takes no memory.
    pub(crate) fn new(alloc: Global) -> Self
        ensures { result ≡ [] }
    {
        Buffer {
            items: Vec::new(alloc),
            end: 0,
        }
    }

    pub(crate) fn as_slice(&self) -> &[u8]
        ensures { result.now ≡ self.now }
    {
        &self.items[..self.end]
    }

    pub(crate) fn len(&self) -> usize
        ensures value { result ≡ length self.now }
        ensures small { result < 2 ^ 63 }
    {
        self.end
    }

    /// Lets the first bytes go.
    pub(crate) fn drop_front(&mut self, size: usize)
        requires { size ≤ length self.old }
        ensures { self.new ≡ drop size self.old }
    {
        move_to_front(&mut self.items, size, self.end);
        self.end -= size;
    }

    /// Reads once more behind the bytes, and says how the input is over then.
    pub(crate) fn read_from<R: Source>(
        &mut self,
        source: &mut R,
    ) -> Result<Option<Ending>, AllocError>
        requires { R.over source.old ≡ None }
        ensures reads { OnOk result
            (ReadsOn R.may_give R.over R.handed source.old self.old source.new self.new) }
        ensures over { IfOk result (λ over. R.over source.new ≡ over) }
        ensures source { OnErr result (source.new ≡ source.old) }
        ensures bytes { OnErr result (self.new ≡ self.old) }
    {
        make_room(&mut self.items, self.end)?;
        let read = read_behind(source, &mut self.items, self.end);
        self.end += size_of_read(&read);
        Ok(ending_of_read(&read))
    }
}
