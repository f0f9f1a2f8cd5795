//! Texts.

ghost use Rattle.std.specs.Prelude.{◌≡◌, ◌++◌, IfOk, IfSome, OnErr, OnOk, take};

use rawk_text::Text;
use std::alloc::{AllocError, Global};
use std::marker::Model;

/// A text: any bytes, which contracts see as a list.
#[derive(Drop)]
pub struct Bytes {
    text: Text,
}

impl Model for Bytes {
    ghost use Rattle.std.specs.Prelude.{List, ℕ};

    ghost Value = { List ℕ };

    ghost view = { λ b. b.text };
}

impl Bytes {
    /// A copy of a slice. It fails where memory is refused.
    #[inline(always)]
    pub fn from_slice(alloc: Global, bytes: &[u8]) -> Result<Self, AllocError>
        ensures { IfOk result (λ b. b ≡ bytes.now) }
    {
        Ok(Bytes {
            text: Text::from_slice(alloc, bytes)?,
        })
    }

    /// These bytes, moved where they are long. It fails where memory is refused.
    pub fn from_vec(alloc: Global, items: Vec<u8>) -> Result<Self, AllocError>
        ensures { IfOk result (λ b. b ≡ items.items) }
    {
        Ok(Bytes {
            text: Text::from_vec(alloc, items)?,
        })
    }

    /// The two side by side. It fails where memory is refused.
    pub fn concat(alloc: Global, left: &[u8], right: &[u8]) -> Result<Self, AllocError>
        ensures { IfOk result (λ b. b ≡ left.now ++ right.now) }
    {
        Ok(Bytes {
            text: Text::concat(alloc, left, right)?,
        })
    }

    /// Becomes a copy of a slice, in place as `Text::assign` writes it. It fails where memory is refused, and the bytes are then as they were.
    #[inline(always)]
    pub fn assign(&mut self, alloc: Global, bytes: &[u8]) -> Result<(), AllocError>
        ensures ok { OnOk result (self.new ≡ bytes.now) }
        ensures err { OnErr result (self.new ≡ self.old) }
    {
        self.text.assign(alloc, bytes)
    }

    /// A copy. It takes no memory, and fails only where the count of owners is full.
    #[inline(always)]
    pub fn copy(&self) -> Result<Self, AllocError>
        ensures { IfOk result (λ b. b ≡ self.now) }
    {
        Ok(Bytes {
            text: self.text.copy()?,
        })
    }

    /// A copy of few bytes, which stand in place; `None` of others. It takes no memory.
    #[inline(always)]
    pub fn short_copy(&self) -> Option<Self>
        ensures { IfSome result (λ b. b ≡ self.now) }
    {
        match self.text.short_copy() {
            Some(text) => Some(Bytes { text }),
            None => None,
        }
    }

    /// A copy of bytes that stand in a buffer, which it shares; `None` of few bytes, and where the count of owners is full. It takes no memory.
    #[inline(always)]
    pub fn shared_copy(&self) -> Option<Self>
        ensures { IfSome result (λ b. b ≡ self.now) }
    {
        match self.text.shared_copy() {
            Some(text) => Some(Bytes { text }),
            None => None,
        }
    }

    /// Adds bytes, in place where nobody shares them. It fails where memory is refused, and the bytes are then as they were.
    #[inline]
    pub fn append(&mut self, alloc: Global, more: &[u8]) -> Result<(), AllocError>
        ensures ok { OnOk result (self.new ≡ self.old ++ more.now) }
        ensures err { OnErr result (self.new ≡ self.old) }
    {
        self.text.append(alloc, more)
    }

    /// Keeps at most the first `count` bytes. It takes no memory.
    #[inline]
    pub fn truncate(&mut self, count: usize)
        ensures { self.new ≡ take count self.old }
    {
        self.text.truncate(count)
    }

    /// The bytes.
    #[inline(always)]
    pub fn as_slice(&self) -> &[u8]
        ensures { result.now ≡ self.now }
    {
        self.text.as_slice()
    }
}
