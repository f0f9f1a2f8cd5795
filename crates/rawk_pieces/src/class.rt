//! Sets of bytes that separate fields.

ghost use Rattle.std.specs.Prelude.{◌≡◌, ◌==◌, ◌&&◌, ◌||◌, ◌≤◌, ◌<◌, ℕ, Bool, false, length, slice_index, take};
ghost use Rattle.rawk_value.specs.Values.{is_blank};
ghost use Rattle.rawk_pieces.specs.Masks.{IsMaskFrom, IsMaskOf};

use crate::mask::{equal_bits, only_if};
use std::simd::prelude::*;

/// A set of bytes.
pub trait Class {
    ghost contains: { Self → ℕ → Bool };

    /// Whether a byte is one of them.
    fn has(&self, byte: u8) -> bool
        ensures { result ≡ contains self.now byte };

    /// Which bytes of a block are of them.
    fn mask(&self, block: u8x32) -> u64
        ensures { IsMaskOf (contains self.now) block result };

    /// A byte that is none of them.
    fn other(&self) -> u8
        ensures { contains self.now result ≡ false };
}

/// Space, tab and newline.
#[derive(Drop)]
pub struct Blank;

impl Class for Blank {
    ghost contains = { λ _ b. is_blank b };

    #[inline(always)]
    fn has(&self, byte: u8) -> bool {
        byte == 32 || byte == 9 || byte == 10
    }

    #[inline(always)]
    fn mask(&self, block: u8x32) -> u64 {
        equal_bits(block, 32) | equal_bits(block, 9) | equal_bits(block, 10)
    }

    #[inline(always)]
    fn other(&self) -> u8 {
        0
    }
}

/// One byte, and a newline too where `newline` says so.
#[derive(Clone, Copy)]
pub struct ByteClass {
    pub byte: u8,
    pub newline: bool,
}

impl Class for ByteClass {
    ghost contains = { λ s b. b == s.byte || s.newline && b == 10 };

    #[inline(always)]
    fn has(&self, byte: u8) -> bool {
        byte == self.byte || self.newline && byte == 10
    }

    #[inline(always)]
    fn mask(&self, block: u8x32) -> u64 {
        equal_bits(block, self.byte) | only_if(self.newline, equal_bits(block, 10))
    }

    #[inline(always)]
    fn other(&self) -> u8 {
        if self.byte == 0 { 1 } else { 0 }
    }
}

/// Which bytes of a text are of the class: 32 of them from a place on, or up to the end.
#[inline(always)]
pub(crate) fn mask_at<C: Class>(class: &C, text: &[u8], at: usize) -> u64
    requires long { 32 ≤ length text.now }
    requires inside { at < length text.now }
    ensures { IsMaskFrom (C.contains class.now) text.now at at result }
{
    let last = text.len() - 32;
    if at <= last {
        return class.mask(u8x32::from_slice(&text[at..]));
    }
    class.mask(u8x32::from_slice(&text[last..])) >> (at - last)
}

/// A text of fewer than 32 bytes, and behind it a byte as often as there is room.
#[inline(always)]
fn padded(text: &[u8], byte: u8) -> [u8; 32]
    requires { length text.now < 32 }
    ensures text { take (length text.now) result ≡ text.now }
    ensures rest { (k : ℕ) → length text.now ≤ k → k < 32 → slice_index result k ≡ byte }
{
    let mut block = [byte; 32];
    let front = &mut block[..text.len()];
    front.copy_from_slice(text);
    block
}

/// Which bytes of a text of fewer than 32 are of the class.
#[inline(always)]
pub(crate) fn mask_of_short<C: Class>(class: &C, text: &[u8]) -> u64
    requires { length text.now < 32 }
    ensures { IsMaskFrom (C.contains class.now) text.now 0 0 result }
{
    class.mask(u8x32::from_array(padded(text, class.other())))
}
