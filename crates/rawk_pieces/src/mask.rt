//! Masks: a bit for each of 32 bytes.

ghost use Rattle.std.specs.Prelude.{◌≡◌, ◌≢◌, ◌==◌, ◌<◌, ℕ, if◌then◌else◌};
ghost use Rattle.std.specs.Int.{bit_at};
ghost use Rattle.rawk_pieces.specs.Masks.{IsMaskOf};

use std::simd::prelude::*;

/// The bytes of a block that equal a byte.
#[inline(always)]
pub(crate) fn equal_bits(block: u8x32, byte: u8) -> u64
    ensures { IsMaskOf (λ b. b == byte) block result }
{
    block.simd_eq(u8x32::splat(byte)).to_bitmask()
}

/// The mask, or none of its bits.
#[inline(always)]
pub(crate) fn only_if(condition: bool, mask: u64) -> u64
    ensures { result ≡ (if condition then mask else 0) }
{
    if condition { mask } else { 0 }
}

/// The lowest bit that is set.
#[inline(always)]
pub(crate) fn lowest_bit(mask: u64) -> usize
    requires { mask ≢ 0 }
    ensures bound { result < 64 }
    ensures set { bit_at mask result ≡ 1 }
    ensures below { (k : ℕ) → k < result → bit_at mask k ≡ 0 }
{
    mask.trailing_zeros() as usize
}

/// The mask without a bit that is set.
#[inline(always)]
pub(crate) fn without_bit(mask: u64, bit: usize) -> u64
    requires bound { bit < 64 }
    requires set { bit_at mask bit ≡ 1 }
    ensures smaller { result < mask }
    ensures cleared { bit_at result bit ≡ 0 }
    ensures kept { (k : ℕ) → k < 64 → k ≢ bit → bit_at result k ≡ bit_at mask k }
    ensures none_new { (k : ℕ) → bit_at result k ≡ 1 → bit_at mask k ≡ 1 }
{
    mask & !(1 << bit)
}
