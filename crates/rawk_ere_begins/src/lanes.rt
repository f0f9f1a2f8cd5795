//! Vectors of 32 bytes, lane by lane.

ghost use Rattle.std.specs.Prelude.{◌≡◌, ◌≢◌, ℕ, ◌+◌, ◌/◌, ◌%◌, ◌<◌, ◌≤◌, length, min, slice_index, bit_and};
ghost use Rattle.std.specs.Int.{bit_at};
ghost use Rattle.rawk_ere_begins.specs.Lanes.{HasLanes};

use std::simd::prelude::*;

/// 32 bytes of a text.
#[inline(always)]
pub(crate) fn load(text: &[u8], at: usize) -> u8x32
    requires { at + 32 ≤ length text.now }
    ensures { HasLanes result (λ k. slice_index text.now (at + k)) }
{
    u8x32::from_slice(&text[at..])
}

/// The bits that both have.
#[inline(always)]
pub(crate) fn both(a: u8x32, b: u8x32) -> u8x32
    ensures { HasLanes result (λ k. bit_and (slice_index a k) (slice_index b k)) }
{
    a & b
}

/// What a table has at the low four bits of each lane.
#[inline(always)]
pub(crate) fn by_low_bits(table: &[u8; 16], lanes: u8x32) -> u8x32
    ensures { HasLanes result (λ k. slice_index table.now (slice_index lanes k % 16)) }
{
    twice(table).swizzle_dyn_within::<16>(lanes & u8x32::splat(15))
}

/// The same at the high four bits.
#[inline(always)]
pub(crate) fn by_high_bits(table: &[u8; 16], lanes: u8x32) -> u8x32
    ensures { HasLanes result (λ k. slice_index table.now (slice_index lanes k / 16)) }
{
    twice(table).swizzle_dyn_within::<16>(lanes >> u8x32::splat(4))
}

#[inline(always)]
fn twice(table: &[u8; 16]) -> u8x32
    ensures { HasLanes result (λ k. slice_index table.now (k % 16)) }
{
    u8x16::from_slice(table).swizzle([
        0, 1, 2, 3, 4, 5, 6, 7, 8, 9, 10, 11, 12, 13, 14, 15, 0, 1, 2, 3, 4, 5, 6, 7, 8, 9, 10, 11,
        12, 13, 14, 15,
    ])
}

/// A bit for each lane, which is set where that is not 0.
#[inline(always)]
pub(crate) fn nonzero(lanes: u8x32) -> u64
    ensures set { (k : ℕ) → k < 32 → slice_index lanes k ≢ 0 → bit_at result k ≡ 1 }
    ensures only { (k : ℕ) → bit_at result k ≡ 1 → (k < 32) × (slice_index lanes k ≢ 0) }
{
    lanes.simd_ne(u8x32::splat(0)).to_bitmask()
}

/// A bit for each lane, which is set where that is the byte.
#[inline(always)]
pub(crate) fn equal(lanes: u8x32, byte: u8) -> u64
    ensures set { (k : ℕ) → k < 32 → slice_index lanes k ≡ byte → bit_at result k ≡ 1 }
    ensures only { (k : ℕ) → bit_at result k ≡ 1 → (k < 32) × (slice_index lanes k ≡ byte) }
{
    lanes.simd_eq(u8x32::splat(byte)).to_bitmask()
}

/// The bits that are set in both.
#[inline(always)]
pub(crate) fn both_bits(a: u64, b: u64) -> u64
    ensures { (k : ℕ) → bit_at result k ≡ min (bit_at a k) (bit_at b k) }
{
    a & b
}

/// The lowest bit that is set.
#[inline(always)]
pub(crate) fn lowest(bits: u64) -> usize
    requires { bits ≢ 0 }
    ensures bound { result < 64 }
    ensures set { bit_at bits result ≡ 1 }
    ensures below { (k : ℕ) → k < result → bit_at bits k ≡ 0 }
{
    bits.trailing_zeros() as usize
}

/// The bits from a place on.
#[inline(always)]
pub(crate) fn bits_from(bits: u64, by: usize) -> u64
    requires { by < 64 }
    ensures { (k : ℕ) → bit_at result k ≡ bit_at bits (by + k) }
{
    bits >> by
}
