//! The next place where a way may begin.

ghost use Rattle.std.specs.Prelude.{◌≡◌, ◌≢◌, ℕ, ◌+◌, ◌<◌, ◌≤◌, ◌⊎◌, length, slice_index};
ghost use Rattle.std.specs.Int.{bit_at};
ghost use Rattle.rawk_ere_begins.specs.Filters.{marks_of, pair_marks, IsAsked, IsPassedOver, Tells};

use crate::block::Block;
use crate::filter::{Asked, Filter};
use crate::lanes::{
    bits_from, both, both_bits, by_high_bits, by_low_bits, equal, load, lowest, nonzero,
};

/// How long a text is at least in which places are passed over.
pub const LONG: usize = 33;

/// Which of 32 places may be where a way begins, by the bytes there and the next ones.
#[inline(always)]
fn has_marks(filter: &Filter, text: &[u8], at: usize) -> u64
    requires { at + 33 ≤ length text.now }
    ensures set { (k : ℕ) → k < 32 → pair_marks filter.now (slice_index text.now (at + k)) (slice_index text.now (at + k + 1)) ≢ 0 → bit_at result k ≡ 1 }
    ensures only { (k : ℕ) → bit_at result k ≡ 1 → (k < 32) × (pair_marks filter.now (slice_index text.now (at + k)) (slice_index text.now (at + k + 1)) ≢ 0) }
{
    let first = load(text, at);
    let second = load(text, at + 1);
    let low = by_low_bits(&filter.first.low, first);
    let high = by_high_bits(&filter.first.high, first);
    let next_low = by_low_bits(&filter.second.low, second);
    let next_high = by_high_bits(&filter.second.high, second);
    nonzero(both(both(low, high), both(next_low, next_high)))
}

/// The same where a byte with marks has one in common with any: where one stands.
#[inline(always)]
fn has_first(filter: &Filter, text: &[u8], at: usize) -> u64
    requires { at + 32 ≤ length text.now }
    ensures set { (k : ℕ) → k < 32 → marks_of filter.now.first (slice_index text.now (at + k)) ≢ 0 → bit_at result k ≡ 1 }
    ensures only { (k : ℕ) → bit_at result k ≡ 1 → (k < 32) × (marks_of filter.now.first (slice_index text.now (at + k)) ≢ 0) }
{
    let bytes = load(text, at);
    let low = by_low_bits(&filter.first.low, bytes);
    let high = by_high_bits(&filter.first.high, bytes);
    nonzero(both(low, high))
}

/// The same where one byte alone has one in common with any: where it stands.
#[inline(always)]
fn has_byte(text: &[u8], at: usize, byte: u8) -> u64
    requires { at + 32 ≤ length text.now }
    ensures set { (k : ℕ) → k < 32 → slice_index text.now (at + k) ≡ byte → bit_at result k ≡ 1 }
    ensures only { (k : ℕ) → bit_at result k ≡ 1 → (k < 32) × (slice_index text.now (at + k) ≡ byte) }
{
    equal(load(text, at), byte)
}

/// The same where two bytes alone have a mark in common: where they stand side by side.
#[inline(always)]
fn has_pair(text: &[u8], at: usize, a: u8, b: u8) -> u64
    requires { at + 33 ≤ length text.now }
    ensures set { (k : ℕ) → k < 32 → slice_index text.now (at + k) ≡ a → slice_index text.now (at + k + 1) ≡ b → bit_at result k ≡ 1 }
    ensures only { (k : ℕ) → bit_at result k ≡ 1 → (k < 32) × (slice_index text.now (at + k) ≡ a) × (slice_index text.now (at + k + 1) ≡ b) }
{
    let first = equal(load(text, at), a);
    let second = equal(load(text, at + 1), b);
    both_bits(first, second)
}

/// The same by the quickest way.
#[inline(always)]
fn may_begin(filter: &Filter, text: &[u8], at: usize) -> u64
    requires room { at + 33 ≤ length text.now }
    requires asked { IsAsked filter.now.first filter.now.second filter.now.asked }
    ensures set { (k : ℕ) → k < 32 → pair_marks filter.now (slice_index text.now (at + k)) (slice_index text.now (at + k + 1)) ≢ 0 → bit_at result k ≡ 1 }
    ensures only { (k : ℕ) → bit_at result k ≡ 1 → (k < 32) × (pair_marks filter.now (slice_index text.now (at + k)) (slice_index text.now (at + k + 1)) ≢ 0) }
{
    match filter.asked {
        Asked::Marks => has_marks(filter, text, at),
        Asked::First => has_first(filter, text, at),
        Asked::Byte(byte) => has_byte(text, at, byte),
        Asked::Pair(a, b) => has_pair(text, at, a, b),
    }
}

/// The first place from a place on where a way may begin; the end of the text, if there is none. A text that is not long is not
/// looked at.
#[inline]
pub fn seek(filter: &Filter, text: &[u8], from: usize) -> usize
    requires within { from ≤ length text.now }
    requires asked { IsAsked filter.now.first filter.now.second filter.now.asked }
    ensures low { from ≤ result }
    ensures high { result ≤ length text.now }
    ensures passed { (k : ℕ) → from ≤ k → k < result → IsPassedOver filter.now text.now k }
    ensures stops { 33 ≤ length text.now → result < length text.now → IsPassedOver filter.now text.now result → ⊥ }
{
    let mut last = Block::none();
    seek_noting(filter, text, from, &mut last)
}

/// The same, and what was found out of the 32 places around it is left in `known`, where places were looked at together.
#[inline(always)]
pub fn seek_noting(filter: &Filter, text: &[u8], from: usize, known: &mut Block) -> usize
    requires within { from ≤ length text.now }
    requires asked { IsAsked filter.now.first filter.now.second filter.now.asked }
    ensures low { from ≤ result }
    ensures high { result ≤ length text.now }
    ensures passed { (k : ℕ) → from ≤ k → k < result → IsPassedOver filter.now text.now k }
    ensures stops { 33 ≤ length text.now → result < length text.now → IsPassedOver filter.now text.now result → ⊥ }
    ensures known { (known.new ≡ known.old) ⊎ Tells filter.now text.now known.new }
{
    if filter.is_empty {
        return text.len();
    }
    if text.len() < LONG {
        return from;
    }
    let end = text.len() - 1;
    let last = end - 32;
    let mut at = from;
    while at < end {
        let start = at.min(last);
        let all = may_begin(filter, text, start);
        let marked = bits_from(all, at - start);
        if marked != 0 {
            *known = Block { start, marked: all };
            return at + lowest(marked);
        }
        at = start + 32;
    }
    if at == end && filter.first.of(text[end]) == 0 {
        return text.len();
    }
    at
}
