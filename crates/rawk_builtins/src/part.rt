//! Parts of texts.

ghost use Rattle.std.specs.Prelude.{◌≡◌, ◌≤◌, ◌<◌, ◌<ℤ◌, ◌+ℤ◌, ◌^◌, ◌↔◌, ℕ, pos, length};
ghost use Rattle.std.specs.List.{slice_range};
ghost use Rattle.rawk_builtins.specs.Builtins.{substring};

use std::ops::Range;

// How many places of a text of this length, counted from 1, come before one.
fn places_before(length: usize, place: i64) -> usize
    ensures within { result ≤ length }
    ensures before { (p : ℕ) → 0 < p → p ≤ length → (p ≤ result) ↔ (pos p <ℤ place) }
{
    if place <= 1 {
        0
    } else {
        length.min(place as usize - 1)
    }
}

// How many come before the place `from + count`.
fn places_before_sum(length: usize, from: i64, count: i64) -> usize
    requires { length < 2 ^ 63 }
    ensures within { result ≤ length }
    ensures before { (p : ℕ) → 0 < p → p ≤ length → (p ≤ result) ↔ (pos p <ℤ (from +ℤ count)) }
{
    match from.checked_add(count) {
        Some(place) => places_before(length, place),
        None if count < 0 => 0,
        None => length,
    }
}

/// The range, by numbers from 0, of the bytes at the places from `from` on, counted from 1; with a count, at that many places
/// (POSIX awk, String Functions). Of these the text may lack some, at both ends: `from` may be 0 or less. It takes no memory.
pub fn substr_range(text: &[u8], from: i64, count: Option<i64>) -> Range<usize>
    ensures order { result.start ≤ result.end }
    ensures within { result.end ≤ length text.now }
    ensures bytes { slice_range text.now result.start result.end ≡ substring text.now from count }
{
    let length = text.len();
    let start = places_before(length, from);
    let end = match count {
        None => length,
        Some(count) => places_before_sum(length, from, count),
    };
    start..end.max(start)
}

/// The bytes of `substr_range`, in place.
pub fn substr(text: &[u8], from: i64, count: Option<i64>) -> &[u8]
    ensures { result.now ≡ substring text.now from count }
{
    let range = substr_range(text, from, count);
    &text[range.start..range.end]
}
