//! Which bytes a way may begin with, and which may come next.

ghost use Rattle.std.specs.Prelude.{◌≡◌, ◌≢◌, ◌↔◌, ℕ, ◌+◌, ◌*◌, ◌<◌, ◌≤◌, ◌⊎◌, IsTrue, true, false, length, slice_index};
ghost use Rattle.std.specs.Int.{bit_at};
ghost use Rattle.std.specs.Option.{ForSome};
ghost use Rattle.rawk_ere_begins.specs.Filters.{AllLeadTo, AreSingle, HasMark, IsAsked, IsFilter, IsOnly, KeepsMarks, marks_of};

use crate::nibbles::Nibbles;

/// What has to be asked of a byte and the next one, to know whether they have a mark in common.
#[derive(Clone, Copy)]
pub enum Asked {
    /// which marks both have
    Marks,
    /// whether the first one has marks: then it has one in common with any that comes next
    First,
    /// whether the first one is this byte: it has a mark in common with any that comes next, and no other has
    Byte(u8),
    /// whether they are these two: no others have a mark in common
    Pair(u8, u8),
}

/// The first bytes of ways and their second bytes: those of one way have a mark in common.
#[derive(Clone, Copy)]
pub struct Filter {
    pub first: Nibbles,
    pub second: Nibbles,
    /// Whether no way reads a byte.
    pub is_empty: bool,
    /// Whether each way is one byte long.
    pub is_single: bool,
    pub asked: Asked,
}

/// Gives a mark to the bytes that may come after one that led to the row.
fn give_nexts(second: &mut Nibbles, next: &[u8], is_end: bool, row: usize, dead: usize, mark: usize)
    requires row { 256 * (row + 1) ≤ length next.now }
    requires mark { mark < 8 }
    ensures keeps { KeepsMarks second.old second.new }
    ensures has { (b : ℕ) → b < 256 → (is_end ≡ true) ⊎ (slice_index next.now (row * 256 + b) ≢ dead) → HasMark second.new b mark }
{
    for byte in 0..256usize {
        if is_end || next[row * 256 + byte] as usize != dead {
            second.give(byte as u8, mark);
        }
    }
}

/// The only byte that has marks, if no other has.
fn only_marked(marks: &Nibbles) -> Option<u8>
    ensures { ForSome result (λ a. (x : ℕ) → x < 256 → marks_of marks.now x ≢ 0 → x ≡ a) }
{
    let mut only = None;
    for byte in 0..256usize {
        if marks.of(byte as u8) != 0 {
            if only.is_some() {
                return None;
            }
            only = Some(byte as u8);
        }
    }
    only
}

/// The only two bytes that have a mark in common, if no others do.
fn find_only(first: &Nibbles, second: &Nibbles) -> Option<(u8, u8)>
    ensures { ForSome result (IsOnly first.now second.now) }
{
    let a = only_marked(first)?;
    let b = only_marked(second)?;
    if first.of(a) & second.of(b) == 0 {
        return None;
    }
    Some((a, b))
}

/// The marks that bytes have.
fn all_marks(marks: &Nibbles) -> u8
    ensures { (x i : ℕ) → x < 256 → bit_at (marks_of marks.now x) i ≡ 1 → bit_at result i ≡ 1 }
{
    let mut all = 0;
    for byte in 0..256usize {
        all |= marks.of(byte as u8);
    }
    all
}

/// Whether each byte has all of some marks.
fn have_all(marks: &Nibbles, all: u8) -> bool
    ensures { IsTrue result → (y i : ℕ) → y < 256 → bit_at all i ≡ 1 → bit_at (marks_of marks.now y) i ≡ 1 }
{
    for byte in 0..256usize {
        if marks.of(byte as u8) & all != all {
            return false;
        }
    }
    true
}

/// The only byte that has marks, where any may come next.
fn find_byte(first: &Nibbles) -> Option<u8>
    ensures { ForSome result (λ a. (x : ℕ) → x < 256 → (marks_of first.now x ≢ 0) ↔ (x ≡ a)) }
{
    let byte = only_marked(first)?;
    if first.of(byte) == 0 {
        return None;
    }
    Some(byte)
}

/// What has to be asked of two bytes.
fn find_asked(first: &Nibbles, second: &Nibbles) -> Asked
    ensures { IsAsked first.now second.now result }
{
    if have_all(second, all_marks(first)) {
        return match find_byte(first) {
            Some(byte) => Asked::Byte(byte),
            None => Asked::First,
        };
    }
    match find_only(first, second) {
        Some((a, b)) => Asked::Pair(a, b),
        None => Asked::Marks,
    }
}

/// Whether each byte leads from a row to another one, or to itself.
pub fn all_lead_to(next: &[u8], row: usize, to: usize) -> bool
    requires { 256 * (row + 1) ≤ length next.now }
    ensures { IsTrue result ↔ AllLeadTo next.now to row }
{
    for byte in 0..256usize {
        if next[row * 256 + byte] as usize != to {
            return false;
        }
    }
    true
}

/// Whether each byte that leads on from the row `later`, which is no end, leads to an end from which no byte leads on.
fn are_single(next: &[u8], ends: &[bool], later: usize, dead: usize) -> bool
    requires later { later < length ends.now }
    requires all { length next.now ≡ 256 * length ends.now }
    requires rows { (k : ℕ) → k < length next.now → slice_index next.now k < length ends.now }
    ensures { IsTrue result → AreSingle next.now ends.now later dead }
{
    if ends[later] {
        return false;
    }
    let mut row = dead;
    for byte in 0..256usize {
        let to = next[later * 256 + byte] as usize;
        if to != dead && to != row {
            if !ends[to] || !all_lead_to(next, to, dead) {
                return false;
            }
            row = to;
        }
    }
    true
}

/// The filter of a table of rows: by the bytes that lead on from the row `later`, and those that lead on from there. Bytes that
/// lead to the same row have the same mark.
pub fn find_filter(next: &[u8], ends: &[bool], later: usize, dead: usize) -> Filter
    requires later { later < length ends.now }
    requires all { length next.now ≡ 256 * length ends.now }
    requires rows { (k : ℕ) → k < length next.now → slice_index next.now k < length ends.now }
    ensures { IsFilter next.now ends.now later dead result }
{
    let mut first = Nibbles::none();
    let mut second = Nibbles::none();
    let mut mark = 0;
    let mut row = dead;
    for byte in 0..256usize {
        let to = next[later * 256 + byte] as usize;
        if to != dead {
            if to != row {
                mark = (mark + 1) % 8;
                row = to;
                give_nexts(&mut second, next, ends[row], row, dead, mark);
            }
            first.give(byte as u8, mark);
        }
    }
    Filter {
        first,
        second,
        is_empty: row == dead,
        is_single: are_single(next, ends, later, dead),
        asked: find_asked(&first, &second),
    }
}
