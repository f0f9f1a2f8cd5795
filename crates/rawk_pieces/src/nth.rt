//! One run of a text, sought without cutting the others.

ghost use Rattle.std.specs.Prelude.{◌≡◌, ◌≤◌, ◌<◌, ◌+◌, ◌||◌, length, min, nat_lt, slice_get, slice_range};
ghost use Rattle.std.specs.Option.{IfSome, option_map};
ghost use Rattle.rawk_pieces.specs.Masks.{IsMaskFrom};
ghost use Rattle.rawk_pieces.specs.Nth.{IsCounted, IsPassed, IsSought};
ghost use Rattle.rawk_pieces.specs.Pieces.{IsInRange, runs_by};

use crate::class::{Class, mask_at, mask_of_short};
use crate::mask::{lowest_bit, without_bit};
use crate::pieces::Piece;

/// Where the search for a run has come.
#[derive(Clone, Copy)]
pub enum Sought {
    Found(Piece),
    /// Where the last run begins, and how many are left before the one that is sought.
    Behind { start: usize, left: usize },
}

/// Whether a run counts: where it has bytes, or where empty ones count too.
#[inline(always)]
fn counts(empty_too: bool, start: usize, end: usize) -> bool
    ensures { result ≡ empty_too || nat_lt start end }
{
    empty_too || start < end
}

/// How many runs are left before the one that is sought, behind one that counts or not; none: it is the one that is sought.
#[inline(always)]
fn passed(counts: bool, left: usize) -> Option<usize>
    ensures { IsPassed counts left result }
{
    if !counts {
        return Some(left);
    }
    left.checked_sub(1)
}

/// Passes the runs that end among the next 32 bytes, whose separators are marked, up to the one that is sought.
#[inline(always)]
fn seek_in_block<C: Class>(
    class: &C,
    empty_too: bool,
    text: &[u8],
    place: usize,
    marks: u64,
    at: usize,
    begin: usize,
    before: usize,
) -> Sought
    requires marks { IsMaskFrom (C.contains class.now) text.now at at marks }
    requires inside { at < length text.now }
    requires counted { IsCounted (C.contains class.now) empty_too text.now place begin at before }
    ensures { IsSought (C.contains class.now) empty_too text.now place (min (at + 32) (length text.now)) result }
{
    let (_class, _text, _place) = (class, text, place);
    let mut rest = marks;
    let mut start = begin;
    let mut left = before;
    while rest != 0 {
        let bit = lowest_bit(rest);
        let end = at + bit;
        match passed(counts(empty_too, start, end), left) {
            None => return Sought::Found(Piece { start, end }),
            Some(more) => left = more,
        }
        start = end + 1;
        rest = without_bit(rest, bit);
    }
    Sought::Behind { start, left }
}

/// Passes the runs of a text, 32 bytes at a time, up to the one that is sought.
#[inline(always)]
fn seek_in_blocks<C: Class>(class: &C, empty_too: bool, text: &[u8], place: usize) -> Sought
    requires { 32 ≤ length text.now }
    ensures { IsSought (C.contains class.now) empty_too text.now place (length text.now) result }
{
    let mut start = 0;
    let mut left = place;
    let mut at = 0;
    while at < text.len() {
        let marks = mask_at(class, text, at);
        match seek_in_block(class, empty_too, text, place, marks, at, start, left) {
            Sought::Found(piece) => return Sought::Found(piece),
            Sought::Behind {
                start: last,
                left: more,
            } => {
                start = last;
                left = more;
            }
        }
        at = (at + 32).min(text.len());
    }
    Sought::Behind { start, left }
}

/// Passes the runs of a text of any length up to the one that is sought.
#[inline(always)]
fn seek<C: Class>(class: &C, empty_too: bool, text: &[u8], place: usize) -> Sought
    ensures { IsSought (C.contains class.now) empty_too text.now place (length text.now) result }
{
    if text.len() == 0 {
        return Sought::Behind {
            start: 0,
            left: place,
        };
    }
    if text.len() < 32 {
        let marks = mask_of_short(class, text);
        return seek_in_block(class, empty_too, text, place, marks, 0, 0, place);
    }
    seek_in_blocks(class, empty_too, text, place)
}

/// A run of bytes outside the class, counted from 0 among those that are not empty, or among all; none: there are at most `place`. It takes no memory, and looks at no more than 32 bytes behind the
/// run.
#[inline(always)]
pub fn nth_run<C: Class>(class: &C, empty_too: bool, text: &[u8], place: usize) -> Option<Piece>
    ensures run { option_map (λ p. slice_range text.now p.start p.end) result ≡ slice_get (runs_by empty_too (C.contains class.now) text.now) place }
    ensures in_range { IfSome result (IsInRange text.now) }
{
    match seek(class, empty_too, text, place) {
        Sought::Found(piece) => Some(piece),
        Sought::Behind { start, left } => match passed(counts(empty_too, start, text.len()), left) {
            None => Some(Piece {
                start,
                end: text.len(),
            }),
            Some(_) => None,
        },
    }
}
