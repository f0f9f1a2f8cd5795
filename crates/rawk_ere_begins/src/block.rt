//! What is known of 32 places of a text.

ghost use Rattle.std.specs.Prelude.{◌≡◌, ℕ, ◌+◌, ◌-◌, ◌^◌, ◌<◌, ◌≤◌};
ghost use Rattle.std.specs.Option.{IfSome};
ghost use Rattle.rawk_ere_begins.specs.Filters.{IsNextMarked, IsUnmarked, StandsBelow};

use crate::lanes::{bits_from, lowest};

/// How many places a block tells of.
const PLACES: usize = 32;

/// A bit for each of 32 places of a text, the lowest for the first one: set where a way may begin.
#[derive(Clone, Copy)]
pub struct Block {
    /// The first place.
    pub start: usize,
    pub marked: u64,
}

impl Block {
    /// A block of no place of any text.
    #[inline(always)]
    pub fn none() -> Block
        ensures start { result.start + 1 ≡ 2 ^ 64 }
        ensures marked { result.marked ≡ 0 }
    {
        Block {
            start: usize::MAX,
            marked: 0,
        }
    }

    /// The first place from a place on where a way may begin, if the block tells of the place and has one.
    #[inline(always)]
    pub fn next(&self, from: usize) -> Option<usize>
        requires { StandsBelow self.now (2 ^ 64) }
        ensures { IfSome result (IsNextMarked self.now from) }
    {
        if from < self.start {
            return None;
        }
        let by = from - self.start;
        if by >= PLACES {
            return None;
        }
        let marked = bits_from(self.marked, by);
        if marked == 0 {
            return None;
        }
        Some(from + lowest(marked))
    }

    /// From where on the block tells nothing of the places that follow: the place itself, or the end of the block, if a way may begin
    /// nowhere from the place on to there.
    #[inline(always)]
    pub fn past(&self, from: usize) -> usize
        ensures low { from ≤ result }
        ensures passed { (k : ℕ) → from ≤ k → k < result → IsUnmarked self.now k }
    {
        if from < self.start {
            return from;
        }
        let by = from - self.start;
        if by >= PLACES || bits_from(self.marked, by) != 0 {
            return from;
        }
        from.saturating_add(PLACES - by)
    }
}
