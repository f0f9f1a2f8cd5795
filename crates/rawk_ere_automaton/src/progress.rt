//! How a search went so far.

/// How a search from place to place went.
#[derive(Clone, Copy)]
pub enum Progress {
    /// The begin of the first way, and the end of the longest there.
    Found(usize, usize),
    /// No way begins before the end of the text.
    Nothing,
    /// None begins before this place. The search has read what it was allowed to.
    Paused(usize),
}

/// How a search for the first place went where a way that reads a byte may begin, in the text or in a longer one.
#[derive(Clone, Copy)]
pub enum Opening {
    /// The place, the end of the longest way from there, and whether one from there wants to know what follows the text.
    At(usize, Option<usize>, bool),
    /// No such place is before this one. The search has read what it was allowed to, or the text.
    After(usize),
}
