//! A stretch of a text.

/// A stretch of a text, from `start` up to `end`, in bytes from 0.
#[derive(Clone, Copy, PartialEq, Eq)]
pub struct Span {
    pub start: usize,
    pub end: usize,
}
