//! The place of a record.

/// A record: where it begins and ends among the kept bytes, and how many of them are consumed
/// once it is.
#[derive(Clone, Copy, PartialEq, Eq)]
pub struct Found {
    /// The place of its first byte.
    pub start: usize,
    /// The place behind its last byte.
    pub end: usize,
    /// The count of consumed bytes once it is consumed, with what ends it.
    pub count: usize,
}
