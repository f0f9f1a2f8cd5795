//! The tree of an extended regular expression, as it is kept.

use crate::byte_set::ByteSet;

/// How many times a part may stand, one after the other (POSIX XBD 9.4.6).
#[derive(Clone, Copy, PartialEq, Eq)]
pub enum Count {
    /// `*`
    Star,
    /// `+`
    Plus,
    /// `?`
    Maybe,
    /// `{m,}`
    AtLeast(u8),
    /// `{m}` and `{m,n}`: from the first number, and as many more as the second says.
    Between(u8, u8),
}

/// An extended regular expression. Only groups and repetitions are nodes inside nodes, so no call on it goes deeper than they do.
#[derive(Drop)]
pub enum Node {
    /// Nothing stands here: the empty text.
    Empty,
    /// One byte of the set.
    OneOf(ByteSet),
    /// `^`
    Start,
    /// `$`
    End,
    /// The parts, one after the other.
    Join(Vec<Node>),
    /// One of the parts.
    Either(Vec<Node>),
    /// A part in parentheses.
    Group(Box<Node>),
    /// A part, as often as the count says.
    Repeat(Box<Node>, Count),
}
