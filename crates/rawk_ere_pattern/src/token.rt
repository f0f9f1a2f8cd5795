//! The tokens of a pattern.

use rawk_ere_tree::byte_set::ByteSet;
use rawk_ere_tree::node::Count;

/// What a byte, an escape, a bracket expression or an operator of a pattern stands for.
#[derive(Clone, Copy)]
pub enum Token {
    /// One byte of the set.
    OneOf(ByteSet),
    /// `^`
    Start,
    /// `$`
    End,
    /// `|`
    Bar,
    /// `(`
    Open,
    /// `)`
    Close,
    /// `*`, `+`, `?` or an interval
    Times(Count),
}
