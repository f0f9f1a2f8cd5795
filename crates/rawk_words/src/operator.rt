//! What joins tests, what stands before an operand, and which matches are replaced.

/// What joins two tests (POSIX awk, Expressions in awk).
#[derive(Clone, Copy, PartialEq, Eq)]
pub enum Logic {
    /// `&&`
    And,
    /// `||`
    Or,
}

/// What stands before an operand (POSIX awk, Expressions in awk).
#[derive(Clone, Copy, PartialEq, Eq)]
pub enum Sign {
    Plus,
    Minus,
    Not,
}

/// Which matches a replacement takes (POSIX awk, String Functions).
#[derive(Clone, Copy, PartialEq, Eq)]
pub enum Extent {
    /// the first one, as `sub` does
    First,
    /// all of them, as `gsub` does
    All,
}
