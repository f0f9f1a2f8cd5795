//! Arrays, where they are named.

/// An array, where it is named (POSIX awk, Expressions in awk; User-Defined Functions).
#[derive(Clone, Copy, PartialEq, Eq)]
pub enum Array {
    /// a global one, by its number from 0
    Global(usize),
    /// the one that a local of the innermost activation names, by the local's number from 0
    Local(usize),
}
