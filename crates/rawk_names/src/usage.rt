//! How the variables of a program are used.

use rawk_special::COUNT;

/// How many special variables there are; they are the first variables.
pub const SPECIALS: usize = COUNT + 1;

/// How a name is used. Variables and parameters are places among all variables of the program.
#[derive(Clone, Copy, PartialEq, Eq)]
pub enum Manner {
    Scalar,
    Array,
    /// as fits both, as in `length(x)`
    Either,
    /// alone, as the argument for a parameter
    Argument(usize),
}

/// What stands at a place of the text.
#[derive(Clone, Copy, PartialEq, Eq)]
pub enum What {
    /// a variable
    Named(Manner, usize),
    /// an argument for a parameter, which is no name alone
    Value(usize),
    /// a regular expression, by its number
    Pattern(usize),
    /// a name that can't stand there, whatever is an array
    Misuse,
}

/// One use of a name, with its place: how many bytes there are from there to the end of the text.
#[derive(Clone, Copy, PartialEq, Eq)]
pub struct Usage {
    pub left: usize,
    pub what: What,
}

/// The parameters of a function: the place of the first among all variables, and the place behind the last.
#[derive(Clone, Copy, PartialEq, Eq)]
pub struct Signature {
    pub first: usize,
    pub end: usize,
}
