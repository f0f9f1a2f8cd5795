//! Where a session stops, and what it shows and sets.

use rawk_value::Bytes;
use rawk_words::Array;

/// A scalar that all activations share.
#[derive(Clone, Copy)]
pub enum Scalar {
    /// A global, by its number: the special variables come first.
    Global(usize),
    /// NF.
    FieldCount,
    /// A field, by its number: `$0` has the number 0.
    Field(usize),
}

/// What can be watched.
#[derive(Drop)]
pub enum Watched {
    /// A scalar that all activations share.
    Scalar(Scalar),
    /// An element of an array of the program, by the array's number from 0 and its key.
    Element(usize, Bytes),
}

/// What can be shown and set.
#[derive(Drop)]
pub enum Lvalue {
    /// A local of the innermost activation, by its number from 0.
    Local(usize),
    /// A scalar that all activations share.
    Shared(Scalar),
    /// An element of an array, by its key.
    Element(Array, Bytes),
}

/// What stops a search.
#[derive(Drop)]
pub enum Stop {
    /// A breakpoint at a site.
    Break(usize),
    /// A watch.
    Watch(Watched),
}

/// A breakpoint or a watch, with its number.
#[derive(Drop)]
pub struct Entry {
    pub number: u64,
    pub stop: Stop,
}
