//! Places that can be assigned.

use rawk_value::Bytes;
use rawk_words::Array;

/// A place whose subscripts and field number are settled.
#[derive(Drop)]
pub enum Target {
    /// a global, by its number from 0
    Global(usize),
    /// a local of the innermost activation, by its number from 0
    Local(usize),
    /// NF
    FieldCount,
    /// a field by its number; `$0` has the number 0
    Field(usize),
    /// an element of an array, by its key
    Element(Array, Bytes),
}
