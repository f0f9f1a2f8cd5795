//! The fields of a text, as places in it.
#![tactic(auto)]

pub mod class;
mod mask;
mod matches;
pub mod nth;
pub mod pieces;

pub use class::{Blank, ByteClass, Class};
pub use nth::nth_run;
pub use pieces::{Fields, Piece, Separator, cut, fields_of, pieces_between};
