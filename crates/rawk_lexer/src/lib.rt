//! The tokens of an AWK program's text, and the bytes that its strings stand for.
#![tactic(auto)]

mod bytes;
pub mod cursor;
mod ere;
mod escape;
pub mod laws;
mod line;
mod scan;

pub use cursor::Cursor;
pub use escape::{unescaped, unquoted};
pub use line::{line_of, newlines};
pub use rawk_keywords::Kind;
