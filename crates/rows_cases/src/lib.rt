//! Cases as data: each stands beside the answer that is wanted, and a program says which of its answers differ.
//!
//! An empty line, and one that begins with `#`, is no case. A case is a line of parts with tabs between, and behind ` => ` the answer:
//!
//! ```text
//! find<tab>a{2,3}<tab>xaa => 1,3
//! ```
//!
//! In the parts and the answer `\n` is a newline, `\t` a tab, `\\` a backslash and `\xNN` the byte of two hexadecimal digits.
//! `\{N*TEXT}` is the text N times, and `\{M..N*TEXT}` once for each number from M up or down to N; in the text `\#` is the number of
//! the turn (from 1 on, where no M stands), `\}` a `}`, and further repetitions may stand. Before another byte a backslash is itself.
//! An input stands in the head behind `<<< `, and is a part that begins with `<`.
//!
//! A line without ` => ` begins a block, whose lines stand as they are, up to an empty line. Those that begin with `| ` are a text,
//! and make one more part; those that begin with `> ` are what is typed, and make one more, which begins with `>`. The others are
//! the lines of the answer. A block may begin with its text.
//!
//! ```text
//! { n += $1 } <<< 3\n4\n
//! > step
//! point 1, line 1
//! > print $1
//! $1 = "3"
//! ```
//!
//! A value is `u` for uninitialised, a number, `"text"` for a string, or `<text>` for an input text.
#![tactic(auto)]

mod case;
mod escape;
mod judging;
mod number;
mod value;

pub use case::{Case, cases_of};
pub use escape::{shown, unescaped};
pub use judging::judge;
pub use number::{number_of, setting_of};
pub use value::{push_value, value_of};
