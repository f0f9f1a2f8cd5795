//! The special variables (POSIX awk, Variables and Special Variables), each by its number.

ghost use Rattle.std.specs.Prelude.{◌≡◌, ◌<◌, [], position, slice_index_or, IfOk};
ghost use Rattle.std.specs.Str.{bytes_eq};
ghost use Rattle.rawk_value.specs.declared.value.Value.{Value};
ghost use Rattle.rawk_special.specs.Special as spec;
ghost use Rattle.rawk_special.specs.First.{value_of};

use rawk_value::{Bytes, Value};
use std::alloc::{AllocError, Global};

/// How many records were read.
pub const NR: usize = 0;

/// How many records of the present input file were read.
pub const FNR: usize = 1;

/// What separates the fields of a record.
pub const FS: usize = 2;

/// What `print` writes between two values.
pub const OFS: usize = 3;

/// What `print` writes at the end of a line.
pub const ORS: usize = 4;

/// What separates the records of the input.
pub const RS: usize = 5;

/// What stands between the subscripts of an element.
pub const SUBSEP: usize = 6;

/// How a number becomes a text.
pub const CONVFMT: usize = 7;

/// How `print` writes a number.
pub const OFMT: usize = 8;

/// Where the text found by `match` begins.
pub const RSTART: usize = 9;

/// How long the text found by `match` is.
pub const RLENGTH: usize = 10;

/// The name of the number of fields, NF, a special variable that is no global.
pub const FIELD_COUNT: &[u8] = b"NF";

/// How many special variables have a number. A program's own globals follow them.
pub const COUNT: usize = RLENGTH + 1;

/// What a special variable is before a program's first instruction.
#[derive(Clone, Copy)]
enum First {
    Number(i64),
    Text(&'static [u8]),
}

/// The special variables, in the order of their numbers: the name of each, and what it is at first.
static SPECIALS: [(&[u8], First); COUNT] = [
    (b"NR", First::Number(0)),
    (b"FNR", First::Number(0)),
    (b"FS", First::Text(b" ")),
    (b"OFS", First::Text(b" ")),
    (b"ORS", First::Text(b"\n")),
    (b"RS", First::Text(b"\n")),
    (b"SUBSEP", First::Text(b"\x1c")),
    (b"CONVFMT", First::Text(b"%.6g")),
    (b"OFMT", First::Text(b"%.6g")),
    (b"RSTART", First::Number(0)),
    (b"RLENGTH", First::Number(-1)),
];

/// The place of a name among those of several variables.
fn place_among(word: &[u8], table: &[(&[u8], First)]) -> Option<usize>
    ensures { result ≡ position (λ s. bytes_eq word.now s.0.now) table.now }
{
    table.iter().position(|s| word == s.0)
}

/// The number of a special variable other than NF, by its name. It takes no memory.
#[tactic(auto, unfolding(crate::specs::Special::special_number))]
pub fn special_number(word: &[u8]) -> Option<usize>
    ensures { result ≡ spec.special_number word.now }
{
    place_among(word, &SPECIALS)
}

/// Whether this is the name of the number of fields, NF.
pub fn is_field_count(word: &[u8]) -> bool
    ensures { result ≡ spec.is_field_count word.now }
{
    word == FIELD_COUNT
}

/// Whether this is the name of a special variable.
pub fn is_special(word: &[u8]) -> bool
    ensures { result ≡ spec.is_special word.now }
{
    is_field_count(word) || special_number(word).is_some()
}

/// The name of a special variable, by its number.
pub fn special_name(number: usize) -> &'static [u8]
    requires { number < COUNT }
    ensures { result.now ≡ slice_index_or spec.special_names number [] }
{
    SPECIALS[number].0
}

/// A first value, made anew. It fails where memory is refused.
fn value_of(alloc: Global, first: First) -> Result<Value, AllocError>
    ensures { IfOk result (λ v. v ≡ value_of first) }
{
    match first {
        First::Number(n) => Ok(Value::Number(n)),
        First::Text(text) => Ok(Value::String(Bytes::from_slice(alloc, text)?)),
    }
}

/// The value of a special variable before a program's first instruction, by its number. It fails where memory is refused.
pub fn first_value(alloc: Global, number: usize) -> Result<Value, AllocError>
    requires { number < COUNT }
    ensures { IfOk result (λ v. v ≡ slice_index_or spec.first_specials number Value.Uninitialized) }
{
    value_of(alloc, SPECIALS[number].1)
}
