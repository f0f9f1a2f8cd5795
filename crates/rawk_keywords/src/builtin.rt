//! The built-in functions, each with its word and how many arguments it takes.

ghost use Rattle.std.specs.Prelude.{◌≡◌};
ghost use Rattle.rawk_keywords.specs.Builtins as spec;

/// The built-in functions (POSIX awk, "Arithmetic Functions", "String Functions").
#[derive(Clone, Copy, Debug, PartialEq, Eq)]
pub enum Builtin {
    Length,
    Index,
    Substr,
    Split,
    Sub,
    Gsub,
    Match,
    Sprintf,
    Tolower,
    Toupper,
    Int,
}

/// A function's word, the function, and how many arguments it takes at least and, where there is a most, at most.
type Row = (&'static [u8], Builtin, usize, Option<usize>);

/// The built-in functions.
static BUILTINS: [Row; 11] = [
    (b"length", Builtin::Length, 0, Some(1)),
    (b"index", Builtin::Index, 2, Some(2)),
    (b"substr", Builtin::Substr, 2, Some(3)),
    (b"split", Builtin::Split, 2, Some(3)),
    (b"sub", Builtin::Sub, 2, Some(3)),
    (b"gsub", Builtin::Gsub, 2, Some(3)),
    (b"match", Builtin::Match, 2, Some(2)),
    (b"sprintf", Builtin::Sprintf, 1, None),
    (b"tolower", Builtin::Tolower, 1, Some(1)),
    (b"toupper", Builtin::Toupper, 1, Some(1)),
    (b"int", Builtin::Int, 1, Some(1)),
];

/// The function of a word, by a table of functions.
fn named_in(mut table: &[Row], word: &[u8]) -> Option<Builtin>
    ensures { result ≡ spec.named_in (spec.rows_of table.entry.now) word.now }
{
    while let [row, rest @ ..] = table {
        if word == row.0 {
            return Some(row.1);
        }
        table = rest;
    }
    None
}

/// The built-in function that a word names.
#[tactic(auto, unfolding(crate::specs::Builtins::builtin_named))]
pub fn builtin_named(word: &[u8]) -> Option<Builtin>
    ensures { result ≡ spec.builtin_named word.now }
{
    named_in(&BUILTINS, word)
}

/// Whether a count is no less than the least and, where there is a most, no more than that.
fn is_within(count: usize, least: usize, most: Option<usize>) -> bool
    ensures { result ≡ spec.is_within count least most }
{
    match most {
        None => least <= count,
        Some(most) => least <= count && count <= most,
    }
}

/// Whether a function takes this many arguments, by a table of functions.
fn taken_in(mut table: &[Row], function: Builtin, count: usize) -> bool
    ensures { result ≡ spec.taken_in (spec.rows_of table.entry.now) function count }
{
    while let [row, rest @ ..] = table {
        if row.1 == function {
            return is_within(count, row.2, row.3);
        }
        table = rest;
    }
    false
}

/// Whether a built-in function takes this many arguments.
#[tactic(auto, unfolding(crate::specs::Builtins::takes))]
pub fn takes(function: Builtin, count: usize) -> bool
    ensures { result ≡ spec.takes function count }
{
    taken_in(&BUILTINS, function, count)
}
