//! What can be a name.

ghost use Rattle.std.specs.Prelude.{◌≡◌};
ghost use Rattle.std.specs.List.{list_all};
ghost use Rattle.rawk_keywords.specs.Name as spec;

use crate::class::{Class, is_in};
use crate::token::Kind;
use crate::words::keyword;

/// Whether a name may begin with a byte.
pub fn begins_name(b: u8) -> bool
    ensures { result ≡ spec.begins_name b }
{
    b.is_ascii_alphabetic() || b == b'_'
}

/// Whether a name may go on with a byte.
pub fn is_in_name(b: u8) -> bool
    ensures { result ≡ spec.is_in_name b }
{
    is_in(Class::Word, b)
}

fn are_in_name(text: &[u8]) -> bool
    ensures { result ≡ list_all spec.is_in_name text.now }
{
    text.iter().all(|b| is_in_name(*b))
}

/// Whether a text has the form of a name (POSIX awk, "Lexical Conventions"): a letter or `_`, and then letters, digits and `_`. It
/// may be a keyword.
pub fn has_name_form(text: &[u8]) -> bool
    ensures { result ≡ spec.has_name_form text.now }
{
    match text {
        [first, rest @ ..] => begins_name(*first) && are_in_name(rest),
        [] => false,
    }
}

/// Whether a word is a keyword or the name of a built-in function, and so no name of a program. A word that the language leaves
/// out is none.
pub fn is_reserved(word: &[u8]) -> bool
    ensures { result ≡ spec.is_reserved word.now }
{
    !matches!(keyword(word), Kind::Name | Kind::LeftOut)
}
