//! The kinds of words.

ghost use Rattle.std.specs.Prelude.{◌≡◌, map};
ghost use Rattle.rawk_keywords.specs.Keywords as spec;

use crate::builtin::builtin_named;
use crate::token::{Kind, WORDS};

fn lookup(mut table: &[(&[u8], Kind)], word: &[u8]) -> Kind
    ensures { result ≡ spec.lookup (map (λ k. (k.0.now, k.1)) table.entry.now) word.now }
{
    while let [entry, rest @ ..] = table {
        if word == entry.0 {
            return entry.1;
        }
        table = rest;
    }
    Kind::Name
}

/// The kind of a word: that of a keyword, of a built-in function or of what is left out, or a name.
#[tactic(auto, unfolding(crate::specs::Keywords::keyword))]
pub fn keyword(word: &[u8]) -> Kind
    ensures { result ≡ spec.keyword word.now }
{
    match builtin_named(word) {
        None => lookup(&WORDS, word),
        Some(_) => Kind::Builtin,
    }
}
