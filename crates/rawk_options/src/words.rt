//! Words of a command line in which the value of an option may be attached to its letter (POSIX.1-2017, Utility Syntax Guidelines).
ghost use Rattle.std.specs.Prelude.{◌≡◌, ◌++◌, ◌<◌, IfOk, OnOk, length, map, slice_index, string_bytes, true};
ghost use Rattle.rawk_options.specs.declared.words.Next.{Next};
ghost use Rattle.rawk_options.specs.Words as spec;

use std::alloc::{AllocError, Global};

/// What the next word may be.
#[derive(Clone, Copy)]
pub(crate) enum Next {
    /// an option or an operand
    Word,
    /// the value of the option before
    Value,
    /// an operand
    Operand,
}

/// The words, each value that is attached to an option's letter as a word of its own: `-F:` is `-F` and `:`. What stands
/// behind `--`, or is itself the value of the option before, stays as it is.
pub(crate) fn separated<'a>(alloc: Global, words: &'a [String]) -> Result<Vec<&'a str>, AllocError>
    ensures { IfOk result (λ separated. map (λ s. s.now) separated.items ≡ spec.separated_from Next.Word (map string_bytes words.now)) }
{
    let mut separated = Vec::new(alloc);
    let mut next = Next::Word;
    for word in words {
        next = push_word(&mut separated, next, word.as_str())?;
    }
    Ok(separated)
}

/// Adds a word, or the two that it stands for, and answers what the next one may be.
fn push_word<'a>(
    separated: &mut Vec<&'a str>,
    next: Next,
    word: &'a str,
) -> Result<Next, AllocError>
    ensures added { OnOk result (map (λ s. s.now) separated.new.items ≡ map (λ s. s.now) separated.old.items ++ spec.parts next word.now) }
    ensures next { IfOk result (λ after. after ≡ spec.behind next word.now) }
{
    if matches!(next, Next::Word) && has_value(word) {
        let (option, value) = word.split_at(2);
        separated.push(option)?;
        separated.push(value)?;
    } else {
        separated.push(word)?;
    }
    Ok(behind(next, word))
}

/// What the next word may be.
fn behind(next: Next, word: &str) -> Next
    ensures { result ≡ spec.behind next word.now }
{
    match next {
        Next::Operand => Next::Operand,
        Next::Value => Next::Word,
        Next::Word if word == "--" => Next::Operand,
        Next::Word if takes_next_word(word) => Next::Value,
        Next::Word => Next::Word,
    }
}

/// Whether the next word is this option's value.
fn takes_next_word(word: &str) -> bool
    ensures { result ≡ spec.takes_next_word word.now }
{
    matches!(
        word,
        "-F" | "-v" | "-f" | "--debug" | "--steps" | "--history"
    )
}

/// Whether a word is an option's letter with a value behind it, as `-F:`.
fn has_value(word: &str) -> bool
    ensures value { result ≡ spec.has_value word.now }
    ensures within { result ≡ true → (2 < length word.now) × (slice_index word.now 1 < 128) }
{
    let bytes = word.as_bytes();
    bytes.len() > 2 && bytes[0] == b'-' && matches!(bytes[1], b'F' | b'v' | b'f')
}
