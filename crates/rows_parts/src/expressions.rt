//! Extended regular expressions: what they find, where they match, and which are refused. A case begins with `expression`.
//!
//! `match`, an expression and a text: the begin and the end of the first match, counted from 0, or `none`. `find` and `open` have
//! between the two the place where the search begins; `open` asks in a text that may go on. `longest` is how far a match
//! reaches that begins at the place, and `counted` the same, and behind the text how often a state may be entered at most.
//! `parse`, an expression: whether it is read.
//!
//! `next`, `nonempty` and `settled` are `find`, `find` of a match that is not empty, and that of `open`; `skip` is the first place where
//! such a match may begin. `cut` has behind the place the end of the match before, and is the match that a replacement takes next.

ghost use Rattle.std.specs.Prelude.{◌≤◌, length};

use rawk_ere::{Ere, Finder};
use rawk_ere_pattern::EreError;
use rawk_search::{
    CachedExpression, Span, next_cut, next_match, next_nonempty, next_open, skip_to,
};
use rows_cases::number_of;
use std::alloc::{AllocError, Global};

/// What a case of expressions answers.
pub fn answered(alloc: Global, parts: &[&[u8]]) -> Result<Vec<u8>, AllocError> {
    let text = match parts {
        [_parse, pattern] => parsed(alloc, pattern)?,
        [_match, pattern, text] => asked(alloc, Question::Find, pattern, text, Some(0))?,
        [word, pattern, from, text, rest @ ..] => match question_of(word, rest) {
            Some(question) => asked(alloc, question, pattern, text, number_of(from))?,
            None => sought(alloc, word, pattern, from, text, rest)?,
        },
        _ => "not a case".to_string(alloc)?,
    };
    Ok(text.into_bytes())
}

/// Whether a pattern is read.
fn parsed(alloc: Global, pattern: &[u8]) -> Result<String, AllocError> {
    match Ere::parse(alloc, pattern) {
        Ok(ere) => {
            drop(ere);
            "read".to_string(alloc)
        }
        Err(error) => refused(alloc, error),
    }
}

/// Why a pattern is refused.
fn refused(alloc: Global, error: EreError) -> Result<String, AllocError> {
    match error {
        EreError::Syntax => "syntax".to_string(alloc),
        EreError::TooLarge => "too large".to_string(alloc),
        EreError::Memory => Err(AllocError),
    }
}

/// What is asked of an expression.
#[derive(Clone, Copy)]
enum Question {
    /// Where it is found first.
    Find,
    /// The same in a text that may go on.
    Open,
    /// How far it reaches from the place.
    Longest,
    /// The same, and whether a state is entered no more often than this.
    Counted(usize),
}

/// The question that a word asks.
fn question_of(word: &[u8], rest: &[&[u8]]) -> Option<Question> {
    match rest {
        [] => plain_question(word),
        [most] if word == b"counted".as_slice() => number_of(most).map(Question::Counted),
        _ => None,
    }
}

/// The question that a word asks by itself.
fn plain_question(word: &[u8]) -> Option<Question> {
    match word {
        b"find" => Some(Question::Find),
        b"open" => Some(Question::Open),
        b"longest" => Some(Question::Longest),
        _ => None,
    }
}

/// What the expression answers, on the text from the place on.
fn asked(
    alloc: Global,
    question: Question,
    pattern: &[u8],
    text: &[u8],
    from: Option<usize>,
) -> Result<String, AllocError> {
    let from = match from {
        Some(from) if from <= text.len() => from,
        _ => return "not a case".to_string(alloc),
    };
    match Ere::parse(alloc, pattern) {
        Ok(ere) => {
            let found = answer(alloc, question, &ere, text, from);
            drop(ere);
            found
        }
        Err(error) => refused(alloc, error),
    }
}

/// The answer as text.
fn answer(
    alloc: Global,
    question: Question,
    ere: &Ere,
    text: &[u8],
    from: usize,
) -> Result<String, AllocError>
    requires { from ≤ length text.now }
{
    match question {
        Question::Find => places(alloc, ere.find(alloc, text, from)?),
        Question::Open => places(alloc, ere.find_open(alloc, text, from)?),
        Question::Longest => place(alloc, ere.longest_at(alloc, text, from)?),
        Question::Counted(most) => {
            let (end, entered) = ere.longest_at_counted(alloc, text, from)?;
            if entered > most as u128 {
                return "too often".to_string(alloc);
            }
            place(alloc, end)
        }
    }
}

/// The begin and the end of a match.
fn places(alloc: Global, found: Option<(usize, usize)>) -> Result<String, AllocError> {
    match found {
        Some((begin, end)) => format!(in alloc; "{begin},{end}"),
        None => "none".to_string(alloc),
    }
}

/// The end of a match.
fn place(alloc: Global, end: Option<usize>) -> Result<String, AllocError> {
    match end {
        Some(end) => format!(in alloc; "{end}"),
        None => "none".to_string(alloc),
    }
}

/// What a search answers, on the text from the place on.
fn sought(
    alloc: Global,
    word: &[u8],
    pattern: &[u8],
    from: &[u8],
    text: &[u8],
    rest: &[&[u8]],
) -> Result<String, AllocError> {
    let from = match number_of(from) {
        Some(from) if from <= text.len() => from,
        _ => return "not a case".to_string(alloc),
    };
    let mut last = CachedExpression::new(alloc);
    let found = match last.get(alloc, pattern) {
        Ok(Some(ere)) => search(alloc, word, ere, text, from, rest),
        Ok(None) => "refused".to_string(alloc),
        Err(error) => Err(error),
    };
    drop(last);
    found
}

/// What the search that a word names finds.
fn search(
    alloc: Global,
    word: &[u8],
    ere: &Ere,
    text: &[u8],
    from: usize,
    rest: &[&[u8]],
) -> Result<String, AllocError>
    requires { from ≤ length text.now }
{
    match (word, rest) {
        (b"skip", []) => place(alloc, Some(skip_to(alloc, ere, text, from)?)),
        (b"cut", [after]) => {
            let mut finder = Finder::new(ere, text);
            stretch(alloc, next_cut(alloc, &mut finder, from, number_of(after))?)
        }
        (_, []) => stretch(alloc, next(alloc, word, ere, text, from)?),
        _ => "not a case".to_string(alloc),
    }
}

/// The next match of the kind that a word names.
fn next(
    alloc: Global,
    word: &[u8],
    ere: &Ere,
    text: &[u8],
    from: usize,
) -> Result<Option<Span>, AllocError>
    requires { from ≤ length text.now }
{
    match word {
        b"next" => next_match(alloc, ere, text, from),
        b"nonempty" => next_nonempty(alloc, ere, text, from),
        _ => next_open(alloc, ere, text, from),
    }
}

/// The begin and the end of a stretch.
fn stretch(alloc: Global, span: Option<Span>) -> Result<String, AllocError> {
    places(alloc, span.map(|span| (span.start, span.end)))
}
