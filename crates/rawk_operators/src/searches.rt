//! Texts that have matches of an expression.

ghost use Rattle.std.specs.Prelude.{◌≡◌, IfOk, Ok};
ghost use Rattle.std.specs.Option.{IfSome};
ghost use Rattle.rawk_value.specs.Values.{next_ok};
ghost use Rattle.rawk_operators.specs.Borrowed.{borrowed_value};
ghost use Rattle.rawk_operators.specs.Operators.{found_in, found_or, matched, replaced_in, told};
ghost use Rattle.rawk_replacements.specs.Replaced.{made_with, replaced_by};
ghost use Rattle.rawk_search.specs.Found.{IsWithin};
ghost use Rattle.rawk_search.specs.Patterns.{is_found, match_of};

use crate::borrowed::{Borrowed, text_borrowed};
use itoa::Buffer;
use rawk_patterns::Expressions;
use rawk_search::Span;
use rawk_value::Fault;
use rawk_words::Extent;
use std::alloc::{AllocError, Global};

/// Whether a text has a match of the expression that another one is, or the fault of a text that is none. An error: memory was refused.
fn matches_text(
    alloc: Global,
    expressions: &mut Expressions,
    text: &[u8],
    expression: &[u8],
) -> Result<Result<bool, Fault>, AllocError>
    ensures { IfOk result (λ r. r ≡ found_or (is_found expression.now text.now)) }
{
    match expressions.get(alloc, expression)? {
        None => Ok(Err(Fault::BadEre)),
        Some(pattern) => Ok(Ok(pattern.is_found(alloc, text)?)),
    }
}

/// Whether the text of a value has a match of the expression that the text of another one is, or the fault of a text that is none (POSIX awk, Regular
/// Expressions). An expression that stands as one is not read again, nor is one that is kept. An error: memory was refused.
pub fn matches(
    alloc: Global,
    expressions: &mut Expressions,
    left: Borrowed<'_>,
    right: Borrowed<'_>,
) -> Result<Result<bool, Fault>, AllocError>
    ensures { IfOk result (λ r. r ≡ matched (borrowed_value left.entry) (borrowed_value right.entry)) }
{
    let mut digits = Buffer::new();
    let mut other_digits = Buffer::new();
    let text = text_borrowed(left, &mut digits);
    match right {
        Borrowed::Pattern(pattern) => Ok(Ok(pattern.is_found(alloc, text)?)),
        _ => matches_text(
            alloc,
            expressions,
            text,
            text_borrowed(right, &mut other_digits),
        ),
    }
}

/// Where a match stands, as `match` tells it: its place in bytes from 1, and how many bytes it has; 0 and -1 where there is none.
#[derive(Clone, Copy, PartialEq, Eq)]
pub struct Match {
    pub start: i64,
    pub length: i64,
}

/// A match, by its place and its length. An error: a text longer than any memory holds.
fn told(text: &[u8], found: Option<Span>) -> Result<Match, AllocError>
    requires { IfSome found (IsWithin 0 text.now) }
    ensures { IfOk result (λ m. m ≡ told found) }
{
    match found {
        None => Ok(Match {
            start: 0,
            length: -1,
        }),
        Some(span) => match (span.start as i64).checked_add(1) {
            None => Err(AllocError),
            Some(start) => Ok(Match {
                start,
                length: (span.end - span.start) as i64,
            }),
        },
    }
}

/// The first match in a text of the expression that another one is, or the fault of a text that is none. An error: memory was refused.
fn find_text(
    alloc: Global,
    expressions: &mut Expressions,
    text: &[u8],
    expression: &[u8],
) -> Result<Result<Match, Fault>, AllocError>
    ensures { IfOk result (λ r. r ≡ next_ok (found_or (match_of expression.now text.now)) (λ found. Ok (told found))) }
{
    match expressions.get(alloc, expression)? {
        None => Ok(Err(Fault::BadEre)),
        Some(pattern) => {
            let found = pattern.first(alloc, text)?;
            let found = told(text, found)?;
            Ok(Ok(found))
        }
    }
}

/// The leftmost match in the text of a value of the expression that the text of another one is, and the longest there, or the fault of a text that is none (POSIX awk,
/// String Functions, `match`). An error: memory was refused.
pub fn find(
    alloc: Global,
    expressions: &mut Expressions,
    left: Borrowed<'_>,
    right: Borrowed<'_>,
) -> Result<Result<Match, Fault>, AllocError>
    ensures { IfOk result (λ r. r ≡ found_in (borrowed_value left.entry) (borrowed_value right.entry)) }
{
    let mut digits = Buffer::new();
    let mut other_digits = Buffer::new();
    let text = text_borrowed(left, &mut digits);
    match right {
        Borrowed::Pattern(pattern) => {
            let found = pattern.first(alloc, text)?;
            let found = told(text, found)?;
            Ok(Ok(found))
        }
        _ => find_text(
            alloc,
            expressions,
            text,
            text_borrowed(right, &mut other_digits),
        ),
    }
}

/// How many matches of the expression that another text is are replaced in a text, which is made in `expressions.made`, or nothing where it has none and no text was made, or the fault of
/// a text that is no expression. An error: memory was refused.
fn replace_text(
    alloc: Global,
    expressions: &mut Expressions,
    extent: Extent,
    expression: &[u8],
    by: &[u8],
    text: &[u8],
) -> Result<Result<Option<usize>, Fault>, AllocError>
    ensures { IfOk result (λ r. next_ok r (λ count. Ok (made_with expressions.new.made.items count)) ≡ found_or (replaced_by extent expression.now by.now text.now)) }
{
    match expressions.get(alloc, expression)? {
        None => Ok(Err(Fault::BadEre)),
        Some(pattern) => {
            let count = rawk_replacements::replace(
                alloc,
                &pattern,
                by,
                text,
                extent,
                &mut expressions.made,
            )?;
            Ok(Ok(count))
        }
    }
}

/// How many matches of the expression that the text of a value is are replaced in the text of another one, which is made in `expressions.made`, or nothing where it has none and no text
/// was made, or the fault of a text that is no expression (POSIX awk, String Functions, `sub`, `gsub`). An error: memory was refused.
pub fn replace(
    alloc: Global,
    expressions: &mut Expressions,
    extent: Extent,
    expression: Borrowed<'_>,
    by: Borrowed<'_>,
    value: Borrowed<'_>,
) -> Result<Result<Option<usize>, Fault>, AllocError>
    ensures { IfOk result (λ r. next_ok r (λ count. Ok (made_with expressions.new.made.items count)) ≡ replaced_in extent (borrowed_value expression.entry) (borrowed_value by.entry) (borrowed_value value.entry)) }
{
    let mut digits = Buffer::new();
    let mut by_digits = Buffer::new();
    let mut expression_digits = Buffer::new();
    let text = text_borrowed(value, &mut digits);
    let by = text_borrowed(by, &mut by_digits);
    match expression {
        Borrowed::Pattern(pattern) => {
            let count = rawk_replacements::replace(
                alloc,
                pattern,
                by,
                text,
                extent,
                &mut expressions.made,
            )?;
            Ok(Ok(count))
        }
        _ => replace_text(
            alloc,
            expressions,
            extent,
            text_borrowed(expression, &mut expression_digits),
            by,
            text,
        ),
    }
}
