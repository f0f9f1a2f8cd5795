//! Texts that are separated.

ghost use Rattle.std.specs.Prelude.{IfOk, false};
ghost use Rattle.rawk_value.specs.Values.{text_of};
ghost use Rattle.rawk_search.specs.Expressions.{ere_of};
ghost use Rattle.rawk_pieces.specs.Fields.{dynamic_parts, fields_of};
ghost use Rattle.rawk_operators.specs.Borrowed.{borrowed_value};
ghost use Rattle.rawk_operators.specs.Operators.{parts_between};
ghost use Rattle.rawk_operators.specs.Separations.{Separates};

use crate::borrowed::{Borrowed, text_borrowed};
use itoa::Buffer;
use rawk_patterns::Expressions;
use rawk_pieces::{Fields, pieces_between};
use rawk_search::Pattern;
use rawk_tree::Separation;
use rawk_value::Fault;
use std::alloc::{AllocError, Global};

/// The parts of a text that FS would separate by the text of the separator. An error: memory was refused.
fn fields_by(
    alloc: Global,
    expressions: &mut Expressions,
    text: &[u8],
    by: &[u8],
) -> Result<Result<Fields, Fault>, AllocError>
    ensures { IfOk result (λ r. Separates text.now (fields_of text.now by.now false) r) }
{
    let spare = expressions.lend_spare(alloc);
    match rawk_pieces::fields_of(alloc, spare, text, by, false) {
        Ok(fields) => Ok(Ok(fields)),
        Err(Fault::OutOfMemory) => Err(AllocError),
        Err(fault) => Ok(Err(fault)),
    }
}

/// The parts of a text between the matches of the expression that a text was read as. An error: memory was refused.
fn parts_by(
    alloc: Global,
    expressions: &mut Expressions,
    text: &[u8],
    by: &Pattern,
) -> Result<Result<Fields, Fault>, AllocError>
    ensures { IfOk result (λ r. Separates text.now (dynamic_parts (ere_of by.now) false text.now) r) }
{
    let spare = expressions.lend_spare(alloc);
    let fields = pieces_between(alloc, spare, text, by.ere())?;
    Ok(Ok(fields))
}

/// The parts of a text between the matches of the expression that another one is, or the fault of a text that is none. An error: memory was refused.
fn parts_by_text(
    alloc: Global,
    expressions: &mut Expressions,
    text: &[u8],
    by: &[u8],
) -> Result<Result<Fields, Fault>, AllocError>
    ensures { IfOk result (λ r. Separates text.now (dynamic_parts (ere_of by.now) false text.now) r) }
{
    match expressions.get(alloc, by)? {
        None => Ok(Err(Fault::BadEre)),
        Some(pattern) => parts_by(alloc, expressions, text, &pattern),
    }
}

/// The parts of a text that FS would separate by another text, of which several bytes are an expression, or the fault of a text that is none. An error: memory was refused.
fn fields_by_text(
    alloc: Global,
    expressions: &mut Expressions,
    text: &[u8],
    by: &[u8],
) -> Result<Result<Fields, Fault>, AllocError>
    ensures { IfOk result (λ r. Separates text.now (fields_of text.now by.now false) r) }
{
    match by {
        [] => fields_by(alloc, expressions, text, by),
        [_] => fields_by(alloc, expressions, text, by),
        _ => parts_by_text(alloc, expressions, text, by),
    }
}

/// The parts of a text between its separators, as places in it: as FS would separate them by the text of a value, or between the matches of the expression that this text is; or the
/// fault of a text that is none (POSIX awk, String Functions, `split`). An error: memory was refused.
pub fn separate(
    alloc: Global,
    expressions: &mut Expressions,
    how: Separation,
    text: &[u8],
    by: Borrowed<'_>,
) -> Result<Result<Fields, Fault>, AllocError>
    ensures parts { IfOk result (λ r. Separates text.now (parts_between how text.now (text_of (borrowed_value by.entry))) r) }
{
    let mut digits = Buffer::new();
    match how {
        Separation::Fields => {
            fields_by_text(alloc, expressions, text, text_borrowed(by, &mut digits))
        }
        Separation::Matches => match by {
            Borrowed::Pattern(pattern) => parts_by(alloc, expressions, text, pattern),
            _ => parts_by_text(alloc, expressions, text, text_borrowed(by, &mut digits)),
        },
    }
}
