//! What operators make of values in place.

ghost use Rattle.std.specs.Prelude.{◌≡◌, IfOk, Ok};
ghost use Rattle.rawk_value.specs.Values.{flag};
ghost use Rattle.rawk_operators.specs.Borrowed.{borrowed_value};
ghost use Rattle.rawk_operators.specs.Operators.{both_make, one_makes, signed};

use crate::borrowed::{Borrowed, number, text_borrowed, truth, whole};
use crate::ordered::compare;
use crate::parts::{part, place};
use crate::searches::matches;
use itoa::Buffer;
use rawk_patterns::Expressions;
use rawk_tree::{Joiner, Sign, Unary};
use rawk_value::{Arithmetic, Bytes, Comparison, Fault, Value, neg};
use std::alloc::{AllocError, Global};

/// 1 or 0.
pub fn flag(holds: bool) -> Value
    ensures { result ≡ flag holds }
{
    if holds {
        Value::Number(1)
    } else {
        Value::Number(0)
    }
}

fn joined(op: Arithmetic, left: Borrowed<'_>, right: Borrowed<'_>) -> Result<Value, Fault>
    ensures { result ≡ both_make (Joiner.Arithmetic op) (borrowed_value left.entry) (borrowed_value right.entry) }
{
    let x = number(left)?;
    let y = number(right)?;
    let z = rawk_value::combine(op, x, y)?;
    Ok(Value::Number(z))
}

fn compared(comparison: Comparison, left: Borrowed<'_>, right: Borrowed<'_>) -> Result<Value, Fault>
    ensures { result ≡ both_make (Joiner.Comparison comparison) (borrowed_value left.entry) (borrowed_value right.entry) }
{
    let holds = compare(comparison, left, right)?;
    Ok(flag(holds))
}

/// Their texts side by side. It fails where memory is refused.
fn concat(alloc: Global, left: Borrowed<'_>, right: Borrowed<'_>) -> Result<Value, AllocError>
    ensures { IfOk result (λ v. Ok v ≡ both_make Joiner.Concat (borrowed_value left.entry) (borrowed_value right.entry)) }
{
    let mut left_digits = Buffer::new();
    let mut right_digits = Buffer::new();
    Ok(Value::String(Bytes::concat(
        alloc,
        text_borrowed(left, &mut left_digits),
        text_borrowed(right, &mut right_digits),
    )?))
}

/// A copy of the left text from the place that the right number says on, or its fault. It fails where memory is refused.
fn part_from(
    alloc: Global,
    left: Borrowed<'_>,
    right: Borrowed<'_>,
) -> Result<Result<Value, Fault>, AllocError>
    ensures { IfOk result (λ r. r ≡ both_make Joiner.Substr (borrowed_value left.entry) (borrowed_value right.entry)) }
{
    match number(right) {
        Err(fault) => Ok(Err(fault)),
        Ok(from) => Ok(Ok(part(alloc, left, from, None)?)),
    }
}

/// 1 where the left text has a match of the expression that the right one is, and else 0, or the fault of a text that is none. An error: memory was refused.
fn sought(
    alloc: Global,
    expressions: &mut Expressions,
    left: Borrowed<'_>,
    right: Borrowed<'_>,
) -> Result<Result<Value, Fault>, AllocError>
    ensures { IfOk result (λ r. r ≡ both_make Joiner.Matches (borrowed_value left.entry) (borrowed_value right.entry)) }
{
    match matches(alloc, expressions, left, right)? {
        Err(fault) => Ok(Err(fault)),
        Ok(found) => Ok(Ok(flag(found))),
    }
}

/// The other way round.
fn missed(
    alloc: Global,
    expressions: &mut Expressions,
    left: Borrowed<'_>,
    right: Borrowed<'_>,
) -> Result<Result<Value, Fault>, AllocError>
    ensures { IfOk result (λ r. r ≡ both_make Joiner.NotMatches (borrowed_value left.entry) (borrowed_value right.entry)) }
{
    match matches(alloc, expressions, left, right)? {
        Err(fault) => Ok(Err(fault)),
        Ok(found) => Ok(Ok(flag(!found))),
    }
}

/// What two operands make, or a fault. It fails where memory for a text, or for a search, is refused.
pub fn make(
    alloc: Global,
    expressions: &mut Expressions,
    joiner: Joiner,
    left: Borrowed<'_>,
    right: Borrowed<'_>,
) -> Result<Result<Value, Fault>, AllocError>
    ensures { IfOk result (λ r. r ≡ both_make joiner (borrowed_value left.entry) (borrowed_value right.entry)) }
{
    match joiner {
        Joiner::Arithmetic(op) => Ok(joined(op, left, right)),
        Joiner::Comparison(comparison) => Ok(compared(comparison, left, right)),
        Joiner::Concat => Ok(Ok(concat(alloc, left, right)?)),
        Joiner::Index => Ok(Ok(Value::Number(place(left, right)))),
        Joiner::Substr => part_from(alloc, left, right),
        Joiner::Matches => sought(alloc, expressions, left, right),
        Joiner::NotMatches => missed(alloc, expressions, left, right),
    }
}

fn plus(value: Borrowed<'_>) -> Result<Value, Fault>
    ensures { result ≡ signed Sign.Plus (borrowed_value value.entry) }
{
    let n = number(value)?;
    Ok(Value::Number(n))
}

fn minus(value: Borrowed<'_>) -> Result<Value, Fault>
    ensures { result ≡ signed Sign.Minus (borrowed_value value.entry) }
{
    let n = number(value)?;
    let opposite = neg(n)?;
    Ok(Value::Number(opposite))
}

fn turned(value: Borrowed<'_>) -> Result<Value, Fault>
    ensures { result ≡ signed Sign.Not (borrowed_value value.entry) }
{
    let holds = truth(value)?;
    Ok(flag(!holds))
}

fn make_signed(sign: Sign, value: Borrowed<'_>) -> Result<Value, Fault>
    ensures { result ≡ signed sign (borrowed_value value.entry) }
{
    match sign {
        Sign::Plus => plus(value),
        Sign::Minus => minus(value),
        Sign::Not => turned(value),
    }
}

fn byte_count(value: Borrowed<'_>) -> Value
    ensures { Ok result ≡ one_makes Unary.Length (borrowed_value value.entry) }
{
    let mut digits = Buffer::new();
    Value::Number(rawk_builtins::length(text_borrowed(value, &mut digits)))
}

fn lowered(alloc: Global, value: Borrowed<'_>) -> Result<Value, AllocError>
    ensures { IfOk result (λ v. Ok v ≡ one_makes Unary.ToLower (borrowed_value value.entry)) }
{
    let mut digits = Buffer::new();
    let text = rawk_builtins::tolower(alloc, text_borrowed(value, &mut digits))?;
    Ok(Value::String(text))
}

fn raised(alloc: Global, value: Borrowed<'_>) -> Result<Value, AllocError>
    ensures { IfOk result (λ v. Ok v ≡ one_makes Unary.ToUpper (borrowed_value value.entry)) }
{
    let mut digits = Buffer::new();
    let text = rawk_builtins::toupper(alloc, text_borrowed(value, &mut digits))?;
    Ok(Value::String(text))
}

fn make_whole(value: Borrowed<'_>) -> Result<Value, Fault>
    ensures { result ≡ one_makes Unary.Int (borrowed_value value.entry) }
{
    let n = whole(value)?;
    Ok(Value::Number(n))
}

/// What an operator or a function of one operand makes of it, or a fault. It fails where memory for a text is refused.
pub fn make_unary(
    alloc: Global,
    unary: Unary,
    value: Borrowed<'_>,
) -> Result<Result<Value, Fault>, AllocError>
    ensures { IfOk result (λ r. r ≡ one_makes unary (borrowed_value value.entry)) }
{
    match unary {
        Unary::Sign(sign) => Ok(make_signed(sign, value)),
        Unary::Length => Ok(Ok(byte_count(value))),
        Unary::ToLower => Ok(Ok(lowered(alloc, value)?)),
        Unary::ToUpper => Ok(Ok(raised(alloc, value)?)),
        Unary::Int => Ok(make_whole(value)),
    }
}
