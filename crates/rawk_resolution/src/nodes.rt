//! Nodes of the settled tree, from their parts.

ghost use Rattle.std.specs.Prelude.{◌≡◌, IfOk};
ghost use Rattle.rawk_tree.specs.declared.tree.Expr.TheVariants as tree;
ghost use Rattle.rawk_tree.specs.declared.tree.Place.TheVariants as tree_place;
ghost use Rattle.rawk_resolution.specs.Nodes.{IsMatchOf, IsRecord, IsRecordPlace, joiner_of, operator_of, neutral, scalar_place};

use crate::growth::{boxed, push};
use rawk_parsing::tree::{Change, Operator};
use rawk_special::FS;
use rawk_tree::{Expr, Joiner, Link, Place, Scalar};
use rawk_value::{Arithmetic, Bytes};
use rawk_words::Logic;
use std::alloc::{AllocError, Global};

/// The operator of a link.
pub fn joiner_of(operator: Operator) -> Joiner
    ensures { result ≡ joiner_of operator }
{
    match operator {
        Operator::Arithmetic(arithmetic) => Joiner::Arithmetic(arithmetic),
        Operator::Comparison(comparison) => Joiner::Comparison(comparison),
        Operator::Concat => Joiner::Concat,
        Operator::Match => Joiner::Matches,
        Operator::NotMatch => Joiner::NotMatches,
    }
}

/// What `++` and `--` do with 1.
pub fn operator_of(change: Change) -> Arithmetic
    ensures { result ≡ operator_of change }
{
    match change {
        Change::Increment => Arithmetic::Add,
        Change::Decrement => Arithmetic::Sub,
    }
}

/// A scalar, as a place.
pub fn scalar_place(scalar: Scalar) -> Place
    ensures { result ≡ scalar_place scalar }
{
    match scalar {
        Scalar::Global(number) => Place::Global(number),
        Scalar::Local(number) => Place::Local(number),
        Scalar::FieldCount => Place::FieldCount,
    }
}

/// A number that the text does not have.
pub fn number(alloc: Global, n: i64) -> Result<Box<Expr>, AllocError>
    ensures { IfOk result (λ b. b.value ≡ tree.Number n) }
{
    boxed(alloc, Expr::Number(n))
}

/// The constant before the first test, which decides nothing.
pub fn neutral(logic: Logic) -> Expr
    ensures { result ≡ tree.Number (neutral logic) }
{
    match logic {
        Logic::And => Expr::Number(1),
        Logic::Or => Expr::Number(0),
    }
}

/// A number, which is settled as itself.
pub fn settle_number(n: &i64) -> Expr
    ensures { result ≡ tree.Number n.now }
{
    Expr::Number(*n)
}

/// A text, which is settled as itself.
pub fn settle_text(alloc: Global, text: &[u8]) -> Result<Expr, AllocError>
    ensures { IfOk result (λ s. s ≡ tree.Text text.now) }
{
    let text = Bytes::from_slice(alloc, text)?;
    Ok(Expr::Text(text))
}

/// `$0`, as a place.
pub fn record_place(alloc: Global) -> Result<Place, AllocError>
    ensures { IfOk result (λ q. IsRecordPlace q) }
{
    let number = number(alloc, 0)?;
    Ok(Place::Field(number))
}

/// Its value.
pub fn record(alloc: Global) -> Result<Expr, AllocError>
    ensures { IfOk result (λ s. IsRecord s) }
{
    let place = record_place(alloc)?;
    Ok(Expr::Read(place))
}

/// A regular expression by itself: whether `$0` has a match of it.
pub fn settle_ere(alloc: Global, text: &[u8]) -> Result<Expr, AllocError>
    ensures { IfOk result (λ s. IsMatchOf text.now s) }
{
    let whole = record(alloc)?;
    let first = boxed(alloc, whole)?;
    let text = Bytes::from_slice(alloc, text)?;
    let mut more = Vec::new(alloc);
    push(&mut more, Link::Combine(Joiner::Matches, Expr::Text(text)))?;
    Ok(Expr::Chain(first, more))
}

/// The value of FS, which separates where no separator is given.
pub fn field_separator(alloc: Global) -> Result<Box<Expr>, AllocError>
    ensures { IfOk result (λ b. b.value ≡ tree.Read (tree_place.Global FS)) }
{
    boxed(alloc, Expr::Read(Place::Global(FS)))
}
