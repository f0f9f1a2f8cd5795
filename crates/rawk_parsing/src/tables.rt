//! The tokens that are operators and signs, and what functions take, as tables that the grammar shares.

ghost use Rattle.std.specs.Prelude.{◌≡◌};
ghost use Rattle.rawk_parsing.specs.Tables as spec;

use crate::tree::{Assignment, Change, Expr, Operator, Place};
use rawk_items::Boxed;
use rawk_keywords::{Builtin, takes};
use rawk_lexer::Kind;
use rawk_value::{Arithmetic, Comparison};
use rawk_words::{Logic, Sign};

/// The operator that a token is between two operands.
pub fn operator(kind: Kind) -> Option<Operator>
    ensures { result ≡ spec.operator kind }
{
    match kind {
        Kind::Star => Some(Operator::Arithmetic(Arithmetic::Mul)),
        Kind::Slash => Some(Operator::Arithmetic(Arithmetic::Div)),
        Kind::Percent => Some(Operator::Arithmetic(Arithmetic::Rem)),
        Kind::Plus => Some(Operator::Arithmetic(Arithmetic::Add)),
        Kind::Minus => Some(Operator::Arithmetic(Arithmetic::Sub)),
        Kind::Less => Some(Operator::Comparison(Comparison::Less)),
        Kind::LessEqual => Some(Operator::Comparison(Comparison::LessEqual)),
        Kind::Equal => Some(Operator::Comparison(Comparison::Equal)),
        Kind::NotEqual => Some(Operator::Comparison(Comparison::NotEqual)),
        Kind::Greater => Some(Operator::Comparison(Comparison::Greater)),
        Kind::GreaterEqual => Some(Operator::Comparison(Comparison::GreaterEqual)),
        Kind::Tilde => Some(Operator::Match),
        Kind::NotMatch => Some(Operator::NotMatch),
        _ => None,
    }
}

/// The level of an operator, from 1; a lower one binds tighter.
pub fn binds(operator: Operator) -> u8
    ensures { result ≡ spec.binds operator }
{
    match operator {
        Operator::Arithmetic(Arithmetic::Add | Arithmetic::Sub) => 2,
        Operator::Arithmetic(_) => 1,
        Operator::Concat => 3,
        Operator::Comparison(_) => 4,
        Operator::Match | Operator::NotMatch => 5,
    }
}

/// Whether a token begins the right operand of a concatenation: neither `+` nor `-`, and no slash, since operators go first.
pub fn begins_joined(kind: Kind) -> bool
    ensures { result ≡ spec.begins_joined kind }
{
    matches!(
        kind,
        Kind::Name
            | Kind::FunctionName
            | Kind::Number
            | Kind::Text
            | Kind::LeftParen
            | Kind::Dollar
            | Kind::Bang
            | Kind::Increment
            | Kind::Decrement
            | Kind::Getline
            | Kind::Builtin
    )
}

/// The operator of a level that a token is or, for a concatenation, stands behind. The list of a print has no `>`.
#[tactic(auto, unfolding(crate::specs::Tables::joins))]
pub fn joins(prints: bool, level: u8, kind: Kind) -> Option<Operator>
    ensures { result ≡ spec.joins prints level kind }
{
    if level == 3 {
        return if begins_joined(kind) {
            Some(Operator::Concat)
        } else {
            None
        };
    }
    match operator(kind) {
        None => None,
        Some(operator) => {
            if binds(operator) == level && !(prints && is_greater(operator)) {
                Some(operator)
            } else {
                None
            }
        }
    }
}

fn is_greater(operator: Operator) -> bool
    ensures { result ≡ spec.is_greater operator }
{
    matches!(operator, Operator::Comparison(Comparison::Greater))
}

pub fn is_concat(operator: Operator) -> bool
    ensures { result ≡ spec.is_concat operator }
{
    matches!(operator, Operator::Concat)
}

/// Whether a chain of the level has one operator at most.
pub fn is_alone(level: u8) -> bool
    ensures { result ≡ spec.is_alone level }
{
    level == 4 || level == 5
}

/// The token that joins the operands of a level of tests: 1 for `&&`, else `||`.
pub fn mark(level: u8) -> Kind
    ensures { result ≡ spec.mark level }
{
    if level == 1 { Kind::And } else { Kind::Or }
}

/// The same, as it stands in the tree.
pub fn logic(level: u8) -> Logic
    ensures { result ≡ spec.logic level }
{
    if level == 1 { Logic::And } else { Logic::Or }
}

/// The sign that a token is before an operand.
pub fn sign(kind: Kind) -> Option<Sign>
    ensures { result ≡ spec.sign kind }
{
    match kind {
        Kind::Plus => Some(Sign::Plus),
        Kind::Minus => Some(Sign::Minus),
        Kind::Bang => Some(Sign::Not),
        _ => None,
    }
}

/// `++` and `--`.
pub fn change(kind: Kind) -> Option<Change>
    ensures { result ≡ spec.change kind }
{
    match kind {
        Kind::Increment => Some(Change::Increment),
        Kind::Decrement => Some(Change::Decrement),
        _ => None,
    }
}

/// `=`, and the operators that end in it.
pub fn assignment(kind: Kind) -> Option<Assignment>
    ensures { result ≡ spec.assignment kind }
{
    match kind {
        Kind::Assign => Some(Assignment::Plain),
        Kind::PlusAssign => Some(Assignment::Update(Arithmetic::Add)),
        Kind::MinusAssign => Some(Assignment::Update(Arithmetic::Sub)),
        Kind::StarAssign => Some(Assignment::Update(Arithmetic::Mul)),
        Kind::SlashAssign => Some(Assignment::Update(Arithmetic::Div)),
        Kind::PercentAssign => Some(Assignment::Update(Arithmetic::Rem)),
        Kind::CaretAssign => Some(Assignment::Update(Arithmetic::Pow)),
        _ => None,
    }
}

#[tactic(auto, unfolding(crate::specs::Tables::is_place))]
fn is_place(e: &Expr) -> bool
    ensures { result ≡ spec.is_place e.now }
{
    matches!(e, Expr::Of(_))
}

#[tactic(auto, unfolding(crate::specs::Tables::is_name))]
fn is_name(e: &Expr) -> bool
    ensures { result ≡ spec.is_name e.now }
{
    matches!(e, Expr::Of(Place::Name(_)))
}

/// Whether the third argument, if there is one, can be assigned.
fn third_is_place(arguments: &[Boxed<Expr>]) -> bool
    ensures { result ≡ spec.third_is_place arguments.now }
{
    match arguments {
        [_, _, third, ..] => is_place(third.get()),
        _ => true,
    }
}

/// Whether the second argument, if there is one, is a bare name.
fn second_is_name(arguments: &[Boxed<Expr>]) -> bool
    ensures { result ≡ spec.second_is_name arguments.now }
{
    match arguments {
        [_, second, ..] => is_name(second.get()),
        _ => true,
    }
}

fn is_shaped(function: Builtin, arguments: &[Boxed<Expr>]) -> bool
    ensures { result ≡ spec.is_shaped function arguments.now }
{
    match function {
        Builtin::Sub | Builtin::Gsub => third_is_place(arguments),
        Builtin::Split => second_is_name(arguments),
        _ => true,
    }
}

/// Whether a function takes these arguments: their number, and a place or a bare name where it assigns one.
#[tactic(auto, unfolding(crate::specs::Tables::fits))]
pub fn fits(function: Builtin, arguments: &[Boxed<Expr>]) -> bool
    ensures { result ≡ spec.fits function arguments.now }
{
    takes(function, arguments.len()) && is_shaped(function, arguments)
}
