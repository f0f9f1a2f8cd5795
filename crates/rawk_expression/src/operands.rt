//! The begin of an operand of `&&` and `||`: an assignment, a list before `in`, or another.

ghost use Rattle.std.specs.Prelude.{◌≡◌, IfOk, IfErr};
ghost use Rattle.rawk_parsing.specs.declared.parse_error.ParseError.TheVariants.{OutOfMemory};
ghost use Rattle.rawk_parsing.specs.Parser.{Parses};
ghost use Rattle.rawk_expression.specs.Expression as spec;
ghost use Rattle.rawk_expression.specs.Nests.{Nests};
ghost use Rattle.rawk_expression.specs.declared.operands.Enclosed.TheVariants.{Several};

use crate::grammar::{Grammar, Wanted, alone, boxed};
use crate::primaries::changed;
use rawk_items::{Boxed, Items};
use rawk_lexer::{Cursor, Kind};
use rawk_parsing::ParseError;
use rawk_parsing::tables::assignment;
use rawk_parsing::tokens::{bare_name, eat, expect, skip_newlines};
use rawk_parsing::tree::{Assignment, Expr, Name, Place};
use std::alloc::Global;

/// What stood in parentheses.
#[derive(Drop)]
pub enum Enclosed {
    One(Boxed<Expr>),
    /// two or more
    Several(Items<Boxed<Expr>>),
}

/// How an operand begins.
#[derive(Drop)]
pub enum Start {
    /// nothing is read
    Nothing,
    /// a group, or a place with what changes it
    Base(Boxed<Expr>),
    /// a list, `in` and an array
    Member(Boxed<Expr>),
    /// a place and the sign of an assignment
    Assigns(Assignment, Place),
}

/// An operand, and the arrays behind `in`.
#[tactic(auto, unfolding(crate::specs::Expression::contained))]
pub fn contained(
    alloc: Global,
    e: Boxed<Expr>,
    arrays: Items<Name>,
) -> Result<Boxed<Expr>, ParseError>
    ensures made { IfOk result (λ r. r ≡ spec.contained e arrays) }
    ensures refused { IfErr result (λ e. e ≡ OutOfMemory) }
{
    if arrays.len() == 0 {
        return Ok(e);
    }
    boxed(alloc, Expr::In(e, arrays))
}

/// The arrays of a chain of `in`.
pub fn arrays(alloc: Global, tokens: &mut Cursor<'_>) -> Result<Items<Name>, ParseError>
    ensures { Parses (spec.arrays tokens.old) result tokens.new }
{
    let mut found = Items::new(alloc);
    for _turn in 0..tokens.left() {
        if !eat(tokens, Kind::In) {
            return Ok(found);
        }
        found.push(bare_name(alloc, tokens)?)?;
    }
    Ok(found)
}

/// A list, `in` and an array.
pub fn subscripts(
    alloc: Global,
    tokens: &mut Cursor<'_>,
    keys: Items<Boxed<Expr>>,
) -> Result<Start, ParseError>
    ensures { Parses (spec.opened (Several keys) tokens.old) result tokens.new }
{
    expect(tokens, Kind::In)?;
    let array = bare_name(alloc, tokens)?;
    Ok(Start::Member(boxed(alloc, Expr::ListIn(keys, array))?))
}

fn opened(alloc: Global, tokens: &mut Cursor<'_>, enclosed: Enclosed) -> Result<Start, ParseError>
    ensures { Parses (spec.opened enclosed tokens.old) result tokens.new }
{
    match enclosed {
        Enclosed::One(e) => Ok(Start::Base(boxed(alloc, Expr::Group(e))?)),
        Enclosed::Several(keys) => subscripts(alloc, tokens, keys),
    }
}

/// A place that may be assigned, or changed by `++` or `--`.
#[tactic(auto, unfolding(crate::specs::Expression::settable))]
fn settable(alloc: Global, tokens: &mut Cursor<'_>, place: Place) -> Result<Start, ParseError>
    ensures { Parses (spec.settable place tokens.old) result tokens.new }
{
    match assignment(tokens.peek()) {
        None => Ok(Start::Base(changed(alloc, tokens, place)?)),
        Some(assignment) => {
            tokens.take();
            Ok(Start::Assigns(assignment, place))
        }
    }
}

impl<F: Fn(Global, &mut Cursor<'_>, usize, Wanted) -> Result<Boxed<Expr>, ParseError>> Grammar<F> {
    #[tactic(auto, unfolding(crate::specs::Expression::several))]
    fn several(&self, tokens: &mut Cursor<'_>, first: Boxed<Expr>) -> Result<Enclosed, ParseError>
        requires { Nests self.now.depth (F.pre self.now.expression) (F.post self.now.expression) }
        ensures { Parses (spec.several self.now.depth (spec.expression self.now.depth) first tokens.old) result tokens.new }
    {
        let all = self.list(tokens, alone(self.alloc, first)?)?;
        expect(tokens, Kind::RightParen)?;
        Ok(Enclosed::Several(all))
    }

    /// In parentheses one expression or more.
    #[tactic(auto, unfolding(crate::specs::Expression::enclosed))]
    pub fn enclosed(&self, tokens: &mut Cursor<'_>) -> Result<Enclosed, ParseError>
        requires { Nests self.now.depth (F.pre self.now.expression) (F.post self.now.expression) }
        ensures { Parses (spec.enclosed self.now.depth (spec.expression self.now.depth) tokens.old) result tokens.new }
    {
        tokens.take();
        let first = self.deeper(tokens, Wanted::Whole)?;
        if eat(tokens, Kind::Comma) {
            skip_newlines(tokens);
            return self.several(tokens, first);
        }
        expect(tokens, Kind::RightParen)?;
        Ok(Enclosed::One(first))
    }

    #[tactic(auto, unfolding(crate::specs::Expression::opening))]
    pub fn opening(&self, tokens: &mut Cursor<'_>) -> Result<Start, ParseError>
        requires { Nests self.now.depth (F.pre self.now.expression) (F.post self.now.expression) }
        ensures { Parses (spec.opening self.now.depth (spec.expression self.now.depth) tokens.old) result tokens.new }
    {
        match tokens.peek() {
            Kind::LeftParen => {
                let enclosed = self.enclosed(tokens)?;
                opened(self.alloc, tokens, enclosed)
            }
            Kind::Name | Kind::Dollar => {
                let place = self.place(tokens)?;
                settable(self.alloc, tokens, place)
            }
            _ => Ok(Start::Nothing),
        }
    }
}
