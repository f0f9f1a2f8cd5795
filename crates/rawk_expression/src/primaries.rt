//! Constants, calls, groups and places as operands.

ghost use Rattle.rawk_parsing.specs.Parser.{Parses};
ghost use Rattle.rawk_expression.specs.Expression as spec;
ghost use Rattle.rawk_expression.specs.Nests.{Nests};

use crate::grammar::{Grammar, Wanted, boxed};
use rawk_items::{Boxed, Items};
use rawk_keywords::Builtin;
use rawk_lexer::{Cursor, Kind};
use rawk_parsing::tables::{change, fits};
use rawk_parsing::tokens::{ere, expect, function, name, number, refuse, sees, text};
use rawk_parsing::tree::{Change, Expr, Place};
use rawk_parsing::{ParseError, RefusalKind};
use std::alloc::Global;

fn number_constant(alloc: Global, tokens: &mut Cursor<'_>) -> Result<Boxed<Expr>, ParseError>
    ensures { Parses (spec.number_constant tokens.old) result tokens.new }
{
    let value = number(tokens)?;
    boxed(alloc, Expr::Number(value))
}

fn text_constant(alloc: Global, tokens: &mut Cursor<'_>) -> Result<Boxed<Expr>, ParseError>
    ensures { Parses (spec.text_constant tokens.old) result tokens.new }
{
    let bytes = text(alloc, tokens)?;
    boxed(alloc, Expr::Text(bytes))
}

#[tactic(auto, unfolding(crate::specs::Expression::ere_constant))]
fn ere_constant(alloc: Global, tokens: &mut Cursor<'_>) -> Result<Boxed<Expr>, ParseError>
    ensures { Parses (spec.ere_constant tokens.old) result tokens.new }
{
    let place = tokens.left();
    let word = ere(alloc, tokens)?;
    boxed(alloc, Expr::Ere(place, word))
}

/// Nothing is read: what may not stand behind the place of `getline` is refused.
fn behind_getline(tokens: &Cursor<'_>) -> Result<(), ParseError>
    ensures { Parses (spec.behind_getline tokens.now) result tokens.now }
{
    match tokens.peek() {
        Kind::Less => Err(ParseError::Here(RefusalKind::LeftOut, tokens.left())),
        Kind::Increment | Kind::Decrement => Err(refuse(tokens)),
        _ => Ok(()),
    }
}

/// The place with the `++` or `--` directly behind it.
#[tactic(auto, unfolding(crate::specs::Expression::changed))]
pub fn changed(
    alloc: Global,
    tokens: &mut Cursor<'_>,
    place: Place,
) -> Result<Boxed<Expr>, ParseError>
    ensures { Parses (spec.changed place tokens.old) result tokens.new }
{
    match change(tokens.peek()) {
        None => boxed(alloc, Expr::Of(place)),
        Some(change) => {
            tokens.take();
            boxed(alloc, Expr::After(change, place))
        }
    }
}

impl<F: Fn(Global, &mut Cursor<'_>, usize, Wanted) -> Result<Boxed<Expr>, ParseError>> Grammar<F> {
    #[tactic(auto, unfolding(crate::specs::Expression::called))]
    fn called(&self, tokens: &mut Cursor<'_>) -> Result<Boxed<Expr>, ParseError>
        requires { Nests self.now.depth (F.pre self.now.expression) (F.post self.now.expression) }
        ensures { Parses (spec.called self.now.depth (spec.expression self.now.depth) tokens.old) result tokens.new }
    {
        let word = name(self.alloc, tokens)?;
        let arguments = self.arguments(tokens)?;
        boxed(self.alloc, Expr::Call(word, arguments))
    }

    fn arguments_of(
        &self,
        tokens: &mut Cursor<'_>,
        function: Builtin,
    ) -> Result<Items<Boxed<Expr>>, ParseError>
        requires { Nests self.now.depth (F.pre self.now.expression) (F.post self.now.expression) }
        ensures { Parses (spec.arguments_of self.now.depth (spec.expression self.now.depth) function tokens.old) result tokens.new }
    {
        match function {
            Builtin::Length => {
                if sees(tokens, Kind::LeftParen) {
                    self.arguments(tokens)
                } else {
                    Ok(Items::new(self.alloc))
                }
            }
            _ => self.arguments(tokens),
        }
    }

    #[tactic(auto, unfolding(crate::specs::Expression::builtin))]
    fn builtin(&self, tokens: &mut Cursor<'_>) -> Result<Boxed<Expr>, ParseError>
        requires { Nests self.now.depth (F.pre self.now.expression) (F.post self.now.expression) }
        ensures { Parses (spec.builtin self.now.depth (spec.expression self.now.depth) tokens.old) result tokens.new }
    {
        let place = tokens.left();
        let function = function(tokens)?;
        let arguments = self.arguments_of(tokens, function)?;
        if !fits(function, arguments.as_slice()) {
            return Err(ParseError::Here(RefusalKind::Syntax, place));
        }
        boxed(self.alloc, Expr::Builtin(function, arguments))
    }

    #[tactic(auto, unfolding(crate::specs::Expression::getline_to))]
    fn getline_to(&self, tokens: &mut Cursor<'_>) -> Result<Boxed<Expr>, ParseError>
        requires { Nests self.now.depth (F.pre self.now.expression) (F.post self.now.expression) }
        ensures { Parses (spec.getline_to self.now.depth (spec.expression self.now.depth) tokens.old) result tokens.new }
    {
        let place = self.place(tokens)?;
        behind_getline(tokens)?;
        boxed(self.alloc, Expr::GetlineTo(place))
    }

    #[tactic(auto, unfolding(crate::specs::Expression::getline))]
    fn getline(&self, tokens: &mut Cursor<'_>) -> Result<Boxed<Expr>, ParseError>
        requires { Nests self.now.depth (F.pre self.now.expression) (F.post self.now.expression) }
        ensures { Parses (spec.getline self.now.depth (spec.expression self.now.depth) tokens.old) result tokens.new }
    {
        tokens.take();
        match tokens.peek() {
            Kind::Name | Kind::Dollar => self.getline_to(tokens),
            Kind::Less => Err(ParseError::Here(RefusalKind::LeftOut, tokens.left())),
            _ => boxed(self.alloc, Expr::Getline),
        }
    }

    #[tactic(auto, unfolding(crate::specs::Expression::group))]
    fn group(&self, tokens: &mut Cursor<'_>) -> Result<Boxed<Expr>, ParseError>
        requires { Nests self.now.depth (F.pre self.now.expression) (F.post self.now.expression) }
        ensures { Parses (spec.group self.now.depth (spec.expression self.now.depth) tokens.old) result tokens.new }
    {
        tokens.take();
        let inner = self.deeper(tokens, Wanted::Whole)?;
        expect(tokens, Kind::RightParen)?;
        boxed(self.alloc, Expr::Group(inner))
    }

    #[tactic(auto, unfolding(crate::specs::Expression::primary))]
    pub fn primary(&self, tokens: &mut Cursor<'_>) -> Result<Boxed<Expr>, ParseError>
        requires { Nests self.now.depth (F.pre self.now.expression) (F.post self.now.expression) }
        ensures { Parses (spec.primary self.now.depth (spec.expression self.now.depth) tokens.old) result tokens.new }
    {
        match tokens.peek() {
            Kind::Number => number_constant(self.alloc, tokens),
            Kind::Text => text_constant(self.alloc, tokens),
            Kind::Slash | Kind::SlashAssign => ere_constant(self.alloc, tokens),
            Kind::LeftParen => self.group(tokens),
            Kind::FunctionName => self.called(tokens),
            Kind::Getline => self.getline(tokens),
            Kind::Builtin => self.builtin(tokens),
            _ => {
                let place = self.place(tokens)?;
                boxed(self.alloc, Expr::Of(place))
            }
        }
    }

    /// `++` or `--`, and the place behind it.
    fn changed_before(
        &self,
        tokens: &mut Cursor<'_>,
        change: Change,
    ) -> Result<Boxed<Expr>, ParseError>
        requires { Nests self.now.depth (F.pre self.now.expression) (F.post self.now.expression) }
        ensures { Parses (spec.changed_before self.now.depth (spec.expression self.now.depth) change tokens.old) result tokens.new }
    {
        tokens.take();
        self.deeper(tokens, Wanted::Before(change))
    }

    /// What stands behind `$`.
    #[tactic(auto, unfolding(crate::specs::Expression::dollar))]
    pub fn dollar(&self, tokens: &mut Cursor<'_>) -> Result<Boxed<Expr>, ParseError>
        requires { Nests self.now.depth (F.pre self.now.expression) (F.post self.now.expression) }
        ensures { Parses (spec.dollar self.now.depth (spec.expression self.now.depth) tokens.old) result tokens.new }
    {
        match tokens.peek() {
            Kind::Increment => self.changed_before(tokens, Change::Increment),
            Kind::Decrement => self.changed_before(tokens, Change::Decrement),
            Kind::Getline => Err(refuse(tokens)),
            _ => self.primary(tokens),
        }
    }

    #[tactic(auto, unfolding(crate::specs::Expression::postfix))]
    pub fn postfix(&self, tokens: &mut Cursor<'_>) -> Result<Boxed<Expr>, ParseError>
        requires { Nests self.now.depth (F.pre self.now.expression) (F.post self.now.expression) }
        ensures { Parses (spec.postfix self.now.depth (spec.expression self.now.depth) tokens.old) result tokens.new }
    {
        match tokens.peek() {
            Kind::Increment => self.changed_before(tokens, Change::Increment),
            Kind::Decrement => self.changed_before(tokens, Change::Decrement),
            Kind::Name | Kind::Dollar => {
                let place = self.place(tokens)?;
                changed(self.alloc, tokens, place)
            }
            _ => self.primary(tokens),
        }
    }
}
