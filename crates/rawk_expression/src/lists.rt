//! What statements are made of beside expressions: places, and the list of a print.

ghost use Rattle.std.specs.Prelude.{true};
ghost use Rattle.rawk_parsing.specs.Parser.{Parses};
ghost use Rattle.rawk_expression.specs.Expression as spec;
ghost use Rattle.rawk_expression.specs.Nests.{Nests};

use crate::grammar::{Grammar, Wanted, alone, boxed, expression};
use crate::operands::{Enclosed, Start, subscripts};
use rawk_items::{Boxed, Items};
use rawk_lexer::{Cursor, Kind};
use rawk_parsing::tokens::{eat, not_redirected, refuse, sees, skip_newlines};
use rawk_parsing::tree::{Expr, Place};
use rawk_parsing::{ParseError, RefusalKind};
use std::alloc::Global;

impl<F: Fn(Global, &mut Cursor<'_>, usize, Wanted) -> Result<Boxed<Expr>, ParseError>> Grammar<F> {
    /// Expressions of a print with commas between them, behind those that were found.
    fn printed_list(
        &self,
        tokens: &mut Cursor<'_>,
        mut found: Items<Boxed<Expr>>,
    ) -> Result<Items<Boxed<Expr>>, ParseError>
        requires { Nests self.now.depth (F.pre self.now.expression) (F.post self.now.expression) }
        ensures { Parses (spec.list (spec.whole self.now.depth (spec.expression self.now.depth) true) found tokens.old) result tokens.new }
    {
        for _turn in 0..tokens.left() {
            found.push(self.whole(tokens, true)?)?;
            if !eat(tokens, Kind::Comma) {
                return Ok(found);
            }
            skip_newlines(tokens);
        }
        Err(refuse(tokens))
    }

    /// A list whose first expression has begun.
    #[tactic(auto, unfolding(crate::specs::Expression::printed_from, crate::specs::Expression::printed_rest))]
    fn printed_from(
        &self,
        tokens: &mut Cursor<'_>,
        start: Start,
    ) -> Result<Items<Boxed<Expr>>, ParseError>
        requires { Nests self.now.depth (F.pre self.now.expression) (F.post self.now.expression) }
        ensures { Parses (spec.printed_from self.now.depth (spec.expression self.now.depth) start tokens.old) result tokens.new }
    {
        let first = self.finished(tokens, true, start)?;
        let found = alone(self.alloc, first)?;
        if !eat(tokens, Kind::Comma) {
            return Ok(found);
        }
        skip_newlines(tokens);
        self.printed_list(tokens, found)
    }

    /// Two expressions or more in parentheses are the list, or subscripts before `in`.
    #[tactic(auto, unfolding(crate::specs::Expression::printed_several))]
    fn printed_several(
        &self,
        tokens: &mut Cursor<'_>,
        values: Items<Boxed<Expr>>,
    ) -> Result<Items<Boxed<Expr>>, ParseError>
        requires { Nests self.now.depth (F.pre self.now.expression) (F.post self.now.expression) }
        ensures { Parses (spec.printed_several self.now.depth (spec.expression self.now.depth) values tokens.old) result tokens.new }
    {
        if sees(tokens, Kind::In) {
            let start = subscripts(self.alloc, tokens, values)?;
            return self.printed_from(tokens, start);
        }
        not_redirected(tokens, true)?;
        Ok(values)
    }

    fn printed_opened(
        &self,
        tokens: &mut Cursor<'_>,
        enclosed: Enclosed,
    ) -> Result<Items<Boxed<Expr>>, ParseError>
        requires { Nests self.now.depth (F.pre self.now.expression) (F.post self.now.expression) }
        ensures { Parses (spec.printed_opened self.now.depth (spec.expression self.now.depth) enclosed tokens.old) result tokens.new }
    {
        match enclosed {
            Enclosed::One(e) => {
                let group = boxed(self.alloc, Expr::Group(e))?;
                self.printed_from(tokens, Start::Base(group))
            }
            Enclosed::Several(values) => self.printed_several(tokens, values),
        }
    }

    #[tactic(auto, unfolding(crate::specs::Expression::print_list))]
    fn print_list(&self, tokens: &mut Cursor<'_>) -> Result<Items<Boxed<Expr>>, ParseError>
        requires { Nests self.now.depth (F.pre self.now.expression) (F.post self.now.expression) }
        ensures { Parses (spec.print_list self.now.depth (spec.expression self.now.depth) tokens.old) result tokens.new }
    {
        match tokens.peek() {
            Kind::LeftParen => {
                let enclosed = self.enclosed(tokens)?;
                self.printed_opened(tokens, enclosed)
            }
            Kind::Greater => Err(ParseError::Here(RefusalKind::LeftOut, tokens.left())),
            _ => {
                let start = self.opening(tokens)?;
                self.printed_from(tokens, start)
            }
        }
    }
}

/// Reads a place, with fewer than `depth` constructs open at once; its refusals are those of `expression`.
pub fn place(alloc: Global, tokens: &mut Cursor<'_>, depth: usize) -> Result<Place, ParseError>
    ensures { Parses (spec.lone_place depth tokens.old) result tokens.new }
{
    if depth == 0 {
        return Err(ParseError::Here(RefusalKind::TooDeep, tokens.left()));
    }
    Grammar {
        alloc,
        depth: depth - 1,
        expression,
    }
    .place(tokens)
}

/// Reads the list of a print, one expression at least, with fewer than `depth` constructs open at once: expressions with commas
/// between them, or two or more in parentheses, with nothing read behind those. Its refusals are those of `expression`; a `>` at
/// its begin or end is `LeftOut`. A list in parentheses is read once.
pub fn printed(
    alloc: Global,
    tokens: &mut Cursor<'_>,
    depth: usize,
) -> Result<Items<Boxed<Expr>>, ParseError>
    ensures { Parses (spec.printed depth tokens.old) result tokens.new }
{
    if depth == 0 {
        return Err(ParseError::Here(RefusalKind::TooDeep, tokens.left()));
    }
    Grammar {
        alloc,
        depth: depth - 1,
        expression,
    }
    .print_list(tokens)
}
