//! Places, and the lists in brackets and in the parentheses of calls.

ghost use Rattle.rawk_parsing.specs.Parser.{Parses};
ghost use Rattle.rawk_expression.specs.Expression as spec;
ghost use Rattle.rawk_expression.specs.Nests.{Nests};

use crate::grammar::{Grammar, Wanted};
use rawk_items::{Boxed, Items};
use rawk_lexer::{Cursor, Kind};
use rawk_parsing::tokens::{eat, expect, name, refuse, skip_newlines};
use rawk_parsing::tree::{Expr, Place};
use rawk_parsing::{ParseError, RefusalKind};
use std::alloc::Global;

impl<F: Fn(Global, &mut Cursor<'_>, usize, Wanted) -> Result<Boxed<Expr>, ParseError>> Grammar<F> {
    /// Expressions with commas between them, behind those that were found.
    pub fn list(
        &self,
        tokens: &mut Cursor<'_>,
        mut found: Items<Boxed<Expr>>,
    ) -> Result<Items<Boxed<Expr>>, ParseError>
        requires { Nests self.now.depth (F.pre self.now.expression) (F.post self.now.expression) }
        ensures { Parses (spec.list (spec.expression self.now.depth Wanted.Whole) found tokens.old) result tokens.new }
    {
        for _turn in 0..tokens.left() {
            found.push(self.deeper(tokens, Wanted::Whole)?)?;
            if !eat(tokens, Kind::Comma) {
                return Ok(found);
            }
            skip_newlines(tokens);
        }
        Err(refuse(tokens))
    }

    #[tactic(auto, unfolding(crate::specs::Expression::named_place))]
    fn named_place(&self, tokens: &mut Cursor<'_>) -> Result<Place, ParseError>
        requires { Nests self.now.depth (F.pre self.now.expression) (F.post self.now.expression) }
        ensures { Parses (spec.named_place self.now.depth (spec.expression self.now.depth) tokens.old) result tokens.new }
    {
        let word = name(self.alloc, tokens)?;
        if !eat(tokens, Kind::LeftBracket) {
            return Ok(Place::Name(word));
        }
        let keys = self.list(tokens, Items::new(self.alloc))?;
        expect(tokens, Kind::RightBracket)?;
        Ok(Place::Element(word, keys))
    }

    #[tactic(auto, unfolding(crate::specs::Expression::place))]
    pub fn place(&self, tokens: &mut Cursor<'_>) -> Result<Place, ParseError>
        requires { Nests self.now.depth (F.pre self.now.expression) (F.post self.now.expression) }
        ensures { Parses (spec.place self.now.depth (spec.expression self.now.depth) tokens.old) result tokens.new }
    {
        match tokens.peek() {
            Kind::Name => self.named_place(tokens),
            Kind::Dollar => {
                tokens.take();
                Ok(Place::Field(self.deeper(tokens, Wanted::Dollar)?))
            }
            _ => Err(refuse(tokens)),
        }
    }

    #[tactic(auto, unfolding(crate::specs::Expression::filled))]
    fn filled(&self, tokens: &mut Cursor<'_>) -> Result<Items<Boxed<Expr>>, ParseError>
        requires { Nests self.now.depth (F.pre self.now.expression) (F.post self.now.expression) }
        ensures { Parses (spec.filled self.now.depth (spec.expression self.now.depth) tokens.old) result tokens.new }
    {
        let none = Items::new(self.alloc);
        if eat(tokens, Kind::RightParen) {
            return Ok(none);
        }
        let found = self.list(tokens, none)?;
        expect(tokens, Kind::RightParen)?;
        Ok(found)
    }

    /// The parentheses of a call, which are a construct also where they hold nothing.
    #[tactic(auto, unfolding(crate::specs::Expression::arguments))]
    pub fn arguments(&self, tokens: &mut Cursor<'_>) -> Result<Items<Boxed<Expr>>, ParseError>
        requires { Nests self.now.depth (F.pre self.now.expression) (F.post self.now.expression) }
        ensures { Parses (spec.arguments self.now.depth (spec.expression self.now.depth) tokens.old) result tokens.new }
    {
        expect(tokens, Kind::LeftParen)?;
        if self.depth == 0 {
            return Err(ParseError::Here(RefusalKind::TooDeep, tokens.left()));
        }
        self.filled(tokens)
    }
}
