//! From signs and `^` up to `~`: a number is the level of an operator, and one function serves all levels.

ghost use Rattle.std.specs.Prelude.{◌≡◌, ◌<◌, ◌-◌, None, IfOk, IfErr};
ghost use Rattle.rawk_parsing.specs.declared.parse_error.ParseError.TheVariants.{OutOfMemory};
ghost use Rattle.rawk_parsing.specs.Parser.{Parses};
ghost use Rattle.rawk_expression.specs.Expression as spec;
ghost use Rattle.rawk_expression.specs.Nests.{Nests};

use crate::grammar::{Grammar, Wanted, boxed};
use rawk_items::{Boxed, Items};
use rawk_lexer::{Cursor, Kind};
use rawk_parsing::ParseError;
use rawk_parsing::tables::{is_alone, is_concat, joins, sign};
use rawk_parsing::tokens::eat;
use rawk_parsing::tree::{Expr, Link};
use rawk_words::Sign;
use std::alloc::Global;

/// An operand, and what is joined to it.
#[tactic(auto, unfolding(crate::specs::Expression::chained))]
fn chained(alloc: Global, first: Boxed<Expr>, links: Items<Link>) -> Result<Boxed<Expr>, ParseError>
    ensures made { IfOk result (λ e. e ≡ spec.chained first links) }
    ensures refused { IfErr result (λ e. e ≡ OutOfMemory) }
{
    if links.len() == 0 {
        return Ok(first);
    }
    boxed(alloc, Expr::Chain(first, links))
}

impl<F: Fn(Global, &mut Cursor<'_>, usize, Wanted) -> Result<Boxed<Expr>, ParseError>> Grammar<F> {
    /// An operand with its exponent.
    #[tactic(auto, unfolding(crate::specs::Expression::raised))]
    fn raised(&self, tokens: &mut Cursor<'_>, base: Boxed<Expr>) -> Result<Boxed<Expr>, ParseError>
        requires { Nests self.now.depth (F.pre self.now.expression) (F.post self.now.expression) }
        ensures { Parses (spec.raised self.now.depth (spec.expression self.now.depth) base tokens.old) result tokens.new }
    {
        if !eat(tokens, Kind::Caret) {
            return Ok(base);
        }
        let exponent = self.deeper(tokens, Wanted::Unary)?;
        boxed(self.alloc, Expr::Power(base, exponent))
    }

    fn signed(&self, tokens: &mut Cursor<'_>, sign: Sign) -> Result<Boxed<Expr>, ParseError>
        requires { Nests self.now.depth (F.pre self.now.expression) (F.post self.now.expression) }
        ensures { Parses (spec.signed self.now.depth (spec.expression self.now.depth) sign tokens.old) result tokens.new }
    {
        tokens.take();
        let operand = self.deeper(tokens, Wanted::Unary)?;
        boxed(self.alloc, Expr::Signed(sign, operand))
    }

    /// The operators with one operand, and `^`. The operand may have been read.
    pub fn unary(
        &self,
        tokens: &mut Cursor<'_>,
        head: Option<Boxed<Expr>>,
    ) -> Result<Boxed<Expr>, ParseError>
        requires { Nests self.now.depth (F.pre self.now.expression) (F.post self.now.expression) }
        ensures { Parses (spec.unary self.now.depth (spec.expression self.now.depth) head tokens.old) result tokens.new }
    {
        let base = match head {
            Some(head) => head,
            None => match sign(tokens.peek()) {
                Some(sign) => return self.signed(tokens, sign),
                None => self.postfix(tokens)?,
            },
        };
        self.raised(tokens, base)
    }

    /// Operators of this level and those that bind tighter.
    #[cycle(levels)]
    pub fn level(
        &self,
        tokens: &mut Cursor<'_>,
        prints: bool,
        head: Option<Boxed<Expr>>,
        level: u8,
    ) -> Result<Boxed<Expr>, ParseError>
        requires { Nests self.now.depth (F.pre self.now.expression) (F.post self.now.expression) }
        ensures { Parses (spec.level self.now.depth (spec.expression self.now.depth) prints head level tokens.old) result tokens.new }
    {
        if level == 0 {
            return self.unary(tokens, head);
        }
        let first = self.level(tokens, prints, head, level - 1)?;
        let links = self.links(tokens, prints, level)?;
        chained(self.alloc, first, links)
    }

    #[cycle(levels)]
    fn links(
        &self,
        tokens: &mut Cursor<'_>,
        prints: bool,
        level: u8,
    ) -> Result<Items<Link>, ParseError>
        requires nests { Nests self.now.depth (F.pre self.now.expression) (F.post self.now.expression) }
        requires some { 0 < level }
        ensures { Parses (spec.links prints level (spec.level self.now.depth (spec.expression self.now.depth) prints None (level - 1)) tokens.old) result tokens.new }
    {
        let mut links = Items::new(self.alloc);
        for _turn in 0..tokens.left() {
            let Some(operator) = joins(prints, level, tokens.peek()) else {
                return Ok(links);
            };
            pass(tokens, is_concat(operator));
            let operand = self.level(tokens, prints, None, level - 1)?;
            links.push(Link { operator, operand })?;
            if is_alone(level) {
                return Ok(links);
            }
        }
        Ok(links)
    }
}

/// Takes the next token, if the operator is one.
fn pass(tokens: &mut Cursor<'_>, is_empty: bool)
    ensures { tokens.new ≡ spec.past is_empty tokens.old }
{
    if !is_empty {
        tokens.take();
    }
}
