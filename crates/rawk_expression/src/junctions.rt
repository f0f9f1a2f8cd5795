//! From assignments and `in` up to `?:`.

ghost use Rattle.std.specs.Prelude.{◌≡◌, ◌<◌, ◌-◌, None, IfOk, IfErr};
ghost use Rattle.rawk_parsing.specs.declared.parse_error.ParseError.TheVariants.{OutOfMemory};
ghost use Rattle.rawk_parsing.specs.declared.tree.Expr.TheVariants as tree;
ghost use Rattle.rawk_parsing.specs.Tables as tables;
ghost use Rattle.rawk_parsing.specs.Parser.{Parses, newlines};
ghost use Rattle.rawk_expression.specs.Expression as spec;
ghost use Rattle.rawk_expression.specs.Nests.{Nests};
ghost use Rattle.rawk_expression.specs.declared.operands.Start.TheVariants.{Assigns};

use crate::grammar::{Grammar, Wanted, alone, boxed, whole_of};
use crate::operands::{Start, arrays, contained};
use rawk_items::{Boxed, Items};
use rawk_lexer::{Cursor, Kind};
use rawk_parsing::ParseError;
use rawk_parsing::tables::{logic, mark};
use rawk_parsing::tokens::{eat, expect, not_redirected, sees, skip_newlines};
use rawk_parsing::tree::{Assignment, Expr, Place};
use std::alloc::Global;

/// An operand of `&&` or `||`.
#[derive(Drop)]
pub struct Operand {
    pub tree: Boxed<Expr>,
    /// whether it ends in an assignment, so that nothing goes on behind it
    pub is_open: bool,
}

/// An operand with the arrays behind `in`.
#[tactic(auto, unfolding(crate::specs::Expression::member))]
fn member(alloc: Global, tokens: &mut Cursor<'_>, e: Boxed<Expr>) -> Result<Operand, ParseError>
    ensures { Parses (spec.member e tokens.old) result tokens.new }
{
    let arrays = arrays(alloc, tokens)?;
    let tree = contained(alloc, e, arrays)?;
    Ok(Operand {
        tree,
        is_open: false,
    })
}

/// The operands of a level of tests, two or more.
fn joined(
    alloc: Global,
    level: u8,
    operands: Items<Boxed<Expr>>,
    is_open: bool,
) -> Result<Operand, ParseError>
    ensures made { IfOk result (λ o. (o.tree ≡ tree.Logic (tables.logic level) operands) × (o.is_open ≡ is_open)) }
    ensures refused { IfErr result (λ e. e ≡ OutOfMemory) }
{
    let tree = boxed(alloc, Expr::Logic(logic(level), operands))?;
    Ok(Operand { tree, is_open })
}

impl<F: Fn(Global, &mut Cursor<'_>, usize, Wanted) -> Result<Boxed<Expr>, ParseError>> Grammar<F> {
    /// The value of an assignment.
    fn assigned(
        &self,
        tokens: &mut Cursor<'_>,
        prints: bool,
        assignment: Assignment,
        place: Place,
    ) -> Result<Operand, ParseError>
        requires { Nests self.now.depth (F.pre self.now.expression) (F.post self.now.expression) }
        ensures { Parses (spec.operand self.now.depth (spec.expression self.now.depth) prints (Assigns assignment place) tokens.old) result tokens.new }
    {
        let value = self.deeper(tokens, whole_of(prints))?;
        let tree = boxed(self.alloc, Expr::Assign(assignment, place, value))?;
        Ok(Operand {
            tree,
            is_open: true,
        })
    }

    fn operand(
        &self,
        tokens: &mut Cursor<'_>,
        prints: bool,
        start: Start,
    ) -> Result<Operand, ParseError>
        requires { Nests self.now.depth (F.pre self.now.expression) (F.post self.now.expression) }
        ensures { Parses (spec.operand self.now.depth (spec.expression self.now.depth) prints start tokens.old) result tokens.new }
    {
        let head = match start {
            Start::Nothing => None,
            Start::Base(head) => Some(head),
            Start::Member(e) => return member(self.alloc, tokens, e),
            Start::Assigns(assignment, place) => {
                return self.assigned(tokens, prints, assignment, place);
            }
        };
        let e = self.level(tokens, prints, head, 5)?;
        member(self.alloc, tokens, e)
    }

    /// Operands at level 0, joined by `&&` at level 1, by `||` at level 2.
    #[cycle(junctions)]
    fn junction(
        &self,
        tokens: &mut Cursor<'_>,
        prints: bool,
        level: u8,
        start: Start,
    ) -> Result<Operand, ParseError>
        requires { Nests self.now.depth (F.pre self.now.expression) (F.post self.now.expression) }
        ensures { Parses (spec.junction self.now.depth (spec.expression self.now.depth) prints level start tokens.old) result tokens.new }
    {
        if level == 0 {
            return self.operand(tokens, prints, start);
        }
        let first = self.junction(tokens, prints, level - 1, start)?;
        if first.is_open || !sees(tokens, mark(level)) {
            return Ok(first);
        }
        self.further(tokens, prints, level, first.tree)
    }

    #[cycle(junctions)]
    fn further(
        &self,
        tokens: &mut Cursor<'_>,
        prints: bool,
        level: u8,
        first: Boxed<Expr>,
    ) -> Result<Operand, ParseError>
        requires nests { Nests self.now.depth (F.pre self.now.expression) (F.post self.now.expression) }
        requires some { 0 < level }
        ensures { Parses (spec.further level (spec.begun self.now.depth (spec.expression self.now.depth) (spec.junction self.now.depth (spec.expression self.now.depth) prints (level - 1))) first tokens.old) result tokens.new }
    {
        let mut operands = alone(self.alloc, first)?;
        for _turn in 0..tokens.left() {
            if !eat(tokens, mark(level)) {
                return joined(self.alloc, level, operands, false);
            }
            let next = self.next(tokens, prints, level)?;
            operands.push(next.tree)?;
            if next.is_open {
                return joined(self.alloc, level, operands, true);
            }
        }
        joined(self.alloc, level, operands, false)
    }

    /// The operand behind `&&` or `||`.
    #[cycle(junctions)]
    fn next(&self, tokens: &mut Cursor<'_>, prints: bool, level: u8) -> Result<Operand, ParseError>
        requires nests { Nests self.now.depth (F.pre self.now.expression) (F.post self.now.expression) }
        requires some { 0 < level }
        ensures { Parses (spec.begun self.now.depth (spec.expression self.now.depth) (spec.junction self.now.depth (spec.expression self.now.depth) prints (level - 1)) (newlines tokens.old)) result tokens.new }
    {
        skip_newlines(tokens);
        let start = self.opening(tokens)?;
        self.junction(tokens, prints, level - 1, start)
    }

    #[tactic(auto, unfolding(crate::specs::Expression::choice))]
    fn choice(
        &self,
        tokens: &mut Cursor<'_>,
        prints: bool,
        test: Boxed<Expr>,
    ) -> Result<Boxed<Expr>, ParseError>
        requires { Nests self.now.depth (F.pre self.now.expression) (F.post self.now.expression) }
        ensures { Parses (spec.choice self.now.depth (spec.expression self.now.depth) prints test tokens.old) result tokens.new }
    {
        let second = self.deeper(tokens, whole_of(prints))?;
        expect(tokens, Kind::Colon)?;
        let third = self.deeper(tokens, whole_of(prints))?;
        boxed(self.alloc, Expr::Choice(test, second, third))
    }

    #[tactic(auto, unfolding(crate::specs::Expression::chosen))]
    fn chosen(
        &self,
        tokens: &mut Cursor<'_>,
        prints: bool,
        test: Operand,
    ) -> Result<Boxed<Expr>, ParseError>
        requires { Nests self.now.depth (F.pre self.now.expression) (F.post self.now.expression) }
        ensures { Parses (spec.chosen self.now.depth (spec.expression self.now.depth) prints test tokens.old) result tokens.new }
    {
        let Operand { tree, is_open } = test;
        if is_open || !sees(tokens, Kind::Question) {
            return Ok(tree);
        }
        tokens.take();
        self.choice(tokens, prints, tree)
    }

    /// An expression whose begin is read.
    #[tactic(auto, unfolding(crate::specs::Expression::finished))]
    pub fn finished(
        &self,
        tokens: &mut Cursor<'_>,
        prints: bool,
        start: Start,
    ) -> Result<Boxed<Expr>, ParseError>
        requires { Nests self.now.depth (F.pre self.now.expression) (F.post self.now.expression) }
        ensures { Parses (spec.finished self.now.depth (spec.expression self.now.depth) prints start tokens.old) result tokens.new }
    {
        let test = self.junction(tokens, prints, 2, start)?;
        let e = self.chosen(tokens, prints, test)?;
        not_redirected(tokens, prints)?;
        Ok(e)
    }

    #[tactic(auto, unfolding(crate::specs::Expression::whole))]
    pub fn whole(&self, tokens: &mut Cursor<'_>, prints: bool) -> Result<Boxed<Expr>, ParseError>
        requires { Nests self.now.depth (F.pre self.now.expression) (F.post self.now.expression) }
        ensures { Parses (spec.whole self.now.depth (spec.expression self.now.depth) prints tokens.old) result tokens.new }
    {
        let start = self.opening(tokens)?;
        self.finished(tokens, prints, start)
    }

    pub fn by(&self, tokens: &mut Cursor<'_>, wanted: Wanted) -> Result<Boxed<Expr>, ParseError>
        requires { Nests self.now.depth (F.pre self.now.expression) (F.post self.now.expression) }
        ensures { Parses (spec.by self.now.depth (spec.expression self.now.depth) wanted tokens.old) result tokens.new }
    {
        match wanted {
            Wanted::Whole => self.whole(tokens, false),
            Wanted::Printed => self.whole(tokens, true),
            Wanted::Unary => self.unary(tokens, None),
            Wanted::Dollar => self.dollar(tokens),
            Wanted::Before(change) => {
                let place = self.place(tokens)?;
                boxed(self.alloc, Expr::Before(change, place))
            }
        }
    }
}
