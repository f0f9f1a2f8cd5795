//! Statements, whose bodies are statements.

ghost use Rattle.rawk_parsing.specs.Parser.{Parses};
ghost use Rattle.rawk_grammar.specs.Statement as spec;
ghost use Rattle.rawk_grammar.specs.Nests.{Nests};

use crate::context::Context;
use crate::dangling::other_behind;
use crate::heads::{condition, enclosed, head, sees_member};
use crate::simple::{boxed, end, ended, placed_jump};
use crate::tree::{Branch, Stmt};
use rawk_items::{Boxed, Items};
use rawk_lexer::{Cursor, Kind};
use rawk_parsing::tokens::{eat, expect, name, refuse, sees, skip_newlines};
use rawk_parsing::{ParseError, RefusalKind};
use std::alloc::Global;

/// The condition of a `do`, behind its body and the newlines there.
fn do_end(
    alloc: Global,
    tokens: &mut Cursor<'_>,
    depth: usize,
    body: Boxed<Stmt>,
) -> Result<Boxed<Stmt>, ParseError>
    ensures { Parses (spec.do_end depth body tokens.old) result tokens.new }
{
    expect(tokens, Kind::While)?;
    let condition = enclosed(alloc, tokens, depth)?;
    end(tokens)?;
    boxed(alloc, Stmt::Do(body, condition))
}

/// The rules that hold statements take the parser of those as a parameter, so that each is proved by itself.
#[derive(Drop)]
pub struct Rules<F> {
    alloc: Global,
    /// how many constructs may still be opened
    depth: usize,
    statement: F,
    context: Context,
}

impl<F: Fn(Global, &mut Cursor<'_>, usize, Context) -> Result<Boxed<Stmt>, ParseError>> Rules<F> {
    /// A statement one construct deeper.
    fn deeper(&self, tokens: &mut Cursor<'_>, context: Context) -> Result<Boxed<Stmt>, ParseError>
        requires { Nests self.now.depth (F.pre self.now.statement) (F.post self.now.statement) }
        ensures { Parses (spec.statement self.now.depth context tokens.old) result tokens.new }
    {
        (self.statement)(self.alloc, tokens, self.depth, context)
    }

    /// Statements up to a closing brace, and that brace.
    fn block(&self, tokens: &mut Cursor<'_>) -> Result<Items<Boxed<Stmt>>, ParseError>
        requires { Nests self.now.depth (F.pre self.now.statement) (F.post self.now.statement) }
        ensures { Parses (spec.block self.now.depth (spec.statement self.now.depth) self.now.context tokens.old) result tokens.new }
    {
        let mut found = Items::new(self.alloc);
        for _turn in 0..tokens.left() {
            skip_newlines(tokens);
            if sees(tokens, Kind::RightBrace) {
                tokens.take();
                return Ok(found);
            }
            found.push(self.deeper(tokens, self.context)?)?;
        }
        Err(refuse(tokens))
    }

    /// A branch, behind its `if`.
    #[tactic(auto, unfolding(crate::specs::Statement::branch, crate::specs::Statement::branch_of))]
    fn branch(&self, tokens: &mut Cursor<'_>) -> Result<Boxed<Branch>, ParseError>
        requires { Nests self.now.depth (F.pre self.now.statement) (F.post self.now.statement) }
        ensures { Parses (spec.branch self.now.depth (spec.statement self.now.depth) self.now.context tokens.old) result tokens.new }
    {
        let condition = condition(self.alloc, tokens, self.depth)?;
        let body = self.deeper(tokens, self.context)?;
        Ok(Boxed::new(self.alloc, Branch { condition, body })?)
    }

    /// The statement behind branches and the last `else`.
    fn chain_end(
        &self,
        tokens: &mut Cursor<'_>,
        branches: Items<Boxed<Branch>>,
    ) -> Result<Boxed<Stmt>, ParseError>
        requires { Nests self.now.depth (F.pre self.now.statement) (F.post self.now.statement) }
        ensures { Parses (spec.chain_end self.now.depth (spec.statement self.now.depth) self.now.context branches tokens.old) result tokens.new }
    {
        let last = self.deeper(tokens, self.context)?;
        boxed(self.alloc, Stmt::If(branches, Some(last)))
    }

    /// Branches that `else if` joins, behind the first `if`.
    fn chain(&self, tokens: &mut Cursor<'_>) -> Result<Boxed<Stmt>, ParseError>
        requires { Nests self.now.depth (F.pre self.now.statement) (F.post self.now.statement) }
        ensures { Parses (spec.chain self.now.depth (spec.statement self.now.depth) self.now.context tokens.old) result tokens.new }
    {
        let mut branches = Items::new(self.alloc);
        for _turn in 0..tokens.left() {
            let branch = self.branch(tokens)?;
            let goes_on = other_behind(branch.get(), tokens);
            branches.push(branch)?;
            if !goes_on {
                return boxed(self.alloc, Stmt::If(branches, None));
            }
            if !eat(tokens, Kind::If) {
                return self.chain_end(tokens, branches);
            }
        }
        Err(refuse(tokens))
    }

    #[tactic(auto, unfolding(crate::specs::Statement::while_loop))]
    fn while_loop(&self, tokens: &mut Cursor<'_>) -> Result<Boxed<Stmt>, ParseError>
        requires { Nests self.now.depth (F.pre self.now.statement) (F.post self.now.statement) }
        ensures { Parses (spec.while_loop self.now.depth (spec.statement self.now.depth) self.now.context tokens.old) result tokens.new }
    {
        let condition = condition(self.alloc, tokens, self.depth)?;
        let body = self.deeper(tokens, self.context.looped())?;
        boxed(self.alloc, Stmt::While(condition, body))
    }

    #[tactic(auto, unfolding(crate::specs::Statement::do_loop))]
    fn do_loop(&self, tokens: &mut Cursor<'_>) -> Result<Boxed<Stmt>, ParseError>
        requires { Nests self.now.depth (F.pre self.now.statement) (F.post self.now.statement) }
        ensures { Parses (spec.do_loop self.now.depth (spec.statement self.now.depth) self.now.context tokens.old) result tokens.new }
    {
        skip_newlines(tokens);
        let body = self.deeper(tokens, self.context.looped())?;
        skip_newlines(tokens);
        do_end(self.alloc, tokens, self.depth, body)
    }

    /// A `for` over an array, behind its parenthesis.
    #[tactic(auto, unfolding(crate::specs::Statement::member_loop))]
    fn member_loop(&self, tokens: &mut Cursor<'_>, place: usize) -> Result<Boxed<Stmt>, ParseError>
        requires { Nests self.now.depth (F.pre self.now.statement) (F.post self.now.statement) }
        ensures { Parses (spec.member_loop self.now.depth (spec.statement self.now.depth) self.now.context place tokens.old) result tokens.new }
    {
        let variable = name(self.alloc, tokens)?;
        tokens.take();
        let array = name(self.alloc, tokens)?;
        tokens.take();
        skip_newlines(tokens);
        let body = self.deeper(tokens, self.context.looped())?;
        boxed(self.alloc, Stmt::ForIn(place, variable, array, body))
    }

    /// A `for` that counts, behind its parenthesis.
    #[tactic(auto, unfolding(crate::specs::Statement::count_loop))]
    fn count_loop(&self, tokens: &mut Cursor<'_>) -> Result<Boxed<Stmt>, ParseError>
        requires { Nests self.now.depth (F.pre self.now.statement) (F.post self.now.statement) }
        ensures { Parses (spec.count_loop self.now.depth (spec.statement self.now.depth) self.now.context tokens.old) result tokens.new }
    {
        let head = head(self.alloc, tokens, self.depth)?;
        skip_newlines(tokens);
        let body = self.deeper(tokens, self.context.looped())?;
        boxed(self.alloc, Stmt::For(head, body))
    }

    #[tactic(auto, unfolding(crate::specs::Statement::for_loop))]
    fn for_loop(&self, tokens: &mut Cursor<'_>, place: usize) -> Result<Boxed<Stmt>, ParseError>
        requires { Nests self.now.depth (F.pre self.now.statement) (F.post self.now.statement) }
        ensures { Parses (spec.for_loop self.now.depth (spec.statement self.now.depth) self.now.context place tokens.old) result tokens.new }
    {
        expect(tokens, Kind::LeftParen)?;
        if sees_member(tokens) {
            self.member_loop(tokens, place)
        } else {
            self.count_loop(tokens)
        }
    }

    /// A rule that opens a construct, behind the token that opens it.
    fn opened(
        &self,
        tokens: &mut Cursor<'_>,
        place: usize,
        kind: Kind,
    ) -> Result<Boxed<Stmt>, ParseError>
        requires { Nests self.now.depth (F.pre self.now.statement) (F.post self.now.statement) }
        ensures { Parses (spec.compound_by self.now.depth (spec.statement self.now.depth) self.now.context place kind tokens.old) result tokens.new }
    {
        match kind {
            Kind::LeftBrace => {
                let statements = self.block(tokens)?;
                boxed(self.alloc, Stmt::Block(statements))
            }
            Kind::If => self.chain(tokens),
            Kind::While => self.while_loop(tokens),
            Kind::Do => self.do_loop(tokens),
            _ => self.for_loop(tokens, place),
        }
    }

    /// A statement that opens a construct, also where the construct holds nothing.
    #[tactic(auto, unfolding(crate::specs::Statement::compound))]
    fn compound(&self, tokens: &mut Cursor<'_>) -> Result<Boxed<Stmt>, ParseError>
        requires { Nests self.now.depth (F.pre self.now.statement) (F.post self.now.statement) }
        ensures { Parses (spec.compound self.now.depth (spec.statement self.now.depth) self.now.context tokens.old) result tokens.new }
    {
        let place = tokens.left();
        let kind = tokens.peek();
        tokens.take();
        if self.depth == 0 {
            return Err(ParseError::Here(RefusalKind::TooDeep, tokens.left()));
        }
        self.opened(tokens, place, kind)
    }

    #[tactic(auto, unfolding(crate::specs::Statement::one))]
    fn one(&self, tokens: &mut Cursor<'_>, own: usize) -> Result<Boxed<Stmt>, ParseError>
        requires { Nests self.now.depth (F.pre self.now.statement) (F.post self.now.statement) }
        ensures { Parses (spec.one self.now.depth (spec.statement self.now.depth) self.now.context own tokens.old) result tokens.new }
    {
        match tokens.peek() {
            Kind::Semicolon => {
                tokens.take();
                boxed(self.alloc, Stmt::Empty)
            }
            Kind::LeftBrace | Kind::If | Kind::While | Kind::Do | Kind::For => self.compound(
                tokens,
            ),
            Kind::Next | Kind::Break | Kind::Continue | Kind::Exit | Kind::Return => {
                placed_jump(self.alloc, tokens, own, self.context)
            }
            _ => ended(self.alloc, tokens, own),
        }
    }
}

/// A statement, with fewer than `depth` constructs open at once.
pub fn statement(
    alloc: Global,
    tokens: &mut Cursor<'_>,
    depth: usize,
    context: Context,
) -> Result<Boxed<Stmt>, ParseError>
    ensures { Parses (spec.statement depth context tokens.old) result tokens.new }
{
    if depth == 0 {
        return Err(ParseError::Here(RefusalKind::TooDeep, tokens.left()));
    }
    Rules {
        alloc,
        depth: depth - 1,
        statement,
        context,
    }
    .one(tokens, depth)
}

/// An action; an empty one is a construct too, so that `room` constructs may be opened and one is.
#[tactic(auto, unfolding(crate::specs::Statement::action))]
pub fn action(
    alloc: Global,
    tokens: &mut Cursor<'_>,
    room: usize,
    context: Context,
) -> Result<Items<Boxed<Stmt>>, ParseError>
    ensures { Parses (spec.action room context tokens.old) result tokens.new }
{
    expect(tokens, Kind::LeftBrace)?;
    if room == 0 {
        return Err(ParseError::Here(RefusalKind::TooDeep, tokens.left()));
    }
    Rules {
        alloc,
        depth: room,
        statement,
        context,
    }
    .block(tokens)
}
