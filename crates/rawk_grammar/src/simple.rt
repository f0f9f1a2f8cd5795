//! Simple statements, jumps, and what stands in the parentheses of heads.

ghost use Rattle.std.specs.Prelude.{◌≡◌, IfOk, IfErr};
ghost use Rattle.rawk_parsing.specs.declared.parse_error.ParseError.TheVariants.{OutOfMemory};
ghost use Rattle.rawk_parsing.specs.Parser.{Parses};
ghost use Rattle.rawk_lexer.specs.Lex.{kind as the_kind};
ghost use Rattle.rawk_grammar.specs.Statement as spec;

use crate::context::Context;
use crate::tree::{Act, Jump, Simple, Stmt};
use rawk_expression::{Wanted, expression, place, printed};
use rawk_items::{Boxed, Items};
use rawk_lexer::{Cursor, Kind};
use rawk_parsing::tokens::{refuse, sees};
use rawk_parsing::tree::Expr;
use rawk_parsing::{ParseError, RefusalKind};
use std::alloc::Global;

/// A statement on the heap.
pub fn boxed(alloc: Global, stmt: Stmt) -> Result<Boxed<Stmt>, ParseError>
    ensures made { IfOk result (λ s. s ≡ stmt) }
    ensures refused { IfErr result (λ e. e ≡ OutOfMemory) }
{
    Ok(Boxed::new(alloc, stmt)?)
}

/// What may stand directly behind a statement.
fn closes(kind: Kind) -> bool
    ensures { result ≡ spec.closes kind }
{
    matches!(kind, Kind::Semicolon | Kind::Newline | Kind::RightBrace)
}

/// The end of a statement; a brace stays.
#[tactic(auto, unfolding(crate::specs::Statement::end))]
pub fn end(tokens: &mut Cursor<'_>) -> Result<(), ParseError>
    ensures { Parses (spec.end tokens.old) result tokens.new }
{
    match tokens.peek() {
        Kind::Semicolon | Kind::Newline => {
            tokens.take();
            Ok(())
        }
        Kind::RightBrace => Ok(()),
        _ => Err(refuse(tokens)),
    }
}

/// What stands behind a `print` with no list: the end of the statement, or of the head of a `for`.
fn is_bare(kind: Kind) -> bool
    ensures { result ≡ spec.is_bare kind }
{
    match kind {
        Kind::RightParen => true,
        kind => closes(kind),
    }
}

#[tactic(auto, unfolding(crate::specs::Statement::optional_list))]
fn optional_list(
    alloc: Global,
    tokens: &mut Cursor<'_>,
    depth: usize,
) -> Result<Items<Boxed<Expr>>, ParseError>
    ensures { Parses (spec.optional_list depth tokens.old) result tokens.new }
{
    if is_bare(tokens.peek()) {
        return Ok(Items::new(alloc));
    }
    printed(alloc, tokens, depth)
}

/// A name or an element.
#[tactic(auto, unfolding(crate::specs::Statement::deleted))]
fn deleted(alloc: Global, tokens: &mut Cursor<'_>, depth: usize) -> Result<Act, ParseError>
    ensures { Parses (spec.deleted depth tokens.old) result tokens.new }
{
    if !sees(tokens, Kind::Name) {
        return Err(refuse(tokens));
    }
    Ok(Act::Delete(place(alloc, tokens, depth)?))
}

fn act(alloc: Global, tokens: &mut Cursor<'_>, depth: usize) -> Result<Act, ParseError>
    ensures { Parses (spec.act_by depth (the_kind tokens.old) tokens.old) result tokens.new }
{
    match tokens.peek() {
        Kind::Print => {
            tokens.take();
            Ok(Act::Print(optional_list(alloc, tokens, depth)?))
        }
        Kind::Printf => {
            tokens.take();
            Ok(Act::Printf(printed(alloc, tokens, depth)?))
        }
        Kind::Delete => {
            tokens.take();
            deleted(alloc, tokens, depth)
        }
        _ => Ok(Act::Evaluate(expression(alloc, tokens, depth, Wanted::Whole)?)),
    }
}

/// A simple statement, without its end.
#[tactic(auto, unfolding(crate::specs::Statement::simple, crate::specs::Statement::simple_at))]
pub fn simple(
    alloc: Global,
    tokens: &mut Cursor<'_>,
    depth: usize,
) -> Result<Boxed<Simple>, ParseError>
    ensures { Parses (spec.simple depth tokens.old) result tokens.new }
{
    let left = tokens.left();
    let act = act(alloc, tokens, depth)?;
    Ok(Boxed::new(alloc, Simple { left, act })?)
}

/// A simple statement and its end.
#[tactic(auto, unfolding(crate::specs::Statement::ended))]
pub fn ended(
    alloc: Global,
    tokens: &mut Cursor<'_>,
    depth: usize,
) -> Result<Boxed<Stmt>, ParseError>
    ensures { Parses (spec.ended depth tokens.old) result tokens.new }
{
    let simple = simple(alloc, tokens, depth)?;
    end(tokens)?;
    boxed(alloc, Stmt::Simple(simple))
}

#[tactic(auto, unfolding(crate::specs::Statement::optional_value))]
fn optional_value(
    alloc: Global,
    tokens: &mut Cursor<'_>,
    depth: usize,
) -> Result<Option<Boxed<Expr>>, ParseError>
    ensures { Parses (spec.optional_value depth tokens.old) result tokens.new }
{
    if closes(tokens.peek()) {
        return Ok(None);
    }
    Ok(Some(expression(alloc, tokens, depth, Wanted::Whole)?))
}

fn jump_by(alloc: Global, tokens: &mut Cursor<'_>, depth: usize) -> Result<Jump, ParseError>
    ensures { Parses (spec.jump_by depth (the_kind tokens.old) tokens.old) result tokens.new }
{
    match tokens.peek() {
        Kind::Next => {
            tokens.take();
            Ok(Jump::Next)
        }
        Kind::Break => {
            tokens.take();
            Ok(Jump::Break)
        }
        Kind::Continue => {
            tokens.take();
            Ok(Jump::Continue)
        }
        Kind::Exit => {
            tokens.take();
            Ok(Jump::Exit(optional_value(alloc, tokens, depth)?))
        }
        Kind::Return => {
            tokens.take();
            Ok(Jump::Return(optional_value(alloc, tokens, depth)?))
        }
        _ => Err(refuse(tokens)),
    }
}

#[tactic(auto, unfolding(crate::specs::Statement::jump))]
fn jump(alloc: Global, tokens: &mut Cursor<'_>, depth: usize) -> Result<Boxed<Stmt>, ParseError>
    ensures { Parses (spec.jump depth tokens.old) result tokens.new }
{
    let left = tokens.left();
    let jump = Boxed::new(alloc, jump_by(alloc, tokens, depth)?)?;
    end(tokens)?;
    boxed(alloc, Stmt::Jump(left, jump))
}

/// A jump and its end; one that may not stand here is misplaced.
#[tactic(auto, unfolding(crate::specs::Statement::placed_jump))]
pub fn placed_jump(
    alloc: Global,
    tokens: &mut Cursor<'_>,
    depth: usize,
    context: Context,
) -> Result<Boxed<Stmt>, ParseError>
    ensures { Parses (spec.placed_jump depth context tokens.old) result tokens.new }
{
    if !context.allows(tokens.peek()) {
        return Err(ParseError::Here(RefusalKind::Misplaced, tokens.left()));
    }
    jump(alloc, tokens, depth)
}
