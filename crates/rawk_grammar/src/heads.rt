//! What stands in parentheses behind a keyword.

ghost use Rattle.std.specs.Prelude.{◌≡◌, Ok};
ghost use Rattle.rawk_parsing.specs.Parser.{Parses};
ghost use Rattle.rawk_grammar.specs.Statement as spec;

use crate::simple::{boxed, simple};
use crate::tree::{Condition, Head, Stmt};
use rawk_expression::{Wanted, expression};
use rawk_items::Boxed;
use rawk_lexer::{Cursor, Kind};
use rawk_parsing::ParseError;
use rawk_parsing::tokens::{expect, sees, skip_newlines};
use rawk_parsing::tree::Expr;
use std::alloc::Global;

/// An expression in parentheses.
#[tactic(auto, unfolding(crate::specs::Statement::enclosed, crate::specs::Statement::condition_at))]
pub fn enclosed(
    alloc: Global,
    tokens: &mut Cursor<'_>,
    depth: usize,
) -> Result<Boxed<Condition>, ParseError>
    ensures { Parses (spec.enclosed depth tokens.old) result tokens.new }
{
    expect(tokens, Kind::LeftParen)?;
    let left = tokens.left();
    let test = expression(alloc, tokens, depth, Wanted::Whole)?;
    expect(tokens, Kind::RightParen)?;
    Ok(Boxed::new(alloc, Condition { left, test })?)
}

/// An expression in parentheses, and the newlines behind it.
#[tactic(auto, unfolding(crate::specs::Statement::condition))]
pub fn condition(
    alloc: Global,
    tokens: &mut Cursor<'_>,
    depth: usize,
) -> Result<Boxed<Condition>, ParseError>
    ensures { Parses (spec.condition depth tokens.old) result tokens.new }
{
    let condition = enclosed(alloc, tokens, depth)?;
    skip_newlines(tokens);
    Ok(condition)
}

#[tactic(auto, unfolding(crate::specs::Statement::optional_simple))]
fn optional_simple(
    alloc: Global,
    tokens: &mut Cursor<'_>,
    stop: Kind,
    depth: usize,
) -> Result<Option<Boxed<Stmt>>, ParseError>
    ensures { Parses (spec.optional_simple stop depth tokens.old) result tokens.new }
{
    if sees(tokens, stop) {
        return Ok(None);
    }
    let simple = simple(alloc, tokens, depth)?;
    Ok(Some(boxed(alloc, Stmt::Simple(simple))?))
}

#[tactic(auto, unfolding(crate::specs::Statement::optional_test))]
fn optional_test(
    alloc: Global,
    tokens: &mut Cursor<'_>,
    depth: usize,
) -> Result<Option<Boxed<Expr>>, ParseError>
    ensures { Parses (spec.optional_test depth tokens.old) result tokens.new }
{
    if sees(tokens, Kind::Semicolon) {
        return Ok(None);
    }
    Ok(Some(expression(alloc, tokens, depth, Wanted::Whole)?))
}

/// A semicolon and the newlines behind it.
#[tactic(auto, unfolding(crate::specs::Statement::semicolon))]
fn semicolon(tokens: &mut Cursor<'_>) -> Result<(), ParseError>
    ensures { Parses (spec.semicolon tokens.old) result tokens.new }
{
    expect(tokens, Kind::Semicolon)?;
    skip_newlines(tokens);
    Ok(())
}

/// The last part of a head, and the parenthesis behind it.
#[tactic(auto, unfolding(crate::specs::Statement::head_of))]
fn head_end(
    alloc: Global,
    tokens: &mut Cursor<'_>,
    depth: usize,
    first: Option<Boxed<Stmt>>,
    left: usize,
    test: Option<Boxed<Expr>>,
) -> Result<Boxed<Head>, ParseError>
    ensures { Parses (spec.head_end depth first left test tokens.old) result tokens.new }
{
    let last = optional_simple(alloc, tokens, Kind::RightParen, depth)?;
    expect(tokens, Kind::RightParen)?;
    Ok(Boxed::new(
        alloc,
        Head {
            first,
            left,
            test,
            last,
        },
    )?)
}

/// A head behind its first part and the semicolon.
fn head_rest(
    alloc: Global,
    tokens: &mut Cursor<'_>,
    depth: usize,
    first: Option<Boxed<Stmt>>,
) -> Result<Boxed<Head>, ParseError>
    ensures { Parses (spec.head_rest depth first tokens.old) result tokens.new }
{
    let left = tokens.left();
    let test = optional_test(alloc, tokens, depth)?;
    semicolon(tokens)?;
    head_end(alloc, tokens, depth, first, left, test)
}

/// The head of a `for` that counts, behind its parenthesis.
#[tactic(auto, unfolding(crate::specs::Statement::head))]
pub fn head(alloc: Global, tokens: &mut Cursor<'_>, depth: usize) -> Result<Boxed<Head>, ParseError>
    ensures { Parses (spec.head depth tokens.old) result tokens.new }
{
    let first = optional_simple(alloc, tokens, Kind::Semicolon, depth)?;
    semicolon(tokens)?;
    head_rest(alloc, tokens, depth, first)
}

/// Whether a name, `in`, a name and a closing parenthesis come next.
#[tactic(auto, unfolding(crate::specs::Statement::sees_member))]
pub fn sees_member(tokens: &Cursor<'_>) -> bool
    ensures { result ≡ spec.sees_member tokens.now }
{
    let mut ahead = Cursor::new(tokens.rest());
    if !sees(&ahead, Kind::Name) {
        return false;
    }
    ahead.take();
    if !sees(&ahead, Kind::In) {
        return false;
    }
    ahead.take();
    if !sees(&ahead, Kind::Name) {
        return false;
    }
    ahead.take();
    sees(&ahead, Kind::RightParen)
}

/// Takes an `else` behind newlines or none, with the newlines behind it.
#[tactic(auto, unfolding(crate::specs::Statement::other))]
pub fn other(tokens: &mut Cursor<'_>) -> bool
    ensures { spec.other tokens.old ≡ Ok (result, tokens.new) }
{
    let mut ahead = Cursor::new(tokens.rest());
    skip_newlines(&mut ahead);
    if !sees(&ahead, Kind::Else) {
        return false;
    }
    ahead.take();
    skip_newlines(&mut ahead);
    *tokens = ahead;
    true
}
