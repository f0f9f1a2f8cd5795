//! The rules that hold expressions take the parser of those as a parameter, so that each is proved by itself.

ghost use Rattle.std.specs.Prelude.{◌≡◌, [], ◌∷◌, IfOk, IfErr};
ghost use Rattle.rawk_parsing.specs.declared.parse_error.ParseError.TheVariants.{OutOfMemory};
ghost use Rattle.rawk_parsing.specs.Parser.{Parses};
ghost use Rattle.rawk_expression.specs.Expression as spec;
ghost use Rattle.rawk_expression.specs.Nests.{Nests};

use rawk_items::{Boxed, Items};
use rawk_lexer::Cursor;
use rawk_parsing::tree::{Change, Expr};
use rawk_parsing::{ParseError, RefusalKind};
use std::alloc::Global;

/// What is to be read.
#[derive(Clone, Copy, PartialEq, Eq)]
pub enum Wanted {
    /// a whole expression
    Whole,
    /// a whole expression of the list of a print, with no `>` outside brackets
    Printed,
    /// what may stand behind a sign or `^`
    Unary,
    /// what may stand behind `$`
    Dollar,
    /// the place behind `++` or `--`
    Before(Change),
}

/// A whole expression, in the list of a print or elsewhere.
pub fn whole_of(prints: bool) -> Wanted
    ensures { result ≡ spec.whole_of prints }
{
    if prints {
        Wanted::Printed
    } else {
        Wanted::Whole
    }
}

/// A tree on the heap.
pub fn boxed(alloc: Global, tree: Expr) -> Result<Boxed<Expr>, ParseError>
    ensures made { IfOk result (λ e. e ≡ tree) }
    ensures refused { IfErr result (λ e. e ≡ OutOfMemory) }
{
    Ok(Boxed::new(alloc, tree)?)
}

/// The list of one expression.
pub fn alone(alloc: Global, first: Boxed<Expr>) -> Result<Items<Boxed<Expr>>, ParseError>
    ensures made { IfOk result (λ e. e ≡ first ∷ []) }
    ensures refused { IfErr result (λ e. e ≡ OutOfMemory) }
{
    let mut found = Items::new(alloc);
    found.push(first)?;
    Ok(found)
}

#[derive(Drop)]
pub struct Grammar<F> {
    pub alloc: Global,
    /// how many constructs may still be opened
    pub depth: usize,
    pub expression: F,
}

impl<F: Fn(Global, &mut Cursor<'_>, usize, Wanted) -> Result<Boxed<Expr>, ParseError>> Grammar<F> {
    pub fn deeper(&self, tokens: &mut Cursor<'_>, wanted: Wanted) -> Result<Boxed<Expr>, ParseError>
        requires { Nests self.now.depth (F.pre self.now.expression) (F.post self.now.expression) }
        ensures { Parses (spec.expression self.now.depth wanted tokens.old) result tokens.new }
    {
        (self.expression)(self.alloc, tokens, self.depth, wanted)
    }
}

/// Reads an expression, with fewer than `depth` constructs open at once, and leaves the tokens behind it.
///
/// It refuses a text by the token at which it stops: `Syntax`, `BadToken`, `Unterminated` and `LeftOut` by the grammar, `BadNumber`
/// for a constant that is not whole or does not fit 64 bits, `TooDeep` at the first token inside a construct too many. `OutOfMemory`
/// is the refusal of a growth. After a refusal the place of the tokens is not known.
/// Each token is looked at a bounded number of times, and no call goes deeper than the constructs that are open.
pub fn expression(
    alloc: Global,
    tokens: &mut Cursor<'_>,
    depth: usize,
    wanted: Wanted,
) -> Result<Boxed<Expr>, ParseError>
    ensures { Parses (spec.expression depth wanted tokens.old) result tokens.new }
{
    if depth == 0 {
        return Err(ParseError::Here(RefusalKind::TooDeep, tokens.left()));
    }
    Grammar {
        alloc,
        depth: depth - 1,
        expression,
    }
    .by(tokens, wanted)
}
