//! Items and programs.

ghost use Rattle.std.specs.Prelude.{◌≡◌, IfOk, List};
ghost use Rattle.rawk_parsing.specs.Parser.{Parses};
ghost use Rattle.rawk_grammar.specs.Items as spec;
ghost use Rattle.rawk_grammar.specs.Texts.{IsText, IsItems};

use crate::context::{Context, Owner};
use crate::statements::action;
use crate::tree::{Action, Item, Pattern};
use rawk_expression::{Wanted, expression};
use rawk_items::{Boxed, Items};
use rawk_lexer::{Cursor, Kind};
use rawk_parsing::tokens::{bare_name, eat, expect, name, refuse, sees, skip_newlines};
use rawk_parsing::tree::Name;
use rawk_parsing::{ParseError, RefusalKind};
use std::alloc::Global;

#[tactic(auto, unfolding(crate::specs::Items::pattern))]
fn pattern(
    alloc: Global,
    tokens: &mut Cursor<'_>,
    depth: usize,
) -> Result<Boxed<Pattern>, ParseError>
    ensures { Parses (spec.pattern depth tokens.old) result tokens.new }
{
    let left = tokens.left();
    let first = expression(alloc, tokens, depth, Wanted::Whole)?;
    if !eat(tokens, Kind::Comma) {
        return Ok(Boxed::new(alloc, Pattern::When(left, first))?);
    }
    skip_newlines(tokens);
    let last = expression(alloc, tokens, depth, Wanted::Whole)?;
    Ok(Boxed::new(alloc, Pattern::Range(left, first, last))?)
}

/// What stands between items.
fn separates(kind: Kind) -> bool
    ensures { result ≡ spec.separates kind }
{
    matches!(kind, Kind::Semicolon | Kind::Newline)
}

/// What may stand behind a pattern with no action.
fn ends_pattern(kind: Kind) -> bool
    ensures { result ≡ spec.ends_pattern kind }
{
    match kind {
        Kind::EndOfText => true,
        kind => separates(kind),
    }
}

/// The action of a rule with a pattern, which may be missing.
#[tactic(auto, unfolding(crate::specs::Items::optional_action))]
fn optional_action(
    alloc: Global,
    tokens: &mut Cursor<'_>,
    room: usize,
) -> Result<Action, ParseError>
    ensures { Parses (spec.optional_action room tokens.old) result tokens.new }
{
    if sees(tokens, Kind::LeftBrace) {
        return Ok(Action::Given(action(alloc, tokens, room, Context::of(Owner::Rule))?));
    }
    if ends_pattern(tokens.peek()) {
        Ok(Action::Missing(tokens.rest().len()))
    } else {
        Err(refuse(tokens))
    }
}

#[tactic(auto, unfolding(crate::specs::Items::rule))]
fn rule(
    alloc: Global,
    tokens: &mut Cursor<'_>,
    depth: usize,
    room: usize,
) -> Result<Item, ParseError>
    ensures { Parses (spec.rule depth room tokens.old) result tokens.new }
{
    let pattern = pattern(alloc, tokens, depth)?;
    let action = optional_action(alloc, tokens, room)?;
    Ok(Item::Rule(pattern, action))
}

/// Names with commas between them.
fn names(alloc: Global, tokens: &mut Cursor<'_>) -> Result<Items<Name>, ParseError>
    ensures { Parses (spec.names tokens.old) result tokens.new }
{
    let mut found = Items::new(alloc);
    for _turn in 0..tokens.left() {
        found.push(bare_name(alloc, tokens)?)?;
        if !eat(tokens, Kind::Comma) {
            return Ok(found);
        }
        skip_newlines(tokens);
    }
    Err(refuse(tokens))
}

/// The names of a function's parameters, in parentheses.
#[tactic(auto, unfolding(crate::specs::Items::parameters))]
fn parameters(alloc: Global, tokens: &mut Cursor<'_>) -> Result<Items<Name>, ParseError>
    ensures { Parses (spec.parameters tokens.old) result tokens.new }
{
    expect(tokens, Kind::LeftParen)?;
    if eat(tokens, Kind::RightParen) {
        return Ok(Items::new(alloc));
    }
    let words = names(alloc, tokens)?;
    expect(tokens, Kind::RightParen)?;
    Ok(words)
}

/// The name of a function that is defined, with a blank before its parenthesis or none.
#[tactic(auto, unfolding(crate::specs::Items::function_name))]
fn function_name(alloc: Global, tokens: &mut Cursor<'_>) -> Result<Name, ParseError>
    ensures { Parses (spec.function_name tokens.old) result tokens.new }
{
    match tokens.peek() {
        Kind::Name | Kind::FunctionName => name(alloc, tokens),
        _ => Err(refuse(tokens)),
    }
}

/// A function, behind its keyword.
#[tactic(auto, unfolding(crate::specs::Items::definition))]
fn definition(
    alloc: Global,
    tokens: &mut Cursor<'_>,
    room: usize,
    place: usize,
) -> Result<Item, ParseError>
    ensures { Parses (spec.definition room place tokens.old) result tokens.new }
{
    let word = function_name(alloc, tokens)?;
    let words = parameters(alloc, tokens)?;
    skip_newlines(tokens);
    let body = action(alloc, tokens, room, Context::of(Owner::Function))?;
    Ok(Item::Function(place, word, words, body))
}

#[tactic(auto, unfolding(crate::specs::Items::item))]
fn item(
    alloc: Global,
    tokens: &mut Cursor<'_>,
    depth: usize,
    room: usize,
) -> Result<Item, ParseError>
    ensures { Parses (spec.item depth room tokens.old) result tokens.new }
{
    let place = tokens.left();
    match tokens.peek() {
        Kind::BeginKeyword => {
            tokens.take();
            Ok(Item::Begin(action(alloc, tokens, room, Context::of(Owner::BeginOrEnd))?))
        }
        Kind::EndKeyword => {
            tokens.take();
            Ok(Item::End(action(alloc, tokens, room, Context::of(Owner::BeginOrEnd))?))
        }
        Kind::LeftBrace => {
            let body = action(alloc, tokens, room, Context::of(Owner::Rule))?;
            Ok(Item::Always(place, body))
        }
        Kind::Function => {
            tokens.take();
            definition(alloc, tokens, room, place)
        }
        _ => rule(alloc, tokens, depth, room),
    }
}

fn skip_separators(tokens: &mut Cursor<'_>)
    ensures { tokens.new ≡ spec.separators tokens.old }
{
    for _turn in 0..tokens.left() {
        if !separates(tokens.peek()) {
            return;
        }
        tokens.take();
    }
}

/// Items up to the end of the text.
fn items(
    alloc: Global,
    tokens: &mut Cursor<'_>,
    depth: usize,
    room: usize,
) -> Result<Items<Item>, ParseError>
    ensures { Parses (spec.items depth room tokens.old) result tokens.new }
{
    let mut found = Items::new(alloc);
    for _turn in 0..tokens.left() {
        skip_separators(tokens);
        if sees(tokens, Kind::EndOfText) {
            return Ok(found);
        }
        found.push(item(alloc, tokens, depth, room)?)?;
    }
    skip_separators(tokens);
    expect(tokens, Kind::EndOfText)?;
    Ok(found)
}

fn whole(alloc: Global, tokens: &mut Cursor<'_>, depth: usize) -> Result<Items<Item>, ParseError>
    ensures { Parses (spec.program depth tokens.old) result tokens.new }
{
    if depth == 0 {
        return Err(ParseError::Here(RefusalKind::TooDeep, tokens.left()));
    }
    items(alloc, tokens, depth, depth - 1)
}

/// Reads a program up to the end of the text, with fewer than `depth` constructs open at once (POSIX awk, "Grammar").
///
/// It refuses a text by the token at which it stops: `Syntax`, `BadToken`, `Unterminated` and `LeftOut` by the grammar, `BadNumber`
/// for a constant that is not whole or does not fit 64 bits, `Misplaced` for a jump that may not stand there, `TooDeep` at the first
/// token inside a construct too many. `OutOfMemory` is the refusal of a growth. After a refusal the place of the tokens is not known.
/// A token is looked at no more often than constructs may be open, and no call goes deeper than the constructs that are open.
pub fn program(
    alloc: Global,
    tokens: &mut Cursor<'_>,
    depth: usize,
) -> Result<Items<Item>, ParseError>
    // The answer, with the kind and the place of each refusal, is that of the parser as a function.
    ensures exact { Parses (spec.program depth tokens.old) result tokens.new }
    // What is read is derived from the text by the grammar, within the limit.
    ensures found { IfOk result (λ items. IsText depth items tokens.old) }
    // What is derived within the limit is read, unless memory is refused.
    ensures derived { (items : List Item) → IsText depth items tokens.old → IsItems items result }
{
    whole(alloc, tokens, depth)
}
