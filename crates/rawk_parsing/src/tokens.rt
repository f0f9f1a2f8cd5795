//! The steps that the rules are made of.

ghost use Rattle.std.specs.Prelude.{◌≡◌};
ghost use Rattle.rawk_parsing.specs.Constant.{constant as spec_constant};
ghost use Rattle.rawk_parsing.specs.Parser as spec;
ghost use Rattle.rawk_parsing.specs.Parser.{Parses};

use crate::parse_error::ParseError;
use crate::refusal::RefusalKind;
use crate::tree::Name;
use rawk_keywords::{Builtin, builtin_named};
use rawk_lexer::{Cursor, Kind, unescaped, unquoted};
use rawk_value::{Bytes, input_number};
use std::alloc::Global;

/// Why a text is refused at a token of this kind that no rule takes.
pub fn reason(kind: Kind) -> RefusalKind
    ensures { result ≡ spec.reason kind }
{
    match kind {
        Kind::BadToken => RefusalKind::BadToken,
        Kind::Unterminated => RefusalKind::Unterminated,
        Kind::LeftOut | Kind::Pipe | Kind::Append => RefusalKind::LeftOut,
        _ => RefusalKind::Syntax,
    }
}

/// The refusal of the next token, which no rule takes.
#[tactic(auto, unfolding(crate::specs::Parser::refusal))]
pub fn refuse(tokens: &Cursor<'_>) -> ParseError
    ensures { result ≡ spec.refusal tokens.now }
{
    ParseError::Here(reason(tokens.peek()), tokens.left())
}

#[tactic(auto, unfolding(crate::specs::Parser::same_kind))]
fn same_kind(a: Kind, b: Kind) -> bool
    ensures { result ≡ spec.same_kind a b }
{
    a == b
}

/// Whether the next token is of this kind.
#[tactic(auto, unfolding(crate::specs::Parser::sees))]
pub fn sees(tokens: &Cursor<'_>, kind: Kind) -> bool
    ensures { result ≡ spec.sees kind tokens.now }
{
    same_kind(tokens.peek(), kind)
}

/// Takes the next token if it is of this kind.
#[tactic(auto, unfolding(crate::specs::Parser::after))]
pub fn eat(tokens: &mut Cursor<'_>, kind: Kind) -> bool
    ensures found { result ≡ spec.sees kind tokens.old }
    ensures after { tokens.new ≡ spec.after kind tokens.old }
{
    let found = sees(tokens, kind);
    if found {
        tokens.take();
    }
    found
}

/// Takes the next token, which is refused if it is not of this kind.
#[tactic(auto, unfolding(crate::specs::Parser::expect))]
pub fn expect(tokens: &mut Cursor<'_>, kind: Kind) -> Result<(), ParseError>
    ensures { Parses (spec.expect kind tokens.old) result tokens.new }
{
    if sees(tokens, kind) {
        tokens.take();
        Ok(())
    } else {
        Err(refuse(tokens))
    }
}

/// Takes the newlines that come next.
pub fn skip_newlines(tokens: &mut Cursor<'_>)
    ensures { tokens.new ≡ spec.newlines tokens.old }
{
    for _turn in 0..tokens.left() {
        if !sees(tokens, Kind::Newline) {
            return;
        }
        tokens.take();
    }
}

/// The next token as a name, with its place, whatever its kind.
#[tactic(auto, unfolding(crate::specs::Parser::name_at, crate::specs::Parser::name))]
pub fn name(alloc: Global, tokens: &mut Cursor<'_>) -> Result<Name, ParseError>
    ensures { Parses (spec.name tokens.old) result tokens.new }
{
    let left = tokens.left();
    let word = Bytes::from_slice(alloc, tokens.spelling())?;
    tokens.take();
    Ok(Name { left, word })
}

/// A name with no `(` directly behind it; another token is refused.
#[tactic(auto, unfolding(crate::specs::Parser::bare_name))]
pub fn bare_name(alloc: Global, tokens: &mut Cursor<'_>) -> Result<Name, ParseError>
    ensures { Parses (spec.bare_name tokens.old) result tokens.new }
{
    if sees(tokens, Kind::Name) {
        name(alloc, tokens)
    } else {
        Err(refuse(tokens))
    }
}

/// The next token as a built-in function; one that names none is refused.
#[tactic(auto, unfolding(crate::specs::Parser::function))]
pub fn function(tokens: &mut Cursor<'_>) -> Result<Builtin, ParseError>
    ensures { Parses (spec.function tokens.old) result tokens.new }
{
    match builtin_named(tokens.spelling()) {
        None => Err(refuse(tokens)),
        Some(function) => {
            tokens.take();
            Ok(function)
        }
    }
}

/// The number of a constant, or none where it is not whole or too large.
#[tactic(auto, unfolding(crate::specs::Constant::constant))]
fn constant(word: &[u8]) -> Option<i64>
    ensures { result ≡ spec_constant word.now }
{
    input_number(word).ok()
}

/// The next token as a constant; `BadNumber` where it is not whole or does not fit 64 bits.
#[tactic(auto, unfolding(crate::specs::Parser::number))]
pub fn number(tokens: &mut Cursor<'_>) -> Result<i64, ParseError>
    ensures { Parses (spec.number tokens.old) result tokens.new }
{
    match constant(tokens.spelling()) {
        None => Err(ParseError::Here(RefusalKind::BadNumber, tokens.left())),
        Some(value) => {
            tokens.take();
            Ok(value)
        }
    }
}

/// The next token as a string, without its quotes and with its escapes replaced.
#[tactic(auto, unfolding(crate::specs::Parser::text))]
pub fn text(alloc: Global, tokens: &mut Cursor<'_>) -> Result<Bytes, ParseError>
    ensures { Parses (spec.text tokens.old) result tokens.new }
{
    let bytes = unescaped(alloc, unquoted(tokens.spelling()))?;
    tokens.take();
    Ok(Bytes::from_vec(alloc, bytes)?)
}

/// The bytes of the regular expression that begins at the next token, between its slashes; `Unterminated` where none ends on the line.
#[tactic(auto, unfolding(crate::specs::Parser::ere))]
pub fn ere(alloc: Global, tokens: &mut Cursor<'_>) -> Result<Bytes, ParseError>
    ensures { Parses (spec.ere tokens.old) result tokens.new }
{
    let word = tokens.ere();
    if tokens.ere_len() == 0 {
        return Err(ParseError::Here(RefusalKind::Unterminated, tokens.left()));
    }
    let bytes = Bytes::from_slice(alloc, unquoted(word))?;
    tokens.take_ere();
    Ok(bytes)
}

/// In the list of a print, `>` outside brackets is left out of the language.
#[tactic(auto, unfolding(crate::specs::Parser::not_redirected))]
pub fn not_redirected(tokens: &Cursor<'_>, prints: bool) -> Result<(), ParseError>
    ensures { Parses (spec.not_redirected prints tokens.now) result tokens.now }
{
    if prints && sees(tokens, Kind::Greater) {
        return Err(ParseError::Here(RefusalKind::LeftOut, tokens.left()));
    }
    Ok(())
}
