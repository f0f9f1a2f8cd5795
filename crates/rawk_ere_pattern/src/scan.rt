//! From a pattern to its tokens.

ghost use Rattle.std.specs.Prelude.{◌≡◌, ℕ, ◌+◌, ◌<◌, ◌≤◌, List, [], ◌∷◌, ◌++◌, length, drop, MatchOption, IfOk, IfErr, OnOk};
ghost use Rattle.rawk_ere_pattern.specs.declared.token.Token.{Token};
ghost use Rattle.rawk_ere_pattern.specs.Pattern.{IsOneOf, IsToken, IsFirstToken, AreTokens, IsScanRefused};

use crate::bracket::bracket_at;
use crate::byte_kind::{ByteKind, kind_of};
use crate::byte_set::{all, of_byte};
use crate::bytes::unescape;
use crate::error::EreError;
use crate::interval::{Brace, brace_at};
use crate::token::Token;
use rawk_ere_tree::node::Count;
use std::alloc::{AllocError, Global};

/// The byte itself.
fn one_byte(byte: u8) -> Token
    ensures { IsOneOf (λ k. k ≡ byte) result }
{
    let set = of_byte(byte);
    Token::OneOf(set)
}

/// Any byte.
fn any_byte() -> Token
    ensures { IsOneOf (λ _. Unit {0}) result }
{
    let set = all();
    Token::OneOf(set)
}

/// The token that the byte before a place begins with, and the place after it.
fn first_token(pattern: &[u8], at: usize, byte: u8, kind: ByteKind) -> Option<(Token, usize)>
    requires { at ≤ length pattern.now }
    ensures is { MatchOption result ((t : Token) (rest : List ℕ) → IsFirstToken kind byte (drop at pattern.now) t rest → ⊥) (λ r. IsFirstToken kind byte (drop at pattern.now) r.0 (drop r.1 pattern.now)) }
    ensures within { MatchOption result (Unit {0}) (λ r. (at ≤ r.1) × (r.1 ≤ length pattern.now)) }
{
    match kind {
        ByteKind::Ordinary => Some((one_byte(byte), at)),
        ByteKind::Any => Some((any_byte(), at)),
        ByteKind::Start => Some((Token::Start, at)),
        ByteKind::End => Some((Token::End, at)),
        ByteKind::Bar => Some((Token::Bar, at)),
        ByteKind::Open => Some((Token::Open, at)),
        ByteKind::Close => Some((Token::Close, at)),
        ByteKind::Star => Some((Token::Times(Count::Star), at)),
        ByteKind::Plus => Some((Token::Times(Count::Plus), at)),
        ByteKind::Maybe => Some((Token::Times(Count::Maybe), at)),
        ByteKind::Backslash => match unescape(pattern, at) {
            None => None,
            Some((is, next)) => Some((one_byte(is), next)),
        },
        ByteKind::Bracket => bracket_at(pattern, at),
        ByteKind::Brace => match brace_at(pattern, at) {
            Brace::Itself => Some((one_byte(b'{'), at)),
            Brace::Wrong => None,
            Brace::Interval(count, next) => Some((Token::Times(count), next)),
        },
    }
}

/// The token at a place, and the place after it.
fn token_at(pattern: &[u8], at: usize) -> Option<(Token, usize)>
    requires { at < length pattern.now }
    ensures is { MatchOption result ((t : Token) (rest : List ℕ) → IsToken (drop at pattern.now) t rest → ⊥) (λ r. IsToken (drop at pattern.now) r.0 (drop r.1 pattern.now)) }
    ensures within { MatchOption result (Unit {0}) (λ r. (at < r.1) × (r.1 ≤ length pattern.now)) }
{
    let byte = pattern[at];
    first_token(pattern, at + 1, byte, kind_of(byte))
}

/// One more token.
fn add_token(tokens: &mut Vec<Token>, token: Token) -> Result<(), AllocError>
    ensures { OnOk result (tokens.new.items ≡ tokens.old.items ++ token ∷ []) }
{
    tokens.push(token)?;
    Ok(())
}

/// The tokens of a pattern. `Syntax`: it has none.
pub fn scan(alloc: Global, pattern: &[u8]) -> Result<Vec<Token>, EreError>
    ensures is { IfOk result (λ v. AreTokens pattern.now v.items) }
    ensures refused { IfErr result (λ x. IsScanRefused x pattern.now) }
{
    let mut tokens = Vec::new(alloc);
    let mut at = 0;
    while at < pattern.len() {
        match token_at(pattern, at) {
            None => return Err(EreError::Syntax),
            Some((token, next)) => {
                add_token(&mut tokens, token)?;
                at = next;
            }
        }
    }
    Ok(tokens)
}
