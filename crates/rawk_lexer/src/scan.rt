//! Cuts the token at the front of a text.

ghost use Rattle.std.specs.Prelude.{◌≡◌, ◌≢◌, ◌<◌, ◌≤◌, ◌+◌, ◌^◌, length, IfSome, false};
ghost use Rattle.rawk_lexer.specs.Lex as spec;

use crate::bytes::byte_at;
use crate::ere;
use rawk_keywords::{Class, Kind, is_in, keyword};

/// A kind, and a length in bytes.
pub type Token = (Kind, usize);

/// How many bytes of a class a text begins with.
fn run(class: Class, z: &[u8]) -> usize
    ensures value { result ≡ spec.run class z.now }
    ensures within { result ≤ length z.now }
{
    let mut len = 0;
    while len < z.len() && is_in(class, z[len]) {
        len += 1;
    }
    len
}

fn called(kind: Kind, next: u8) -> Kind
    ensures { result ≡ spec.called kind next }
{
    match kind {
        Kind::Name if next == b'(' => Kind::FunctionName,
        _ => kind,
    }
}

/// The length of a point and the digits behind it.
fn fraction_len(z: &[u8]) -> usize
    ensures value { result ≡ spec.fraction_len z.now }
    ensures within { result ≤ length z.now }
{
    if byte_at(z, 0) == b'.' {
        1 + run(Class::Digit, &z[1..])
    } else {
        0
    }
}

fn sign_len(z: &[u8]) -> usize
    ensures value { result ≡ spec.sign_len z.now }
    ensures within { result ≤ length z.now }
{
    match byte_at(z, 0) {
        b'+' | b'-' => 1,
        _ => 0,
    }
}

/// The length of an exponent, if one stands there whole.
fn exponent_len(z: &[u8]) -> usize
    ensures value { result ≡ spec.exponent_len z.now }
    ensures within { result ≤ length z.now }
{
    if !matches!(byte_at(z, 0), b'e' | b'E') {
        return 0;
    }
    let power = &z[1..];
    let sign = sign_len(power);
    let digits = run(Class::Digit, &power[sign..]);
    if digits == 0 { 0 } else { 1 + sign + digits }
}

fn mantissa_len(z: &[u8]) -> usize
    ensures value { result ≡ spec.mantissa_len z.now }
    ensures within { result ≤ length z.now }
{
    let whole = run(Class::Digit, z);
    whole + fraction_len(&z[whole..])
}

fn number_len(z: &[u8]) -> usize
    ensures value { result ≡ spec.number_len z.now }
    ensures within { result ≤ length z.now }
{
    let mantissa = mantissa_len(z);
    mantissa + exponent_len(&z[mantissa..])
}

fn begins_number(b: u8, next: u8) -> bool
    ensures { result ≡ spec.begins_number b next }
{
    is_in(Class::Digit, b) || b == b'.' && is_in(Class::Digit, next)
}

/// The place after the closing quote, for a text that begins at place 1, behind the first quote.
fn closing(mut z: &[u8]) -> Option<usize>
    requires { length z.now < 2 ^ 63 }
    ensures value { result ≡ spec.closing false 1 z.entry.now }
    ensures within { IfSome result (λ end. (1 ≤ end) × (end ≤ length z.entry.now + 1)) }
{
    let mut is_escaped = false;
    let mut at = 1;
    while let [b, rest @ ..] = z {
        if !is_escaped && *b == b'"' {
            return Some(at + 1);
        }
        if !is_escaped && *b == b'\n' {
            return None;
        }
        is_escaped = !is_escaped && *b == b'\\';
        at += 1;
        z = rest;
    }
    None
}

fn quoted(z: &[u8]) -> Token
    requires { 0 < length z.now }
    ensures value { result ≡ spec.quoted z.now }
    ensures within { (1 ≤ result.1) × (result.1 ≤ length z.now) }
{
    match closing(&z[1..]) {
        None => (Kind::Unterminated, 1),
        Some(end) => (Kind::Text, end),
    }
}

#[tactic(auto, unfolding(crate::specs::Lex::single))]
fn single(b: u8) -> Kind
    ensures { result ≡ spec.single b }
{
    match b {
        b'{' => Kind::LeftBrace,
        b'}' => Kind::RightBrace,
        b'(' => Kind::LeftParen,
        b')' => Kind::RightParen,
        b'[' => Kind::LeftBracket,
        b']' => Kind::RightBracket,
        b';' => Kind::Semicolon,
        b',' => Kind::Comma,
        b'\n' => Kind::Newline,
        b'+' => Kind::Plus,
        b'-' => Kind::Minus,
        b'*' => Kind::Star,
        b'/' => Kind::Slash,
        b'%' => Kind::Percent,
        b'^' => Kind::Caret,
        b'!' => Kind::Bang,
        b'>' => Kind::Greater,
        b'<' => Kind::Less,
        b'|' => Kind::Pipe,
        b'?' => Kind::Question,
        b':' => Kind::Colon,
        b'~' => Kind::Tilde,
        b'$' => Kind::Dollar,
        b'=' => Kind::Assign,
        _ => Kind::BadToken,
    }
}

#[tactic(auto, unfolding(crate::specs::Lex::double))]
fn double(b: u8, next: u8) -> Option<Kind>
    ensures value { result ≡ spec.double b next }
    ensures within { IfSome result (λ _. next ≢ 0) }
{
    match (b, next) {
        (b'+', b'=') => Some(Kind::PlusAssign),
        (b'-', b'=') => Some(Kind::MinusAssign),
        (b'*', b'=') => Some(Kind::StarAssign),
        (b'/', b'=') => Some(Kind::SlashAssign),
        (b'%', b'=') => Some(Kind::PercentAssign),
        (b'^', b'=') => Some(Kind::CaretAssign),
        (b'=', b'=') => Some(Kind::Equal),
        (b'<', b'=') => Some(Kind::LessEqual),
        (b'>', b'=') => Some(Kind::GreaterEqual),
        (b'!', b'=') => Some(Kind::NotEqual),
        (b'+', b'+') => Some(Kind::Increment),
        (b'-', b'-') => Some(Kind::Decrement),
        (b'&', b'&') => Some(Kind::And),
        (b'|', b'|') => Some(Kind::Or),
        (b'!', b'~') => Some(Kind::NotMatch),
        (b'>', b'>') => Some(Kind::Append),
        _ => None,
    }
}

#[tactic(auto, unfolding(crate::specs::Lex::symbol))]
fn symbol(b: u8, next: u8) -> Token
    ensures value { result ≡ spec.symbol b next }
    ensures within { (1 ≤ result.1) × (result.1 ≤ 2) × (next ≡ 0 → result.1 ≡ 1) }
{
    match double(b, next) {
        Some(kind) => (kind, 2),
        None => (single(b), 1),
    }
}

#[tactic(auto, unfolding(crate::specs::Lex::token))]
fn token(z: &[u8]) -> Token
    ensures value { result ≡ spec.token z.now }
    ensures within { result.1 ≤ length z.now }
{
    if z.is_empty() {
        return (Kind::EndOfText, 0);
    }
    let b = z[0];
    if begins_number(b, byte_at(z, 1)) {
        (Kind::Number, number_len(z))
    } else if is_in(Class::Word, b) {
        let len = run(Class::Word, z);
        (called(keyword(&z[..len]), byte_at(z, len)), len)
    } else if b == b'"' {
        quoted(z)
    } else {
        symbol(b, byte_at(z, 1))
    }
}

/// The length of the blank that a text begins with: a space or tab, a comment, or a continued line; 0 where none stands there.
fn blank_len(z: &[u8]) -> usize
    ensures value { result ≡ spec.blank_len z.now }
    ensures within { result ≤ length z.now }
{
    if z.is_empty() {
        return 0;
    }
    let b = z[0];
    if is_in(Class::Blank, b) {
        1
    } else if b == b'#' {
        1 + run(Class::Line, &z[1..])
    } else if b == b'\\' && byte_at(z, 1) == b'\n' {
        2
    } else {
        0
    }
}

/// The text from its first token on, and that token.
pub fn skip(mut z: &[u8]) -> (&[u8], Token)
    ensures rest { result.0.now ≡ spec.skip z.entry.now }
    ensures first { result.1 ≡ spec.token result.0.now }
    ensures within { (result.1.1 ≤ length result.0.now) × (length result.0.now ≤ length z.entry.now) }
{
    loop {
        let blank = blank_len(z);
        if blank == 0 {
            return (z, token(z));
        }
        z = &z[blank..];
    }
}

/// The length of the regular expression that a text begins with, with both its slashes; 0 where none does.
pub fn ere_len(z: &[u8]) -> usize
    ensures value { result ≡ spec.ere_at z.now }
    ensures within { result ≤ length z.now }
{
    if byte_at(z, 0) != b'/' {
        return 0;
    }
    match ere::closing(&z[1..]) {
        None => 0,
        Some(end) => end,
    }
}
