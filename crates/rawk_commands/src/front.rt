//! What stands at the front of a text, with the text after it.

ghost use Rattle.std.specs.Prelude.{◌≡◌, ◌+◌, ◌^◌, ◌<◌, ◌≤◌, length};
ghost use Rattle.std.specs.Char.{is_ascii_digit};
ghost use Rattle.std.specs.List.{prefix_len};
ghost use Rattle.std.specs.Option.{option_map};
ghost use Rattle.rawk_commands.specs.Asked.{constant_written, place_written};
ghost use Rattle.rawk_commands.specs.Reading as spec;
ghost use Rattle.rawk_keywords.specs.Name as word;

use crate::asked::{Literal, PlaceName};
use rawk_keywords::{Kind, begins_name, is_in_name};
use rawk_lexer::{Cursor, unquoted};
use rawk_limits::LAST_FIELD;

/// Numbers without a sign are below it.
const LIMIT: u64 = 1 << 63;

/// How many digits a text begins with.
fn digits_len(text: &[u8]) -> usize
    ensures value { result ≡ prefix_len is_ascii_digit text.now }
    ensures within { result ≤ length text.now }
{
    let mut len = 0;
    while len < text.len() && text[len].is_ascii_digit() {
        len += 1;
    }
    len
}

/// How many bytes of a name a text begins with.
fn word_len(text: &[u8]) -> usize
    ensures value { result ≡ prefix_len word.is_in_name text.now }
    ensures within { result ≤ length text.now }
{
    let mut len = 0;
    while len < text.len() && is_in_name(text[len]) {
        len += 1;
    }
    len
}

/// The number of decimal digits, if it is below a limit.
#[tactic(auto, using(crate::proofs::Numbers::one_digit, crate::proofs::Numbers::no_digit, crate::proofs::Numbers::last_digit, crate::proofs::Numbers::from_none))]
fn number_below(limit: u64, digits: &[u8]) -> Option<u64>
    requires any { 0 < limit }
    requires fits { limit ≤ 2 ^ 63 + 1 }
    ensures { result ≡ spec.number_below limit digits.now }
{
    if digits.is_empty() {
        return None;
    }
    let mut number = 0u64;
    for b in digits {
        if !b.is_ascii_digit() {
            return None;
        }
        let next = u128::from(number) * 10 + u128::from(*b - b'0');
        if next >= u128::from(limit) {
            return None;
        }
        number = next as u64;
    }
    Some(number)
}

/// LINE and N.
pub fn count_of(text: &[u8]) -> Option<u64>
    ensures { result ≡ spec.count_of text.now }
{
    number_below(LIMIT, text)
}

/// A number with a sign, or without.
fn number_of(text: &[u8]) -> Option<i64>
    ensures { result ≡ spec.number_of text.now }
{
    let (first, rest) = text.split_first()?;
    match *first {
        b'-' => {
            let size = number_below(LIMIT + 1, rest)?;
            Some((-i128::from(size)) as i64)
        }
        b'+' => Some(number_below(LIMIT, rest)? as i64),
        _ => Some(number_below(LIMIT, text)? as i64),
    }
}

/// How many bytes are a sign or a digit, and the digits after it.
fn number_size(text: &[u8]) -> usize
    ensures value { result ≡ spec.number_size text.now }
    ensures within { result ≤ length text.now }
{
    match text {
        [first, rest @ ..] if *first == b'+' || *first == b'-' || first.is_ascii_digit() => {
            1 + digits_len(rest)
        }
        _ => 0,
    }
}

fn is_text(kind: Kind) -> bool
    ensures { result ≡ spec.is_text kind }
{
    matches!(kind, Kind::Text)
}

/// The inside of a string of the program's language, behind which the text goes on.
fn string_front(text: &[u8]) -> Option<(&[u8], &[u8])>
    ensures { option_map (λ found. (found.0.now, found.1.now)) result ≡ spec.string_front text.now }
{
    let mut cursor = Cursor::new(text);
    if !is_text(cursor.peek()) {
        return None;
    }
    let inside = unquoted(cursor.spelling());
    cursor.take();
    Some((inside, cursor.rest()))
}

/// A string or a number.
pub fn constant_front(text: &[u8]) -> Option<(Literal<'_>, &[u8])>
    ensures { option_map (λ found. (constant_written found.0, found.1.now)) result ≡ spec.constant_front text.now }
{
    let first = text.first()?;
    if *first == b'"' {
        let (inside, rest) = string_front(text)?;
        return Some((Literal::Quoted(inside), rest));
    }
    let (digits, rest) = text.split_at(number_size(text));
    let number = number_of(digits)?;
    Some((Literal::Number(number), rest))
}

/// The number of a field, behind the `$`.
fn field_front(text: &[u8]) -> Option<(PlaceName<'_>, &[u8])>
    ensures { option_map (λ found. (place_written found.0, found.1.now)) result ≡ spec.field_front text.now }
{
    let (digits, rest) = text.split_at(digits_len(text));
    let number = number_below(LAST_FIELD as u64 + 1, digits)?;
    Some((PlaceName::Field(number as usize), rest))
}

/// A place that begins with this name, by the text behind the name.
fn named<'a>(name: &'a [u8], text: &'a [u8]) -> Option<(PlaceName<'a>, &'a [u8])>
    ensures { option_map (λ found. (place_written found.0, found.1.now)) result ≡ spec.named name.now text.now }
{
    let [b'[', inside @ ..] = text else {
        return Some((PlaceName::Name(name), text));
    };
    let (key, behind) = constant_front(inside)?;
    match behind {
        [b']', rest @ ..] => Some((PlaceName::Element(name, key), rest)),
        _ => None,
    }
}

/// `NAME`, `NAME["text"]`, `NAME[number]` or `$number`.
pub fn place_front(text: &[u8]) -> Option<(PlaceName<'_>, &[u8])>
    ensures { option_map (λ found. (place_written found.0, found.1.now)) result ≡ spec.place_front text.now }
{
    let (first, rest) = text.split_first()?;
    if *first == b'$' {
        return field_front(rest);
    }
    if !begins_name(*first) {
        return None;
    }
    let (name, rest) = text.split_at(word_len(text));
    named(name, rest)
}
