//! Bracket expressions (POSIX XBD 9.3.5), in C's locale.

ghost use Rattle.std.specs.Prelude.{◌≡◌, ℕ, ◌+◌, ◌<◌, ◌≤◌, List, [], length, drop, Some, None, MatchOption, nat_eq, true, false, ◌&&◌};
ghost use Rattle.std.specs.List.{starts_with};
ghost use Rattle.rawk_ere_tree.specs.ByteSets.{HasAlso, IsInRanges};
ghost use Rattle.rawk_ere_pattern.specs.Pattern.{class_at, name_length, ranges_of, ranges_in, IsOrdered, begins, endpoint, begun_with, hyphen, named, item_at, closes, Items, IsBracketed};
ghost use Rattle.rawk_ere_pattern.specs.declared.token.Token.{Token};

use crate::byte_set::{add_range, complement, empty};
use crate::bytes::{is_at, unescape};
use crate::token::Token;
use rawk_ere_tree::byte_set::ByteSet;

/// A class of bytes that has a name.
#[derive(Clone, Copy)]
pub enum Class {
    Alnum,
    Alpha,
    Blank,
    Cntrl,
    Digit,
    Graph,
    Lower,
    Print,
    Punct,
    Space,
    Upper,
    Xdigit,
}

/// What stands before a place in a bracket expression.
#[derive(Clone, Copy)]
pub enum BracketPlace {
    /// Nothing: the first item stands here.
    First,
    /// A byte.
    AfterByte,
    /// A range or a class.
    AfterRange,
}

/// An item of a bracket expression.
#[derive(Clone, Copy)]
pub enum Item {
    /// The bytes from the first to the second.
    Range(u8, u8),
    /// The bytes of a class.
    Named(Class),
}

/// Whether the name stands at a place.
fn is_named(pattern: &[u8], at: usize, name: &[u8]) -> bool
    requires { at ≤ length pattern.now }
    ensures is { result ≡ starts_with nat_eq (drop at pattern.now) name.now }
    ensures within { result ≡ true → at + length name.now ≤ length pattern.now }
{
    pattern[at..].starts_with(name)
}

/// The class whose name and closing `:]` stand at a place.
#[tactic(auto, unfolding(crate::specs::Pattern::class_at))]
fn class_named(pattern: &[u8], at: usize) -> Option<Class>
    requires { at ≤ length pattern.now }
    ensures is { result ≡ class_at (drop at pattern.now) }
    ensures within { MatchOption result (Unit {0}) (λ c. at + name_length c ≤ length pattern.now) }
{
    if is_named(pattern, at, b"alnum:]") {
        Some(Class::Alnum)
    } else if is_named(pattern, at, b"alpha:]") {
        Some(Class::Alpha)
    } else if is_named(pattern, at, b"blank:]") {
        Some(Class::Blank)
    } else if is_named(pattern, at, b"cntrl:]") {
        Some(Class::Cntrl)
    } else if is_named(pattern, at, b"digit:]") {
        Some(Class::Digit)
    } else if is_named(pattern, at, b"graph:]") {
        Some(Class::Graph)
    } else if is_named(pattern, at, b"lower:]") {
        Some(Class::Lower)
    } else if is_named(pattern, at, b"print:]") {
        Some(Class::Print)
    } else if is_named(pattern, at, b"punct:]") {
        Some(Class::Punct)
    } else if is_named(pattern, at, b"space:]") {
        Some(Class::Space)
    } else if is_named(pattern, at, b"upper:]") {
        Some(Class::Upper)
    } else if is_named(pattern, at, b"xdigit:]") {
        Some(Class::Xdigit)
    } else {
        None
    }
}

/// How long the name of a class and its closing `:]` are.
fn length_of_name(class: Class) -> usize
    ensures { result ≡ name_length class }
{
    match class {
        Class::Xdigit => 8,
        Class::Alnum => 7,
        Class::Alpha => 7,
        Class::Blank => 7,
        Class::Cntrl => 7,
        Class::Digit => 7,
        Class::Graph => 7,
        Class::Lower => 7,
        Class::Print => 7,
        Class::Punct => 7,
        Class::Space => 7,
        Class::Upper => 7,
    }
}

/// Adds the bytes of a class.
fn add_class(set: &mut ByteSet, class: Class)
    ensures { HasAlso set.old set.new (λ b. IsInRanges b (ranges_of class)) }
{
    match class {
        Class::Alnum => {
            add_range(set, 48, 57);
            add_range(set, 65, 90);
            add_range(set, 97, 122);
        }
        Class::Alpha => {
            add_range(set, 65, 90);
            add_range(set, 97, 122);
        }
        Class::Blank => {
            add_range(set, 9, 9);
            add_range(set, 32, 32);
        }
        Class::Cntrl => {
            add_range(set, 0, 31);
            add_range(set, 127, 127);
        }
        Class::Digit => add_range(set, 48, 57),
        Class::Graph => add_range(set, 33, 126),
        Class::Lower => add_range(set, 97, 122),
        Class::Print => add_range(set, 32, 126),
        Class::Punct => {
            add_range(set, 33, 47);
            add_range(set, 58, 64);
            add_range(set, 91, 96);
            add_range(set, 123, 126);
        }
        Class::Space => {
            add_range(set, 9, 13);
            add_range(set, 32, 32);
        }
        Class::Upper => add_range(set, 65, 90),
        Class::Xdigit => {
            add_range(set, 48, 57);
            add_range(set, 65, 70);
            add_range(set, 97, 102);
        }
    }
}

/// One byte, or an escape.
fn end_at(pattern: &[u8], at: usize) -> Option<(u8, usize)>
    requires { at ≤ length pattern.now }
    ensures is { MatchOption result (endpoint (drop at pattern.now) ≡ None) (λ r. endpoint (drop at pattern.now) ≡ Some (r.0, drop r.1 pattern.now)) }
    ensures within { MatchOption result (Unit {0}) (λ r. (at < r.1) × (r.1 ≤ length pattern.now)) }
{
    if at >= pattern.len() {
        return None;
    }
    let byte = pattern[at];
    let next = at + 1;
    if byte == b'\\' {
        return unescape(pattern, next);
    }
    if byte == b'['
        && (is_at(pattern, next, b':')
            || is_at(pattern, next, b'.')
            || is_at(pattern, next, b'='))
    {
        return None;
    }
    Some((byte, next))
}

/// The item that begins with the byte before a place.
fn from_byte(pattern: &[u8], at: usize, low: u8) -> Option<(Item, BracketPlace, usize)>
    requires { at ≤ length pattern.now }
    ensures is { MatchOption result (begun_with low (drop at pattern.now) ≡ None) (λ r. begun_with low (drop at pattern.now) ≡ Some (r.0, r.1, drop r.2 pattern.now)) }
    ensures within { MatchOption result (Unit {0}) (λ r. (at ≤ r.2) × (r.2 ≤ length pattern.now)) }
    ensures ordered { MatchOption result (Unit {0}) (λ r. IsOrdered r.0) }
{
    if !is_at(pattern, at, b'-') || is_at(pattern, at + 1, b']') {
        return Some((Item::Range(low, low), BracketPlace::AfterByte, at));
    }
    match end_at(pattern, at + 1) {
        None => None,
        Some((high, next)) => {
            if low <= high {
                Some((Item::Range(low, high), BracketPlace::AfterRange, next))
            } else {
                None
            }
        }
    }
}

/// The item that begins with a `-` before a place.
fn from_hyphen(
    pattern: &[u8],
    at: usize,
    place: BracketPlace,
) -> Option<(Item, BracketPlace, usize)>
    requires { at ≤ length pattern.now }
    ensures is { MatchOption result (hyphen place (drop at pattern.now) ≡ None) (λ r. hyphen place (drop at pattern.now) ≡ Some (r.0, r.1, drop r.2 pattern.now)) }
    ensures within { MatchOption result (Unit {0}) (λ r. (at ≤ r.2) × (r.2 ≤ length pattern.now)) }
    ensures ordered { MatchOption result (Unit {0}) (λ r. IsOrdered r.0) }
{
    match place {
        BracketPlace::First => from_byte(pattern, at, b'-'),
        BracketPlace::AfterByte => {
            if is_at(pattern, at, b']') {
                Some((Item::Range(b'-', b'-'), BracketPlace::AfterByte, at))
            } else {
                None
            }
        }
        BracketPlace::AfterRange => Some((Item::Range(b'-', b'-'), BracketPlace::AfterByte, at)),
    }
}

/// Whether a `[:` stands at a place.
fn is_class(pattern: &[u8], at: usize) -> bool
    requires { at ≤ length pattern.now }
    ensures is { result ≡ (begins 91 (drop at pattern.now) && begins 58 (drop 1 (drop at pattern.now))) }
    ensures within { result ≡ true → at + 2 ≤ length pattern.now }
{
    is_at(pattern, at, b'[') && is_at(pattern, at + 1, b':')
}

/// The item at a place: what it is, what then stands before the place after it, and that place.
fn read_item(pattern: &[u8], at: usize, place: BracketPlace) -> Option<(Item, BracketPlace, usize)>
    requires { at ≤ length pattern.now }
    ensures is { MatchOption result (item_at place (drop at pattern.now) ≡ None) (λ r. item_at place (drop at pattern.now) ≡ Some (r.0, r.1, drop r.2 pattern.now)) }
    ensures within { MatchOption result (Unit {0}) (λ r. (at < r.2) × (r.2 ≤ length pattern.now)) }
    ensures ordered { MatchOption result (Unit {0}) (λ r. IsOrdered r.0) }
{
    if is_at(pattern, at, b'-') {
        return from_hyphen(pattern, at + 1, place);
    }
    if is_class(pattern, at) {
        return from_name(pattern, at + 2);
    }
    match end_at(pattern, at) {
        None => None,
        Some((low, next)) => from_byte(pattern, next, low),
    }
}

/// The class that is named at a place, after the `[:`.
fn from_name(pattern: &[u8], at: usize) -> Option<(Item, BracketPlace, usize)>
    requires { at ≤ length pattern.now }
    ensures is { MatchOption result (named (drop at pattern.now) (class_at (drop at pattern.now)) ≡ None) (λ r. named (drop at pattern.now) (class_at (drop at pattern.now)) ≡ Some (r.0, r.1, drop r.2 pattern.now)) }
    ensures within { MatchOption result (Unit {0}) (λ r. (at ≤ r.2) × (r.2 ≤ length pattern.now)) }
    ensures ordered { MatchOption result (Unit {0}) (λ r. IsOrdered r.0) }
{
    match class_named(pattern, at) {
        None => None,
        Some(class) => Some((
            Item::Named(class),
            BracketPlace::AfterRange,
            at + length_of_name(class),
        )),
    }
}

/// Whether a `]` at the place closes the bracket expression.
fn is_closed(pattern: &[u8], at: usize, place: BracketPlace) -> bool
    ensures { result ≡ closes place (drop at pattern.now) }
{
    match place {
        BracketPlace::First => false,
        BracketPlace::AfterByte => is_at(pattern, at, b']'),
        BracketPlace::AfterRange => is_at(pattern, at, b']'),
    }
}

/// Adds the bytes of an item.
fn add_item(set: &mut ByteSet, item: Item)
    requires { IsOrdered item }
    ensures { HasAlso set.old set.new (λ b. IsInRanges b (ranges_in item)) }
{
    match item {
        Item::Range(low, high) => add_range(set, low, high),
        Item::Named(class) => add_class(set, class),
    }
}

/// Adds the bytes of the items at a place, and answers the place after the closing `]`.
fn gather(pattern: &[u8], from: usize, set: &mut ByteSet) -> Option<usize>
    requires { from ≤ length pattern.now }
    ensures is { MatchOption result ((ranges : List (ℕ × ℕ)) (rest : List ℕ) → Items BracketPlace.First (drop from pattern.now) ranges rest → ⊥)
        (λ next. (ranges : List (ℕ × ℕ)) × Items BracketPlace.First (drop from pattern.now) ranges (drop next pattern.now) × HasAlso set.old set.new (λ b. IsInRanges b ranges)) }
    ensures within { MatchOption result (Unit {0}) (λ next. (from < next) × (next ≤ length pattern.now)) }
{
    let mut at = from;
    let mut place = BracketPlace::First;
    while at < pattern.len() {
        if is_closed(pattern, at, place) {
            return Some(at + 1);
        }
        match read_item(pattern, at, place) {
            None => return None,
            Some((item, after, next)) => {
                add_item(set, item);
                place = after;
                at = next;
            }
        }
    }
    None
}

/// The set of the bracket expression after a `[`, and the place after it.
pub fn bracket_at(pattern: &[u8], at: usize) -> Option<(Token, usize)>
    requires { at ≤ length pattern.now }
    ensures is { MatchOption result ((t : Token) (rest : List ℕ) → IsBracketed (drop at pattern.now) t rest → ⊥) (λ r. IsBracketed (drop at pattern.now) r.0 (drop r.1 pattern.now)) }
    ensures within { MatchOption result (Unit {0}) (λ r. (at < r.1) × (r.1 ≤ length pattern.now)) }
{
    let mut set = empty();
    if is_at(pattern, at, b'^') {
        return match gather(pattern, at + 1, &mut set) {
            None => None,
            Some(next) => {
                let others = complement(&set);
                Some((Token::OneOf(others), next))
            }
        };
    }
    match gather(pattern, at, &mut set) {
        None => None,
        Some(next) => Some((Token::OneOf(set), next)),
    }
}
