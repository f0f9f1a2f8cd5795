//! Intervals (POSIX XBD 9.4.6).

ghost use Rattle.std.specs.Prelude.{◌≡◌, ℕ, ◌+◌, ◌-◌, ◌<◌, ◌≤◌, length, drop, min};
ghost use Rattle.rawk_ere_pattern.specs.Pattern.{IsBraceAt, IsBraceWithin, braced, after_comma, without_least};

use crate::bytes::{digit_at, digits, is_at};
use rawk_ere_tree::node::Count;

/// What a `{` begins.
#[derive(Clone, Copy)]
pub enum Brace {
    /// A literal `{`.
    Itself,
    /// Nothing that is allowed.
    Wrong,
    /// An interval, and the place after it.
    Interval(Count, usize),
}

/// What follows when there are no digits after the `{`: `{,n}` is refused.
fn no_least(pattern: &[u8], at: usize) -> Brace
    requires { at ≤ length pattern.now }
    ensures is { IsBraceAt pattern.now result (without_least (drop at pattern.now)) }
    ensures within { IsBraceWithin at (length pattern.now) result }
{
    if !is_at(pattern, at, b',') {
        return Brace::Itself;
    }
    if !digit_at(pattern, at + 1) {
        return Brace::Itself;
    }
    let (_most, end) = digits(pattern, at + 1);
    if is_at(pattern, end, b'}') {
        Brace::Wrong
    } else {
        Brace::Itself
    }
}

/// What follows the comma after the least number, which is 256 if it is above 255.
fn with_comma(pattern: &[u8], at: usize, least: u16) -> Brace
    requires { at ≤ length pattern.now }
    ensures is { (whole : ℕ) → least ≡ min whole 256 → IsBraceAt pattern.now result (after_comma whole (drop at pattern.now)) }
    ensures within { IsBraceWithin at (length pattern.now) result }
{
    if is_at(pattern, at, b'}') {
        return if least <= 255 {
            Brace::Interval(Count::AtLeast(least as u8), at + 1)
        } else {
            Brace::Wrong
        };
    }
    if !digit_at(pattern, at) {
        return Brace::Itself;
    }
    let (most, end) = digits(pattern, at);
    if !is_at(pattern, end, b'}') {
        return Brace::Itself;
    }
    if least > most || most > 255 {
        return Brace::Wrong;
    }
    Brace::Interval(Count::Between(least as u8, (most - least) as u8), end + 1)
}

/// What the `{` before a place begins.
pub fn brace_at(pattern: &[u8], at: usize) -> Brace
    requires { at ≤ length pattern.now }
    ensures is { IsBraceAt pattern.now result (braced (drop at pattern.now)) }
    ensures within { IsBraceWithin at (length pattern.now) result }
{
    if !digit_at(pattern, at) {
        return no_least(pattern, at);
    }
    let (least, next) = digits(pattern, at);
    if is_at(pattern, next, b'}') {
        return if least <= 255 {
            Brace::Interval(Count::Between(least as u8, 0), next + 1)
        } else {
            Brace::Wrong
        };
    }
    if is_at(pattern, next, b',') {
        return with_comma(pattern, next + 1, least);
    }
    Brace::Itself
}
