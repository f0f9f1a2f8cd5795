//! Reads the lines of a session.

ghost use Rattle.std.specs.Prelude.{◌≡◌, ◌≤◌, length};
ghost use Rattle.std.specs.List.{position_or_len};
ghost use Rattle.std.specs.Option.{option_map};
ghost use Rattle.rawk_commands.specs.Asked.{command_written, constant_written, place_written, reading_written};
ghost use Rattle.rawk_commands.specs.Reading as spec;
ghost use Rattle.rawk_commands.specs.Words as word;

use crate::asked::{Asked, Literal, PlaceName, command_copied};
use crate::command::{C, Command, Spot};
use crate::front::{constant_front, count_of, place_front};
use crate::verb::{Verb, verb_of};
use rawk_keywords::has_name_form;
use std::alloc::Global;

fn is_blank(b: u8) -> bool
    ensures { result ≡ word.is_blank b }
{
    b == b' ' || b == b'\t'
}

/// The text without the blanks at its front.
fn without_front(text: &[u8]) -> &[u8]
    ensures { result.now ≡ word.without_front text.now }
{
    let mut rest = text;
    while let Some((first, others)) = rest.split_first() {
        if !is_blank(*first) {
            return rest;
        }
        rest = others;
    }
    rest
}

/// The text without the blanks at its ends.
fn trimmed(text: &[u8]) -> &[u8]
    ensures { result.now ≡ word.trimmed text.now }
{
    let mut rest = without_front(text);
    while let Some((last, others)) = rest.split_last() {
        if !is_blank(*last) {
            return rest;
        }
        rest = others;
    }
    rest
}

/// The place of the first blank, or the end.
fn first_blank(text: &[u8]) -> usize
    ensures place { result ≡ position_or_len word.is_blank text.now }
    ensures within { result ≤ length text.now }
{
    for (i, b) in text.iter().enumerate() {
        if is_blank(*b) {
            return i;
        }
    }
    text.len()
}

/// A constant, and nothing after it.
fn constant_of(text: &[u8]) -> Option<Literal<'_>>
    ensures { option_map constant_written result ≡ spec.constant_of text.now }
{
    let (literal, rest) = constant_front(text)?;
    if rest.is_empty() { Some(literal) } else { None }
}

/// A place, and nothing after it.
fn place_of(text: &[u8]) -> Option<PlaceName<'_>>
    ensures { option_map place_written result ≡ spec.place_of text.now }
{
    let (place, rest) = place_front(text)?;
    if rest.is_empty() { Some(place) } else { None }
}

/// `break LINE` or `break FUNCTION`.
fn stop_asked(text: &[u8]) -> Option<Asked<'_>>
    ensures { option_map command_written result ≡ spec.command_of Verb.Break text.now }
{
    let first = text.first()?;
    if first.is_ascii_digit() {
        let line = count_of(text)?;
        return Some(Asked::Ready(Command::Break(Spot::Line(line))));
    }
    if has_name_form(text) {
        Some(Asked::Break(text))
    } else {
        None
    }
}

/// `set PLACE=CONSTANT`.
fn set_asked(text: &[u8]) -> Option<Asked<'_>>
    ensures { option_map command_written result ≡ spec.command_of Verb.Set text.now }
{
    let (place, rest) = place_front(text)?;
    match without_front(rest) {
        [b'=', value @ ..] => {
            let literal = constant_of(without_front(value))?;
            Some(Asked::Set(place, literal))
        }
        _ => None,
    }
}

/// A command that has no argument.
fn alone<'a>(command: Command, argument: &'a [u8]) -> Option<Asked<'a>>
    ensures { option_map command_written result ≡ spec.alone command argument.now }
{
    if argument.is_empty() {
        Some(Asked::Ready(command))
    } else {
        None
    }
}

/// The command that a word and its argument make.
fn asked_by(verb: Verb, argument: &[u8]) -> Option<Asked<'_>>
    ensures { option_map command_written result ≡ spec.command_of verb argument.now }
{
    match verb {
        Verb::Break => stop_asked(argument),
        Verb::Watch => Some(Asked::Watch(place_of(argument)?)),
        Verb::Delete => Some(Asked::Ready(Command::Delete(count_of(argument)?))),
        Verb::Unwatch => Some(Asked::Ready(Command::Unwatch(count_of(argument)?))),
        Verb::Move(way, goal) => alone(Command::Move(way, goal), argument),
        Verb::Run => alone(Command::Run, argument),
        Verb::Print => Some(Asked::Print(place_of(argument)?)),
        Verb::Set => set_asked(argument),
        Verb::ReverseSet => alone(Command::ReverseSet, argument),
        Verb::Backtrace => alone(Command::Backtrace, argument),
        Verb::Quit => alone(Command::Quit, argument),
    }
}

/// What a line asks for, which lends the line.
#[tactic(auto, unfolding(crate::specs::Reading::reading))]
fn asked_on(line: &[u8]) -> Result<Option<Asked<'_>>, C>
    ensures { reading_written result ≡ spec.reading line.now }
{
    let line = trimmed(line);
    if line.is_empty() || line[0] == b'#' {
        return Ok(None);
    }
    let (word, rest) = line.split_at(first_blank(line));
    let Some(verb) = verb_of(word) else {
        return Err(C::UnknownCommand);
    };
    match asked_by(verb, without_front(rest)) {
        None => Err(C::BadArgument),
        Some(asked) => Ok(Some(asked)),
    }
}

impl Command {
    /// Reads a line: `None` where it asks for nothing, as an empty one and one that begins with `#`.
    ///
    /// C1 for a word that is no command, before its argument is looked at; C2 for an argument that is missing, extra or
    /// unreadable; C11 where memory is refused, which only a command that names a place or a function asks for.
    pub fn read(alloc: Global, line: &[u8]) -> Result<Option<Command>, C>
        ensures { spec.Reads line.now result }
    {
        match asked_on(line)? {
            None => Ok(None),
            Some(asked) => Ok(Some(command_copied(alloc, asked)?)),
        }
    }
}
