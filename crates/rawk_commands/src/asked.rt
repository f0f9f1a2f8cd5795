//! What a line asks for, as it stands there, and the copy of it that a command keeps.

ghost use Rattle.std.specs.Prelude.{◌≡◌, IfOk, IsTrue, OnErr};
ghost use Rattle.rawk_commands.specs.Asked.{command_written, constant_written, place_written};
ghost use Rattle.rawk_commands.specs.Reading.{key_of, names_something};

use crate::command::{Command, Constant, Place, Spot};
use rawk_lexer::unescaped;
use rawk_value::{Bytes, push_number};
use std::alloc::{AllocError, Global};

/// A constant; of a string, what stands between its quotes.
#[derive(Clone, Copy)]
pub enum Literal<'a> {
    Number(i64),
    Quoted(&'a [u8]),
}

/// A place.
#[derive(Clone, Copy)]
pub enum PlaceName<'a> {
    Name(&'a [u8]),
    Element(&'a [u8], Literal<'a>),
    Field(usize),
}

/// A command.
#[derive(Drop)]
pub enum Asked<'a> {
    /// One that keeps nothing of the line.
    Ready(Command),
    Break(&'a [u8]),
    Watch(PlaceName<'a>),
    Print(PlaceName<'a>),
    Set(PlaceName<'a>, Literal<'a>),
}

fn constant_copied(alloc: Global, literal: Literal<'_>) -> Result<Constant, AllocError>
    ensures { IfOk result (λ constant. constant ≡ constant_written literal.entry) }
{
    match literal {
        Literal::Number(n) => Ok(Constant::Number(n)),
        Literal::Quoted(inside) => Ok(Constant::Text(Bytes::from_vec(
            alloc,
            unescaped(alloc, inside)?,
        )?)),
    }
}

fn key_copied(alloc: Global, literal: Literal<'_>) -> Result<Bytes, AllocError>
    ensures { IfOk result (λ key. key ≡ key_of (constant_written literal.entry)) }
{
    match literal {
        Literal::Number(n) => {
            let mut text = Vec::new(alloc);
            push_number(&mut text, n)?;
            Bytes::from_vec(alloc, text)
        }
        Literal::Quoted(inside) => Bytes::from_vec(alloc, unescaped(alloc, inside)?),
    }
}

fn place_copied(alloc: Global, place: PlaceName<'_>) -> Result<Place, AllocError>
    ensures { IfOk result (λ copy. copy ≡ place_written place.entry) }
{
    match place {
        PlaceName::Name(name) => Ok(Place::Name(Bytes::from_slice(alloc, name)?)),
        PlaceName::Element(name, key) => {
            let name = Bytes::from_slice(alloc, name)?;
            Ok(Place::Element(name, key_copied(alloc, key)?))
        }
        PlaceName::Field(number) => Ok(Place::Field(number)),
    }
}

/// The command, with copies of what it names. It asks for memory only where it names something.
pub fn command_copied(alloc: Global, asked: Asked<'_>) -> Result<Command, AllocError>
    ensures value { IfOk result (λ command. command ≡ command_written asked.entry) }
    ensures memory { OnErr result (IsTrue (names_something (command_written asked.entry))) }
{
    match asked {
        Asked::Ready(command) => Ok(command),
        Asked::Break(name) => Ok(Command::Break(Spot::Function(Bytes::from_slice(alloc, name)?))),
        Asked::Watch(place) => Ok(Command::Watch(place_copied(alloc, place)?)),
        Asked::Print(place) => Ok(Command::Print(place_copied(alloc, place)?)),
        Asked::Set(place, literal) => {
            let place = place_copied(alloc, place)?;
            Ok(Command::Set(place, constant_copied(alloc, literal)?))
        }
    }
}
