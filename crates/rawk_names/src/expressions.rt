//! The names of expressions, in the order of the text.

ghost use Rattle.std.specs.Prelude.{◌≡◌, [], map, OnOk, option_copied};
ghost use Rattle.rawk_parsing.specs.declared.tree.Name.{Name};
ghost use Rattle.rawk_names.specs.Mentions.{AsArray, all, builtin_arguments, builtin_at, builtin_name, call_arguments, call_at, every, link_mentions, mentions, place_mentions, place_seen, seen};
ghost use Rattle.rawk_names.specs.Noted.{Noted, named, noted, noted_all, shown};

use crate::register::Register;
use crate::usage::Manner;
use rawk_items::Boxed;
use rawk_keywords::Builtin;
use rawk_parsing::tree::{Expr, Link, Name, Place};
use std::alloc::{AllocError, Global};

/// The name that a place is, if it is one alone.
#[tactic(auto, using(crate::specs::Walks::naming))]
pub fn place_name(place: &Place) -> Option<&Name>
    ensures { option_copied result ≡ (place_seen place.now).name }
{
    match place {
        Place::Name(name) => Some(name),
        Place::Element(_, _) => None,
        Place::Field(_) => None,
    }
}

/// The name that an expression is, if it is one alone.
#[tactic(auto, using(crate::specs::Walks::naming))]
fn name_of(e: &Expr) -> Option<&Name>
    ensures { option_copied result ≡ (seen e.now).name }
{
    match e {
        Expr::Of(place) => place_name(place),
        _ => None,
    }
}

#[cycle(walk)]
#[tactic(auto, using(crate::specs::Walks::walking))]
pub fn note_place(alloc: Global, register: &mut Register, place: &Place) -> Result<(), AllocError>
    ensures { OnOk result (shown register.new ≡ noted_all (place_mentions place.now) (shown register.old)) }
{
    match place {
        Place::Name(name) => register.name(alloc, Manner::Scalar, name),
        Place::Element(array, subscripts) => {
            register.name(alloc, Manner::Array, array)?;
            note_list(alloc, register, subscripts.as_slice())
        }
        Place::Field(e) => note_expr(alloc, register, e.get()),
    }
}

/// Expressions, one after another.
#[cycle(walk)]
pub fn note_list(
    alloc: Global,
    register: &mut Register,
    list: &[Boxed<Expr>],
) -> Result<(), AllocError>
    ensures { OnOk result (shown register.new ≡ noted_all (all (map seen list.now)) (shown register.old)) }
{
    for e in list {
        note_expr(alloc, register, e.get())?;
    }
    Ok(())
}

#[cycle(walk)]
fn note_links(alloc: Global, register: &mut Register, links: &[Link]) -> Result<(), AllocError>
    ensures { OnOk result (shown register.new ≡ noted_all (every (map link_mentions links.now)) (shown register.old)) }
{
    for link in links {
        note_expr(alloc, register, link.operand.get())?;
    }
    Ok(())
}

/// Names of arrays.
fn note_arrays(alloc: Global, register: &mut Register, arrays: &[Name]) -> Result<(), AllocError>
    ensures { OnOk result (shown register.new ≡ noted_all (map AsArray arrays.now) (shown register.old)) }
{
    for array in arrays {
        register.name(alloc, Manner::Array, array)?;
    }
    Ok(())
}

/// How a built-in function uses a name alone as its argument.
fn builtin_manner(function: Builtin, argument: usize) -> Manner
    ensures { (x : Name) (n : Noted) → noted (builtin_name function argument x) n ≡ named result x n }
{
    match function {
        Builtin::Length => Manner::Either,
        Builtin::Split if argument == 1 => Manner::Array,
        _ => Manner::Scalar,
    }
}

/// An argument of a built-in function.
#[cycle(walk)]
fn note_builtin_argument(
    alloc: Global,
    register: &mut Register,
    function: Builtin,
    argument: usize,
    e: &Expr,
) -> Result<(), AllocError>
    ensures { OnOk result (shown register.new ≡ noted_all (builtin_at function argument (seen e.now).mentions (seen e.now).name) (shown register.old)) }
{
    match name_of(e) {
        None => note_expr(alloc, register, e),
        Some(name) => register.name(alloc, builtin_manner(function, argument), name),
    }
}

#[cycle(walk)]
fn note_builtin(
    alloc: Global,
    register: &mut Register,
    function: Builtin,
    arguments: &[Boxed<Expr>],
) -> Result<(), AllocError>
    ensures { OnOk result (shown register.new ≡ noted_all (builtin_arguments function 0 (map seen arguments.now)) (shown register.old)) }
{
    for (argument, e) in arguments.iter().enumerate() {
        note_builtin_argument(alloc, register, function, argument, e.get())?;
    }
    Ok(())
}

/// An argument of a call.
#[cycle(walk)]
fn note_call_argument(
    alloc: Global,
    register: &mut Register,
    function: &Name,
    argument: usize,
    e: &Expr,
) -> Result<(), AllocError>
    ensures { OnOk result (shown register.new ≡ noted_all (call_at function.now argument (seen e.now).mentions (seen e.now).name) (shown register.old)) }
{
    match name_of(e) {
        None => {
            register.computed(function, argument)?;
            note_expr(alloc, register, e)
        }
        Some(name) => register.passed(alloc, name, function, argument),
    }
}

#[cycle(walk)]
fn note_call(
    alloc: Global,
    register: &mut Register,
    function: &Name,
    arguments: &[Boxed<Expr>],
) -> Result<(), AllocError>
    ensures { OnOk result (shown register.new ≡ noted_all (call_arguments function.now 0 (map seen arguments.now)) (shown register.old)) }
{
    for (argument, e) in arguments.iter().enumerate() {
        note_call_argument(alloc, register, function, argument, e.get())?;
    }
    Ok(())
}

/// An expression, from left to right.
#[cycle(walk)]
#[tactic(auto, using(crate::specs::Walks::walking))]
pub fn note_expr(alloc: Global, register: &mut Register, e: &Expr) -> Result<(), AllocError>
    ensures { OnOk result (shown register.new ≡ noted_all (mentions e.now) (shown register.old)) }
{
    match e {
        Expr::Number(_) => Ok(()),
        Expr::Text(_) => Ok(()),
        Expr::Ere(left, pattern) => register.pattern(alloc, *left, pattern.as_slice()),
        Expr::Of(place) => note_place(alloc, register, place),
        Expr::Group(inner) => note_expr(alloc, register, inner.get()),
        Expr::Before(_, place) => note_place(alloc, register, place),
        Expr::After(_, place) => note_place(alloc, register, place),
        Expr::Power(base, exponent) => {
            note_expr(alloc, register, base.get())?;
            note_expr(alloc, register, exponent.get())
        }
        Expr::Signed(_, operand) => note_expr(alloc, register, operand.get()),
        Expr::Chain(first, links) => {
            note_expr(alloc, register, first.get())?;
            note_links(alloc, register, links.as_slice())
        }
        Expr::In(subscript, arrays) => {
            note_expr(alloc, register, subscript.get())?;
            note_arrays(alloc, register, arrays.as_slice())
        }
        Expr::ListIn(subscripts, array) => {
            note_list(alloc, register, subscripts.as_slice())?;
            register.name(alloc, Manner::Array, array)
        }
        Expr::Logic(_, operands) => note_list(alloc, register, operands.as_slice()),
        Expr::Choice(test, yes, no) => {
            note_expr(alloc, register, test.get())?;
            note_expr(alloc, register, yes.get())?;
            note_expr(alloc, register, no.get())
        }
        Expr::Assign(_, place, value) => {
            note_place(alloc, register, place)?;
            note_expr(alloc, register, value.get())
        }
        Expr::Builtin(function, arguments) => {
            note_builtin(alloc, register, *function, arguments.as_slice())
        }
        Expr::Call(function, arguments) => {
            register.called(function, arguments.len())?;
            note_call(alloc, register, function, arguments.as_slice())
        }
        Expr::Getline => Ok(()),
        Expr::GetlineTo(place) => note_place(alloc, register, place),
    }
}
