//! Calls of built-in functions (POSIX awk, Arithmetic Functions, String Functions), by the number of their arguments.

ghost use Rattle.std.specs.Prelude.{◌≡◌, ◌≢◌, ◌+◌, [], ◌∷◌, ◌++◌, IfOk, IfSome, MatchOption, Some, is_some, length};
ghost use Rattle.rawk_keywords.specs.declared.builtin.Builtin.TheVariants.{Sprintf, Substr};
ghost use Rattle.rawk_tree.specs.declared.tree.Expr.{Expr};
ghost use Rattle.rawk_tree.specs.declared.tree.Link.TheVariants.{Combine};
ghost use Rattle.rawk_resolution.specs.Calls.{Applies, bare_of, binary_of, has_builtin, unary_of};

use rawk_keywords::Builtin;
use rawk_tree::{Expr, Joiner, Link, Place, Unary};
use std::alloc::{AllocError, Global};

/// What a function without an argument is, of the record.
fn bare_of(function: Builtin) -> Option<Unary>
    ensures { result ≡ bare_of function }
{
    match function {
        Builtin::Length => Some(Unary::Length),
        Builtin::Tolower | Builtin::Toupper | Builtin::Int => None,
        Builtin::Index | Builtin::Substr | Builtin::Split | Builtin::Match => None,
        Builtin::Sub | Builtin::Gsub | Builtin::Sprintf => None,
    }
}

/// What a function of one argument is.
fn unary_of(function: Builtin) -> Option<Unary>
    ensures { result ≡ unary_of function }
{
    match function {
        Builtin::Length => Some(Unary::Length),
        Builtin::Tolower => Some(Unary::ToLower),
        Builtin::Toupper => Some(Unary::ToUpper),
        Builtin::Int => Some(Unary::Int),
        Builtin::Index | Builtin::Substr | Builtin::Split | Builtin::Match => None,
        Builtin::Sub | Builtin::Gsub | Builtin::Sprintf => None,
    }
}

/// What a function of two arguments is.
fn binary_of(function: Builtin) -> Option<Joiner>
    ensures { result ≡ binary_of function }
{
    match function {
        Builtin::Index => Some(Joiner::Index),
        Builtin::Substr => Some(Joiner::Substr),
        Builtin::Length | Builtin::Tolower | Builtin::Toupper | Builtin::Int => None,
        Builtin::Split | Builtin::Match => None,
        Builtin::Sub | Builtin::Gsub | Builtin::Sprintf => None,
    }
}

fn apply_bare(alloc: Global, function: Builtin) -> Result<Option<Expr>, AllocError>
    ensures applies { IfOk result (λ o. IfSome o (λ s. Applies function [] s)) }
    ensures has { IfOk result (λ o. is_some o ≡ is_some (bare_of function)) }
{
    let Some(unary) = bare_of(function) else {
        return Ok(None);
    };
    let number = Box::new(alloc, Expr::Number(0))?;
    let record = Box::new(alloc, Expr::Read(Place::Field(number)))?;
    Ok(Some(Expr::Unary(unary, record)))
}

fn apply_one(alloc: Global, function: Builtin, argument: Expr) -> Result<Option<Expr>, AllocError>
    ensures applies { IfOk result (λ o. IfSome o (λ s. Applies function (argument ∷ []) s)) }
    ensures has { IfOk result (λ o. is_some o ≡ is_some (unary_of function)) }
{
    let operand = Box::new(alloc, argument)?;
    match unary_of(function) {
        None => Ok(None),
        Some(unary) => Ok(Some(Expr::Unary(unary, operand))),
    }
}

/// The first on the heap, and the second. Where memory is refused both are gone.
fn first_boxed<T: Drop>(alloc: Global, first: T, second: T) -> Result<(Box<T>, T), AllocError>
    ensures first { IfOk result (λ pair. pair.0.value ≡ first) }
    ensures second { IfOk result (λ pair. pair.1 ≡ second) }
{
    let first = Box::new(alloc, first)?;
    Ok((first, second))
}

/// Three values on the heap. Where memory is refused all are gone.
fn three_boxed<T: Drop>(
    alloc: Global,
    first: T,
    second: T,
    third: T,
) -> Result<(Box<T>, Box<T>, Box<T>), AllocError>
    ensures first { IfOk result (λ three. three.0.value ≡ first) }
    ensures second { IfOk result (λ three. three.1.value ≡ second) }
    ensures third { IfOk result (λ three. three.2.value ≡ third) }
{
    let first = Box::new(alloc, first)?;
    let second = Box::new(alloc, second)?;
    let third = Box::new(alloc, third)?;
    Ok((first, second, third))
}

/// A link with this operand.
fn link_of(alloc: Global, joiner: Joiner, operand: Expr) -> Result<Vec<Link>, AllocError>
    ensures { IfOk result (λ links. links.items ≡ Combine joiner operand ∷ []) }
{
    let mut links = Vec::new(alloc);
    links.push(Link::Combine(joiner, operand))?;
    Ok(links)
}

fn apply_two(
    alloc: Global,
    function: Builtin,
    first: Expr,
    second: Expr,
) -> Result<Option<Expr>, AllocError>
    ensures applies { IfOk result (λ o. IfSome o (λ s. Applies function (first ∷ second ∷ []) s)) }
    ensures has { IfOk result (λ o. is_some o ≡ is_some (binary_of function)) }
{
    let (operand, right) = first_boxed(alloc, first, second)?;
    match binary_of(function) {
        None => {
            drop(right);
            Ok(None)
        }
        Some(joiner) => {
            let links = link_of(alloc, joiner, right)?;
            Ok(Some(Expr::Chain(operand, links)))
        }
    }
}

/// `substr` with a count.
fn apply_three(
    alloc: Global,
    text: Expr,
    place: Expr,
    count: Expr,
) -> Result<Option<Expr>, AllocError>
    ensures { IfOk result (λ o. (s : Expr) × (o ≡ Some s) × Applies Substr (text ∷ place ∷ count ∷ []) s) }
{
    let (text, place, count) = three_boxed(alloc, text, place, count)?;
    Ok(Some(Expr::Substr(text, place, count)))
}

/// A function of three arguments or more, of which the last two are these.
fn apply_more(
    alloc: Global,
    function: Builtin,
    arguments: Vec<Expr>,
    second: Expr,
    last: Expr,
) -> Result<Option<Expr>, AllocError>
    requires { function ≢ Sprintf }
    ensures applies { IfOk result (λ o. IfSome o (λ s. Applies function (arguments.items ++ second ∷ last ∷ []) s)) }
    ensures has { IfOk result (λ o. is_some o ≡ has_builtin function (length arguments.items + 2)) }
{
    let mut rest = arguments;
    let Some(first) = rest.pop() else {
        return apply_two(alloc, function, second, last);
    };
    if function == Builtin::Substr && rest.is_empty() {
        return apply_three(alloc, first, second, last);
    }
    drop(first);
    drop(second);
    drop(last);
    Ok(None)
}

/// A function of one argument or more, of which the last is this.
fn apply_some(
    alloc: Global,
    function: Builtin,
    arguments: Vec<Expr>,
    last: Expr,
) -> Result<Option<Expr>, AllocError>
    requires { function ≢ Sprintf }
    ensures applies { IfOk result (λ o. IfSome o (λ s. Applies function (arguments.items ++ last ∷ []) s)) }
    ensures has { IfOk result (λ o. is_some o ≡ has_builtin function (length arguments.items + 1)) }
{
    let mut rest = arguments;
    match rest.pop() {
        None => apply_one(alloc, function, last),
        Some(second) => apply_more(alloc, function, rest, second, last),
    }
}

/// A function of this many arguments.
fn apply_counted(
    alloc: Global,
    function: Builtin,
    arguments: Vec<Expr>,
) -> Result<Option<Expr>, AllocError>
    requires { function ≢ Sprintf }
    ensures applies { IfOk result (λ o. IfSome o (λ s. Applies function arguments.items s)) }
    ensures has { IfOk result (λ o. is_some o ≡ has_builtin function (length arguments.items)) }
{
    let mut rest = arguments;
    match rest.pop() {
        None => apply_bare(alloc, function),
        Some(last) => apply_some(alloc, function, rest, last),
    }
}

/// The format and its arguments, if there is a format.
pub fn format_and_arguments(values: Vec<Expr>) -> Option<(Expr, Vec<Expr>)>
    ensures { MatchOption result (values.items ≡ []) (λ p. values.items ≡ p.0 ∷ p.1.items) }
{
    let mut arguments = values;
    if arguments.is_empty() {
        return None;
    }
    let format = arguments.remove(0);
    Some((format, arguments))
}

fn apply_format(alloc: Global, arguments: Vec<Expr>) -> Result<Option<Expr>, AllocError>
    ensures applies { IfOk result (λ o. IfSome o (λ s. Applies Sprintf arguments.items s)) }
    ensures has { IfOk result (λ o. is_some o ≡ has_builtin Sprintf (length arguments.items)) }
{
    let Some((format, arguments)) = format_and_arguments(arguments) else {
        return Ok(None);
    };
    let format = Box::new(alloc, format)?;
    Ok(Some(Expr::Sprintf(format, arguments)))
}

/// The call of a function with these arguments, if the tree has it.
pub fn apply(
    alloc: Global,
    function: Builtin,
    arguments: Vec<Expr>,
) -> Result<Option<Expr>, AllocError>
    ensures applies { IfOk result (λ o. IfSome o (λ s. Applies function arguments.items s)) }
    ensures has { IfOk result (λ o. is_some o ≡ has_builtin function (length arguments.items)) }
{
    match function {
        Builtin::Sprintf => apply_format(alloc, arguments),
        _ => apply_counted(alloc, function, arguments),
    }
}
