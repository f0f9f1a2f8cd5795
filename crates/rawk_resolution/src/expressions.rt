//! Expressions: names become numbers, and parentheses go.

ghost use Rattle.std.specs.Prelude.{◌≡◌, List, [], ◌∷◌, ◌++◌, IfOk, IsTrue, OnOk, Some, length, map, slice_get};
ghost use Rattle.rawk_parsing.specs.declared.tree.Expr.TheVariants as from;
ghost use Rattle.rawk_keywords.specs.declared.builtin.Builtin.TheVariants as fun;
ghost use Rattle.rawk_parsing.specs.declared.tree.Expr as parsed_expr;
ghost use Rattle.rawk_parsing.specs.declared.tree.Name as word;
ghost use Rattle.rawk_parsing.specs.declared.tree.Place as parsed_place;
ghost use Rattle.rawk_parsing.specs.declared.tree.Place.TheVariants as from_place;
ghost use Rattle.rawk_tree.specs.declared.tree.Kind as tree_kind;
ghost use Rattle.rawk_resolution.specs.Calls.{Applies, has_builtin};
ghost use Rattle.rawk_resolution.specs.InOrder as order;
ghost use Rattle.rawk_resolution.specs.Meant.{sense_of};
ghost use Rattle.rawk_resolution.specs.Settled.{Settles, AnExpr, APlace, ASought, ASeparator, SomeArguments, SomeLinks, SomeTests, SomeExprs, Prints, right_of, extent_of};

use crate::arrays::{array_named, counted, members_of};
use crate::calls::{apply, format_and_arguments};
use crate::growth::{boxed, push};
use crate::kinds::kind_at;
use crate::nodes::{
    field_separator, joiner_of, neutral, number, operator_of, record, record_place, scalar_place,
    settle_ere, settle_number, settle_text,
};
use crate::scope::{Scope, the_array, the_function, the_scalar};
use rawk_items::Boxed;
use rawk_keywords::Builtin;
use rawk_parsing::tree as parsed;
use rawk_parsing::tree::{Assignment, Change};
use rawk_tree::{Array, Expr, Joiner, Kind, Link, Place, Separation, Unary};
use rawk_value::Arithmetic;
use rawk_words::{Extent, Logic};
use std::alloc::{AllocError, Global};

/// The tests that `&&` or `||` joins.
#[cycle(settle)]
fn settle_tests(
    alloc: Global,
    scope: &Scope<'_>,
    logic: Logic,
    tests: &[Boxed<parsed::Expr>],
) -> Result<Vec<Link>, AllocError>
    requires { IsTrue (order.each (order.in_order (sense_of scope.now)) tests.now) }
    ensures { IfOk result (λ s. Settles (sense_of scope.now) (SomeTests logic tests.now s.items)) }
{
    let mut settled = Vec::new(alloc);
    for test in tests {
        let operand = settle_expr(alloc, scope, test.get())?;
        push(&mut settled, Link::Decide(logic, operand))?;
    }
    Ok(settled)
}

/// What is read or assigned.
#[cycle(settle)]
fn settle_place(
    alloc: Global,
    scope: &Scope<'_>,
    place: &parsed::Place,
) -> Result<Place, AllocError>
    requires { IsTrue (order.place_in_order (sense_of scope.now) place.now) }
    ensures { IfOk result (λ s. Settles (sense_of scope.now) (APlace place.now s)) }
{
    match place {
        parsed::Place::Name(name) => Ok(scalar_place(the_scalar(scope, name))),
        parsed::Place::Field(e) => {
            let number = settle_boxed(alloc, scope, e.get())?;
            Ok(Place::Field(number))
        }
        parsed::Place::Element(name, subscripts) => {
            let subscripts = settle_list(alloc, scope, subscripts.as_slice())?;
            Ok(Place::Element(the_array(scope, name), subscripts))
        }
    }
}

#[cycle(settle)]
fn settle_links(
    alloc: Global,
    scope: &Scope<'_>,
    links: &[parsed::Link],
) -> Result<Vec<Link>, AllocError>
    requires { IsTrue (order.each (order.link_in_order (sense_of scope.now)) links.now) }
    ensures { IfOk result (λ s. Settles (sense_of scope.now) (SomeLinks links.now s.items)) }
{
    let mut settled = Vec::new(alloc);
    for link in links {
        let joiner = joiner_of(link.operator);
        let operand = settle_right(alloc, scope, joiner, link.operand.get())?;
        push(&mut settled, Link::Combine(joiner, operand))?;
    }
    Ok(settled)
}

/// A text that is sought: a regular expression stands for its text, and anything else for its value.
#[cycle(settle)]
fn settle_sought(alloc: Global, scope: &Scope<'_>, e: &parsed::Expr) -> Result<Expr, AllocError>
    requires { IsTrue (order.in_order (sense_of scope.now) e.now) }
    ensures { IfOk result (λ s. Settles (sense_of scope.now) (ASought e.now s)) }
{
    match e {
        parsed::Expr::Ere(_, text) => settle_text(alloc, text.as_slice()),
        _ => settle_expr(alloc, scope, e),
    }
}

/// The right operand of a joiner.
#[cycle(settle)]
fn settle_right(
    alloc: Global,
    scope: &Scope<'_>,
    joiner: Joiner,
    e: &parsed::Expr,
) -> Result<Expr, AllocError>
    requires { IsTrue (order.in_order (sense_of scope.now) e.now) }
    ensures { IfOk result (λ s. Settles (sense_of scope.now) (right_of joiner e.now s)) }
{
    match joiner {
        Joiner::Matches | Joiner::NotMatches => settle_sought(alloc, scope, e),
        _ => settle_expr(alloc, scope, e),
    }
}

/// A call of a built-in function that takes this many arguments.
fn apply_builtin(alloc: Global, function: Builtin, arguments: Vec<Expr>) -> Result<Expr, AllocError>
    requires { IsTrue (has_builtin function (length arguments.items)) }
    ensures { IfOk result (λ s. Applies function arguments.items s) }
{
    match apply(alloc, function, arguments)? {
        Some(call) => Ok(call),
        None => unreachable!(),
    }
}

/// An expression on the heap.
#[cycle(settle)]
fn settle_boxed(alloc: Global, scope: &Scope<'_>, e: &parsed::Expr) -> Result<Box<Expr>, AllocError>
    requires { IsTrue (order.in_order (sense_of scope.now) e.now) }
    ensures { IfOk result (λ b. Settles (sense_of scope.now) (AnExpr e.now b.value)) }
{
    let settled = settle_expr(alloc, scope, e)?;
    boxed(alloc, settled)
}

/// A power, which is a chain of one link.
#[cycle(settle)]
fn settle_power(
    alloc: Global,
    scope: &Scope<'_>,
    base: &parsed::Expr,
    exponent: &parsed::Expr,
) -> Result<Expr, AllocError>
    requires base { IsTrue (order.in_order (sense_of scope.now) base.now) }
    requires exponent { IsTrue (order.in_order (sense_of scope.now) exponent.now) }
    ensures { IfOk result (λ s. Settles (sense_of scope.now) (AnExpr (from.Power base.now exponent.now) s)) }
{
    let first = settle_boxed(alloc, scope, base)?;
    let operand = settle_expr(alloc, scope, exponent)?;
    let mut powers = Vec::new(alloc);
    push(
        &mut powers,
        Link::Combine(Joiner::Arithmetic(Arithmetic::Pow), operand),
    )?;
    Ok(Expr::Chain(first, powers))
}

/// An operand and its links.
#[cycle(settle)]
fn settle_chain(
    alloc: Global,
    scope: &Scope<'_>,
    first: &parsed::Expr,
    links: &[parsed::Link],
) -> Result<Expr, AllocError>
    requires first { IsTrue (order.in_order (sense_of scope.now) first.now) }
    requires links { IsTrue (order.each (order.link_in_order (sense_of scope.now)) links.now) }
    ensures { IfOk result (λ s. Settles (sense_of scope.now) (AnExpr (from.Chain first.now links.now) s)) }
{
    let first = settle_boxed(alloc, scope, first)?;
    let links = settle_links(alloc, scope, links)?;
    Ok(Expr::Chain(first, links))
}

/// Tests that `&&` or `||` joins: a chain behind a constant.
#[cycle(settle)]
fn settle_logic(
    alloc: Global,
    scope: &Scope<'_>,
    logic: Logic,
    tests: &[Boxed<parsed::Expr>],
) -> Result<Expr, AllocError>
    requires { IsTrue (order.each (order.in_order (sense_of scope.now)) tests.now) }
    ensures { IfOk result (λ s. Settles (sense_of scope.now) (AnExpr (from.Logic logic tests.now) s)) }
{
    let first = boxed(alloc, neutral(logic))?;
    let tests = settle_tests(alloc, scope, logic, tests)?;
    Ok(Expr::Chain(first, tests))
}

/// A test and what it chooses from.
#[cycle(settle)]
fn settle_choice(
    alloc: Global,
    scope: &Scope<'_>,
    test: &parsed::Expr,
    yes: &parsed::Expr,
    no: &parsed::Expr,
) -> Result<Expr, AllocError>
    requires test { IsTrue (order.in_order (sense_of scope.now) test.now) }
    requires yes { IsTrue (order.in_order (sense_of scope.now) yes.now) }
    requires no { IsTrue (order.in_order (sense_of scope.now) no.now) }
    ensures { IfOk result (λ s. Settles (sense_of scope.now) (AnExpr (from.Choice test.now yes.now no.now) s)) }
{
    let test = settle_boxed(alloc, scope, test)?;
    let yes = settle_boxed(alloc, scope, yes)?;
    let no = settle_boxed(alloc, scope, no)?;
    Ok(Expr::Choice(test, yes, no))
}

/// `++` or `--` before a place: an assignment with 1.
#[cycle(settle)]
fn settle_before(
    alloc: Global,
    scope: &Scope<'_>,
    change: Change,
    place: &parsed::Place,
) -> Result<Expr, AllocError>
    requires { IsTrue (order.place_in_order (sense_of scope.now) place.now) }
    ensures { IfOk result (λ s. Settles (sense_of scope.now) (AnExpr (from.Before change place.now) s)) }
{
    let place = settle_place(alloc, scope, place)?;
    let one = number(alloc, 1)?;
    Ok(Expr::Update(operator_of(change), place, one))
}

/// An assignment.
#[cycle(settle)]
fn settle_assign(
    alloc: Global,
    scope: &Scope<'_>,
    how: Assignment,
    place: &parsed::Place,
    value: &parsed::Expr,
) -> Result<Expr, AllocError>
    requires place { IsTrue (order.place_in_order (sense_of scope.now) place.now) }
    requires value { IsTrue (order.in_order (sense_of scope.now) value.now) }
    ensures { IfOk result (λ s. Settles (sense_of scope.now) (AnExpr (from.Assign how place.now value.now) s)) }
{
    let place = settle_place(alloc, scope, place)?;
    let value = settle_boxed(alloc, scope, value)?;
    match how {
        Assignment::Plain => Ok(Expr::Assign(place, value)),
        Assignment::Update(operator) => Ok(Expr::Update(operator, place, value)),
    }
}

/// `in`, with the arrays of these names.
#[cycle(settle)]
fn settle_in(
    alloc: Global,
    scope: &Scope<'_>,
    subscript: &parsed::Expr,
    names: &[parsed::Name],
) -> Result<Expr, AllocError>
    requires subscript { IsTrue (order.in_order (sense_of scope.now) subscript.now) }
    requires names { IsTrue (order.each (order.names_array (sense_of scope.now)) names.now) }
    ensures { IfOk result (λ s. Settles (sense_of scope.now) (AnExpr (from.In subscript.now names.now) s)) }
{
    let subscript = settle_expr(alloc, scope, subscript)?;
    members_of(alloc, scope, subscript, names)
}

/// `in`, with several subscripts.
#[cycle(settle)]
fn settle_list_in(
    alloc: Global,
    scope: &Scope<'_>,
    subscripts: &[Boxed<parsed::Expr>],
    name: &parsed::Name,
) -> Result<Expr, AllocError>
    requires subscripts { IsTrue (order.each (order.in_order (sense_of scope.now)) subscripts.now) }
    requires name { IsTrue (order.names_array (sense_of scope.now) name.now) }
    ensures { IfOk result (λ s. Settles (sense_of scope.now) (AnExpr (from.ListIn subscripts.now name.now) s)) }
{
    let subscripts = settle_list(alloc, scope, subscripts)?;
    Ok(Expr::Has(the_array(scope, name), subscripts))
}

/// An argument of a parameter of this kind, which is added to the values or to the arrays.
#[cycle(settle)]
fn settle_argument(
    alloc: Global,
    scope: &Scope<'_>,
    kind: Option<Kind>,
    argument: &parsed::Expr,
    values: &mut Vec<Expr>,
    arrays: &mut Vec<Array>,
) -> Result<(), AllocError>
    requires { IsTrue (order.fits kind (order.use_of (sense_of scope.now) argument.now)) }
    ensures { OnOk result ((kinds : List tree_kind.Kind) (before : List parsed_expr.Expr) → slice_get kinds (length before) ≡ kind
        → Settles (sense_of scope.now) (SomeArguments kinds before values.old.items arrays.old.items)
        → Settles (sense_of scope.now) (SomeArguments kinds (before ++ argument.now ∷ []) values.new.items arrays.new.items)) }
{
    match kind {
        Some(Kind::Scalar) => {
            let value = settle_expr(alloc, scope, argument)?;
            push(values, value)
        }
        Some(Kind::Array) => push(arrays, array_named(scope, argument)),
        None => unreachable!(),
    }
}

/// The arguments of the scalar parameters of a function, and those of its arrays, each in their order.
#[cycle(settle)]
fn settle_arguments(
    alloc: Global,
    scope: &Scope<'_>,
    function: usize,
    arguments: &[Boxed<parsed::Expr>],
) -> Result<(Vec<Expr>, Vec<Array>), AllocError>
    requires { IsTrue (order.all_fit ((sense_of scope.now).kinds function) (map (order.use_of (sense_of scope.now)) arguments.now)) }
    ensures { IfOk result (λ pair. Settles (sense_of scope.now) (SomeArguments ((sense_of scope.now).kinds function) arguments.now pair.0.items pair.1.items)) }
{
    let mut values = Vec::new(alloc);
    let mut arrays = Vec::new(alloc);
    for (i, argument) in arguments.iter().enumerate() {
        let kind = kind_at(scope.names, function, i);
        settle_argument(alloc, scope, kind, argument.get(), &mut values, &mut arrays)?;
    }
    Ok((values, arrays))
}

/// A call of a function of the program.
#[cycle(settle)]
fn settle_call(
    alloc: Global,
    scope: &Scope<'_>,
    name: &parsed::Name,
    arguments: &[Boxed<parsed::Expr>],
) -> Result<Expr, AllocError>
    requires { IsTrue (order.calls (sense_of scope.now) ((sense_of scope.now).function name.now.word) (map (order.use_of (sense_of scope.now)) arguments.now)) }
    ensures { IfOk result (λ s. Settles (sense_of scope.now) (AnExpr (from.Call name.now arguments.now) s)) }
{
    let function = the_function(scope, name);
    let (values, arrays) = settle_arguments(alloc, scope, function, arguments)?;
    Ok(Expr::Call(function, values, arrays))
}

/// A call of `match`: a text, and what is sought in it.
#[cycle(settle)]
fn settle_match(
    alloc: Global,
    scope: &Scope<'_>,
    arguments: &[Boxed<parsed::Expr>],
) -> Result<Expr, AllocError>
    requires { IsTrue (order.finds (map (order.use_of (sense_of scope.now)) arguments.now)) }
    ensures { IfOk result (λ s. Settles (sense_of scope.now) (AnExpr (from.Builtin fun.Match arguments.now) s)) }
{
    let [text, pattern] = arguments else {
        unreachable!()
    };
    let text = settle_boxed(alloc, scope, text.get())?;
    let value = settle_sought(alloc, scope, pattern.get())?;
    let sought = boxed(alloc, value)?;
    Ok(Expr::Match(text, sought))
}

/// An expression that is sought, and a replacement.
#[cycle(settle)]
fn settle_replacement(
    alloc: Global,
    scope: &Scope<'_>,
    sought: &parsed::Expr,
    by: &parsed::Expr,
) -> Result<(Box<Expr>, Box<Expr>), AllocError>
    requires sought { IsTrue (order.in_order (sense_of scope.now) sought.now) }
    requires by { IsTrue (order.in_order (sense_of scope.now) by.now) }
    ensures sought { IfOk result (λ pair. Settles (sense_of scope.now) (ASought sought.now pair.0.value)) }
    ensures by { IfOk result (λ pair. Settles (sense_of scope.now) (AnExpr by.now pair.1.value)) }
{
    let value = settle_sought(alloc, scope, sought)?;
    let sought = boxed(alloc, value)?;
    let by = settle_boxed(alloc, scope, by)?;
    Ok((sought, by))
}

/// An expression that is a place which is changed.
#[cycle(settle)]
fn settle_changed(alloc: Global, scope: &Scope<'_>, e: &parsed::Expr) -> Result<Place, AllocError>
    requires { IsTrue (order.changes (sense_of scope.now) e.now) }
    ensures { IfOk result (λ q. (p : parsed_place.Place) × (e.now ≡ from.Of p) × Settles (sense_of scope.now) (APlace p q)) }
{
    match e {
        parsed::Expr::Of(place) => settle_place(alloc, scope, place),
        _ => unreachable!(),
    }
}

/// A call of `sub` or `gsub`: an expression, a replacement, and the place whose text is changed, or the record.
#[cycle(settle)]
fn settle_replace(
    alloc: Global,
    scope: &Scope<'_>,
    function: Builtin,
    extent: Extent,
    arguments: &[Boxed<parsed::Expr>],
) -> Result<Expr, AllocError>
    requires replaces { extent_of function ≡ Some extent }
    requires arguments { IsTrue (order.replaces (map (order.use_of (sense_of scope.now)) arguments.now)) }
    ensures { IfOk result (λ s. Settles (sense_of scope.now) (AnExpr (from.Builtin function arguments.now) s)) }
{
    match arguments {
        [sought, by] => {
            let (sought, by) = settle_replacement(alloc, scope, sought.get(), by.get())?;
            let place = record_place(alloc)?;
            Ok(Expr::Replace(extent, sought, by, place))
        }
        [sought, by, changed] => {
            let (sought, by) = settle_replacement(alloc, scope, sought.get(), by.get())?;
            let place = settle_changed(alloc, scope, changed.get())?;
            Ok(Expr::Replace(extent, sought, by, place))
        }
        _ => unreachable!(),
    }
}

/// A text, and the array that takes its parts.
#[cycle(settle)]
fn settle_parted(
    alloc: Global,
    scope: &Scope<'_>,
    text: &parsed::Expr,
    array: &parsed::Expr,
) -> Result<(Box<Expr>, Array), AllocError>
    requires text { IsTrue (order.in_order (sense_of scope.now) text.now) }
    requires array { IsTrue (order.use_of (sense_of scope.now) array.now).array }
    ensures text { IfOk result (λ pair. Settles (sense_of scope.now) (AnExpr text.now pair.0.value)) }
    ensures array { IfOk result (λ pair. (n : word.Name) × (array.now ≡ from.Of (from_place.Name n)) × ((sense_of scope.now).array n.word ≡ Some pair.1)) }
{
    let text = settle_boxed(alloc, scope, text)?;
    Ok((text, array_named(scope, array)))
}

/// What separates the parts of a text: a regular expression by its matches, and anything else as its value in FS does.
#[cycle(settle)]
fn settle_separator(
    alloc: Global,
    scope: &Scope<'_>,
    e: &parsed::Expr,
) -> Result<(Separation, Box<Expr>), AllocError>
    requires { IsTrue (order.in_order (sense_of scope.now) e.now) }
    ensures { IfOk result (λ pair. Settles (sense_of scope.now) (ASeparator (e.now ∷ []) pair.0 pair.1.value)) }
{
    match e {
        parsed::Expr::Ere(_, text) => {
            let text = settle_text(alloc, text.as_slice())?;
            let pattern = boxed(alloc, text)?;
            Ok((Separation::Matches, pattern))
        }
        _ => {
            let value = settle_boxed(alloc, scope, e)?;
            Ok((Separation::Fields, value))
        }
    }
}

/// A call of `split`: a text, the array that takes its parts, and a separator, or FS.
#[cycle(settle)]
fn settle_split(
    alloc: Global,
    scope: &Scope<'_>,
    arguments: &[Boxed<parsed::Expr>],
) -> Result<Expr, AllocError>
    requires { IsTrue (order.splits (map (order.use_of (sense_of scope.now)) arguments.now)) }
    ensures { IfOk result (λ s. Settles (sense_of scope.now) (AnExpr (from.Builtin fun.Split arguments.now) s)) }
{
    match arguments {
        [text, array] => {
            let (text, array) = settle_parted(alloc, scope, text.get(), array.get())?;
            let separator = field_separator(alloc)?;
            Ok(Expr::Split(Separation::Fields, text, array, separator))
        }
        [text, array, separator] => {
            let (text, array) = settle_parted(alloc, scope, text.get(), array.get())?;
            let (how, separator) = settle_separator(alloc, scope, separator.get())?;
            Ok(Expr::Split(how, text, array, separator))
        }
        _ => unreachable!(),
    }
}

/// A call of a built-in function of the values of its arguments.
#[cycle(settle)]
fn settle_applied(
    alloc: Global,
    scope: &Scope<'_>,
    function: Builtin,
    arguments: &[Boxed<parsed::Expr>],
) -> Result<Expr, AllocError>
    requires count { IsTrue (has_builtin function (length arguments.now)) }
    requires arguments { IsTrue (order.each (order.in_order (sense_of scope.now)) arguments.now) }
    ensures { IfOk result (λ s. Settles (sense_of scope.now) (AnExpr (from.Builtin function arguments.now) s)) }
{
    let arguments = settle_list(alloc, scope, arguments)?;
    apply_builtin(alloc, function, arguments)
}

/// A call of `length`: of an array, or of a value.
#[cycle(settle)]
fn settle_length(
    alloc: Global,
    scope: &Scope<'_>,
    arguments: &[Boxed<parsed::Expr>],
) -> Result<Expr, AllocError>
    requires { IsTrue (order.builtin_step fun.Length (map (order.use_of (sense_of scope.now)) arguments.now)) }
    ensures { IfOk result (λ s. Settles (sense_of scope.now) (AnExpr (from.Builtin fun.Length arguments.now) s)) }
{
    match counted(scope, arguments) {
        Some(array) => Ok(Expr::Count(array)),
        None => settle_applied(alloc, scope, Builtin::Length, arguments),
    }
}

/// A call of a built-in function.
#[cycle(settle)]
fn settle_builtin(
    alloc: Global,
    scope: &Scope<'_>,
    function: Builtin,
    arguments: &[Boxed<parsed::Expr>],
) -> Result<Expr, AllocError>
    requires { IsTrue (order.builtin_step function (map (order.use_of (sense_of scope.now)) arguments.now)) }
    ensures { IfOk result (λ s. Settles (sense_of scope.now) (AnExpr (from.Builtin function arguments.now) s)) }
{
    match function {
        Builtin::Length => settle_length(alloc, scope, arguments),
        Builtin::Match => settle_match(alloc, scope, arguments),
        Builtin::Sub => settle_replace(alloc, scope, function, Extent::First, arguments),
        Builtin::Gsub => settle_replace(alloc, scope, function, Extent::All, arguments),
        Builtin::Split => settle_split(alloc, scope, arguments),
        _ => settle_applied(alloc, scope, function, arguments),
    }
}

/// An expression of a statement or pattern.
#[cycle(settle)]
pub fn settle_expr(alloc: Global, scope: &Scope<'_>, e: &parsed::Expr) -> Result<Expr, AllocError>
    requires { IsTrue (order.in_order (sense_of scope.now) e.now) }
    ensures { IfOk result (λ s. Settles (sense_of scope.now) (AnExpr e.now s)) }
{
    match e {
        parsed::Expr::Number(n) => Ok(settle_number(n)),
        parsed::Expr::Text(bytes) => settle_text(alloc, bytes.as_slice()),
        parsed::Expr::Ere(_, text) => settle_ere(alloc, text.as_slice()),
        parsed::Expr::Getline => Ok(Expr::Getline),
        parsed::Expr::GetlineTo(place) => Ok(Expr::GetlineTo(settle_place(alloc, scope, place)?)),
        parsed::Expr::Of(place) => Ok(Expr::Read(settle_place(alloc, scope, place)?)),
        parsed::Expr::Group(inner) => settle_expr(alloc, scope, inner.get()),
        parsed::Expr::Signed(sign, operand) => {
            let operand = settle_boxed(alloc, scope, operand.get())?;
            Ok(Expr::Unary(Unary::Sign(*sign), operand))
        }
        parsed::Expr::Power(base, exponent) => {
            settle_power(alloc, scope, base.get(), exponent.get())
        }
        parsed::Expr::Chain(first, links) => {
            settle_chain(alloc, scope, first.get(), links.as_slice())
        }
        parsed::Expr::Logic(logic, tests) => settle_logic(alloc, scope, *logic, tests.as_slice()),
        parsed::Expr::Choice(test, yes, no) => {
            settle_choice(alloc, scope, test.get(), yes.get(), no.get())
        }
        parsed::Expr::Before(change, place) => settle_before(alloc, scope, *change, place),
        parsed::Expr::After(change, place) => {
            let place = settle_place(alloc, scope, place)?;
            Ok(Expr::After(operator_of(*change), place))
        }
        parsed::Expr::Assign(how, place, value) => {
            settle_assign(alloc, scope, *how, place, value.get())
        }
        parsed::Expr::In(subscript, names) => {
            settle_in(alloc, scope, subscript.get(), names.as_slice())
        }
        parsed::Expr::ListIn(subscripts, name) => {
            settle_list_in(alloc, scope, subscripts.as_slice(), name)
        }
        parsed::Expr::Call(name, arguments) => {
            settle_call(alloc, scope, name, arguments.as_slice())
        }
        parsed::Expr::Builtin(function, arguments) => {
            settle_builtin(alloc, scope, *function, arguments.as_slice())
        }
    }
}

/// Expressions one after another.
#[cycle(settle)]
pub fn settle_list(
    alloc: Global,
    scope: &Scope<'_>,
    list: &[Boxed<parsed::Expr>],
) -> Result<Vec<Expr>, AllocError>
    requires { IsTrue (order.each (order.in_order (sense_of scope.now)) list.now) }
    ensures { IfOk result (λ s. Settles (sense_of scope.now) (SomeExprs list.now s.items)) }
{
    let mut settled = Vec::new(alloc);
    for e in list {
        let value = settle_expr(alloc, scope, e.get())?;
        push(&mut settled, value)?;
    }
    Ok(settled)
}

/// The list of a `print`; a missing one is `$0`.
pub fn settle_printed(
    alloc: Global,
    scope: &Scope<'_>,
    list: &[Boxed<parsed::Expr>],
) -> Result<Vec<Expr>, AllocError>
    requires { IsTrue (order.each (order.in_order (sense_of scope.now)) list.now) }
    ensures { IfOk result (λ s. Prints (sense_of scope.now) list.now s.items) }
{
    if list.len() == 0 {
        let mut list = Vec::new(alloc);
        let whole = record(alloc)?;
        push(&mut list, whole)?;
        return Ok(list);
    }
    settle_list(alloc, scope, list)
}

/// The format and the arguments of a `printf`.
pub fn settle_formatted(
    alloc: Global,
    scope: &Scope<'_>,
    list: &[Boxed<parsed::Expr>],
) -> Result<(Expr, Vec<Expr>), AllocError>
    requires { IsTrue (order.formatted (sense_of scope.now) list.now) }
    ensures { IfOk result (λ p. Settles (sense_of scope.now) (SomeExprs list.now (p.0 ∷ p.1.items))) }
{
    let values = settle_list(alloc, scope, list)?;
    match format_and_arguments(values) {
        Some(parts) => Ok(parts),
        None => unreachable!(),
    }
}
