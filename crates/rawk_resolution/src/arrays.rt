//! Arrays, where they are named, and what is asked of them.

ghost use Rattle.std.specs.Prelude.{◌≡◌, [], ◌∷◌, IfOk, IfSome, IsTrue, Some, map};
ghost use Rattle.rawk_parsing.specs.declared.tree.Expr.TheVariants as from;
ghost use Rattle.rawk_parsing.specs.declared.tree.Name as word;
ghost use Rattle.rawk_parsing.specs.declared.tree.Place.TheVariants as from_place;
ghost use Rattle.rawk_resolution.specs.InOrder as order;
ghost use Rattle.rawk_resolution.specs.Meant.{is_there, sense_of};
ghost use Rattle.rawk_resolution.specs.Settled.{IsIn, IsMember};

use crate::growth::push;
use crate::scope::{Scope, array_of, the_array};
use rawk_items::Boxed;
use rawk_parsing::tree as parsed;
use rawk_tree::{Array, Expr};
use std::alloc::{AllocError, Global};

/// Whether the array of a name has the element of one subscript.
fn member_of(
    alloc: Global,
    scope: &Scope<'_>,
    name: &parsed::Name,
    subscript: Expr,
) -> Result<Expr, AllocError>
    requires { IsTrue (order.names_array (sense_of scope.now) name.now) }
    ensures { IfOk result (λ s. IsMember (sense_of scope.now) name.now subscript s) }
{
    let mut alone = Vec::new(alloc);
    push(&mut alone, subscript)?;
    Ok(Expr::Has(the_array(scope, name), alone))
}

/// Whether the arrays of these names have the element of the answer before, from left to right.
pub fn members_of(
    alloc: Global,
    scope: &Scope<'_>,
    subscript: Expr,
    names: &[parsed::Name],
) -> Result<Expr, AllocError>
    requires { IsTrue (order.each (order.names_array (sense_of scope.now)) names.now) }
    ensures { IfOk result (λ s. IsIn (sense_of scope.now) subscript names.now s) }
{
    let mut answer = subscript;
    for name in names {
        answer = member_of(alloc, scope, name, answer)?;
    }
    Ok(answer)
}

/// The array that a place is the name of.
fn array_at_place(scope: &Scope<'_>, place: &parsed::Place) -> Option<Array>
    ensures named { IfSome result (λ a. (n : word.Name) × (place.now ≡ from_place.Name n) × ((sense_of scope.now).array n.word ≡ Some a)) }
    ensures there { is_there result ≡ (order.place_use (sense_of scope.now) place.now).array }
{
    match place {
        parsed::Place::Name(name) => array_of(scope, name.word.as_slice()),
        _ => None,
    }
}

/// The array that an expression is the name of, alone.
fn array_alone(scope: &Scope<'_>, e: &parsed::Expr) -> Option<Array>
    ensures named { IfSome result (λ a. (n : word.Name) × (e.now ≡ from.Of (from_place.Name n)) × ((sense_of scope.now).array n.word ≡ Some a)) }
    ensures there { is_there result ≡ (order.use_of (sense_of scope.now) e.now).array }
{
    match e {
        parsed::Expr::Of(place) => array_at_place(scope, place),
        _ => None,
    }
}

/// The same, of an expression that is the name of one.
pub fn array_named(scope: &Scope<'_>, e: &parsed::Expr) -> Array
    requires { IsTrue (order.use_of (sense_of scope.now) e.now).array }
    ensures { (n : word.Name) × (e.now ≡ from.Of (from_place.Name n)) × ((sense_of scope.now).array n.word ≡ Some result) }
{
    match array_alone(scope, e) {
        Some(array) => array,
        None => unreachable!(),
    }
}

/// The array whose name alone is the one argument.
pub fn counted(scope: &Scope<'_>, arguments: &[Boxed<parsed::Expr>]) -> Option<Array>
    ensures named { IfSome result (λ a. (n : word.Name) × (arguments.now ≡ from.Of (from_place.Name n) ∷ []) × ((sense_of scope.now).array n.word ≡ Some a)) }
    ensures there { is_there result ≡ order.counts (map (order.use_of (sense_of scope.now)) arguments.now) }
{
    match arguments {
        [argument] => array_alone(scope, argument.get()),
        _ => None,
    }
}
