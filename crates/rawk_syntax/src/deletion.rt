//! What is deleted: an element, or all of an array.

ghost use Rattle.std.specs.Prelude.{IfOk, IsTrue};
ghost use Rattle.rawk_resolution.specs.InOrder as order;
ghost use Rattle.rawk_resolution.specs.Meant.{sense_of};
ghost use Rattle.rawk_syntax.specs.Laid.{Deletes};

use rawk_parsing::tree as parsed;
use rawk_resolution::{Scope, settle_list, the_array};
use rawk_tree::Stmt;
use std::alloc::{AllocError, Global};

/// A `delete`, with its site. The grammar has none of a field.
pub fn settle_delete(
    alloc: Global,
    scope: &Scope<'_>,
    site: usize,
    place: &parsed::Place,
) -> Result<Stmt, AllocError>
    requires { IsTrue (order.deletes (sense_of scope.now) place.now) }
    ensures { IfOk result (λ t. Deletes (sense_of scope.now) site place.now t) }
{
    match place {
        parsed::Place::Name(name) => Ok(Stmt::Clear(site, the_array(scope, name))),
        parsed::Place::Element(name, subscripts) => {
            let subscripts = settle_list(alloc, scope, subscripts.as_slice())?;
            Ok(Stmt::Delete(site, the_array(scope, name), subscripts))
        }
        parsed::Place::Field(_) => unreachable!(),
    }
}
