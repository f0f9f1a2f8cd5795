//! What variables are: scalars or arrays.

ghost use Rattle.std.specs.Prelude.{◌≡◌, IfOk, slice_get};
ghost use Rattle.rawk_names.specs.Named.{known};
ghost use Rattle.rawk_resolution.specs.Meant.{global_kinds, kind_of, parameter_kinds};

use rawk_names::Names;
use rawk_tree::Kind;
use std::alloc::{AllocError, Global};

/// What a variable is.
fn kind_of(array: bool) -> Kind
    ensures { result ≡ kind_of array }
{
    if array { Kind::Array } else { Kind::Scalar }
}

/// What each of the globals that are not special is, in the order in which they appear.
pub fn global_kinds(alloc: Global, names: &Names) -> Result<Vec<Kind>, AllocError>
    ensures { IfOk result (λ kinds. kinds.items ≡ global_kinds (known names.now)) }
{
    let mut kinds = Vec::new(alloc);
    for global in names.first_own_global()..names.variable_count() {
        kinds.push(kind_of(names.is_array(global)))?;
    }
    Ok(kinds)
}

/// What each parameter of a function is, in their order.
pub fn parameter_kinds(
    alloc: Global,
    names: &Names,
    function: usize,
) -> Result<Vec<Kind>, AllocError>
    ensures { IfOk result (λ kinds. kinds.items ≡ parameter_kinds (known names.now) function) }
{
    let mut kinds = Vec::new(alloc);
    let Some(signature) = names.signature(function) else {
        return Ok(kinds);
    };
    for parameter in signature.first..signature.end {
        kinds.push(kind_of(names.is_array(parameter)))?;
    }
    Ok(kinds)
}

/// What a parameter of a function is, by its number from 0, if there is one. It takes no memory.
pub fn kind_at(names: &Names, function: usize, number: usize) -> Option<Kind>
    ensures { result ≡ slice_get (parameter_kinds (known names.now) function) number }
{
    let Some(signature) = names.signature(function) else {
        return None;
    };
    if number < signature.end.saturating_sub(signature.first) {
        Some(kind_of(names.is_array(signature.first + number)))
    } else {
        None
    }
}
