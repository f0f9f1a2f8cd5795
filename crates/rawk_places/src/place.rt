//! Places: what their reading makes, and assignments to them.

ghost use Rattle.std.specs.Bool.{OnTrue};
ghost use Rattle.std.specs.Prelude.{◌≡◌, IfOk, OnOk};
ghost use Rattle.rawk_store.specs.Layout.{Grown};
ghost use Rattle.rawk_store.specs.Stores.{start_of};
ghost use Rattle.rawk_operands.specs.Moving.{moving, HasPut, touched};

use rawk_store::{Store, Target};
use rawk_value::{Fault, Value};
use std::alloc::{AllocError, Global};

/// What the reading of a place makes: an element that is not there. It fails where memory is refused.
pub fn touch<const SAVES: bool>(
    alloc: Global,
    store: &mut Store,
    place: &Target,
) -> Result<(), AllocError>
    ensures did { OnOk result (moving store.new ≡ touched place.now (moving store.old)) }
    ensures start { OnTrue SAVES (Grown (start_of store.old) (start_of store.new)) }
{
    match place {
        Target::Global(_) => Ok(()),
        Target::Local(_) => Ok(()),
        Target::FieldCount => Ok(()),
        Target::Field(_) => Ok(()),
        Target::Element(array, key) => store.touch_element::<SAVES>(alloc, *array, key.as_slice()),
    }
}

/// Assigns a place, or answers the fault of that, which changes nothing; a local that is not there stays away, and so does an element of an array that is not. It fails where
/// memory is refused.
#[inline(always)]
pub fn put_in<const SAVES: bool>(
    alloc: Global,
    store: &mut Store,
    place: &Target,
    value: Value,
) -> Result<Option<Fault>, AllocError>
    ensures did { IfOk result (λ fault. HasPut place.now value fault (moving store.old) (moving store.new)) }
    ensures start { OnTrue SAVES (Grown (start_of store.old) (start_of store.new)) }
{
    store.assign::<SAVES>(alloc, place, value)
}

/// Assigns a place the text in a buffer, as `put_in` does; the buffer may hold anything then. It fails where memory is refused.
pub fn put_text_in<const SAVES: bool>(
    alloc: Global,
    store: &mut Store,
    place: &Target,
    text: &mut Vec<u8>,
) -> Result<Option<Fault>, AllocError>
    ensures did { IfOk result (λ fault. HasPut place.now (Value.String text.old.items) fault (moving store.old) (moving store.new)) }
    ensures start { OnTrue SAVES (Grown (start_of store.old) (start_of store.new)) }
{
    store.assign_text::<SAVES>(alloc, place, text)
}
