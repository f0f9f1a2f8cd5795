//! Places whose element is looked up once.

ghost use Rattle.std.specs.Bool.{OnTrue};
ghost use Rattle.std.specs.Prelude.{◌≡◌, ℕ, IfOk, OnOk};
ghost use Rattle.std.specs.Option.{unwrap_or};
ghost use Rattle.rawk_value.specs.declared.value.Value.{Value};
ghost use Rattle.rawk_value.specs.Values.{Bytes};
ghost use Rattle.rawk_arrays.specs.Elements.{element_at};
ghost use Rattle.rawk_arrays.specs.Laid.{IsPlaceOf, arrays_of};
ghost use Rattle.rawk_operators.specs.Borrowed.{borrowed_value};
ghost use Rattle.rawk_store.specs.Layout.{Grown};
ghost use Rattle.rawk_store.specs.Stores.{start_of};
ghost use Rattle.rawk_operands.specs.Moving.{moving, HasPut, target_value, touched};
ghost use Rattle.rawk_places.specs.Spots.{IsSpot};

use crate::place::{put_in, touch};
use rawk_operands::borrowed::target_borrowed;
use rawk_operators::Borrowed;
use rawk_store::{Arrays, Store, Target, array_number};
use rawk_value::{Fault, Value};
use std::alloc::{AllocError, Global};

/// A place, and the slot of the element that it is, where that is known.
#[derive(Drop)]
pub struct Spot {
    pub place: Target,
    pub slot: Option<usize>,
}

/// The slot of the element that a place is, by one search; none of another place, and of an array that is not there. The element is not made. It fails where
/// memory is refused.
#[inline(always)]
fn slot_of(alloc: Global, store: &mut Store, place: &Target) -> Result<Option<usize>, AllocError>
    ensures slot { IfOk result (λ slot. IsSpot place.now slot store.new) }
    ensures same { moving store.new ≡ moving store.old }
    ensures start { Grown (start_of store.old) (start_of store.new) }
{
    match place {
        Target::Global(_) => Ok(None),
        Target::Local(_) => Ok(None),
        Target::FieldCount => Ok(None),
        Target::Field(_) => Ok(None),
        Target::Element(array, key) => match array_number(&store.frames, *array) {
            Some(number) => store.arrays.place(alloc, number, key.as_slice()),
            None => Ok(None),
        },
    }
}

/// A place with its slot, for as long as the step lasts. It fails where memory is refused.
#[inline(always)]
pub fn spot_of(alloc: Global, store: &mut Store, place: Target) -> Result<Spot, AllocError>
    ensures place { IfOk result (λ spot. spot.place ≡ place) }
    ensures spot { IfOk result (λ spot. IsSpot spot.place spot.slot store.new) }
    ensures same { moving store.new ≡ moving store.old }
    ensures start { Grown (start_of store.old) (start_of store.new) }
{
    let slot = slot_of(alloc, store, &place)?;
    Ok(Spot { place, slot })
}

/// The element of a slot; one that is not there has no value.
#[inline(always)]
fn slot_borrowed(arrays: &Arrays, slot: usize) -> Borrowed<'_>
    ensures { (a : ℕ) (k : Bytes) → IsPlaceOf a k slot arrays.now.now → borrowed_value result ≡ unwrap_or (element_at a k (arrays_of arrays.now.now)) Value.Uninitialized }
{
    match arrays.value_at(slot) {
        None => Borrowed::Nothing,
        Some(value) => Borrowed::Kept(value),
    }
}

/// The value of a place, whose reading makes no element.
#[inline(always)]
pub fn spot_borrowed<'a>(spot: &Spot, store: &'a Store) -> Borrowed<'a>
    requires { IsSpot spot.now.place spot.now.slot store.now }
    ensures { borrowed_value result ≡ target_value spot.now.place (moving store.now) }
{
    match spot.slot {
        Some(slot) => slot_borrowed(&store.arrays, slot),
        None => target_borrowed(&spot.place, store),
    }
}

/// Assigns a place, or answers the fault of that, which changes nothing. It fails where memory is refused.
#[inline(always)]
pub fn put_spot<const SAVES: bool>(
    alloc: Global,
    store: &mut Store,
    spot: &Spot,
    value: Value,
) -> Result<Option<Fault>, AllocError>
    requires { IsSpot spot.now.place spot.now.slot store.old }
    ensures did { IfOk result (λ fault. HasPut spot.now.place value fault (moving store.old) (moving store.new)) }
    ensures start { OnTrue SAVES (Grown (start_of store.old) (start_of store.new)) }
{
    match spot.slot {
        Some(slot) => {
            store.arrays.set_at::<SAVES>(slot, value)?;
            Ok(None)
        }
        None => put_in::<SAVES>(alloc, store, &spot.place, value),
    }
}

/// What the reading of a place makes: an element that is not there. It fails where memory is refused.
pub fn touch_spot<const SAVES: bool>(
    alloc: Global,
    store: &mut Store,
    spot: &Spot,
) -> Result<(), AllocError>
    requires { IsSpot spot.now.place spot.now.slot store.old }
    ensures did { OnOk result (moving store.new ≡ touched spot.now.place (moving store.old)) }
    ensures start { OnTrue SAVES (Grown (start_of store.old) (start_of store.new)) }
{
    match spot.slot {
        Some(slot) => {
            if store.arrays.value_at(slot).is_none() {
                store.arrays.set_at::<SAVES>(slot, Value::Uninitialized)?;
            }
            Ok(())
        }
        None => touch::<SAVES>(alloc, store, &spot.place),
    }
}
