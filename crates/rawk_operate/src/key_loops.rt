//! Loops over the keys of arrays.

ghost use Rattle.std.specs.Bool.{OnFalse, OnTrue};
ghost use Rattle.std.specs.Prelude.{◌≡◌, ℕ, IfOk, OnOk};
ghost use Rattle.rawk_store.specs.Layout.{Grown};
ghost use Rattle.rawk_store.specs.Stores.{start_of};
ghost use Rattle.rawk_frames.specs.LaidKeys.{keys_of};
ghost use Rattle.rawk_code.specs.Machine.{has_next, next_key};
ghost use Rattle.rawk_operands.specs.Moving.{moving};
ghost use Rattle.rawk_operate.specs.declared.transfer.Transfer.{Transfer};
ghost use Rattle.rawk_operate.specs.Done.{Done};

use crate::assign::{drop_place, target_by};
use crate::transfer::{Transfer, over};
use rawk_code::{Destination, Instr, Variable};
use rawk_operands::borrowed::popped_borrowed;
use rawk_operands::variables::set_value;
use rawk_places::place::put_in;
use rawk_store::{KeysLeft, Store};
use rawk_value::{Bytes, Value};
use rawk_words::Array;
use std::alloc::{AllocError, Global};

/// A copy of the next key of the innermost loop, which is empty where none is left. It fails where memory, or one more owner of a long key, is refused.
fn next_key(alloc: Global, keys: &KeysLeft) -> Result<Bytes, AllocError>
    ensures { IfOk result (λ key. key ≡ next_key (keys_of keys.now.now)) }
{
    match keys.next() {
        Some(key) => key.copy(),
        None => Bytes::from_slice(alloc, b""),
    }
}

/// Whether the innermost loop has a next key.
fn has_next(keys: &KeysLeft) -> bool
    ensures { result ≡ has_next (keys_of keys.now.now) }
{
    keys.next().is_some()
}

/// A loop over the keys of an array begins. It fails where memory is refused.
pub fn take_keys<const SAVES: bool>(
    alloc: Global,
    store: &mut Store,
    array: Array,
) -> Result<Transfer, AllocError>
    ensures did { IfOk result (λ w. Done (Instr.TakeKeys array) (moving store.old) w (moving store.new)) }
    ensures start { OnTrue SAVES (Grown (start_of store.old) (start_of store.new)) }
{
    let keys = store.array_keys(alloc, array)?;
    store.keys.begin::<SAVES>(keys)?;
    Ok(Transfer::Next)
}

/// Gives a place the next key of the innermost loop, which is visited then; where the place is refused, it is not. It fails where memory is refused.
pub fn assign_key<const SAVES: bool>(
    alloc: Global,
    store: &mut Store,
    to: Destination,
) -> Result<Transfer, AllocError>
    ensures did { IfOk result (λ w. Done (Instr.AssignKey to) (moving store.old) w (moving store.new)) }
    ensures start { OnTrue SAVES (Grown (start_of store.old) (start_of store.new)) }
{
    let place = target_by(alloc, to, popped_borrowed(&store.operands, 0))?;
    let key = next_key(alloc, &store.keys)?;
    drop_place(store, to);
    let refused = put_in::<SAVES>(alloc, store, &place, Value::String(key))?;
    match refused {
        Some(fault) => Ok(over(fault)),
        None => {
            store.keys.advance::<SAVES>()?;
            Ok(Transfer::Next)
        }
    }
}

/// Gives a variable the next key of the innermost loop, which is visited then. It fails where memory is refused.
#[inline(never)]
pub fn visit_key<const SAVES: bool>(
    alloc: Global,
    store: &mut Store,
    variable: Variable,
) -> Result<(), AllocError>
    ensures did { OnOk result (Done (Instr.AssignKey (Destination.Variable variable)) (moving store.old) Transfer.Next (moving store.new)) }
    ensures start { OnTrue SAVES (Grown (start_of store.old) (start_of store.new)) }
{
    let key = next_key(alloc, &store.keys)?;
    set_value::<SAVES>(store, variable, Value::String(key))?;
    store.keys.advance::<SAVES>()?;
    Ok(())
}

/// Whether the innermost loop has a next key, and so leads back to a place.
#[inline(never)]
pub fn has_next_key(store: &Store) -> bool
    ensures more { OnTrue result ((place : ℕ) → Done (Instr.BackIfKey place) (moving store.now) (Transfer.To place) (moving store.now)) }
    ensures none { OnFalse result ((place : ℕ) → Done (Instr.BackIfKey place) (moving store.now) Transfer.Next (moving store.now)) }
{
    has_next(&store.keys)
}

/// Leads back to a place where the innermost loop has a next key.
pub fn back_if_key(store: &Store, place: usize) -> Transfer
    ensures { Done (Instr.BackIfKey place) (moving store.now) result (moving store.now) }
{
    if has_next(&store.keys) {
        Transfer::To(place)
    } else {
        Transfer::Next
    }
}

/// The innermost loop ends.
pub fn drop_keys(store: &mut Store) -> Transfer
    ensures did { Done Instr.DropKeys (moving store.old) result (moving store.new) }
    ensures start { start_of store.new ≡ start_of store.old }
{
    store.keys.end(1);
    Transfer::Next
}
