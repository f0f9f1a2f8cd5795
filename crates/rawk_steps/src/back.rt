//! The way back, over the parts.

ghost use Rattle.std.specs.Prelude.{◌≡◌, ◌∷◌, ◌<◌, ◌-◌, List, IfNone, IfOk, OnOk, OnErr, length, reverse, take, vec_capacity, vec_len};
ghost use Rattle.rawk_code.specs.Actions.{fault_of};
ghost use Rattle.rawk_store.specs.Groups.{Group};
ghost use Rattle.rawk_history.specs.Steps.{Kept};
ghost use Rattle.rawk_store.specs.GroupBack.{FitsIn};
ghost use Rattle.rawk_store.specs.Layout.{Grown, IsSound, state};
ghost use Rattle.rawk_store.specs.State.{assigned};
ghost use Rattle.rawk_store.specs.Stores.{now_of, start_of};
ghost use Rattle.rawk_steps.specs.Closing.{FitAll, HasGoneBack};
ghost use Rattle.rawk_steps.specs.Leading.{all_back};
ghost use Rattle.rawk_steps.specs.Written.{StandsBehind, WrittenOr};

use crate::journal::undo_all;
use rawk_code::SetAt;
use rawk_history::Keeper;
use rawk_store::{Group, Store, Target};
use rawk_value::{Fault, Value};
use std::alloc::{AllocError, Global};

/// Goes back to the point before: takes back the sets of this point and the newest step that is kept, which led here. The groups of the sets made at the point
/// before then stand in `here`, and the keeper leads forward again. It takes no memory and always succeeds.
pub fn go_back<K: Keeper>(store: &mut Store, keeper: &mut K, here: &mut Vec<Group>)
    requires rest { start_of store.old ≡ now_of store.old }
    requires fits_here { FitAll (now_of store.old) (reverse here.old.items) }
    requires fits_step { (item : Kept) × (items : List Kept) × (K.kept keeper.old ≡ item ∷ items) × FitsIn item.step (all_back (now_of store.old) (reverse here.old.items)) }
    ensures back { (item : Kept) (items : List Kept) → K.kept keeper.old ≡ item ∷ items → HasGoneBack item items (now_of store.old) (now_of store.new) here.old.items here.new.items (K.kept keeper.new) (K.forth keeper.new) }
    ensures rest { start_of store.new ≡ now_of store.new }
    ensures sound { IsSound (now_of store.new) }
    ensures limit { K.limit keeper.new ≡ K.limit keeper.old }
{
    undo_all(store, here);
    keeper.put_back(store, here);
}

/// Drops the newest `count` sets.
pub fn drop_newest(sets: &mut Vec<SetAt>, count: usize)
    ensures { sets.new.items ≡ take (length sets.old.items - count) sets.old.items }
{
    sets.truncate(sets.len().saturating_sub(count));
}

/// Assigns a place as a change of its own, whose group stands behind the others, or answers the fault of that, and then nothing has changed. It fails where memory is
/// refused, and then no more has changed than slots that no program sees.
fn write(
    alloc: Global,
    store: &mut Store,
    here: &mut Vec<Group>,
    target: &Target,
    value: Value,
) -> Result<Option<Fault>, AllocError>
    requires rest { start_of store.old ≡ now_of store.old }
    ensures did { IfOk result (λ fault. WrittenOr fault target.now value (now_of store.old) (now_of store.new)) }
    ensures fault { IfOk result (λ fault. fault ≡ fault_of (assigned target.now value (state (now_of store.old)))) }
    ensures back { IfOk result (λ fault. StandsBehind fault here.old.items here.new.items (now_of store.old) (now_of store.new)) }
    ensures sound { IfOk result (λ fault. IfNone fault (IsSound (now_of store.new))) }
    ensures err { OnErr result (Grown (now_of store.old) (now_of store.new)) }
    ensures kept { OnErr result (IsSound (now_of store.old) → IsSound (now_of store.new)) }
    ensures stays { OnErr result (here.new.items ≡ here.old.items) }
    ensures rest { start_of store.new ≡ now_of store.new }
{
    here.reserve(1)?;
    store.known();
    match store.assign::<true>(alloc, target, value) {
        Ok(None) => {}
        Ok(Some(fault)) => {
            store.forget();
            return Ok(Some(fault));
        }
        Err(refused) => {
            store.undo_step();
            return Err(refused);
        }
    }
    match store.finish(alloc) {
        Ok(group) => {
            here.push(group)?;
            Ok(None)
        }
        Err(refused) => {
            store.undo_step();
            Err(refused)
        }
    }
}

/// Writes a copy of a value to a place, as `write` does, with room left for one more set.
pub fn write_copy(
    alloc: Global,
    store: &mut Store,
    here: &mut Vec<Group>,
    sets: &mut Vec<SetAt>,
    target: &Target,
    value: &Value,
) -> Result<Option<Fault>, AllocError>
    requires rest { start_of store.old ≡ now_of store.old }
    ensures did { IfOk result (λ fault. WrittenOr fault target.now value.now (now_of store.old) (now_of store.new)) }
    ensures fault { IfOk result (λ fault. fault ≡ fault_of (assigned target.now value.now (state (now_of store.old)))) }
    ensures back { IfOk result (λ fault. StandsBehind fault here.old.items here.new.items (now_of store.old) (now_of store.new)) }
    ensures sound { IfOk result (λ fault. IfNone fault (IsSound (now_of store.new))) }
    ensures room { OnOk result (vec_len sets.new < vec_capacity sets.new) }
    ensures sets { sets.new.items ≡ sets.old.items }
    ensures err { OnErr result (Grown (now_of store.old) (now_of store.new)) }
    ensures kept { OnErr result (IsSound (now_of store.old) → IsSound (now_of store.new)) }
    ensures stays { OnErr result (here.new.items ≡ here.old.items) }
    ensures rest { start_of store.new ≡ now_of store.new }
{
    sets.reserve(1)?;
    let copy = value.copy(alloc)?;
    write(alloc, store, here, target, copy)
}
