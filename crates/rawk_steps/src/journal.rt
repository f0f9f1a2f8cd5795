//! The end of a step: what it changed is kept, or forgotten.

ghost use Rattle.std.specs.Prelude.{◌≡◌, ◌<◌, ◌≤◌, ◌+◌, ◌^◌, [], None, Some, length, reverse, OnOk, OnErr};
ghost use Rattle.rawk_devices.specs.Inputs.{Input};
ghost use Rattle.rawk_tape.specs.Tapes.{MayBe};
ghost use Rattle.rawk_devices.specs.declared.source.Ending.{Ending as End};
ghost use Rattle.rawk_history.specs.Keeping.{keeps_any};
ghost use Rattle.rawk_store.specs.Layout.{Layout, Grown, IsSound};
ghost use Rattle.rawk_store.specs.Stores.{BeganNested, now_of, start_of};
ghost use Rattle.rawk_reading.specs.Drawing.{Draws};
ghost use Rattle.rawk_travel.specs.Asking.{Asks};
ghost use Rattle.rawk_operands.specs.Moving.{moving};
ghost use Rattle.rawk_steps.specs.Arrival.{Arrives, ends_quietly, EndsByRead, IsSettled};
ghost use Rattle.rawk_steps.specs.Closing.{Closes, FitAll};
ghost use Rattle.rawk_steps.specs.Leading.{all_back, AllArraysFit, arrays_forth, globals_forth, record_forth};

use crate::arrival::step;
use rawk_devices::Source;
use rawk_history::Keeper;
use rawk_patterns::Expressions;
use rawk_store::{Group, Store};
use rawk_tape::Tape;
use rawk_told::Code;
use rawk_travel::count::Count;
use std::alloc::{AllocError, Global};

/// Ends a step, and keeps what it changed with what the sets changed that were made at the point that it left. Where memory is
/// refused, the step is put back, and its sets' groups stand as before.
#[inline(always)]
pub fn close<K: Keeper>(
    alloc: Global,
    store: &mut Store,
    keeper: &mut K,
    here: &mut Vec<Group>,
) -> Result<(), AllocError>
    requires nested { BeganNested store.old }
    ensures kept { OnOk result (Closes (keeps_any (K.limit keeper.old)) (start_of store.old) (now_of store.old) (K.kept keeper.old) (K.kept keeper.new) here.old.items (K.limit keeper.old)) }
    ensures now { OnOk result (now_of store.new ≡ now_of store.old) }
    ensures here { OnOk result (here.new.items ≡ []) }
    ensures err { OnErr result (now_of store.new ≡ start_of store.old) }
    ensures same { OnErr result (K.kept keeper.new ≡ K.kept keeper.old) }
    ensures forth { OnErr result (K.forth keeper.new ≡ K.forth keeper.old) }
    ensures stays { OnErr result (here.new.items ≡ here.old.items) }
    ensures rest { start_of store.new ≡ now_of store.new }
    ensures sound { IsSound (now_of store.new) }
    ensures limit { K.limit keeper.new ≡ K.limit keeper.old }
{
    if !keeper.keeps() {
        store.forget();
        here.clear();
        return Ok(());
    }
    match keeper.keep(alloc, store, here) {
        Ok(()) => Ok(()),
        Err(refused) => {
            store.undo_step();
            Err(refused)
        }
    }
}

/// One step, kept. Where memory is refused, the parts are put back as they were; bytes may be read ahead then.
#[inline(always)]
pub fn journaled<R: Source + Drop, K: Keeper>(
    alloc: Global,
    expressions: &mut Expressions,
    code: &Code,
    store: &mut Store,
    tape: &mut Tape<R>,
    executed: &mut Count,
    keeper: &mut K,
    here: &mut Vec<Group>,
    count: u64,
    limit: u64,
) -> Result<(), AllocError>
    requires rest { start_of store.old ≡ now_of store.old }
    requires running { store.old.registers.now.ending ≡ None }
    requires consumed { tape.old.consumed ≡ store.old.registers.now.consumed }
    ensures may { (kept : Input) → MayBe R.may_give tape.new kept → MayBe R.may_give tape.old kept }
    ensures did { OnOk result (Arrives R.may_give code.now tape.new count limit (moving store.old) (moving store.new)) }
    ensures settled { OnOk result (IsSettled count limit store.new.registers.now) }
    ensures kept { OnOk result ((began : Layout) × Grown (now_of store.old) began × Closes (keeps_any (K.limit keeper.old)) began (now_of store.new) (K.kept keeper.old) (K.kept keeper.new) here.old.items (K.limit keeper.old)) }
    ensures here { OnOk result (here.new.items ≡ []) }
    ensures grown { OnErr result (Grown (now_of store.old) (now_of store.new)) }
    ensures same { OnErr result (K.kept keeper.new ≡ K.kept keeper.old) }
    ensures forth { OnErr result (K.forth keeper.new ≡ K.forth keeper.old) }
    ensures stays { OnErr result (here.new.items ≡ here.old.items) }
    ensures rest { start_of store.new ≡ now_of store.new }
    ensures sound { IsSound (now_of store.new) }
    ensures consumed { tape.new.consumed ≡ store.new.registers.now.consumed }
    ensures asks { Asks R.may_give code.now tape.old.bytes tape.new (moving store.old) }
    ensures draws { Draws R.over R.handed tape.old tape.new }
    ensures quiet { OnOk result (ends_quietly store.new.registers.now.ending) }
    ensures failed { OnOk result (EndsByRead store.new.registers.now.ending (R.over tape.new.source ≡ Some End.Failed)) }
    ensures limit { K.limit keeper.new ≡ K.limit keeper.old }
    ensures within { store.old.registers.now.consumed ≤ length tape.old.bytes }
    ensures counted { executed.old ≤ executed.new }
    ensures risen { executed.old + 1 < 2 ^ 128 → executed.old < executed.new }
{
    let consumed = tape.consumed();
    step(
        alloc,
        expressions,
        code,
        store,
        tape,
        executed,
        count,
        limit,
    )?;
    match close(alloc, store, keeper, here) {
        Ok(()) => Ok(()),
        Err(refused) => {
            tape.consume(consumed);
            Err(refused)
        }
    }
}

/// Puts groups back, the newest first; they then lead forward again. It takes no memory and always succeeds.
pub fn undo_all(store: &mut Store, groups: &mut Vec<Group>)
    requires rest { start_of store.old ≡ now_of store.old }
    requires fits { FitAll (now_of store.old) (reverse groups.old.items) }
    ensures now { now_of store.new ≡ all_back (now_of store.old) (reverse groups.old.items) }
    ensures rest { start_of store.new ≡ now_of store.new }
    ensures globals { globals_forth store.new.globals.now groups.new.items ≡ store.old.globals.now }
    ensures arrays { arrays_forth store.new.arrays.now groups.new.items ≡ store.old.arrays.now }
    ensures fits { AllArraysFit store.new.arrays.now groups.new.items }
    ensures record { record_forth store.new.current.now groups.new.items ≡ store.old.current.now }
{
    let mut i = groups.len();
    while i > 0 {
        i -= 1;
        store.undo(&mut groups[i]);
    }
}
