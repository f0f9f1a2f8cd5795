//! One step, up to a point that is entered or up to the end.

ghost use Rattle.std.specs.Prelude.{◌≡◌, ◌<◌, ◌≤◌, ◌+◌, ◌^◌, None, Some, slice_get, IfOk, OnOk, OnErr};
ghost use Rattle.std.specs.Option.{option_copied};
ghost use Rattle.rawk_devices.specs.Inputs.{Input};
ghost use Rattle.rawk_tape.specs.Tapes.{MayBe};
ghost use Rattle.rawk_devices.specs.declared.source.Ending.{Ending as End};
ghost use Rattle.rawk_store.specs.Layout.{Grown, IsSound};
ghost use Rattle.rawk_store.specs.Stores.{BeganNested, now_of, start_of};
ghost use Rattle.rawk_told.specs.Quick.{IsTold};
ghost use Rattle.rawk_code.specs.Valid.{Descends};
ghost use Rattle.rawk_travel.specs.Travel.{HasRoom, IsThere, Stops};
ghost use Rattle.rawk_reading.specs.Drawing.{Draws};
ghost use Rattle.rawk_travel.specs.Asking.{Asks};
ghost use Rattle.rawk_operands.specs.Moving.{moving, with_registers};
ghost use Rattle.rawk_steps.specs.Arrival.{settled, site_by, Arrives, HasCome, ends_quietly, EndsByRead, IsSettled};

use rawk_devices::Source;
use rawk_patterns::Expressions;
use rawk_store::{Ending, Store};
use rawk_tape::Tape;
use rawk_told::{Code, Told};
use rawk_travel::count::Count;
use rawk_travel::travel::{Next, travel};
use std::alloc::{AllocError, Global};

/// The site at an ending.
pub fn site_at(ending: Ending, site: Option<usize>) -> Option<usize>
    ensures { result ≡ site_by ending site }
{
    match ending {
        Ending::Ended => None,
        Ending::Faulted(_) => site,
        Ending::Limited(before) => before,
    }
}

/// Ends the run at the limit of steps, before the point with a site.
#[cold]
#[inline(never)]
fn end_at_limit(store: &mut Store, site: Option<usize>)
    ensures did { moving store.new ≡ with_registers (record store.old.registers.now { ending = Some (Ending.Limited site) }) (moving store.old) }
    ensures start { start_of store.new ≡ start_of store.old }
{
    store.registers.now.ending = Some(Ending::Limited(site));
}

/// Where a step has come to.
#[derive(Clone, Copy)]
pub enum Came {
    /// at a point with this site
    At(Option<usize>),
    /// at the ending
    Over,
}

/// Enters the point number `count`, behind which `place` is then, or ends the run there at the limit of steps; or ends it where instructions led to the end.
#[inline]
fn enter_point(store: &mut Store, to: Next, count: u64, limit: u64, place: &mut usize) -> Came
    requires room { HasRoom to store.old.registers.now.place }
    requires stops { Stops to }
    requires there { IsThere to place.old store.old.registers.now.place }
    requires running { store.old.registers.now.ending ≡ None }
    ensures came { HasCome result place.new store.new.registers.now }
    ensures did { moving store.new ≡ with_registers (settled to count limit store.old.registers.now) (moving store.old) }
    ensures start { start_of store.new ≡ start_of store.old }
{
    match to {
        Next::On => Came::Over,
        Next::Over(ending) => {
            store.registers.now.ending = Some(ending);
            Came::Over
        }
        Next::Arrive(site) => {
            if count == limit {
                end_at_limit(store, site);
                return Came::Over;
            }
            store.registers.now.site = site;
            store.registers.now.here = count;
            *place += 1;
            store.registers.now.place = *place;
            Came::At(site)
        }
    }
}

/// One step, which is left open: instructions up to the point number `count`, which is entered, or up to the end. Where
/// memory is refused, the parts are put back as they were; bytes may be read ahead then.
#[inline(always)]
pub fn step<R: Source + Drop>(
    alloc: Global,
    expressions: &mut Expressions,
    code: &Code,
    store: &mut Store,
    tape: &mut Tape<R>,
    executed: &mut Count,
    count: u64,
    limit: u64,
) -> Result<(), AllocError>
    requires rest { start_of store.old ≡ now_of store.old }
    requires running { store.old.registers.now.ending ≡ None }
    requires consumed { tape.old.consumed ≡ store.old.registers.now.consumed }
    ensures may { (kept : Input) → MayBe R.may_give tape.new kept → MayBe R.may_give tape.old kept }
    ensures did { OnOk result (Arrives R.may_give code.now tape.new count limit (moving store.old) (moving store.new)) }
    ensures settled { OnOk result (IsSettled count limit store.new.registers.now) }
    ensures start { OnOk result (Grown (now_of store.old) (start_of store.new)) }
    ensures nested { OnOk result (BeganNested store.new) }
    ensures grown { OnErr result (Grown (now_of store.old) (now_of store.new)) }
    ensures rest { OnErr result (start_of store.new ≡ now_of store.new) }
    ensures sound { OnErr result (IsSound (now_of store.new)) }
    ensures consumed { tape.new.consumed ≡ store.new.registers.now.consumed }
    ensures asks { Asks R.may_give code.now tape.old.bytes tape.new (moving store.old) }
    ensures draws { Draws R.over R.handed tape.old tape.new }
    ensures quiet { OnOk result (ends_quietly store.new.registers.now.ending) }
    ensures failed { OnOk result (EndsByRead store.new.registers.now.ending (R.over tape.new.source ≡ Some End.Failed)) }
    ensures counted { executed.old ≤ executed.new }
    ensures risen { executed.old + 1 < 2 ^ 128 → executed.old < executed.new }
{
    let consumed = tape.consumed();
    let mut eventful = false;
    let mut place = store.registers.now.place;
    let first = code.told(place);
    store.known();
    match travel::<R, true>(
        alloc,
        expressions,
        code,
        store,
        tape,
        executed,
        &mut eventful,
        &mut place,
        first,
    ) {
        Ok(to) => {
            enter_point(store, to, count, limit, &mut place);
            Ok(())
        }
        Err(refused) => {
            store.undo_step();
            tape.consume(consumed);
            Err(refused)
        }
    }
}

/// The same of a run that keeps nothing, up to the point number `point + more`: no old value is saved, and where memory is refused the parts are of no more use. Where there may be input or
/// memory to let go behind it, `eventful` becomes true. `place` is where the next instruction stands, before and, at a point, behind; `first` is what is told of that.
#[inline(always)]
pub fn pace<'a, R: Source + Drop>(
    alloc: Global,
    expressions: &mut Expressions,
    code: &'a Code,
    store: &mut Store,
    tape: &mut Tape<R>,
    executed: &mut Count,
    eventful: &mut bool,
    point: &u64,
    more: u64,
    limit: &u64,
    place: &mut usize,
    first: Option<&'a Told>,
) -> Result<Came, AllocError>
    requires here { place.old ≡ store.old.registers.now.place }
    requires first { IsTold (option_copied first) code.now.instrs place.old }
    requires descends { Descends code.now.instrs code.now.record_at code.now.entries place.old (slice_get code.now.instrs place.old) }
    requires number { point.now + more < 2 ^ 64 }
    requires running { store.old.registers.now.ending ≡ None }
    requires consumed { tape.old.consumed ≡ store.old.registers.now.consumed }
    ensures may { (kept : Input) → MayBe R.may_give tape.new kept → MayBe R.may_give tape.old kept }
    ensures did { OnOk result (Arrives R.may_give code.now tape.new (point.now + more) limit.now (moving store.old) (moving store.new)) }
    ensures settled { OnOk result (IsSettled (point.now + more) limit.now store.new.registers.now) }
    ensures came { IfOk result (λ came. HasCome came place.new store.new.registers.now) }
    ensures consumed { OnOk result (tape.new.consumed ≡ store.new.registers.now.consumed) }
    ensures asks { Asks R.may_give code.now tape.old.bytes tape.new (moving store.old) }
    ensures draws { Draws R.over R.handed tape.old tape.new }
    ensures quiet { OnOk result (ends_quietly store.new.registers.now.ending) }
    ensures failed { OnOk result (EndsByRead store.new.registers.now.ending (R.over tape.new.source ≡ Some End.Failed)) }
{
    match travel::<R, false>(
        alloc,
        expressions,
        code,
        store,
        tape,
        executed,
        eventful,
        place,
        first,
    ) {
        Ok(to) => Ok(enter_point(store, to, *point + more, *limit, place)),
        Err(refused) => Err(refused),
    }
}
