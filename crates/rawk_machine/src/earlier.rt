//! What stood in the parts before the last move.

ghost use Rattle.std.specs.Prelude.{◌≡◌, ◌<◌, ◌-◌, List, None, Some, if◌then◌else◌, length, nat_lt, slice_get, option_copied, option_map};
ghost use Rattle.rawk_value.specs.declared.value.Value.{Value};
ghost use Rattle.rawk_record.specs.FieldRefs.{ref_value};
ghost use Rattle.rawk_record.specs.Shown.{Shown, record_back};
ghost use Rattle.rawk_arrays.specs.Elements.{element_at};
ghost use Rattle.rawk_arrays.specs.Laid.{Laid};
ghost use Rattle.rawk_arrays.specs.Slotted.{held_in};
ghost use Rattle.rawk_store.specs.Back.{saved_or};
ghost use Rattle.rawk_store.specs.Lent.{lent};
ghost use Rattle.rawk_store.specs.GroupBack.{arrays_in};
ghost use Rattle.rawk_steps.specs.Leading.{arrays_forth, globals_forth, record_forth};
ghost use Rattle.rawk_store.specs.Observed.{Observed};

use crate::last_move::LastMove;
use crate::machine::Machine;
use rawk_devices::Source;
use rawk_history::Keeper;
use rawk_store::{
    FieldRef, Group, RareChanges, Record, ValueRef, global_after, global_before, led_to, saved_at,
};
use rawk_value::Value;

/// A global's value where groups lead, if they hold it; for a number of a global.
fn saved_through(groups: &[Group], number: usize) -> Option<&Value>
    ensures { (xs : List Value) → number < length xs → slice_get (globals_forth xs groups.now) number ≡ saved_or (option_copied result) (slice_get xs number) }
{
    let mut value = None;
    for group in groups {
        value = match saved_at(group.globals(), number) {
            Some(newer) => Some(newer),
            None => value,
        };
    }
    value
}

/// A value, lent whole.
fn whole(value: Option<&Value>) -> Option<ValueRef<'_>>
    ensures { option_map lent result ≡ option_copied value.entry }
{
    match value {
        Some(value) => Some(ValueRef::Whole(value)),
        None => None,
    }
}

/// The record where groups lead, if it is another one than now.
fn record_through(groups: &[Group]) -> Option<&Record>
    ensures { (s : Shown) → record_forth s groups.now ≡ record_back s (option_copied result) }
{
    let mut record = None;
    for group in groups {
        if let Some(earlier) = group.record() {
            record = Some(earlier);
        }
    }
    record
}

/// A slot of arrays, filled or empty, and how many arrays there are.
#[derive(Clone, Copy)]
struct SlotAt<'a> {
    slot: Option<&'a Option<Value>>,
    live: usize,
}

/// A slot where old values lead, from what it is now; for a number of a slot.
fn slot_before<'a>(others: Option<&'a RareChanges>, now: SlotAt<'a>, number: usize) -> SlotAt<'a>
    ensures slot { (l : Laid) → number < length l.slots → slice_get l.slots number ≡ option_copied now.entry.slot → slice_get (arrays_in l (option_copied others.entry)).slots number ≡ option_copied result.slot }
    ensures live { (l : Laid) → l.live ≡ now.entry.live → (arrays_in l (option_copied others.entry)).live ≡ result.live }
{
    let Some(others) = others else {
        return now;
    };
    match &others.few {
        None => now,
        Some(few) => SlotAt {
            slot: led_to(&few.arrays.slots.entries, now.slot, number),
            live: few.arrays.live,
        },
    }
}

/// A slot where groups lead, from what it is now; for a number of a slot.
fn slot_through<'a>(groups: &'a [Group], now: SlotAt<'a>, number: usize) -> SlotAt<'a>
    ensures { (l : Laid) → number < length l.slots → slice_get l.slots number ≡ option_copied now.entry.slot → l.live ≡ now.entry.live
        → (slice_get (arrays_forth l groups.now).slots number ≡ option_copied result.slot) × ((arrays_forth l groups.now).live ≡ result.live) }
{
    let mut at = now;
    for group in groups {
        at = slot_before(group.others(), at, number);
    }
    at
}

/// What a slot of an array holds; nothing where there is no array of the number.
fn held_by<'a>(at: SlotAt<'a>, array: usize) -> Option<&'a Value>
    ensures { option_copied result ≡ (if nat_lt array at.entry.live then held_in (option_copied at.entry.slot) else None) }
{
    if array >= at.live {
        return None;
    }
    match at.slot {
        Some(slot) => slot.as_ref(),
        None => None,
    }
}

impl<R: Source + Drop, K: Keeper> Machine<R, K> {
    /// A global's value as it was before the last move, if it is known: after an `advance` under a keeper that keeps, or a `retreat`, until something
    /// is set or taken back. `None` for a number that no global has. It takes no memory, and looks at the places that the move changed.
    pub fn earlier_global(&self, number: usize) -> Option<ValueRef<'_>>
        ensures { (s : Observed) → self.now.before ≡ Some s → option_map lent result ≡ slice_get s.globals number }
    {
        if self.store.globals.len() <= number {
            return None;
        }
        let now = self.store.globals.value(number);
        match &self.last {
            LastMove::Nothing => whole(now),
            LastMove::On => match self.keeper.newest() {
                Some(step) => global_before(step.globals, step.others, now, number),
                None => whole(now),
            },
            LastMove::Back => match self.keeper.ahead() {
                Some(step) => match saved_through(self.keeper.ahead_sets(), number) {
                    Some(newer) => Some(ValueRef::Whole(newer)),
                    None => global_after(step.globals, step.others, now, number),
                },
                None => whole(now),
            },
        }
    }

    /// The record as it was before the last move, if it is known and another one than now.
    fn earlier_record(&self) -> Option<&Record>
        ensures text { (s : Observed) → self.now.before ≡ Some s → s.whole ≡ (record_back (record { text = self.now.state.whole; fields = self.now.state.fields }) (option_copied result)).text }
        ensures fields { (s : Observed) → self.now.before ≡ Some s → s.fields ≡ (record_back (record { text = self.now.state.whole; fields = self.now.state.fields }) (option_copied result)).fields }
    {
        match &self.last {
            LastMove::Nothing => None,
            LastMove::On => match self.keeper.newest() {
                Some(step) => step.current,
                None => None,
            },
            LastMove::Back => match self.keeper.ahead() {
                Some(step) => match record_through(self.keeper.ahead_sets()) {
                    Some(record) => Some(record),
                    None => step.current,
                },
                None => None,
            },
        }
    }

    /// `$0` as it was before the last move, if it is known (see `earlier_global`).
    pub fn earlier_text(&self) -> &[u8]
        ensures { (s : Observed) → self.now.before ≡ Some s → result.now ≡ s.whole }
    {
        match self.earlier_record() {
            Some(record) => record.text(),
            None => self.store.current.text(),
        }
    }

    /// NF as it was before the last move, if it is known (see `earlier_global`).
    pub fn earlier_field_count(&self) -> usize
        ensures { (s : Observed) → self.now.before ≡ Some s → result ≡ length s.fields }
    {
        match self.earlier_record() {
            Some(record) => record.field_count(),
            None => self.store.current.field_count(),
        }
    }

    /// A field, counted from 1, as it was before the last move, if it is known (see `earlier_global`); `None` past the last.
    pub fn earlier_field(&self, number: usize) -> Option<FieldRef<'_>>
        requires { 0 < number }
        ensures { (s : Observed) → self.now.before ≡ Some s → option_map ref_value result ≡ slice_get s.fields (number - 1) }
    {
        match self.earlier_record() {
            Some(record) => record.field(number),
            None => self.store.current.field(number),
        }
    }

    /// An element, by the number of its array and its key, as it was before the last move, if it was there and that is known (see `earlier_global`). It
    /// is not made.
    pub fn earlier_element(&self, array: usize, key: &[u8]) -> Option<&Value>
        ensures { (s : Observed) → self.now.before ≡ Some s → option_copied result ≡ element_at array key.now s.arrays }
    {
        let arrays = &self.store.arrays;
        let Some(number) = arrays.slot_number(array, key) else {
            return None;
        };
        let now = SlotAt {
            slot: arrays.slot(number),
            live: arrays.len(),
        };
        match &self.last {
            LastMove::Nothing => None,
            LastMove::On => match self.keeper.newest() {
                Some(step) => held_by(slot_before(step.others, now, number), array),
                None => None,
            },
            LastMove::Back => match self.keeper.ahead() {
                Some(step) => held_by(
                    slot_through(
                        self.keeper.ahead_sets(),
                        slot_before(step.others, now, number),
                        number,
                    ),
                    array,
                ),
                None => None,
            },
        }
    }
}
