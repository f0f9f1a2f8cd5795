//! The globals, and a text among them that is added to in place.

ghost use Rattle.std.specs.Prelude.{◌≡◌, ◌<◌, ◌≤◌, ◌∷◌, ◌++◌, [], IfOk, IfSome, OnErr, OnOk, drop, length, slice_get, slice_set, take, Some};
ghost use Rattle.std.specs.Bool.{OnFalse, OnTrue};
ghost use Rattle.std.specs.Option.{option_copied};
ghost use Rattle.rawk_slots.specs.Back.{back, AreBelow, AreDistinctFrom};
ghost use Rattle.rawk_slots.specs.Journaled.{at_rest};
ghost use Rattle.rawk_value.specs.Values.{text_of};
ghost use Rattle.rawk_cells.specs.Cells.{OnSameTexts, added_at, before_growth, cut_at, longer_at, shortened, Grew, HasGrown, HasEnded, IsAppended, IsOf};

use itoa::Buffer;
use rawk_slots::slots::Write;
use rawk_slots::{Reversible, Saved, SlotGroup, Slots};
use rawk_value::order::text_in;
use rawk_value::{Bytes, Value};
use std::alloc::{AllocError, Global};
use std::marker::Model;

/// Where the text of a global grew in place, and how many bytes it had when the step began.
#[derive(Clone, Copy)]
pub struct Grown {
    pub place: usize,
    pub count: usize,
}

/// A text of a global that grew in place in a step: how many bytes it had, and those that came behind them.
#[derive(Drop)]
pub struct Appended {
    pub place: usize,
    pub count: usize,
    pub more: Bytes,
}

/// How many bytes a text has at least of which a step keeps what came behind it. A shorter one is kept as it was.
const LONG: usize = 256;

/// Globals, of which a number names one, from 0, beside what they were when the step began.
///
/// A text that grows in place, where the step has changed no other global, is not kept as it was: how many bytes it had leads back. Where `SAVES` is false, nothing is kept:
/// nothing is said of the step's beginning then.
#[derive(Drop)]
pub struct Cells {
    alloc: Global,
    slots: Slots<Value>,
    grown: Option<Grown>,
}

impl Model for Cells {
    ghost use Rattle.rawk_slots.specs.Journaled.{Journaled};
    ghost use Rattle.rawk_cells.specs.Cells.{Globals, before_growth, HasGrown};

    ghost Value = { Journaled Globals };

    ghost view = { λ c. record { now = c.slots.now; start = before_growth c.grown c.slots.start } };

    ghost invariant = { λ c. HasGrown c.grown c.slots };
}

/// At most the first `count` bytes of a text; another value stays. It takes no memory.
fn shortened(value: Value, count: usize) -> Value
    ensures { result ≡ shortened count value }
{
    match value {
        Value::String(text) => {
            let mut text = text;
            text.truncate(count);
            Value::String(text)
        }
        Value::Uninitialized => Value::Uninitialized,
        Value::Number(n) => Value::Number(n),
        Value::Input(text) => Value::Input(text),
    }
}

/// Adds bytes to a text where it stands, and answers how many it had; `None` where no text that the program made stands there. It fails where memory is refused, and
/// then nothing has changed.
fn grow(
    alloc: Global,
    slots: &mut Slots<Value>,
    place: usize,
    more: &[u8],
) -> Result<Option<usize>, AllocError>
    requires within { place < length slots.old.now }
    requires rest { slots.old.start ≡ slots.old.now }
    ensures did { IfOk result (λ count. Grew place more.now slots.old.now slots.new count) }
    ensures err { OnErr result (slots.new ≡ slots.old) }
{
    match slots.lend(place) {
        Value::String(text) => {
            let count = text.as_slice().len();
            text.append(alloc, more)?;
            Ok(Some(count))
        }
        _ => Ok(None),
    }
}

/// Keeps a text that grew as it was, among the old values. It takes memory at most for their list; where that is refused nothing has changed.
fn keep_shorter(alloc: Global, slots: &mut Slots<Value>, grown: Grown) -> Result<(), AllocError>
    requires { HasGrown (Some grown) slots.old }
    ensures now { slots.new.now ≡ slots.old.now }
    ensures start { OnOk result (slots.new.start ≡ before_growth (Some grown) slots.old.start) }
    ensures err { OnErr result (slots.new ≡ slots.old) }
{
    let place = grown.place;
    match slots.value(place) {
        None => Err(AllocError),
        Some(value) => {
            let earlier = shortened(value.copy(alloc)?, grown.count);
            let spare = value.copy(alloc)?;
            let now = slots.replace_at_rest(place, earlier);
            match slots.write::<true>(place, now) {
                Ok(()) => Ok(()),
                Err(refused) => {
                    drop(slots.replace_at_rest(place, spare));
                    Err(refused)
                }
            }
        }
    }
}

/// Leaves at most the first `count` bytes of a text. It takes no memory.
fn cut(slots: &mut Slots<Value>, place: usize, count: usize)
    requires within { place < length slots.old.now }
    requires rest { slots.old.start ≡ slots.old.now }
    ensures { slots.new ≡ at_rest (cut_at place count slots.old.now) }
{
    let now = slots.replace_at_rest(place, Value::Uninitialized);
    drop(slots.replace_at_rest(place, shortened(now, count)));
}

/// What came behind a text that grew, where it was long. It fails where memory is refused.
fn behind(
    alloc: Global,
    slots: &Slots<Value>,
    grown: Grown,
) -> Result<Option<Box<Appended>>, AllocError>
    requires { HasGrown (Some grown) slots.now }
    ensures { IfOk result (λ appended. IfSome appended (λ a. IsOf grown a.value slots.now.now)) }
{
    if grown.count < LONG {
        return Ok(None);
    }
    match slots.value(grown.place) {
        Some(Value::String(text)) => {
            let more = Bytes::from_slice(alloc, &text.as_slice()[grown.count..])?;
            let appended = Box::new(
                alloc,
                Appended {
                    place: grown.place,
                    count: grown.count,
                    more,
                },
            )?;
            Ok(Some(appended))
        }
        _ => Ok(None),
    }
}

/// Keeps the text that grew as it was, if one did (see `keep_shorter`) and old values are saved.
#[inline(always)]
fn settle<const SAVES: bool>(
    alloc: Global,
    slots: &mut Slots<Value>,
    grown: Option<Grown>,
) -> Result<(), AllocError>
    requires { HasGrown grown slots.old }
    ensures now { slots.new.now ≡ slots.old.now }
    ensures start { OnTrue SAVES (OnOk result (slots.new.start ≡ before_growth grown slots.old.start)) }
    ensures err { OnErr result (slots.new ≡ slots.old) }
{
    if !SAVES {
        return Ok(());
    }
    match grown {
        None => Ok(()),
        Some(grown) => keep_shorter(alloc, slots, grown),
    }
}

/// Whether no text stands in a slot. It is looked at before the slot is written: else all of what stood there would be read first.
#[inline(always)]
fn is_plain(slots: &Slots<Value>, place: usize) -> bool {
    match slots.value(place) {
        Some(Value::Uninitialized) => true,
        Some(Value::Number(_)) => true,
        _ => false,
    }
}

/// Writes a slot; a number that is no slot changes nothing. Where nothing is saved, no call lets go what stood there, unless it is a text. It fails where memory is refused, and
/// then nothing has changed.
#[inline(always)]
fn put<const SAVES: bool>(
    slots: &mut Slots<Value>,
    place: usize,
    value: Value,
) -> Result<(), AllocError>
    ensures did { OnOk result (slots.new.now ≡ slice_set slots.old.now place value) }
    ensures start { OnTrue SAVES (slots.new.start ≡ slots.old.start) }
    ensures size { length slots.new.start ≡ length slots.old.start }
    ensures err { OnErr result (slots.new.now ≡ slots.old.now) }
{
    if SAVES || place >= slots.len() || !is_plain(slots, place) {
        return slots.set::<SAVES>(place, value);
    }
    match slots.take_changed::<SAVES>(place, value) {
        Some(Value::String(text)) => drop(text),
        Some(Value::Input(text)) => drop(text),
        Some(Value::Number(_)) => {}
        Some(Value::Uninitialized) => {}
        None => {}
    }
    Ok(())
}

/// Writes a number over the number in a slot, where it stands, and answers whether that was done; else nothing is written. What the step changed before is forgotten. It takes no memory.
#[inline(always)]
fn renumber(slots: &mut Slots<Value>, place: usize, n: i64) -> bool
    requires { place < length slots.old.now }
    ensures done { OnTrue result (slots.new.now ≡ slice_set slots.old.now place (Value.Number n)) }
    ensures other { OnFalse result (slots.new.now ≡ slots.old.now) }
    ensures texts { OnSameTexts slots.old.now slots.new }
{
    match slots.lend(place) {
        Value::Number(held) => {
            *held = n;
            true
        }
        _ => false,
    }
}

/// Where a text grew, if old values are saved.
#[inline(always)]
fn noted<const SAVES: bool>(grown: Grown) -> Option<Grown>
    ensures saved { OnTrue SAVES (result ≡ Some grown) }
    ensures other { IfSome result (λ g. g ≡ grown) }
{
    if SAVES { Some(grown) } else { None }
}

/// A text with bytes behind it. It fails where memory is refused.
fn longer(alloc: Global, value: &Value, more: &[u8]) -> Result<Value, AllocError>
    ensures { IfOk result (λ v. v ≡ Value.String (text_of value.now ++ more.now)) }
{
    let mut digits = Buffer::new();
    let text = Bytes::concat(alloc, text_in(value, &mut digits), more)?;
    Ok(Value::String(text))
}

impl Cells {
    /// No globals.
    pub fn new(alloc: Global) -> Self
        ensures { result ≡ at_rest [] }
    {
        Cells {
            alloc,
            slots: Slots::new(alloc),
            grown: None,
        }
    }

    /// How many globals there are.
    pub fn len(&self) -> usize
        ensures { result ≡ length self.now.now }
    {
        self.slots.len()
    }

    /// The value of a global, and `None` for a number that no global has.
    pub fn value(&self, place: usize) -> Option<&Value>
        ensures { option_copied result ≡ slice_get self.now.now place }
    {
        self.slots.value(place)
    }

    /// Gives a global a value; a number that no global has changes nothing. It fails where memory is refused, and then nothing has changed.
    #[inline(always)]
    pub fn set<const SAVES: bool>(&mut self, place: usize, value: Value) -> Result<(), AllocError>
        ensures did { OnOk result (self.new.now ≡ slice_set self.old.now place value) }
        ensures start { OnTrue SAVES (self.new.start ≡ self.old.start) }
        ensures err { OnErr result (self.new.now ≡ self.old.now) }
    {
        settle::<SAVES>(self.alloc, &mut self.slots, self.grown)?;
        self.grown = None;
        put::<SAVES>(&mut self.slots, place, value)
    }

    /// The same of a number. Where nothing is saved and the global holds a number, no more than that is written.
    #[inline(always)]
    pub fn set_number<const SAVES: bool>(&mut self, place: usize, n: i64) -> Result<(), AllocError>
        ensures did { OnOk result (self.new.now ≡ slice_set self.old.now place (Value.Number n)) }
        ensures start { OnTrue SAVES (self.new.start ≡ self.old.start) }
        ensures err { OnErr result (self.new.now ≡ self.old.now) }
    {
        if !SAVES && self.renumber(place, n) {
            return Ok(());
        }
        self.set_number_apart::<SAVES>(place, n)
    }

    /// Writes a number over the number that a global holds, and answers whether that was done; else no global changes. What the step changed before is forgotten. It takes no memory.
    #[inline(always)]
    pub fn renumber(&mut self, place: usize, n: i64) -> bool
        ensures done { OnTrue result (self.new.now ≡ slice_set self.old.now place (Value.Number n)) }
        ensures other { OnFalse result (self.new.now ≡ self.old.now) }
    {
        if place >= self.slots.len() {
            return false;
        }
        renumber(&mut self.slots, place, n)
    }

    /// Gives a global a number, whatever it holds, by a call of its own.
    #[inline(never)]
    fn set_number_apart<const SAVES: bool>(
        &mut self,
        place: usize,
        n: i64,
    ) -> Result<(), AllocError>
        ensures did { OnOk result (self.new.now ≡ slice_set self.old.now place (Value.Number n)) }
        ensures start { OnTrue SAVES (self.new.start ≡ self.old.start) }
        ensures err { OnErr result (self.new.now ≡ self.old.now) }
    {
        self.set::<SAVES>(place, Value::Number(n))
    }

    /// `set` of a text that came from the input. Where nothing is saved and no text of a global grew, it is written by `Value::set_input`.
    #[inline(always)]
    pub fn set_input<const SAVES: bool>(
        &mut self,
        place: usize,
        bytes: &[u8],
    ) -> Result<(), AllocError>
        ensures did { OnOk result (self.new.now ≡ slice_set self.old.now place (Value.Input bytes.now)) }
        ensures start { OnTrue SAVES (self.new.start ≡ self.old.start) }
        ensures err { OnErr result (self.new.now ≡ self.old.now) }
    {
        if !SAVES && place < self.slots.len() {
            if self.grown.is_none() {
                return self.slots.lend(place).set_input(self.alloc, bytes);
            }
        }
        let text = Bytes::from_slice(self.alloc, bytes)?;
        self.set::<SAVES>(place, Value::Input(text))
    }

    /// Adds a global, which the step's beginning then has too. It fails where memory is refused, and then nothing has changed.
    pub fn add(&mut self, value: Value) -> Result<(), AllocError>
        ensures did { OnOk result (self.new.now ≡ self.old.now ++ value ∷ []) }
        ensures start { OnOk result (self.new.start ≡ self.old.start ++ value ∷ []) }
        ensures err { OnErr result (self.new ≡ self.old) }
    {
        settle::<true>(self.alloc, &mut self.slots, self.grown)?;
        self.grown = None;
        self.slots.add(value)
    }

    /// Puts bytes behind the text of a global, in place where the step has changed no other global and nobody shares the text; a number that no global has changes nothing. It fails
    /// where memory is refused, and then nothing has changed.
    pub fn append<const SAVES: bool>(
        &mut self,
        alloc: Global,
        place: usize,
        more: &[u8],
    ) -> Result<(), AllocError>
        ensures did { OnOk result (self.new.now ≡ longer_at place more.now self.old.now) }
        ensures start { OnTrue SAVES (self.new.start ≡ self.old.start) }
        ensures err { OnErr result (self.new.now ≡ self.old.now) }
    {
        if place >= self.slots.len() {
            return Ok(());
        }
        match self.grown {
            None => {
                if self.slots.is_at_rest() {
                    if let Some(count) = grow(alloc, &mut self.slots, place, more)? {
                        self.grown = noted::<SAVES>(Grown { place, count });
                        return Ok(());
                    }
                }
            }
            Some(grown) => {
                if grown.place == place {
                    if let Some(_count) = grow(alloc, &mut self.slots, place, more)? {
                        return Ok(());
                    }
                }
            }
        }
        self.append_copy::<SAVES>(alloc, place, more)
    }

    /// The same by a copy.
    fn append_copy<const SAVES: bool>(
        &mut self,
        alloc: Global,
        place: usize,
        more: &[u8],
    ) -> Result<(), AllocError>
        ensures did { OnOk result (self.new.now ≡ longer_at place more.now self.old.now) }
        ensures start { OnTrue SAVES (self.new.start ≡ self.old.start) }
        ensures err { OnErr result (self.new.now ≡ self.old.now) }
    {
        match self.slots.value(place) {
            None => Ok(()),
            Some(value) => {
                let longer = longer(alloc, value, more)?;
                self.set::<SAVES>(place, longer)
            }
        }
    }

    /// Ends the step, and gives what it changed. It fails where memory for the old value of a text that grew is refused, and then nothing has changed.
    pub fn finish(&mut self, alloc: Global) -> Result<SlotGroup<Value>, AllocError>
        ensures now { self.new.now ≡ self.old.now }
        ensures rest { IfOk result (λ group. self.new.start ≡ self.old.now) }
        ensures back { IfOk result (λ group. back self.old.now group.entries.items ≡ self.old.start) }
        ensures below { IfOk result (λ group. AreBelow (length self.old.now) group.entries.items) }
        ensures err { OnErr result (self.new ≡ self.old) }
    {
        settle::<true>(self.alloc, &mut self.slots, self.grown)?;
        self.grown = None;
        Ok(self.slots.finish(alloc))
    }

    /// Ends the step, puts what it changed behind the first `count` old values of a list, in place of the others, and gives what came behind a text, where a long one grew
    /// in place: nothing is put there then. It fails where memory is refused, and then nothing has changed.
    #[inline]
    pub fn finish_into(
        &mut self,
        list: &mut Vec<Saved<Value>>,
        count: usize,
    ) -> Result<Option<Box<Appended>>, AllocError>
        ensures did { IfOk result (λ appended. HasEnded appended self.old.now self.old.start (take count list.old.items) list.new.items) }
        ensures now { OnOk result (self.new ≡ at_rest self.old.now) }
        ensures err { OnErr result (self.new ≡ self.old) }
        ensures same { OnErr result (list.new.items ≡ list.old.items) }
    {
        if let Some(grown) = self.grown {
            if let Some(appended) = behind(self.alloc, &self.slots, grown)? {
                list.truncate(count);
                self.grown = None;
                return Ok(Some(appended));
            }
            keep_shorter(self.alloc, &mut self.slots, grown)?;
            self.grown = None;
        }
        self.slots.finish_into(list, count)?;
        Ok(None)
    }

    /// Whether the step has changed nothing yet.
    #[inline]
    pub fn is_at_rest(&self) -> bool
        ensures { OnTrue result (self.now.start ≡ self.now.now) }
    {
        match self.grown {
            None => self.slots.is_at_rest(),
            Some(_) => false,
        }
    }

    /// Ends the step, and forgets what it changed. It takes no memory.
    #[inline]
    pub fn forget(&mut self)
        ensures { self.new ≡ at_rest self.old.now }
    {
        self.grown = None;
        self.slots.forget();
    }

    /// Puts back what the step in progress changed. It takes no memory and always succeeds.
    pub fn undo_step(&mut self)
        ensures { self.new ≡ at_rest self.old.start }
    {
        match self.grown {
            None => self.slots.undo_step(),
            Some(grown) => {
                cut(&mut self.slots, grown.place, grown.count);
                self.grown = None;
            }
        }
    }

    /// Takes back what came behind a text in a step that ended; what the step in progress changed is forgotten. It takes no memory and always succeeds.
    pub fn take_back(&mut self, appended: &Appended)
        requires { IsAppended appended.now self.old.now }
        ensures now { self.new ≡ at_rest (cut_at appended.now.place appended.now.count self.old.now) }
        ensures newer { added_at appended.now.place appended.now.more self.new.now ≡ self.old.now }
    {
        self.grown = None;
        self.slots.forget();
        cut(&mut self.slots, appended.place, appended.count);
    }

    /// Puts back what a step that ended changed, and leaves the newer values in the group. It takes no memory and always succeeds.
    pub fn undo(&mut self, group: &mut SlotGroup<Value>)
        requires { AreBelow (length self.old.now) group.old.entries.items }
        ensures now { self.new ≡ at_rest (back self.old.now group.old.entries.items) }
        ensures newer { back self.new.now group.new.entries.items ≡ self.old.now }
    {
        self.grown = None;
        self.slots.undo(group);
    }

    /// Puts back what a step that ended changed, whose old values stand in a list from a number on, and leaves the newer values there. It takes no memory and always
    /// succeeds.
    pub fn undo_from(&mut self, list: &mut Vec<Saved<Value>>, began: usize)
        requires within { began ≤ length list.old.items }
        requires below { AreBelow (length self.old.now) (drop began list.old.items) }
        requires distinct { AreDistinctFrom began list.old.items }
        ensures now { self.new ≡ at_rest (back self.old.now (drop began list.old.items)) }
        ensures earlier { take began list.new.items ≡ take began list.old.items }
        ensures newer { back self.new.now (drop began list.new.items) ≡ self.old.now }
    {
        self.grown = None;
        self.slots.undo_from(list, began);
    }
}

impl Reversible for Cells {
    ghost use Rattle.std.specs.Prelude.{◌≡◌, List, length, refl, slice_set};
    ghost use Rattle.std.proofs.Common.{◌∙◌, sym};
    ghost use Rattle.rawk_value.specs.declared.value.Value.{Value};
    ghost use Rattle.rawk_slots.specs.Back.{back, AreBelow};

    type Change = Write<Value>;

    type Undo = SlotGroup<Value>;

    ghost Seen = { List Value };

    ghost sees = { λ part. part.now };

    ghost grown = { λ old new. new.now ≡ old.now };

    ghost makes = { λ old change new. new.now ≡ slice_set old.now change.place change.value };

    ghost leads_back = { λ now undo earlier. AreBelow (length now.now) undo.entries.items × (back now.now undo.entries.items ≡ earlier.now) };

    ghost grown_same = { λ part. refl };

    ghost grown_seen = { λ old new h. h };

    ghost makes_one = { λ old new other change h k. h ∙ sym k };

    fn apply(
        &mut self,
        alloc: Global,
        change: Write<Value>,
    ) -> Result<SlotGroup<Value>, AllocError> {
        self.grown = None;
        self.slots.forget();
        self.slots.set::<true>(change.place, change.value)?;
        Ok(self.slots.finish(alloc))
    }

    fn undo(&mut self, undo: &mut SlotGroup<Value>) {
        self.undo(undo);
    }
}
