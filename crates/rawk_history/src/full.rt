//! A keeper of every step, whose old values lie behind one another.

ghost use Rattle.std.specs.Prelude.{◌≡◌, ◌<◌, ◌≤◌, [], IfOk, None, OnErr, OnOk, count_by, drop, length, reverse, take, vec_len};
ghost use Rattle.std.specs.Bool.{OnTrue};
ghost use Rattle.std.specs.Option.{option_copied};
ghost use Rattle.std.specs.Vec.{vec_capacity};
ghost use Rattle.rawk_slots.specs.Back.{AreDistinctFrom};
ghost use Rattle.rawk_slots.specs.StackGroups.{first_if, rest_if};
ghost use Rattle.rawk_frames.specs.KeptStacks.{lists_of, newest_frames, newest_operands, older_stacks};
ghost use Rattle.rawk_record.specs.Shown.{record_back};
ghost use Rattle.rawk_history.specs.Flat.{EndsBehind, began_by, items_of, newest_slow, registers_by, slow_of, step_by};
ghost use Rattle.rawk_store.specs.GroupBack.{ArraysFit, FitsIn, arrays_in, globals_on, put_back};
ghost use Rattle.rawk_store.specs.Layout.{IsSound};
ghost use Rattle.rawk_store.specs.Stores.{BeganNested, now_of, start_of};
ghost use Rattle.rawk_history.specs.Saving.{Counts, saved_by_all, saved_in_sets};

use crate::keeper::{Keeper, StepRef};
use crate::saving::{saved_in_groups, saved_in_others};
use rawk_store::{
    Ending, Group, HasStacks, KeptStacks, Phase, RareChanges, Record, Registers, Saved, Store,
};
use rawk_value::Value;
use std::alloc::{AllocError, Global};
use std::marker::Model;
use std::mem;

/// Where a step begins, and what it has in each list: the registers that each step changes, and how many old values of globals stand before its own.
#[derive(Clone, Copy)]
pub struct Mark {
    pub place: usize,
    pub here: u64,
    /// the site, or 0 where there is none
    pub site: usize,
    pub consumed: usize,
    pub globals: usize,
    pub has_site: bool,
    pub has_state: bool,
    pub has_others: bool,
    pub has_record: bool,
    pub has_sets: bool,
    pub stacks: HasStacks,
}

/// What few steps change of the registers, and how many bytes of output there were.
#[derive(Clone, Copy, PartialEq, Eq)]
pub struct RareRegisters {
    pub output: usize,
    pub phase: Phase,
    pub status: u8,
    pub ending: Option<Ending>,
}

/// Keeps every step.
///
/// What steps changed lies behind one another in one list of each kind, so a step takes no allocation where there is room. A step that is put back
/// leaves its newer values behind those that are kept, until a step is kept.
#[derive(Drop)]
pub struct Full {
    marks: Vec<Mark>,
    // What few steps change of the registers: the newest is that of the newest step.
    slows: Vec<RareRegisters>,
    globals: Vec<Saved<Value>>,
    // So many of the globals' values are of steps that are kept.
    live: usize,
    stacks: KeptStacks,
    others: Vec<RareChanges>,
    records: Vec<Record>,
    sets: Vec<Vec<Group>>,
    // What leads forward beside globals, where a step was put back.
    is_back: bool,
    newer_others: Option<RareChanges>,
    newer_record: Option<Record>,
    newer_sets: Vec<Group>,
}

impl Model for Full {
    ghost use Rattle.std.specs.Prelude.{drop, None, Some, reverse, take, if◌then◌else◌};
    ghost use Rattle.rawk_history.specs.Keeping.{Keeping};

    ghost Value = { Keeping };

    ghost use Rattle.rawk_frames.specs.KeptStacks.{lists_of};
    ghost use Rattle.rawk_history.specs.Flat.{IsFull, kept_of};

    ghost view = { λ f. record {
      kept = kept_of (reverse f.marks.items) (reverse f.slows.items) (take f.live f.globals.items) (lists_of f.stacks) (reverse f.others.items) (reverse f.records.items) (reverse f.sets.items);
      forth = if f.is_back then Some (record { globals = drop f.live f.globals.items; others = f.newer_others; current = f.newer_record; sets = f.newer_sets.items }) else None;
    } };

    ghost invariant = { λ f. IsFull f.marks.items f.globals.items f.live f.others.items f.records.items f.sets.items };
}

impl Full {
    /// No step. It takes no memory.
    pub fn new(alloc: Global) -> Self
        ensures { result ≡ record { kept = []; forth = None } }
    {
        Full {
            marks: Vec::new(alloc),
            slows: Vec::new(alloc),
            globals: Vec::new(alloc),
            live: 0,
            stacks: KeptStacks::new(alloc),
            others: Vec::new(alloc),
            records: Vec::new(alloc),
            sets: Vec::new(alloc),
            is_back: false,
            newer_others: None,
            newer_record: None,
            newer_sets: Vec::new(alloc),
        }
    }

    /// How many steps it keeps.
    #[inline]
    pub(crate) fn len(&self) -> usize
        ensures { result ≡ length self.now.kept }
    {
        self.marks.len()
    }

    /// How many old values of globals, elements and records the newest `count` steps hold, or all where there are fewer. It takes no memory, looks at each of these
    /// steps, and stays at the greatest number of 128 bits.
    pub(crate) fn saved_in_newest(&self, count: usize) -> u128
        ensures { Counts (saved_by_all (take count self.now.kept)) result }
    {
        let marks = newest_of(&self.marks, count);
        let globals = self.live.saturating_sub(first_global(marks, self.live));
        let records = newest_of(&self.records, records_in(marks)).len();
        let others = saved_in_others(newest_of(&self.others, others_in(marks)));
        let sets = saved_in_sets(newest_of(&self.sets, sets_in(marks)));
        let saved = (globals as u128).saturating_add(records as u128);
        saved.saturating_add(others).saturating_add(sets)
    }
}

/// The last `count` items, or all where there are fewer.
fn newest_of<T>(list: &[T], count: usize) -> &[T]
    ensures { reverse result.now ≡ take count (reverse list.now) }
{
    &list[list.len().saturating_sub(count)..]
}

/// How many old values of globals stand before those of these steps, the oldest first: all, where there is no step.
fn first_global(marks: &[Mark], live: usize) -> usize
    ensures { result ≡ began_by (reverse marks.now) live }
{
    match marks.first() {
        Some(mark) => mark.globals,
        None => live,
    }
}

/// How many of these steps changed other parts.
fn others_in(marks: &[Mark]) -> usize
    ensures { result ≡ count_by (λ m. m.has_others) marks.now }
{
    marks.iter().filter(|mark| mark.has_others).count()
}

/// How many of these steps have a record.
fn records_in(marks: &[Mark]) -> usize
    ensures { result ≡ count_by (λ m. m.has_record) marks.now }
{
    marks.iter().filter(|mark| mark.has_record).count()
}

/// How many of these steps have groups of sets.
fn sets_in(marks: &[Mark]) -> usize
    ensures { result ≡ count_by (λ m. m.has_sets) marks.now }
{
    marks.iter().filter(|mark| mark.has_sets).count()
}

/// Adds an item, if there is one, and answers whether there was.
#[inline]
fn add_if<T: Drop>(list: &mut Vec<T>, item: Option<T>) -> bool
    requires { vec_len list.old < vec_capacity list.old }
    ensures first { first_if result (reverse list.new.items) ≡ item }
    ensures rest { rest_if result (reverse list.new.items) ≡ reverse list.old.items }
{
    match item {
        Some(value) => {
            list.push_reserved(value);
            true
        }
        None => false,
    }
}

/// Takes the newest item, where a step has one.
#[inline]
fn take_if<T: Drop>(list: &mut Vec<T>, has: bool) -> Option<T>
    ensures first { result ≡ first_if has (reverse list.old.items) }
    ensures rest { reverse list.new.items ≡ rest_if has (reverse list.old.items) }
{
    if has {
        return list.pop();
    }
    None
}

/// The newest item, where a step has one.
#[inline]
fn newest_if<T>(list: &Vec<T>, has: bool) -> Option<&T>
    ensures { option_copied result ≡ first_if has (reverse list.now.items) }
{
    if has {
        return list.last();
    }
    None
}

/// What few steps change of these registers, with the bytes of output.
#[inline]
fn slow_of(output: usize, registers: &Registers) -> RareRegisters
    ensures { result ≡ slow_of output registers.now }
{
    RareRegisters {
        output,
        phase: registers.phase,
        status: registers.status,
        ending: registers.ending,
    }
}

/// Whether both are the same, and no run has ended.
#[inline]
fn is_same(a: &RareRegisters, b: &RareRegisters) -> bool
    ensures { OnTrue result (a.now ≡ b.now) }
{
    if a.output != b.output || a.status != b.status || a.phase != b.phase {
        return false;
    }
    match (&a.ending, &b.ending) {
        (None, None) => true,
        _ => false,
    }
}

/// Adds it, if it is another one than the newest, and answers whether it was added.
#[inline]
fn add_slow(list: &mut Vec<RareRegisters>, slow: RareRegisters) -> bool
    requires { vec_len list.old < vec_capacity list.old }
    ensures first { newest_slow (reverse list.new.items) ≡ slow }
    ensures rest { rest_if result (reverse list.new.items) ≡ reverse list.old.items }
{
    if let Some(newest) = list.last() {
        if is_same(newest, &slow) {
            return false;
        }
    }
    list.push_reserved(slow);
    true
}

/// The newest, or that before the first step.
#[inline]
fn newest_slow(list: &Vec<RareRegisters>) -> RareRegisters
    ensures { result ≡ newest_slow (reverse list.now.items) }
{
    match list.last() {
        Some(slow) => *slow,
        None => RareRegisters {
            output: 0,
            phase: Phase::InBegin,
            status: 0,
            ending: None,
        },
    }
}

/// Drops the newest, where a step has its own.
#[inline]
fn drop_if(list: &mut Vec<RareRegisters>, has: bool)
    ensures { reverse list.new.items ≡ rest_if has (reverse list.old.items) }
{
    if has {
        let _newest = list.pop();
    }
}

/// The registers at the beginning of a step.
#[inline]
fn registers_by(mark: &Mark, slow: &RareRegisters) -> Registers
    ensures { result ≡ registers_by mark.now slow.now }
{
    Registers {
        place: mark.place,
        phase: slow.phase,
        status: slow.status,
        here: mark.here,
        site: if mark.has_site { Some(mark.site) } else { None },
        consumed: mark.consumed,
        ending: slow.ending,
    }
}

/// The groups, moved out, if there are any.
#[inline]
fn taken(alloc: Global, sets: &mut Vec<Group>) -> Option<Vec<Group>>
    ensures is { items_of result ≡ sets.old.items }
    ensures empty { sets.new.items ≡ [] }
{
    if sets.len() == 0 {
        return None;
    }
    Some(mem::replace(sets, Vec::new(alloc)))
}

/// Other groups, or none, come in the place of these, which come in the place of `newer`.
fn exchange(sets: &mut Vec<Group>, newer: &mut Vec<Group>, earlier: Option<Vec<Group>>)
    ensures ready { sets.new.items ≡ items_of earlier }
    ensures stood { newer.new.items ≡ sets.old.items }
{
    newer.clear();
    mem::swap(sets, newer);
    if let Some(groups) = earlier {
        *sets = groups;
    }
}

/// Room for one more step beside its globals. Where memory is refused, nothing has changed that is seen.
#[inline]
fn reserve(
    marks: &mut Vec<Mark>,
    slows: &mut Vec<RareRegisters>,
    others: &mut Vec<RareChanges>,
    records: &mut Vec<Record>,
    sets: &mut Vec<Vec<Group>>,
) -> Result<(), AllocError>
    ensures marks { marks.new.items ≡ marks.old.items }
    ensures slows { slows.new.items ≡ slows.old.items }
    ensures others { others.new.items ≡ others.old.items }
    ensures records { records.new.items ≡ records.old.items }
    ensures sets { sets.new.items ≡ sets.old.items }
    ensures marks_room { OnOk result (vec_len marks.new < vec_capacity marks.new) }
    ensures slows_room { OnOk result (vec_len slows.new < vec_capacity slows.new) }
    ensures others_room { OnOk result (vec_len others.new < vec_capacity others.new) }
    ensures records_room { OnOk result (vec_len records.new < vec_capacity records.new) }
    ensures sets_room { OnOk result (vec_len sets.new < vec_capacity sets.new) }
{
    marks.reserve(1)?;
    slows.reserve(1)?;
    others.reserve(1)?;
    records.reserve(1)?;
    sets.reserve(1)?;
    Ok(())
}

/// What a step leaves beside old values: whether it has any in the lists, and how output and registers stood.
#[derive(Clone, Copy)]
struct Rest {
    stacks: HasStacks,
    has_others: bool,
    has_record: bool,
    output: usize,
    registers: Registers,
}

/// Ends a step: what it changed in the globals comes behind the first `count` old values of a list, in place of the others, and what else it changed at the
/// end of the other lists. It fails where memory is refused, and then nothing has changed.
#[inline]
fn finish_behind(
    alloc: Global,
    store: &mut Store,
    globals: &mut Vec<Saved<Value>>,
    count: usize,
    stacks: &mut KeptStacks,
    others: &mut Vec<RareChanges>,
    records: &mut Vec<Record>,
) -> Result<Rest, AllocError>
    requires nested { BeganNested store.old }
    requires others { vec_len others.old < vec_capacity others.old }
    requires records { vec_len records.old < vec_capacity records.old }
    ensures did { IfOk result (λ rest. EndsBehind (newest_frames rest.stacks (lists_of stacks.new)) (newest_operands rest.stacks (lists_of stacks.new)) (first_if rest.has_others (reverse others.new.items)) (first_if rest.has_record (reverse records.new.items)) rest.output rest.registers (start_of store.old) (now_of store.old) (take count globals.old.items) globals.new.items) }
    ensures older { IfOk result (λ rest. older_stacks rest.stacks (lists_of stacks.new) ≡ lists_of stacks.old) }
    ensures others { IfOk result (λ rest. rest_if rest.has_others (reverse others.new.items) ≡ reverse others.old.items) }
    ensures records { IfOk result (λ rest. rest_if rest.has_record (reverse records.new.items) ≡ reverse records.old.items) }
    ensures now { now_of store.new ≡ now_of store.old }
    ensures rest { OnOk result (start_of store.new ≡ now_of store.old) }
    ensures open { OnErr result (start_of store.new ≡ start_of store.old) }
    ensures same { OnErr result (globals.new.items ≡ globals.old.items) }
    ensures same_stacks { OnErr result (lists_of stacks.new ≡ lists_of stacks.old) }
    ensures same_others { OnErr result (others.new.items ≡ others.old.items) }
    ensures same_records { OnErr result (records.new.items ≡ records.old.items) }
{
    let room = store.few_room(alloc)?;
    stacks.reserve(&store.frames, &store.operands)?;
    let grown = store.globals.finish_into(globals, count)?;
    Ok(Rest {
        stacks: stacks.keep(&mut store.frames, &mut store.operands),
        has_others: add_if(others, store.finish_others(alloc, room, grown)),
        has_record: add_if(records, store.current.finish(alloc)),
        output: store.output.finish(),
        registers: store.registers.finish(),
    })
}

/// Puts back a step whose old globals stand in a list from a number on, and leaves the newer ones there, and what else is newer in `newer_others` and `newer_record`.
fn undo_behind(
    store: &mut Store,
    globals: &mut Vec<Saved<Value>>,
    began: usize,
    output: usize,
    registers: Registers,
    stacks: &mut KeptStacks,
    has: HasStacks,
    others: Option<RareChanges>,
    current: Option<Record>,
    newer_others: &mut Option<RareChanges>,
    newer_record: &mut Option<Record>,
)
    requires within { began ≤ length globals.old.items }
    requires distinct { AreDistinctFrom began globals.old.items }
    requires fits { FitsIn (step_by began output registers globals.old.items (newest_frames has (lists_of stacks.old)) (newest_operands has (lists_of stacks.old)) others current) (now_of store.old) }
    ensures now { now_of store.new ≡ put_back (now_of store.old) (step_by began output registers globals.old.items (newest_frames has (lists_of stacks.old)) (newest_operands has (lists_of stacks.old)) others current) }
    ensures rest { start_of store.new ≡ now_of store.new }
    ensures sound { IsSound (now_of store.new) }
    ensures earlier { take began globals.new.items ≡ take began globals.old.items }
    ensures stacks { lists_of stacks.new ≡ older_stacks has (lists_of stacks.old) }
    ensures globals { globals_on store.new.globals.now (drop began globals.new.items) newer_others.new ≡ store.old.globals.now }
    ensures arrays { arrays_in store.new.arrays.now newer_others.new ≡ store.old.arrays.now }
    ensures fits { ArraysFit newer_others.new store.new.arrays.now }
    ensures current { record_back store.new.current.now newer_record.new ≡ store.old.current.now }
{
    let mut others = others;
    let mut current = current;
    undo_parts(
        store,
        globals,
        began,
        output,
        registers,
        stacks,
        has,
        &mut others,
        &mut current,
    );
    mem::swap(newer_others, &mut others);
    mem::swap(newer_record, &mut current);
    drop(others);
    drop(current);
}

/// Puts back a step whose old globals stand in a list from a number on, and leaves the newer values.
fn undo_parts(
    store: &mut Store,
    globals: &mut Vec<Saved<Value>>,
    began: usize,
    output: usize,
    registers: Registers,
    stacks: &mut KeptStacks,
    has: HasStacks,
    others: &mut Option<RareChanges>,
    current: &mut Option<Record>,
)
    requires within { began ≤ length globals.old.items }
    requires distinct { AreDistinctFrom began globals.old.items }
    requires fits { FitsIn (step_by began output registers globals.old.items (newest_frames has (lists_of stacks.old)) (newest_operands has (lists_of stacks.old)) others.old current.old) (now_of store.old) }
    ensures now { now_of store.new ≡ put_back (now_of store.old) (step_by began output registers globals.old.items (newest_frames has (lists_of stacks.old)) (newest_operands has (lists_of stacks.old)) others.old current.old) }
    ensures rest { start_of store.new ≡ now_of store.new }
    ensures sound { IsSound (now_of store.new) }
    ensures earlier { take began globals.new.items ≡ take began globals.old.items }
    ensures stacks { lists_of stacks.new ≡ older_stacks has (lists_of stacks.old) }
    ensures globals { globals_on store.new.globals.now (drop began globals.new.items) others.new ≡ store.old.globals.now }
    ensures arrays { arrays_in store.new.arrays.now others.new ≡ store.old.arrays.now }
    ensures fits { ArraysFit others.new store.new.arrays.now }
    ensures current { record_back store.new.current.now current.new ≡ store.old.current.now }
{
    store.undo_others(others);
    stacks.put_back(&mut store.frames, &mut store.operands, has);
    store.globals.undo_from(globals, began);
    store.current.undo(current);
    store.output.undo(output);
    store.registers.go_back(registers);
    store.known();
}

impl Keeper for Full {
    ghost use Rattle.std.specs.Prelude.{None};

    ghost kept = { λ f. f.kept };

    ghost limit = { λ _. None };

    ghost forth = { λ f. f.forth };

    fn keeps(&self) -> bool {
        true
    }

    fn keep(
        &mut self,
        alloc: Global,
        store: &mut Store,
        sets: &mut Vec<Group>,
    ) -> Result<(), AllocError> {
        store.known();
        reserve(
            &mut self.marks,
            &mut self.slows,
            &mut self.others,
            &mut self.records,
            &mut self.sets,
        )?;
        let rest = finish_behind(
            alloc,
            store,
            &mut self.globals,
            self.live,
            &mut self.stacks,
            &mut self.others,
            &mut self.records,
        )?;
        let globals = self.live;
        self.live = self.globals.len();
        self.marks.push_reserved(Mark {
            place: rest.registers.place,
            here: rest.registers.here,
            site: rest.registers.site.unwrap_or(0),
            consumed: rest.registers.consumed,
            globals,
            has_site: rest.registers.site.is_some(),
            has_state: add_slow(&mut self.slows, slow_of(rest.output, &rest.registers)),
            has_others: rest.has_others,
            has_record: rest.has_record,
            has_sets: add_if(&mut self.sets, taken(alloc, sets)),
            stacks: rest.stacks,
        });
        self.is_back = false;
        Ok(())
    }

    fn saved(&self) -> u128 {
        self.saved_in_newest(self.len())
    }

    fn newest(&self) -> Option<StepRef<'_>> {
        match self.marks.last() {
            Some(mark) => Some(StepRef {
                globals: &self.globals[mark.globals..self.live],
                current: newest_if(&self.records, mark.has_record),
                others: newest_if(&self.others, mark.has_others),
            }),
            None => None,
        }
    }

    fn put_back(&mut self, store: &mut Store, sets: &mut Vec<Group>) {
        if let Some(mark) = self.marks.pop() {
            self.globals.truncate(self.live);
            self.live = mark.globals;
            let slow = newest_slow(&self.slows);
            drop_if(&mut self.slows, mark.has_state);
            undo_behind(
                store,
                &mut self.globals,
                mark.globals,
                slow.output,
                registers_by(&mark, &slow),
                &mut self.stacks,
                mark.stacks,
                take_if(&mut self.others, mark.has_others),
                take_if(&mut self.records, mark.has_record),
                &mut self.newer_others,
                &mut self.newer_record,
            );
            exchange(
                sets,
                &mut self.newer_sets,
                take_if(&mut self.sets, mark.has_sets),
            );
            self.is_back = true;
        } else {
            store.forget();
        }
    }

    fn ahead(&self) -> Option<StepRef<'_>> {
        if !self.is_back {
            return None;
        }
        Some(StepRef {
            globals: &self.globals[self.live..],
            current: self.newer_record.as_ref(),
            others: self.newer_others.as_ref(),
        })
    }

    fn ahead_sets(&self) -> &[Group] {
        &self.newer_sets
    }
}

/// How many old values the groups of sets hold together.
fn saved_in_sets(sets: &[Vec<Group>]) -> u128
    ensures { Counts (saved_in_sets sets.now) result }
{
    let mut count: u128 = 0;
    for groups in sets {
        count = count.saturating_add(saved_in_groups(groups));
    }
    count
}
