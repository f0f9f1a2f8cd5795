//! A machine that runs a code from point to point.

ghost use Rattle.std.specs.Prelude.{◌≡◌, ◌↔◌, ◌≤◌, ◌<◌, ◌+◌, ◌-◌, ◌*◌, ◌^◌, [], ◌++◌, nat_lt, None, Some, IsSome, IsTrue, length, take, drop, IfOk, IfErr, OnOk, OnErr};
ghost use Rattle.rawk_value.specs.Values.{Bytes};
ghost use Rattle.rawk_devices.specs.Inputs.{Input, CountsUp};
ghost use Rattle.rawk_devices.specs.declared.source.Ending.{Ending as End};
ghost use Rattle.rawk_store.specs.Stores.{now_of};
ghost use Rattle.rawk_store.specs.State.{assigned};
ghost use Rattle.rawk_code.specs.Actions.{fault_of};
ghost use Rattle.rawk_machine.specs.Kept.{below};
ghost use Rattle.rawk_machine.specs.Stood.{IsFirst};
ghost use Rattle.rawk_machine.specs.Standing.{Standing, MayCome, IsAt, Stood, step_of, IsQuietStep, Stays, MovesOn, IsSet, gone_back, taken_back, dropped, old_values};
ghost use Rattle.rawk_machine.specs.Asked.{AskedBy, Unstood};
ghost use Rattle.rawk_reading.specs.Drawing.{Draws};

use crate::last_move::LastMove;
use crate::step::Step;
use rawk_code::{SetAt, Settings};
use rawk_devices::Source;
use rawk_history::{Keeper, Off, saved_in_groups};
use rawk_patterns::Expressions;
use rawk_steps::arrival::{site_at, step};
use rawk_steps::back::{drop_newest, go_back, write_copy};
use rawk_steps::journal::journaled;
use rawk_steps::start::{copy_settings, fill_first};
use rawk_store::{Ending, Group, Phase, Registers, Store, Target};
use rawk_tape::Tape;
use rawk_told::Code;
use rawk_travel::count::Count;
use rawk_value::{Fault, Value};
use std::alloc::{AllocError, Global};
use std::marker::Model;

/// A machine at a point of the run of its code, or at its ending, with the way back to the points that its keeper keeps.
///
/// A contract sees it as a record (`Standing`); `IsAt` says that the code's run stands there on each input that may come, and
/// `Stood` that it stood at each earlier point that the machine can go back to.
#[derive(Drop)]
pub struct Machine<R: Source + Drop, K: Keeper> {
    pub(crate) code: Code,
    pub(crate) settings: Settings,
    pub(crate) store: Store,
    pub(crate) tape: Tape<R>,
    pub(crate) keeper: K,
    pub(crate) sets: Vec<SetAt>,
    // What each set changed that was made at the present point.
    pub(crate) here: Vec<Group>,
    pub(crate) last: LastMove,
    pub(crate) steps: u64,
    pub(crate) point: u64,
    pub(crate) executed: Count,
    // The expressions of texts that were sought last. No contract sees them, since no answer depends on them.
    pub(crate) expressions: Expressions,
}

impl<R: Source + Drop, K: Keeper> Model for Machine<R, K> {
    ghost use Rattle.std.specs.Prelude.{◌≡◌, Some, length, reverse};
    ghost use Rattle.rawk_devices.specs.declared.source.Ending.{Ending};
    ghost use Rattle.rawk_store.specs.Stores.{now_of};
    ghost use Rattle.rawk_machine.specs.Standing.{Standing};

    ghost Value = { Standing R };

    ghost use Rattle.std.specs.Coded.{codes, coded_list, coded_ℕ};
    ghost use Rattle.rawk_value.specs.contracts.value.Value as value;
    ghost use Rattle.rawk_code.specs.contracts.formula.Formula as formula;
    ghost use Rattle.rawk_machine.specs.Elements.{elements_code};

    ghost coded = { Prim.hlevel (codes, elements_code value.the_row.coded, formula.the_row.coded, R.code) };

    ghost use Rattle.rawk_machine.specs.Last.{last_of};
    ghost use Rattle.rawk_machine.specs.Stood.{standing_of, IsMachine};

    ghost view = { λ m. standing_of m.code m.settings m.steps m.sets.items m.point m.tape (now_of m.store) m.executed (reverse m.here.items) (K.kept m.keeper) (K.limit m.keeper) (last_of m.last (K.forth m.keeper)) };

    ghost invariant = { λ m. IsMachine m.store m.tape.consumed (length m.tape.bytes) m.point m.steps m.sets.items (reverse m.here.items) (K.kept m.keeper) (K.limit m.keeper) (last_of m.last (K.forth m.keeper)) (R.over m.tape.source ≡ Some Ending.Failed) };
}

/// What registers answer: at a point, or how the run ended.
pub(crate) fn answer(registers: &Registers) -> Step
    ensures { result ≡ step_of registers.now.ending registers.now.status }
{
    match registers.ending {
        None => Step::At,
        Some(Ending::Ended) => Step::Ended(registers.status),
        Some(Ending::Faulted(fault)) => Step::Faulted(fault),
        Some(Ending::Limited(_)) => Step::Faulted(Fault::StepLimit),
    }
}

/// The registers before the first instruction.
fn first_registers() -> Registers
    ensures { result ≡ record { place = 0; phase = Phase.InBegin; status = 0; here = 0; site = None; consumed = 0; ending = None } }
{
    Registers {
        place: 0,
        phase: Phase::InBegin,
        status: 0,
        here: 0,
        site: None,
        consumed: 0,
        ending: None,
    }
}

/// The parts before the first instruction. It fails where memory is refused.
fn first_store(alloc: Global, code: &Code, settings: &Settings) -> Result<Store, AllocError>
    ensures { IfOk result (λ s. IsFirst code.now settings.now s) }
{
    let mut store = Store::new(alloc, settings.seed(), first_registers());
    match fill_first(
        alloc,
        &mut store.globals,
        &mut store.arrays,
        &mut store.ranges,
        code,
        settings,
    ) {
        Ok(()) => {
            store.forget();
            Ok(store)
        }
        Err(refused) => {
            drop(store);
            Err(refused)
        }
    }
}

/// A copy of the first values, and the parts before the first instruction. It fails where memory is refused.
pub(crate) fn first_parts(
    alloc: Global,
    code: &Code,
    settings: &Settings,
) -> Result<(Settings, Store), AllocError>
    ensures settings { IfOk result (λ parts. parts.0 ≡ settings.now) }
    ensures first { IfOk result (λ parts. IsFirst code.now parts.0 parts.1) }
{
    let settings = copy_settings(alloc, settings)?;
    let store = first_store(alloc, code, &settings)?;
    Ok((settings, store))
}

impl<R: Source + Drop, K: Keeper> Machine<R, K> {
    /// A machine at point 0 of the run, or at an ending before it. `steps` is the number of points that the run may reach.
    /// It fails where memory is refused, and then hands the source back.
    pub fn new(
        alloc: Global,
        code: Code,
        settings: &Settings,
        source: R,
        keeper: K,
        steps: u64,
    ) -> Result<Self, (AllocError, R)>
        requires open { R.over source ≡ None }
        requires empty { K.kept keeper ≡ [] }
        ensures code { IfOk result (λ m. m.code ≡ code) }
        ensures settings { IfOk result (λ m. m.settings ≡ settings.now) }
        ensures sets { IfOk result (λ m. m.sets ≡ []) }
        ensures steps { IfOk result (λ m. m.steps ≡ steps) }
        ensures point { IfOk result (λ m. m.point ≡ 0) }
        ensures unset { IfOk result (λ m. m.unset ≡ []) }
        ensures history { IfOk result (λ m. m.history ≡ []) }
        ensures limit { IfOk result (λ m. m.limit ≡ K.limit keeper) }
        ensures may { IfOk result (λ m. (input : Input) → MayCome R.may_give m [] input → R.may_give source input) }
        ensures still { IfOk result (λ m. (gone : Bytes) → (input : Input) × MayCome R.may_give m gone input) }
        ensures stands { IfOk result (λ m. (input : Input) → MayCome R.may_give m [] input → IsAt m input [] []) }
        ensures asks { IfOk result (λ m. (input : Input) → MayCome R.may_give m [] input → AskedBy m input 0 m.tape.bytes) }
        ensures counted { IfOk result (λ m. CountsUp (R.handed source) (R.handed m.tape.source) (length m.tape.bytes)) }
        ensures stood { IfOk result (λ m. (input : Input) → MayCome R.may_give m [] input → Stood m input) }
        ensures err { IfErr result (λ refused. Unstood R.may_give R.handed code settings.now source steps refused.1) }
    {
        let (settings, mut store) = match first_parts(alloc, &code, settings) {
            Ok(parts) => parts,
            Err(refused) => {
                drop(code);
                drop(keeper);
                return Err((refused, source));
            }
        };
        let mut tape = Tape::new(alloc, source);
        let mut executed = Count::new();
        let mut expressions = Expressions::new(alloc);
        match step(
            alloc,
            &mut expressions,
            &code,
            &mut store,
            &mut tape,
            &mut executed,
            0,
            steps,
        ) {
            Ok(()) => {}
            Err(refused) => {
                drop(code);
                drop(settings);
                drop(store);
                drop(keeper);
                drop(expressions);
                return Err((refused, tape.into_source()));
            }
        }
        store.forget();
        Ok(Machine {
            code,
            settings,
            store,
            tape,
            keeper,
            sets: Vec::new(alloc),
            here: Vec::new(alloc),
            last: LastMove::Nothing,
            steps,
            point: 0,
            executed,
            expressions,
        })
    }

    /// The source, as it was left. All else is let go.
    pub fn into_source(self) -> R
        ensures { result ≡ self.tape.source }
    {
        let Machine {
            code,
            settings,
            store,
            tape,
            keeper,
            sets,
            here,
            expressions,
            ..
        } = self;
        // By calls: where they are dropped in place, the check goes through each part of them, for a minute.
        drop(code);
        drop(settings);
        drop(store);
        drop(keeper);
        drop(sets);
        drop(here);
        drop(expressions);
        tape.into_source()
    }

    /// Runs to the next point or to the ending; at the ending it answers the same again and changes nothing. The point that it leaves is
    /// kept, with its sets, and the oldest point goes where the keeper has a limit. It fails where memory is refused, and then the machine
    /// stands as before but for `executed` and for bytes read ahead.
    pub fn advance(&mut self, alloc: Global) -> Result<Step, AllocError>
        ensures code { self.new.code ≡ self.old.code }
        ensures settings { self.new.settings ≡ self.old.settings }
        ensures sets { self.new.sets ≡ self.old.sets }
        ensures steps { self.new.steps ≡ self.old.steps }
        ensures may { (gone : Bytes) (input : Input) → MayCome R.may_give self.new gone input → MayCome R.may_give self.old gone input }
        ensures still { (gone : Bytes) → (input : Input) × MayCome R.may_give self.new gone input }
        ensures stands { (input : Input) (gone handed : Bytes) → MayCome R.may_give self.new gone input → IsAt self.old input gone handed → IsAt self.new input gone handed }
        ensures asks { (input : Input) (gone handed : Bytes) → MayCome R.may_give self.new gone input → IsAt self.old input gone handed → AskedBy self.old input self.old.point (gone ++ self.old.tape.bytes) → AskedBy self.new input (self.old.point + 1) (gone ++ self.new.tape.bytes) }
        ensures draws { Draws R.over R.handed self.old.tape self.new.tape }
        ensures stood { (input : Input) → MayCome R.may_give self.new [] input → Stood self.old input → Stood self.new input }
        ensures moves { OnOk result (self.old.ending ≡ None → MovesOn self.old self.new) }
        ensures limit { self.new.limit ≡ self.old.limit }
        ensures rests { IsSome self.old.ending → self.new ≡ self.old }
        ensures err { OnErr result (Stays self.old self.new) }
        ensures within { self.new.point ≤ self.new.steps }
        ensures answer { IfOk result (λ s. s ≡ step_of self.new.ending self.new.state.status) }
        ensures counted { self.old.ending ≡ None → self.old.executed + 1 < 2 ^ 128 → self.old.executed < self.new.executed }
        ensures ran { self.old.executed ≤ self.new.executed }
        ensures quiet { IfOk result IsQuietStep }
        ensures read_failed { IfOk result (λ s. s ≡ Step.Faulted Fault.ReadFailed → R.over self.new.tape.source ≡ Some End.Failed) }
    {
        match self.store.registers.now.ending {
            None => {
                journaled(
                    alloc,
                    &mut self.expressions,
                    &self.code,
                    &mut self.store,
                    &mut self.tape,
                    &mut self.executed,
                    &mut self.keeper,
                    &mut self.here,
                    self.point + 1,
                    self.steps,
                )?;
                self.point += 1;
                self.last = LastMove::On;
                Ok(answer(&self.store.registers.now))
            }
            Some(_) => Ok(answer(&self.store.registers.now)),
        }
    }
}

impl<R: Source + Drop, K: Keeper> Machine<R, K> {
    /// Goes back to the point before, with the sets that stood there when it was left: takes back the sets of this point and the step that led
    /// here. It answers false, and changes nothing, at the oldest point that is kept. It takes no memory, reads no byte, and runs no instruction.
    pub fn retreat(&mut self) -> bool
        ensures moved { result ≡ nat_lt 0 (length self.old.history) }
        ensures back { self.new ≡ gone_back self.old.history self.old }
        ensures sets { IsTrue result → self.new.sets ≡ below self.old.point self.old.sets }
        ensures may { (gone : Bytes) (input : Input) → MayCome R.may_give self.new gone input ↔ MayCome R.may_give self.old gone input }
        ensures stood { (input : Input) → Stood self.old input → Stood self.new input }
    {
        match self.keeper.newest() {
            None => return false,
            Some(_) => {}
        }
        let made_here = self.here.len();
        go_back(&mut self.store, &mut self.keeper, &mut self.here);
        drop_newest(&mut self.sets, made_here);
        self.tape.consume(self.store.registers.now.consumed);
        self.last = LastMove::Back;
        self.point -= 1;
        true
    }

    /// Takes back the last set made at this point, and answers whether there was one. It takes no memory.
    pub fn take_back(&mut self) -> bool
        ensures taken { result ≡ nat_lt 0 (length self.old.unset) }
        ensures back { self.new ≡ taken_back self.old.unset self.old }
        ensures may { (gone : Bytes) (input : Input) → MayCome R.may_give self.new gone input ↔ MayCome R.may_give self.old gone input }
        ensures stood { (input : Input) → Stood self.old input → Stood self.new input }
    {
        let Some(mut group) = self.here.pop() else {
            return false;
        };
        self.store.undo(&mut group);
        drop(group);
        self.tape.consume(self.store.registers.now.consumed);
        let last = self.sets.pop();
        drop(last);
        self.last = LastMove::Nothing;
        true
    }

    /// Sets a place to a value at this point, as an assignment of the program does; where that is a fault it answers the fault, and nothing
    /// changes. It fails where memory is refused, and then nothing has changed.
    pub fn set(
        &mut self,
        alloc: Global,
        target: Target,
        value: Value,
    ) -> Result<Option<Fault>, AllocError>
        requires { self.old.ending ≡ None }
        ensures made { IfOk result (λ fault. IsSet fault target value self.old self.new) }
        ensures fault { IfOk result (λ fault. fault ≡ fault_of (assigned target value self.old.state)) }
        ensures err { OnErr result (self.new ≡ self.old) }
        ensures code { self.new.code ≡ self.old.code }
        ensures limit { self.new.limit ≡ self.old.limit }
        ensures may { (gone : Bytes) (input : Input) → MayCome R.may_give self.new gone input ↔ MayCome R.may_give self.old gone input }
        ensures stood { (input : Input) → Stood self.old input → Stood self.new input }
    {
        let _consumed = self.tape.consumed();
        let written = match write_copy(
            alloc,
            &mut self.store,
            &mut self.here,
            &mut self.sets,
            &target,
            &value,
        ) {
            Ok(written) => written,
            Err(refused) => {
                drop(target);
                drop(value);
                return Err(refused);
            }
        };
        match written {
            None => {}
            Some(fault) => {
                drop(target);
                drop(value);
                return Ok(Some(fault));
            }
        }
        self.sets.push(SetAt {
            point: self.point,
            target,
            value,
        })?;
        self.last = LastMove::Nothing;
        Ok(None)
    }
}

impl<R: Source + Drop, K: Keeper> Machine<R, K> {
    /// The number of the present point, or of the ending.
    pub fn point(&self) -> u64
        ensures { result ≡ self.now.point }
    {
        self.point
    }

    /// The site of the present point, or that of the ending; the reading of a record and an end without fault have none.
    pub fn site(&self) -> Option<usize>
        ensures { result ≡ self.now.site }
    {
        let registers = &self.store.registers.now;
        match registers.ending {
            None => registers.site,
            Some(ending) => site_at(ending, registers.site),
        }
    }

    /// How many instructions were ever run; it stays at the greatest number of 128 bits.
    pub fn executed(&self) -> u128
        ensures { result ≡ self.now.executed }
    {
        self.executed.total()
    }

    /// How many old values of globals, elements and records are kept that lead back: for each step and each set one for each of them that it wrote. No
    /// clause says that others have none. It takes no memory, looks at each step that is kept, and stays at the greatest number of 128 bits.
    pub fn kept(&self) -> u128
        ensures { old_values self.now < 2 ^ 128 → result ≡ old_values self.now }
    {
        saved_in_groups(&self.here).saturating_add(self.keeper.saved())
    }

    /// The exit status so far.
    pub fn status(&self) -> u8
        ensures { result ≡ self.now.state.status }
    {
        self.store.registers.now.status
    }

    /// What the machine stands at: what the last `advance` answered. After `new` it tells whether the run is over before point 0.
    pub fn step(&self) -> Step
        ensures answer { result ≡ step_of self.now.ending self.now.state.status }
        ensures quiet { IsQuietStep result }
        ensures read_failed { result ≡ Step.Faulted Fault.ReadFailed → R.over self.now.tape.source ≡ Some End.Failed }
    {
        answer(&self.store.registers.now)
    }

    /// How many bytes were read ahead, and how many bytes of output were not given yet.
    pub fn held(&self) -> (usize, usize)
        ensures ahead { result.0 + self.now.tape.consumed ≡ length self.now.tape.bytes }
        ensures output { result.1 ≡ length self.now.state.output }
    {
        (self.tape.held(), self.store.output.bytes().len())
    }
}

impl<R: Source + Drop> Machine<R, Off> {
    /// Gives the output that was not given yet into a buffer, whose room is used for the next output: a step so costs no
    /// allocation. What the buffer held is dropped. It takes no memory.
    pub fn give_into(&mut self, buffer: &mut Vec<u8>)
        requires { self.old.unset ≡ [] }
        ensures given { buffer.new.items ≡ self.old.state.output }
        ensures rest { self.new ≡ record self.old { state = record self.old.state { output = [] } } }
        ensures may { (gone : Bytes) (input : Input) → MayCome R.may_give self.new gone input ↔ MayCome R.may_give self.old gone input }
        ensures stands { (input : Input) (gone handed : Bytes) → IsAt self.old input gone handed → IsAt self.new input gone (handed ++ buffer.new.items) }
    {
        self.store.output.give(buffer);
    }

    /// The output that was not given yet, moved out. It takes no memory.
    pub fn give(&mut self, alloc: Global) -> Vec<u8>
        requires { self.old.unset ≡ [] }
        ensures given { result.items ≡ self.old.state.output }
        ensures rest { self.new ≡ record self.old { state = record self.old.state { output = [] } } }
        ensures may { (gone : Bytes) (input : Input) → MayCome R.may_give self.new gone input ↔ MayCome R.may_give self.old gone input }
        ensures stands { (input : Input) (gone handed : Bytes) → IsAt self.old input gone handed → IsAt self.new input gone (handed ++ result.items) }
    {
        let mut buffer = Vec::new(alloc);
        self.give_into(&mut buffer);
        buffer
    }
}

impl<R: Source + Drop> Machine<R, Off> {
    /// Lets consumed bytes go, as `drop_consumed` does.
    fn drop_front(&mut self) -> usize
        requires { self.old.unset ≡ [] }
        ensures dropped { self.new ≡ dropped result self.old }
        ensures within { result ≤ length self.old.tape.bytes }
        ensures consumed { result ≤ self.old.state.consumed }
        ensures fewer { 2 * self.new.tape.consumed ≤ length self.new.tape.bytes }
    {
        let consumed = self.tape.consumed();
        let size = self.tape.forget();
        if size == 0 {
            return size;
        }
        self.store.registers.now.consumed = consumed - size;
        self.store.registers.start.consumed = consumed - size;
        size
    }

    /// Removes slots of arrays that are empty, where most of them are: no contract sees it. Where memory for that is refused, they stay.
    fn pack(&mut self, alloc: Global)
        requires { self.old.unset ≡ [] }
        ensures { self.new ≡ self.old }
    {
        self.store.pack(alloc);
    }

    /// Lets consumed bytes of the input go, once they are half of those kept, and answers how many. Each byte is so moved once on
    /// average. Slots of arrays go that are empty, where most of them are; where memory for moving the others is refused, they stay.
    pub fn drop_consumed(&mut self, alloc: Global) -> usize
        requires { self.old.unset ≡ [] }
        ensures dropped { self.new ≡ dropped result self.old }
        ensures fewer { 2 * self.new.tape.consumed ≤ length self.new.tape.bytes }
        ensures may { (gone : Bytes) (input : Input) → MayCome R.may_give self.new (gone ++ take result self.old.tape.bytes) input ↔ MayCome R.may_give self.old gone input }
        ensures stands { (input : Input) (gone handed : Bytes) → IsAt self.new input (gone ++ take result self.old.tape.bytes) handed ↔ IsAt self.old input gone handed }
    {
        let size = self.drop_front();
        self.pack(alloc);
        size
    }
}
