//! Activations of functions, with their locals.

ghost use Rattle.std.specs.Prelude.{◌≡◌, ◌<◌, ◌≤◌, ◌∷◌, [], IfNone, IfOk, IfSome, MatchOption, None, OnErr, OnOk, Some, length, slice_get, slice_set};
ghost use Rattle.std.specs.Bool.{OnFalse, OnTrue};
ghost use Rattle.std.specs.Option.{option_copied};
ghost use Rattle.rawk_slots.specs.Journaled.{at_rest};
ghost use Rattle.rawk_slots.specs.StackGroups.{first_if, rest_if};
ghost use Rattle.rawk_slots.specs.Stacked.{live_slots, live_values};
ghost use Rattle.rawk_frames.specs.Frame.{Frame, HasLonger, HasLongerAt, IsLonger, IsOf, locals_now, new_frame, with_local, with_more};
ghost use Rattle.rawk_frames.specs.LaidFrames.{AreFramesLive, AreNested, GrownFrames, IsBase, IsPlace, frames_from, frames_of, no_frames, returns_of};
ghost use Rattle.rawk_frames.specs.FramesBack.{FitsFrames, frames_back};
ghost use Rattle.rawk_frames.specs.FramesChanges.{changed_frames};

use crate::next_local::{add_light_to, add_moved_to};
use rawk_slots::{Reversible, Stack, StackGroup, StackGroups};
use rawk_value::Value;
use std::alloc::{AllocError, Global};
use std::marker::Model;

/// Where locals begin that are not there: behind any.
const NONE: usize = usize::MAX;

/// A local of an activation (POSIX awk, User-Defined Functions): a value, or the number of an array.
#[derive(Drop)]
pub enum Local {
    Holds(Value),
    Names(usize),
}

/// What is kept of an activation beside its locals: its function, where its locals begin, how many arrays there were before it,
/// its calling point with its site, and the place of the code to which it returns.
#[derive(Clone, Copy)]
pub struct Activation {
    pub function: usize,
    pub base: usize,
    pub arrays_before: usize,
    pub called_at: u64,
    pub site: Option<usize>,
    pub return_to: usize,
}

/// The activations, beside what they were when the step began.
#[derive(Drop)]
pub struct Frames {
    frames: Stack<Activation>,
    locals: Stack<Local>,
    // where the locals of the newest activation begin; past all of them where there is none
    base: usize,
}

impl Model for Frames {
    ghost use Rattle.rawk_slots.specs.Journaled.{Journaled};
    ghost use Rattle.rawk_frames.specs.LaidFrames.{LaidFrames, AreFrames};

    ghost Value = { Journaled LaidFrames };

    ghost view = { λ f. record {
      now = record { frames = f.frames.now; locals = f.locals.now };
      start = record { frames = f.frames.start; locals = f.locals.start };
    } };

    ghost invariant = { λ f. AreFrames f.base f.frames f.locals };
}

/// What a step changed in the activations and in their locals, in each if it changed anything there.
#[derive(Drop)]
pub struct FramesGroup {
    pub frames: Option<StackGroup<Activation>>,
    pub locals: Option<StackGroup<Local>>,
}

/// A change of the activations.
#[derive(Drop)]
pub enum FramesChange {
    Enter {
        function: usize,
        arrays_before: usize,
        called_at: u64,
        site: Option<usize>,
        return_to: usize,
    },
    AddLocal(Local),
    SetLocal {
        number: usize,
        local: Local,
    },
    Leave,
    LeaveAll,
}

impl Frames {
    /// No activations. It takes no memory.
    pub fn new(alloc: Global) -> Self
        ensures { result ≡ at_rest no_frames }
    {
        Frames {
            frames: Stack::new(alloc),
            locals: Stack::new(alloc),
            base: NONE,
        }
    }

    /// How many activations there are.
    pub fn depth(&self) -> usize
        ensures { result ≡ length (frames_of self.now.now) }
    {
        depth_of(&self.frames, &self.locals)
    }

    /// An activation, counted from the newest, which is 0.
    pub fn frame(&self, number: usize) -> Option<&Activation>
        ensures { MatchOption result (slice_get (frames_of self.now.now) number ≡ None) (λ a. (f : Frame) × (slice_get (frames_of self.now.now) number ≡ Some f) × IsOf a.now f) }
    {
        frame_of(&self.frames, &self.locals, number)
    }

    /// A local of the newest activation, by its number from 0.
    #[inline(always)]
    pub fn local(&self, number: usize) -> Option<&Local>
        ensures { option_copied result ≡ slice_get (locals_now (frames_of self.now.now)) number }
    {
        local_of(self.base, &self.frames, &self.locals, number)
    }

    /// Writes a local of the newest activation; a number that is none changes nothing. It fails where memory is refused, and then nothing has changed.
    #[inline(always)]
    pub fn set_local<const SAVES: bool>(
        &mut self,
        number: usize,
        local: Local,
    ) -> Result<(), AllocError>
        ensures did { OnOk result (frames_of self.new.now ≡ with_local number local (frames_of self.old.now)) }
        ensures returns { returns_of self.new.now ≡ returns_of self.old.now }
        ensures start { OnTrue SAVES (self.new.start ≡ self.old.start) }
        ensures err { OnErr result (self.new.now ≡ self.old.now) }
    {
        set_local_of::<SAVES>(self.base, &self.frames, &mut self.locals, number, local)
    }

    /// Gives a local of the newest activation a number; a number that is none changes nothing. Where nothing is saved and the local holds a number, no more than that is written. It fails where memory is
    /// refused, and then no activation has changed.
    #[inline(always)]
    pub fn set_local_number<const SAVES: bool>(
        &mut self,
        number: usize,
        n: i64,
    ) -> Result<(), AllocError>
        ensures did { OnOk result (frames_of self.new.now ≡ with_local number (Local.Holds (Value.Number n)) (frames_of self.old.now)) }
        ensures returns { returns_of self.new.now ≡ returns_of self.old.now }
        ensures start { OnTrue SAVES (self.new.start ≡ self.old.start) }
        ensures err { OnErr result (frames_of self.new.now ≡ frames_of self.old.now) }
    {
        if !SAVES && self.renumber_local(number, n) {
            return Ok(());
        }
        self.set_local_number_apart::<SAVES>(number, n)
    }

    /// Writes a number over the number that a local of the newest activation holds, and answers whether that was done; else no local changes. What the step changed before is forgotten. It
    /// takes no memory.
    #[inline(always)]
    pub fn renumber_local(&mut self, number: usize, n: i64) -> bool
        ensures done { OnTrue result (frames_of self.new.now ≡ with_local number (Local.Holds (Value.Number n)) (frames_of self.old.now)) }
        ensures other { OnFalse result (frames_of self.new.now ≡ frames_of self.old.now) }
        ensures returns { returns_of self.new.now ≡ returns_of self.old.now }
    {
        renumber_local_of(self.base, &self.frames, &mut self.locals, number, n)
    }

    /// Gives a local of the newest activation a number, whatever it is, by a call of its own.
    #[inline(never)]
    fn set_local_number_apart<const SAVES: bool>(
        &mut self,
        number: usize,
        n: i64,
    ) -> Result<(), AllocError>
        ensures did { OnOk result (frames_of self.new.now ≡ with_local number (Local.Holds (Value.Number n)) (frames_of self.old.now)) }
        ensures returns { returns_of self.new.now ≡ returns_of self.old.now }
        ensures start { OnTrue SAVES (self.new.start ≡ self.old.start) }
        ensures err { OnErr result (self.new.now ≡ self.old.now) }
    {
        self.set_local::<SAVES>(number, Local::Holds(Value::Number(n)))
    }

    /// Puts bytes behind the text that a local of the newest activation holds, by its number from 0, where it stands, and answers whether one stands there that the program
    /// made; else nothing has changed. It saves nothing: nothing is said of the step's beginning then. It fails where memory is refused, and then nothing has changed.
    #[inline(always)]
    pub fn append_local(
        &mut self,
        alloc: Global,
        number: usize,
        more: &[u8],
    ) -> Result<bool, AllocError>
        ensures did { IfOk result (λ done. OnTrue done (HasLonger number more.now (frames_of self.old.now) (frames_of self.new.now))) }
        ensures other { IfOk result (λ done. OnFalse done (frames_of self.new.now ≡ frames_of self.old.now)) }
        ensures returns { returns_of self.new.now ≡ returns_of self.old.now }
        ensures err { OnErr result (frames_of self.new.now ≡ frames_of self.old.now) }
    {
        append_local_of(
            self.base,
            &self.frames,
            &mut self.locals,
            alloc,
            number,
            more,
        )
    }

    /// Adds an activation with no locals. It fails where memory is refused.
    #[inline(always)]
    pub fn enter<const SAVES: bool>(
        &mut self,
        function: usize,
        arrays_before: usize,
        called_at: u64,
        site: Option<usize>,
        return_to: usize,
    ) -> Result<(), AllocError>
        ensures did { OnOk result (frames_of self.new.now ≡ new_frame function arrays_before called_at site ∷ frames_of self.old.now) }
        ensures returns { OnOk result (returns_of self.new.now ≡ return_to ∷ returns_of self.old.now) }
        ensures start { OnTrue SAVES (GrownFrames self.old.start self.new.start) }
    {
        let base = self.locals.len();
        self.frames.push::<SAVES>(Activation {
            function,
            base,
            arrays_before,
            called_at,
            site,
            return_to,
        })?;
        self.base = base;
        Ok(())
    }

    /// Adds a local to the newest activation. It fails where memory is refused.
    #[inline(always)]
    pub fn add_local<const SAVES: bool>(&mut self, local: Local) -> Result<(), AllocError>
        ensures did { OnOk result (frames_of self.new.now ≡ with_more local (frames_of self.old.now)) }
        ensures returns { OnOk result (returns_of self.new.now ≡ returns_of self.old.now) }
        ensures start { OnTrue SAVES (GrownFrames self.old.start self.new.start) }
    {
        self.locals.push::<SAVES>(local)?;
        Ok(())
    }

    /// Whether there is a slot for one more activation; that it is told of where it is there, no clause says.
    #[inline(always)]
    pub fn has_next(&self) -> bool
        ensures { OnTrue result (self.now.now.frames.live < length self.now.now.frames.slots) }
    {
        self.frames.has_next()
    }

    /// Adds a local to the newest activation, with a copy of this value, where that takes no memory and drops none: where it is a number or no value, and so is what stands in the slot behind the locals.
    /// It answers whether that was done; else no activation changes. It saves nothing: nothing is said of the step's beginning then.
    #[inline(always)]
    pub fn add_light(&mut self, value: &Value) -> bool
        ensures done { OnTrue result (frames_of self.new.now ≡ with_more (Local.Holds value.now) (frames_of self.old.now)) }
        ensures other { OnFalse result (frames_of self.new.now ≡ frames_of self.old.now) }
        ensures returns { returns_of self.new.now ≡ returns_of self.old.now }
    {
        add_light_to(&mut self.locals, value)
    }

    /// Adds a local to the newest activation, with this value, where the slot behind the locals holds a value, which is left in its place. It answers whether that was done; else no activation changes,
    /// and neither does the value. It takes no memory and drops none. It saves nothing: nothing is said of the step's beginning then.
    #[inline(always)]
    pub fn add_moved(&mut self, value: &mut Value) -> bool
        ensures done { OnTrue result (frames_of self.new.now ≡ with_more (Local.Holds value.old) (frames_of self.old.now)) }
        ensures other { OnFalse result (frames_of self.new.now ≡ frames_of self.old.now) }
        ensures same { OnFalse result (value.new ≡ value.old) }
        ensures returns { returns_of self.new.now ≡ returns_of self.old.now }
    {
        add_moved_to(&mut self.locals, value)
    }

    /// Drops the newest activation with its locals, and gives what is kept of it beside them.
    #[inline(always)]
    pub fn leave(&mut self) -> Option<Activation>
        ensures left { MatchOption result (frames_of self.old.now ≡ []) (λ a. (f : Frame) × (frames_of self.old.now ≡ f ∷ frames_of self.new.now) × IsOf a f) }
        ensures returns { MatchOption result (returns_of self.old.now ≡ []) (λ a. returns_of self.old.now ≡ a.return_to ∷ returns_of self.new.now) }
        ensures none { MatchOption result (self.new.now ≡ self.old.now) (λ a. Unit {0}) }
        ensures start { self.new.start ≡ self.old.start }
    {
        let activation = *self.frames.newest(0)?;
        self.frames.drop_newest(1);
        self.locals.truncate(activation.base);
        self.base = newest_base(&self.frames);
        Some(activation)
    }

    /// Drops all activations.
    pub fn leave_all(&mut self)
        ensures did { frames_of self.new.now ≡ [] }
        ensures returns { returns_of self.new.now ≡ [] }
        ensures start { self.new.start ≡ self.old.start }
    {
        self.frames.clear();
        self.locals.clear();
        self.base = NONE;
    }

    /// Ends the step, and gives what it changed. It takes no memory.
    pub fn finish(&mut self, alloc: Global) -> FramesGroup
        requires nested { AreNested self.old.start }
        ensures now { self.new ≡ at_rest self.old.now }
        ensures back { frames_back self.old.now result ≡ self.old.start }
        ensures fits { FitsFrames result self.old.now }
        ensures nested { AreNested self.old.now }
        ensures live { AreFramesLive self.old.now }
    {
        FramesGroup {
            frames: Some(self.frames.finish(alloc)),
            locals: Some(self.locals.finish(alloc)),
        }
    }

    /// Room for one more step. Where memory is refused, no step has changed.
    #[inline]
    pub(crate) fn reserve(
        &self,
        frames: &mut StackGroups<Activation>,
        locals: &mut StackGroups<Local>,
    ) -> Result<(), AllocError>
        ensures frames { frames.new.groups ≡ frames.old.groups }
        ensures locals { locals.new.groups ≡ locals.old.groups }
        ensures frames_room { OnOk result (length self.now.now.frames.slots < frames.new.room) }
        ensures locals_room { OnOk result (length self.now.now.locals.slots < locals.new.room) }
    {
        frames.reserve(&self.frames)?;
        locals.reserve(&self.locals)
    }

    /// Ends the step, for which there is room, adds what it changed in activations and in locals, and answers for each whether that was anything. It takes no memory.
    #[inline]
    pub(crate) fn keep(
        &mut self,
        frames: &mut StackGroups<Activation>,
        locals: &mut StackGroups<Local>,
    ) -> (bool, bool)
        requires nested { AreNested self.old.start }
        requires frames_room { length self.old.now.frames.slots < frames.old.room }
        requires locals_room { length self.old.now.locals.slots < locals.old.room }
        ensures now { self.new ≡ at_rest self.old.now }
        ensures back { frames_back self.old.now (record { frames = first_if result.0 frames.new.groups; locals = first_if result.1 locals.new.groups }) ≡ self.old.start }
        ensures fits { FitsFrames (record { frames = first_if result.0 frames.new.groups; locals = first_if result.1 locals.new.groups }) self.old.now }
        ensures frames { rest_if result.0 frames.new.groups ≡ frames.old.groups }
        ensures locals { rest_if result.1 locals.new.groups ≡ locals.old.groups }
        ensures nested { AreNested self.old.now }
        ensures live { AreFramesLive self.old.now }
    {
        let has_frames = frames.keep(&mut self.frames);
        let has_locals = locals.keep(&mut self.locals);
        (has_frames, has_locals)
    }

    /// Puts back the newest step that was kept, where the step that is put back changed activations or locals, and drops it. It takes no memory and always succeeds.
    pub(crate) fn put_back(
        &mut self,
        frames: &mut StackGroups<Activation>,
        has_frames: bool,
        locals: &mut StackGroups<Local>,
        has_locals: bool,
    )
        requires { FitsFrames (record { frames = first_if has_frames frames.old.groups; locals = first_if has_locals locals.old.groups }) self.old.now }
        ensures now { self.new ≡ at_rest (frames_back self.old.now (record { frames = first_if has_frames frames.old.groups; locals = first_if has_locals locals.old.groups })) }
        ensures frames { frames.new.groups ≡ rest_if has_frames frames.old.groups }
        ensures locals { locals.new.groups ≡ rest_if has_locals locals.old.groups }
        ensures nested { AreNested self.new.now }
        ensures live { AreFramesLive self.new.now }
    {
        frames.put_back(&mut self.frames, has_frames);
        locals.put_back(&mut self.locals, has_locals);
        self.base = newest_base(&self.frames);
    }

    /// What is so of all activations. It does nothing.
    #[inline]
    pub fn known(&self)
        ensures nested { AreNested self.now.now }
        ensures live { AreFramesLive self.now.now }
    {
        self.frames.known();
        self.locals.known();
    }

    /// Ends the step, and forgets what it changed. It takes no memory.
    pub fn forget(&mut self)
        ensures now { self.new ≡ at_rest self.old.now }
        ensures nested { AreNested self.old.now }
        ensures live { AreFramesLive self.old.now }
    {
        self.frames.forget();
        self.locals.forget();
    }

    /// Puts back what the step in progress changed. It takes no memory and always succeeds.
    pub fn undo_step(&mut self)
        requires nested { AreNested self.old.start }
        ensures now { self.new ≡ at_rest self.old.start }
        ensures nested { AreNested self.old.start }
        ensures live { AreFramesLive self.old.start }
    {
        self.frames.undo_step();
        self.locals.undo_step();
        self.base = newest_base(&self.frames);
    }

    /// Puts back what a step that ended changed, and leaves the newer activations in the group. It takes no memory and always succeeds.
    pub fn undo(&mut self, group: &mut FramesGroup)
        requires { FitsFrames group.old self.old.now }
        ensures now { self.new ≡ at_rest (frames_back self.old.now group.old) }
        ensures newer { frames_back self.new.now group.new ≡ self.old.now }
        ensures nested { AreNested self.new.now }
        ensures live { AreFramesLive self.new.now }
    {
        self.frames.undo_if(&mut group.frames);
        self.locals.undo_if(&mut group.locals);
        self.base = newest_base(&self.frames);
    }

    /// Makes a change within the step in progress. It fails where memory is refused.
    fn change(&mut self, change: FramesChange) -> Result<(), AllocError>
        ensures did { OnOk result (frames_of self.new.now ≡ changed_frames change (frames_of self.old.now)) }
        ensures start { GrownFrames self.old.start self.new.start }
    {
        match change {
            FramesChange::Enter {
                function,
                arrays_before,
                called_at,
                site,
                return_to,
            } => self.enter::<true>(function, arrays_before, called_at, site, return_to),
            FramesChange::AddLocal(local) => self.add_local::<true>(local),
            FramesChange::SetLocal { number, local } => self.set_local::<true>(number, local),
            FramesChange::Leave => {
                let _left = self.leave();
                Ok(())
            }
            FramesChange::LeaveAll => {
                self.leave_all();
                Ok(())
            }
        }
    }
}

impl Reversible for Frames {
    ghost use Rattle.std.specs.Prelude.{◌≡◌, List};
    ghost use Rattle.std.proofs.Common.{◌∙◌, sym};
    ghost use Rattle.rawk_frames.specs.Frame.{Frame};
    ghost use Rattle.rawk_frames.specs.LaidFrames.{IsSameFrames, frames_of};
    ghost use Rattle.rawk_frames.specs.FramesBack.{FitsFrames, frames_back};
    ghost use Rattle.rawk_frames.specs.FramesChanges.{changed_frames};
    ghost use Rattle.rawk_frames.specs.FramesLaws.{IsSameFrames-refl};

    type Change = FramesChange;

    type Undo = FramesGroup;

    ghost Seen = { List Frame };

    ghost sees = { λ part. frames_of part.now };

    ghost grown = { λ old new. IsSameFrames old.now new.now };

    ghost makes = { λ old change new. frames_of new.now ≡ changed_frames change (frames_of old.now) };

    ghost leads_back = { λ now undo earlier. FitsFrames undo now.now × IsSameFrames earlier.now (frames_back now.now undo) };

    ghost grown_same = { λ part. IsSameFrames-refl part.now };

    ghost grown_seen = { λ old new h. h.same };

    ghost makes_one = { λ old new other change h k. h ∙ sym k };

    fn apply(&mut self, alloc: Global, change: FramesChange) -> Result<FramesGroup, AllocError> {
        self.forget();
        match self.change(change) {
            Ok(()) => Ok(self.finish(alloc)),
            Err(error) => {
                self.undo_step();
                Err(error)
            }
        }
    }

    fn undo(&mut self, undo: &mut FramesGroup) {
        self.undo(undo);
    }
}

/// How many activations there are. The locals are read by the clauses alone.
fn depth_of(frames: &Stack<Activation>, locals: &Stack<Local>) -> usize
    ensures { result ≡ length (frames_from (live_values frames.now.now) (live_slots locals.now.now)) }
{
    frames.len()
}

/// What is kept of an activation. The locals are read by the clauses alone.
fn frame_of<'a>(
    frames: &'a Stack<Activation>,
    locals: &Stack<Local>,
    number: usize,
) -> Option<&'a Activation>
    ensures { let all = frames_from (live_values frames.now.now) (live_slots locals.now.now) in MatchOption result (slice_get all number ≡ None) (λ a. (f : Frame) × (slice_get all number ≡ Some f) × IsOf a.now f) }
{
    match frames.newest(number) {
        Some(activation) => Some(activation),
        None => None,
    }
}

/// Where the locals of the newest activation begin.
#[inline(always)]
fn newest_base(frames: &Stack<Activation>) -> usize
    ensures { IsBase result (live_values frames.now.now) }
{
    match frames.newest(0) {
        Some(newest) => newest.base,
        None => NONE,
    }
}

/// Where a local of the newest activation stands, whose locals begin at `base`. The activations are read by the clauses alone.
#[inline(always)]
fn place_of(
    base: usize,
    frames: &Stack<Activation>,
    locals: &Stack<Local>,
    number: usize,
) -> Option<usize>
    requires { IsBase base (live_values frames.now.now) }
    ensures found { IfSome result (λ p. IsPlace number (live_values frames.now.now) (live_slots locals.now.now) p) }
    ensures absent { IfNone result (length (locals_now (frames_from (live_values frames.now.now) (live_slots locals.now.now))) ≤ number) }
{
    let count = locals.len();
    let place = base.saturating_add(number);
    if place < count {
        return Some(place);
    }
    None
}

/// A local of the newest activation.
#[inline(always)]
fn local_of<'a>(
    base: usize,
    frames: &Stack<Activation>,
    locals: &'a Stack<Local>,
    number: usize,
) -> Option<&'a Local>
    requires { IsBase base (live_values frames.now.now) }
    ensures { option_copied result ≡ slice_get (locals_now (frames_from (live_values frames.now.now) (live_slots locals.now.now))) number }
{
    match place_of(base, frames, locals, number) {
        Some(place) => locals.oldest(place),
        None => None,
    }
}

/// Writes a local of the newest activation.
#[inline(always)]
fn set_local_of<const SAVES: bool>(
    base: usize,
    frames: &Stack<Activation>,
    locals: &mut Stack<Local>,
    number: usize,
    local: Local,
) -> Result<(), AllocError>
    requires { IsBase base (live_values frames.now.now) }
    ensures did { OnOk result (frames_from (live_values frames.now.now) (live_slots locals.new.now) ≡ with_local number local (frames_from (live_values frames.now.now) (live_slots locals.old.now))) }
    ensures start { OnTrue SAVES (locals.new.start ≡ locals.old.start) }
    ensures err { OnErr result (locals.new.now ≡ locals.old.now) }
    ensures size { length (live_slots locals.new.now) ≡ length (live_slots locals.old.now) }
{
    match place_of(base, frames, locals, number) {
        Some(place) => locals.set_oldest::<SAVES>(place, local)?,
        None => {}
    }
    Ok(())
}

/// Writes a number over the number that a local of the newest activation holds, and answers whether that was done.
#[inline(always)]
fn renumber_local_of(
    base: usize,
    frames: &Stack<Activation>,
    locals: &mut Stack<Local>,
    number: usize,
    n: i64,
) -> bool
    requires { IsBase base (live_values frames.now.now) }
    ensures done { OnTrue result (frames_from (live_values frames.now.now) (live_slots locals.new.now) ≡ with_local number (Local.Holds (Value.Number n)) (frames_from (live_values frames.now.now) (live_slots locals.old.now))) }
    ensures other { OnFalse result (live_slots locals.new.now ≡ live_slots locals.old.now) }
    ensures size { length (live_slots locals.new.now) ≡ length (live_slots locals.old.now) }
{
    match place_of(base, frames, locals, number) {
        Some(place) => renumber_at(locals, place, n),
        None => false,
    }
}

/// The same of a local that is counted from the oldest.
#[inline(always)]
fn renumber_at(locals: &mut Stack<Local>, place: usize, n: i64) -> bool
    requires { place < length (live_slots locals.old.now) }
    ensures done { OnTrue result (live_slots locals.new.now ≡ slice_set (live_slots locals.old.now) place (Local.Holds (Value.Number n))) }
    ensures other { OnFalse result (live_slots locals.new.now ≡ live_slots locals.old.now) }
    ensures size { length (live_slots locals.new.now) ≡ length (live_slots locals.old.now) }
{
    match locals.lend_oldest(place) {
        Local::Holds(value) => renumber(value, n),
        Local::Names(_) => false,
    }
}

/// Writes a number over a number, and answers whether that was done.
#[inline(always)]
fn renumber(value: &mut Value, n: i64) -> bool
    ensures done { OnTrue result (value.new ≡ Value.Number n) }
    ensures other { OnFalse result (value.new ≡ value.old) }
{
    match value {
        Value::Number(held) => {
            *held = n;
            true
        }
        _ => false,
    }
}

/// Puts bytes behind the text that a local of the newest activation holds, and answers whether one stands there that the program made.
#[inline(always)]
fn append_local_of(
    base: usize,
    frames: &Stack<Activation>,
    locals: &mut Stack<Local>,
    alloc: Global,
    number: usize,
    more: &[u8],
) -> Result<bool, AllocError>
    requires { IsBase base (live_values frames.now.now) }
    ensures did { IfOk result (λ done. OnTrue done (HasLonger number more.now (frames_from (live_values frames.now.now) (live_slots locals.old.now)) (frames_from (live_values frames.now.now) (live_slots locals.new.now)))) }
    ensures other { IfOk result (λ done. OnFalse done (live_slots locals.new.now ≡ live_slots locals.old.now)) }
    ensures err { OnErr result (live_slots locals.new.now ≡ live_slots locals.old.now) }
    ensures size { length (live_slots locals.new.now) ≡ length (live_slots locals.old.now) }
{
    match place_of(base, frames, locals, number) {
        Some(place) => append_at(locals, alloc, place, more),
        None => Ok(false),
    }
}

/// The same of a local that is counted from the oldest.
#[inline(always)]
fn append_at(
    locals: &mut Stack<Local>,
    alloc: Global,
    place: usize,
    more: &[u8],
) -> Result<bool, AllocError>
    requires { place < length (live_slots locals.old.now) }
    ensures did { IfOk result (λ done. OnTrue done (HasLongerAt place more.now (live_slots locals.old.now) (live_slots locals.new.now))) }
    ensures other { IfOk result (λ done. OnFalse done (live_slots locals.new.now ≡ live_slots locals.old.now)) }
    ensures err { OnErr result (live_slots locals.new.now ≡ live_slots locals.old.now) }
    ensures size { length (live_slots locals.new.now) ≡ length (live_slots locals.old.now) }
{
    match locals.lend_oldest(place) {
        Local::Holds(value) => lengthen(alloc, value, more),
        Local::Names(_) => Ok(false),
    }
}

/// Puts bytes behind a text that the program made, in place where nobody shares it, and answers whether the value is one.
#[inline(always)]
fn lengthen(alloc: Global, value: &mut Value, more: &[u8]) -> Result<bool, AllocError>
    ensures did { IfOk result (λ done. OnTrue done (IsLonger more.now value.old value.new)) }
    ensures other { IfOk result (λ done. OnFalse done (value.new ≡ value.old)) }
    ensures err { OnErr result (value.new ≡ value.old) }
{
    match value {
        Value::String(text) => {
            text.append(alloc, more)?;
            Ok(true)
        }
        _ => Ok(false),
    }
}
