//! Keepers of what leads back.

ghost use Rattle.std.specs.Prelude.{◌≡◌, ◌∷◌, ℕ, List, [], MatchOption, OnErr, OnOk, None, Option, Some};
ghost use Rattle.std.specs.Bool.{OnFalse};
ghost use Rattle.std.specs.Option.{option_copied};
ghost use Rattle.rawk_history.specs.Steps.{Forth, Kept};
ghost use Rattle.rawk_store.specs.GroupBack.{FitsIn};
ghost use Rattle.rawk_history.specs.Keeping.{IsPutBack, KeepsStep, keeps_any};
ghost use Rattle.rawk_store.specs.Layout.{IsSound};
ghost use Rattle.rawk_history.specs.Saving.{Counts, saved_by_all};
ghost use Rattle.rawk_store.specs.Stores.{BeganNested, now_of, start_of};

use rawk_store::{Group, RareChanges, Record, Saved, Store};
use rawk_value::Value;
use std::alloc::{AllocError, Global};

/// What a step changed, but for output and registers, lent: the old values, or the newer ones after the step was put back.
#[derive(Clone, Copy)]
pub struct StepRef<'a> {
    pub globals: &'a [Saved<Value>],
    pub current: Option<&'a Record>,
    pub others: Option<&'a RareChanges>,
}

/// Keeps what steps changed, and puts the newest back.
pub trait Keeper: Drop {
    // What it keeps, the newest first.
    ghost kept: { Self → List Kept };

    // How many steps it keeps at most, where there is a limit.
    ghost limit: { Self → Option ℕ };

    // What leads forward over the step that was put back last, until one is kept.
    ghost forth: { Self → Option Forth };

    /// Whether it keeps any step.
    fn keeps(&self) -> bool
        ensures limit { result ≡ keeps_any (limit self.now) }
        ensures none { OnFalse result (kept self.now ≡ []) };

    /// Ends the step in progress and keeps what it changed, with the groups of the sets that were made at the point that it left; the oldest step may go. Where
    /// memory is refused, nothing has changed.
    fn keep(
        &mut self,
        alloc: Global,
        store: &mut Store,
        sets: &mut Vec<Group>,
    ) -> Result<(), AllocError>
        requires nested { BeganNested store.old }
        ensures did { OnOk result (KeepsStep (start_of store.old) (now_of store.old) (kept self.old) (kept self.new) sets.old.items (limit self.old)) }
        ensures now { now_of store.new ≡ now_of store.old }
        ensures sound { IsSound (now_of store.old) }
        ensures rest { OnOk result (start_of store.new ≡ now_of store.old) }
        ensures taken { OnOk result (sets.new.items ≡ []) }
        ensures open { OnErr result (start_of store.new ≡ start_of store.old) }
        ensures stays { OnErr result (sets.new.items ≡ sets.old.items) }
        ensures same { OnErr result (kept self.new ≡ kept self.old) }
        ensures forth { OnErr result (forth self.new ≡ forth self.old) }
        ensures limit { limit self.new ≡ limit self.old };

    /// How many old values of globals, elements and records it keeps. It takes no memory, and stays at the greatest number of 128 bits.
    fn saved(&self) -> u128
        ensures { Counts (saved_by_all (kept self.now)) result };

    /// The newest step that it keeps, if it keeps one. It takes no memory.
    fn newest(&self) -> Option<StepRef<'_>>
        ensures { MatchOption result (kept self.now ≡ []) (λ lent. (item : Kept) × (rest : List Kept) × (kept self.now ≡ item ∷ rest) × (lent.globals.now ≡ item.step.globals) × (option_copied lent.current ≡ item.step.current) × (option_copied lent.others ≡ item.step.others)) };

    /// Puts back the newest step that it keeps. The groups of the step's sets come in the place of these, which lead forward from there. Where it keeps none, the step
    /// in progress ends. It takes no memory and always succeeds.
    fn put_back(&mut self, store: &mut Store, sets: &mut Vec<Group>)
        requires { (item : Kept) (rest : List Kept) → kept self.old ≡ item ∷ rest → FitsIn item.step (now_of store.old) }
        ensures back { (item : Kept) (rest : List Kept) → kept self.old ≡ item ∷ rest → IsPutBack item rest (now_of store.old) (now_of store.new) sets.old.items sets.new.items (kept self.new) (forth self.new) }
        ensures rest { start_of store.new ≡ now_of store.new }
        ensures sound { IsSound (now_of store.new) }
        ensures limit { limit self.new ≡ limit self.old };

    /// What leads forward over the step that was put back last, but for the groups of sets, if no step was kept since. It takes no memory.
    fn ahead(&self) -> Option<StepRef<'_>>
        ensures { MatchOption result (forth self.now ≡ None) (λ lent. (f : Forth) × (forth self.now ≡ Some f) × (lent.globals.now ≡ f.globals) × (option_copied lent.current ≡ f.current) × (option_copied lent.others ≡ f.others)) };

    /// The groups of sets that lead forward behind the step that was put back last, the oldest first.
    fn ahead_sets(&self) -> &[Group]
        ensures { (f : Forth) → forth self.now ≡ Some f → result.now ≡ f.sets };
}

/// Forgets each step.
#[derive(Clone, Copy)]
pub struct Off;

impl Keeper for Off {
    ghost use Rattle.std.specs.Prelude.{[], None, Some};

    ghost kept = { λ _. [] };

    ghost limit = { λ _. Some 0 };

    ghost forth = { λ _. None };

    fn keeps(&self) -> bool {
        false
    }

    fn keep(
        &mut self,
        alloc: Global,
        store: &mut Store,
        sets: &mut Vec<Group>,
    ) -> Result<(), AllocError> {
        let _step = store.finish(alloc)?;
        sets.clear();
        Ok(())
    }

    fn saved(&self) -> u128 {
        0
    }

    fn newest(&self) -> Option<StepRef<'_>> {
        None
    }

    fn put_back(&mut self, store: &mut Store, _sets: &mut Vec<Group>) {
        store.forget();
    }

    fn ahead(&self) -> Option<StepRef<'_>> {
        None
    }

    fn ahead_sets(&self) -> &[Group] {
        &[]
    }
}
