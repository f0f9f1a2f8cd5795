//! A keeper of the newest steps alone.

ghost use Rattle.std.specs.Prelude.{◌≡◌, ◌+◌, ◌<◌, ◌++◌, None, OnErr, OnOk, Some, [], length, take};
ghost use Rattle.rawk_history.specs.Keeping.{IsFront, KeepsStep};
ghost use Rattle.rawk_history.specs.Parts.{AreFilled, kept_in};
ghost use Rattle.rawk_history.specs.Saving.{Counts, saved_by_all};
ghost use Rattle.rawk_store.specs.Layout.{IsSound};
ghost use Rattle.rawk_store.specs.Stores.{BeganNested, now_of, start_of};

use crate::full::Full;
use crate::keeper::{Keeper, StepRef};
use rawk_store::{Group, Store};
use std::alloc::{AllocError, Global};
use std::collections::VecDeque;
use std::marker::Model;
use std::mem;

/// Keeps the newest steps.
///
/// They lie in parts of a limited number of steps each, the newest part first, and what no longer counts goes a part at a time. So a step takes no more than where all
/// are kept, and no memory is taken before there are steps.
#[derive(Drop)]
pub struct Ring {
    newest: Full,
    // Each has a step.
    older: VecDeque<Full>,
    // How many of the steps are kept,
    count: usize,
    // and how many before them, at least, are not.
    gone: usize,
    // How many are kept at most.
    history: usize,
    // A part with more steps takes no other.
    room: usize,
}

impl Model for Ring {
    ghost use Rattle.std.specs.Prelude.{◌++◌, take};
    ghost use Rattle.rawk_history.specs.Parts.{IsRing, KeepingLast, kept_in};

    ghost Value = { KeepingLast };

    ghost view = { λ r. record { kept = take r.count (r.newest.kept ++ kept_in r.older.items); forth = r.newest.forth; history = r.history } };

    ghost invariant = { λ r. IsRing r.newest.kept r.older.items r.count r.gone r.history };
}

impl Ring {
    /// No step, and the last `history` ones will be kept. It takes no memory.
    pub fn new(alloc: Global, history: usize) -> Ring
        ensures { result ≡ record { kept = []; forth = None; history = history } }
    {
        Ring {
            newest: Full::new(alloc),
            older: VecDeque::new(alloc),
            count: 0,
            gone: 0,
            history,
            // An eighth, so there are no more than nine parts of a long history, and few lists grow for a short one.
            room: history / 8 + 64,
        }
    }
}

/// Ends a step and keeps it in the newest part, or in a new one. Where memory is refused, nothing has changed.
fn keep_in(
    alloc: Global,
    store: &mut Store,
    sets: &mut Vec<Group>,
    newest: &mut Full,
    older: &mut VecDeque<Full>,
    room: usize,
) -> Result<(), AllocError>
    requires nested { BeganNested store.old }
    ensures did { OnOk result (KeepsStep (start_of store.old) (now_of store.old) (newest.old.kept ++ kept_in older.old.items) (newest.new.kept ++ kept_in older.new.items) sets.old.items None) }
    ensures filled { AreFilled older.old.items → AreFilled older.new.items }
    ensures now { now_of store.new ≡ now_of store.old }
    ensures sound { IsSound (now_of store.old) }
    ensures rest { OnOk result (start_of store.new ≡ now_of store.old) }
    ensures taken { OnOk result (sets.new.items ≡ []) }
    ensures open { OnErr result (start_of store.new ≡ start_of store.old) }
    ensures stays { OnErr result (sets.new.items ≡ sets.old.items) }
    ensures same { OnErr result (newest.new.kept ≡ newest.old.kept) }
    ensures same_older { OnErr result (older.new.items ≡ older.old.items) }
    ensures forth { OnErr result (newest.new.forth ≡ newest.old.forth) }
{
    store.known();
    if newest.len() <= room {
        return newest.keep(alloc, store, sets);
    }
    older.reserve(1)?;
    let mut part = Full::new(alloc);
    part.keep(alloc, store, sets)?;
    older.push_front_reserved(mem::replace(newest, part));
    Ok(())
}

/// Drops the oldest part, if all its steps are among `gone` that are not kept, and gives how many of these are left.
fn let_go(parts: &mut VecDeque<Full>, gone: usize) -> usize
    ensures front { IsFront (kept_in parts.new.items) (kept_in parts.old.items) }
    ensures left { length (kept_in parts.new.items) + gone ≡ length (kept_in parts.old.items) + result }
    ensures filled { AreFilled parts.old.items → AreFilled parts.new.items }
{
    let held = match parts.back() {
        Some(part) => part.len(),
        None => return gone,
    };
    if held > gone {
        return gone;
    }
    let _oldest = parts.pop_back();
    gone - held
}

/// The next part comes in the place of the newest, if that has no step.
fn come_forward(newest: &mut Full, older: &mut VecDeque<Full>)
    ensures all { newest.new.kept ++ kept_in older.new.items ≡ newest.old.kept ++ kept_in older.old.items }
    ensures filled { AreFilled older.old.items → AreFilled older.new.items }
    ensures some { AreFilled older.old.items → newest.new.kept ≡ [] → kept_in older.new.items ≡ [] }
{
    if newest.len() == 0 {
        if let Some(part) = older.pop_front() {
            *newest = part;
        }
    }
}

/// How many old values the newest steps of these parts hold, `count` of them or all. It takes no memory, looks at each of these steps, and stays at the greatest
/// number of 128 bits.
fn saved_in_newest(parts: &VecDeque<Full>, count: usize) -> u128
    ensures { Counts (saved_by_all (take count (kept_in parts.now.items))) result }
{
    let mut saved: u128 = 0;
    let mut left = count;
    for i in 0..parts.len() {
        let part = &parts[i];
        saved = saved.saturating_add(part.saved_in_newest(left));
        left = left.saturating_sub(part.len());
    }
    saved
}

impl Keeper for Ring {
    ghost use Rattle.std.specs.Prelude.{Some};

    ghost kept = { λ r. r.kept };

    ghost limit = { λ r. Some r.history };

    ghost forth = { λ r. r.forth };

    fn keeps(&self) -> bool {
        self.history > 0
    }

    fn keep(
        &mut self,
        alloc: Global,
        store: &mut Store,
        sets: &mut Vec<Group>,
    ) -> Result<(), AllocError> {
        keep_in(
            alloc,
            store,
            sets,
            &mut self.newest,
            &mut self.older,
            self.room,
        )?;
        if self.count < self.history {
            self.count += 1;
        } else {
            self.gone = let_go(&mut self.older, self.gone.saturating_add(1));
        }
        Ok(())
    }

    fn saved(&self) -> u128 {
        let newest = self.newest.saved_in_newest(self.count);
        let left = self.count.saturating_sub(self.newest.len());
        newest.saturating_add(saved_in_newest(&self.older, left))
    }

    fn newest(&self) -> Option<StepRef<'_>> {
        if self.count == 0 {
            return None;
        }
        if self.newest.len() > 0 {
            return self.newest.newest();
        }
        match self.older.front() {
            Some(part) => part.newest(),
            None => None,
        }
    }

    fn put_back(&mut self, store: &mut Store, sets: &mut Vec<Group>) {
        if self.count == 0 {
            store.forget();
            return;
        }
        come_forward(&mut self.newest, &mut self.older);
        self.newest.put_back(store, sets);
        self.count -= 1;
    }

    fn ahead(&self) -> Option<StepRef<'_>> {
        self.newest.ahead()
    }

    fn ahead_sets(&self) -> &[Group] {
        self.newest.ahead_sets()
    }
}
