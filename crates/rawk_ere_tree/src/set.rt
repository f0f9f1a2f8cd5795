//! A set of states, in the order in which they came.

ghost use Rattle.std.specs.Prelude.{◌≡◌, ℕ, ◌+◌, ◌*◌, ◌<◌, ◌≤◌, ◌↔◌, List, [], length, IfOk, IsTrue, Contains, slice_index, vec_capacity, slice_index_or, true, false};
ghost use Rattle.rawk_ere_tree.specs.StateSets.{Adds, AreMarks};

use std::alloc::{AllocError, Global};
use std::marker::Model;

/// A set of numbers below a bound.
#[derive(Drop)]
pub struct StateSet {
    members: Vec<usize>,
    marks: Vec<bool>,
}

/// The bound, and the members.
impl Model for StateSet {
    ghost Value = { ℕ × List ℕ };

    ghost view = { λ a. (length a.marks.items, a.members.items) };

    ghost invariant = { λ a. AreMarks a.members.items a.marks.items
        × (length a.marks.items ≤ vec_capacity a.members) };
}

/// Takes the marks of the members away.
fn unmark(marks: &mut Vec<bool>, members: &[usize])
    requires { (k : ℕ) → k < length members.now → slice_index members.now k < length marks.old.items }
    ensures same { length marks.new.items ≡ length marks.old.items }
    ensures taken { (q : ℕ) → slice_index_or marks.new.items q false ≡ true → (slice_index_or marks.old.items q false ≡ true) × (Contains members.now q → ⊥) }
{
    for index in 0..members.len() {
        let state = members[index];
        marks[state] = false;
    }
}

impl StateSet {
    pub fn new(alloc: Global, room: usize) -> Result<StateSet, AllocError>
        ensures { IfOk result (λ set. set ≡ (room, [])) }
    {
        let members = Vec::with_capacity(alloc, room)?;
        let marks = vec![in alloc; false; room]?;
        Ok(StateSet { members, marks })
    }

    pub fn clear(&mut self)
        ensures { self.new ≡ (self.old.0, []) }
    {
        unmark(&mut self.marks, &self.members);
        self.members.clear();
    }

    pub fn len(&self) -> usize
        ensures value { result ≡ length self.now.1 }
        ensures within { result ≤ self.now.0 }
    {
        self.members.len()
    }

    pub fn at(&self, index: usize) -> usize
        requires { index < length self.now.1 }
        ensures value { result ≡ slice_index self.now.1 index }
    {
        self.members[index]
    }

    pub fn contains(&self, state: usize) -> bool
        ensures { IsTrue result ↔ Contains self.now.1 state }
    {
        if state < self.marks.len() {
            self.marks[state]
        } else {
            false
        }
    }

    /// Adds a state, unless it is not below the bound.
    pub fn add(&mut self, state: usize)
        ensures room { self.new.0 ≡ self.old.0 }
        ensures adds { Adds self.old.0 self.old.1 self.new.1 (λ r. r ≡ state) }
    {
        if state >= self.marks.len() || self.marks[state] {
            return;
        }
        self.marks[state] = true;
        self.members.push_reserved(state);
    }

    /// Adds the state `by` after another, unless it is not below the bound.
    pub fn add_after(&mut self, state: usize, by: usize)
        ensures room { self.new.0 ≡ self.old.0 }
        ensures adds { Adds self.old.0 self.old.1 self.new.1 (λ r. r ≡ state + by) }
    {
        if by < self.marks.len() && state < self.marks.len() - by {
            self.add(state + by);
        }
    }

    /// Adds the members of another set.
    pub fn add_all(&mut self, other: &StateSet)
        ensures room { self.new.0 ≡ self.old.0 }
        ensures adds { Adds self.old.0 self.old.1 self.new.1 (Contains other.now.1) }
    {
        for index in 0..other.len() {
            self.add(other.at(index));
        }
    }

    /// Whether the members are the same. The order of coming does not matter.
    pub fn is_same(&self, other: &StateSet) -> bool
        ensures { IsTrue result → (q : ℕ) → Contains self.now.1 q ↔ Contains other.now.1 q }
    {
        self.marks == other.marks
    }

    /// The count with the members of this set, which stands at one more place.
    pub fn counted(&self, count: u128, places: usize) -> u128
        requires { count ≤ places * self.now.0 }
        ensures { result ≤ (places + 1) * self.now.0 }
    {
        let _room = self.marks.len();
        let members = self.members.len();
        count + members as u128
    }
}
