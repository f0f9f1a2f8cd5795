//! Old values, each with its place.

ghost use Rattle.std.specs.Prelude.{◌≡◌, ◌<◌, ◌≤◌, ◌↔◌, [], IsTrue, drop, length, slice_index, take};
ghost use Rattle.rawk_slots.specs.Back.{back, AreBelow, AreDistinctFrom, IsSavedAt, places};

use std::mem;

/// A place, from 0, and what stood there when the step began.
#[derive(Drop)]
pub struct Saved<T> {
    pub place: usize,
    pub old: T,
}

/// Puts the old values from a number on back, the newest first, and leaves in the list what stood there. It takes no memory.
pub(crate) fn swap_back<T>(items: &mut Vec<T>, saved: &mut Vec<Saved<T>>, began: usize)
    requires within { began ≤ length saved.old.items }
    requires below { AreBelow (length items.old.items) (drop began saved.old.items) }
    requires distinct { AreDistinctFrom began saved.old.items }
    ensures items { items.new.items ≡ back items.old.items (drop began saved.old.items) }
    ensures places { places saved.new.items ≡ places saved.old.items }
    ensures earlier { take began saved.new.items ≡ take began saved.old.items }
    ensures newer { back items.new.items (drop began saved.new.items) ≡ items.old.items }
{
    let mut i = saved.len();
    while i > began {
        i -= 1;
        let entry = &mut saved[i];
        mem::swap(&mut items[entry.place], &mut entry.old);
    }
}

/// Whether the place's old content is saved.
pub(crate) fn is_saved<T>(marks: &[usize], saved: &[Saved<T>], place: usize) -> bool
    requires { place < length marks.now }
    ensures { IsTrue result ↔ IsSavedAt saved.now (slice_index marks.now place) place }
{
    let mark = marks[place];
    mark < saved.len() && saved[mark].place == place
}

/// Drops each old value, one by one: a step saves few.
#[inline(never)]
fn drop_each<T: Drop>(saved: &mut Vec<Saved<T>>)
    ensures { saved.new.items ≡ [] }
{
    while let Some(entry) = saved.pop() {
        drop(entry);
    }
}

/// Drops all old values, by a call where there are any.
#[inline(always)]
pub(crate) fn drop_all<T: Drop>(saved: &mut Vec<Saved<T>>)
    ensures { saved.new.items ≡ [] }
{
    if !saved.is_empty() {
        drop_each(saved);
    }
}
