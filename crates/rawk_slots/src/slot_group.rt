//! What a step changed in slots.

ghost use Rattle.std.specs.Prelude.{◌≡◌, ◌<◌, List, length, slice_get};
ghost use Rattle.std.specs.Option.{option_copied};
ghost use Rattle.rawk_slots.specs.Back.{back, saved_or, HasDistinctPlaces};

use crate::saved::Saved;

/// For each slot that a step wrote what stood there when the step began, no slot twice.
#[derive(Drop)]
pub struct SlotGroup<T> {
    pub entries: Vec<Saved<T>>,
    pub ghost distinct: { HasDistinctPlaces entries.items },
}

/// The old value of a slot among these, for a number of a slot. It takes no memory.
pub fn saved_at<T>(entries: &[Saved<T>], place: usize) -> Option<&T>
    ensures { (xs : List T) → place < length xs → slice_get (back xs entries.now) place ≡ saved_or (option_copied result) (slice_get xs place) }
{
    let mut i = 0;
    while i < entries.len() {
        let entry = &entries[i];
        if entry.place == place {
            return Some(&entry.old);
        }
        i += 1;
    }
    None
}

/// What stood in a slot at the time to which old values lead, from what stands there now (`newer`), for a number of a slot. It takes no memory.
pub fn led_to<'a, T>(entries: &'a [Saved<T>], newer: Option<&'a T>, place: usize) -> Option<&'a T>
    ensures { (xs : List T) → place < length xs → slice_get xs place ≡ option_copied newer.entry → slice_get (back xs entries.now) place ≡ option_copied result }
{
    match saved_at(entries, place) {
        Some(old) => Some(old),
        None => newer,
    }
}
