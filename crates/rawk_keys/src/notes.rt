//! Entries of keys that are numbers, noted as they were found.

ghost use Rattle.std.specs.Prelude.{◌≡◌, ◌<◌, List, IfSome, Some, length, slice_get};
ghost use Rattle.rawk_value.specs.Values.{text_of};
ghost use Rattle.rawk_value.specs.declared.value.Value.TheVariants.{Number};
ghost use Rattle.rawk_keys.specs.ArrayKey.{ArrayKey, array_key};
ghost use Rattle.rawk_keys.specs.Notes.{AreNoted};

use crate::chains::{bucket, short};

/// The entry of a number's key of an array: `above` is one above the entry, or 0 where none is noted. The array and `above` are below 2^32.
#[derive(Clone, Copy)]
pub struct Note {
    pub key: i64,
    pub array: u32,
    pub above: u32,
}

/// No note.
const NONE: Note = Note {
    key: 0,
    array: 0,
    above: 0,
};

/// There are places for this many notes first.
const FEW: usize = 64;

/// The place, of `count`, at which a number's key is noted, or at the one beside it: numbers that are near each other have places near each other.
#[inline(always)]
fn place_of(array: usize, key: i64, count: usize) -> usize
    requires { 0 < count }
    ensures { result < count }
{
    let number = key.unsigned_abs() as usize;
    let spread = array.wrapping_add(number / 1024).wrapping_mul(27);
    let wide = (number / 1048576).wrapping_mul(13);
    bucket(number.wrapping_add(spread).wrapping_add(wide), count)
}

/// The place beside one, of `count`.
#[inline(always)]
fn beside(place: usize, count: usize) -> usize
    requires { 0 < count }
    ensures { result < count }
{
    bucket(place ^ 1, count)
}

/// The place for the note of a number's key: the one beside its own where that is free and its own is not.
#[inline(always)]
fn free_place(notes: &[Note], array: usize, key: i64) -> usize
    requires { 0 < length notes.now }
    ensures { result < length notes.now }
{
    let own = place_of(array, key, notes.len());
    let other = beside(own, notes.len());
    if notes[own].above > 0 && notes[other].above == 0 {
        other
    } else {
        own
    }
}

/// The entry of a number's key, where it is noted at a place.
#[inline(always)]
fn entry_at(notes: &[Note], place: usize, array: usize, key: i64) -> Option<usize>
    requires { place < length notes.now }
    ensures { IfSome result (λ i. (keys : List ArrayKey) → AreNoted notes.now keys → slice_get keys i ≡ Some (array_key array (text_of (Number key)))) }
{
    let own = notes[place];
    if own.key == key && own.array as usize == array && own.above > 0 {
        return Some(own.above as usize - 1);
    }
    None
}

/// The entry of a number's key, where it is noted.
#[inline(always)]
pub(crate) fn noted_entry(notes: &[Note], array: usize, key: i64) -> Option<usize>
    ensures { IfSome result (λ i. (keys : List ArrayKey) → AreNoted notes.now keys → slice_get keys i ≡ Some (array_key array (text_of (Number key)))) }
{
    if notes.len() == 0 {
        return None;
    }
    let place = place_of(array, key, notes.len());
    if let Some(entry) = entry_at(notes, place, array, key) {
        return Some(entry);
    }
    entry_at(notes, beside(place, notes.len()), array, key)
}

/// Notes the entry of a number's key, over what was noted at its place; where memory is refused, nothing may be noted.
#[inline(never)]
pub(crate) fn note_apart(notes: &mut Vec<Note>, array: usize, key: i64, entry: usize)
    ensures { (keys : List ArrayKey) → slice_get keys entry ≡ Some (array_key array (text_of (Number key))) → AreNoted notes.old.items keys → AreNoted notes.new.items keys }
{
    if is_taken(notes, array, key) {
        widen(notes, entry);
    }
    if notes.len() == 0 {
        return;
    }
    let place = free_place(notes, array, key);
    if let Ok(array) = short(array)
        && let Ok(above) = short(entry.saturating_add(1))
    {
        notes[place] = Note { key, array, above };
    }
}

/// Whether the place of a number's key is not free, or there is none.
#[inline(always)]
fn is_taken(notes: &[Note], array: usize, key: i64) -> bool {
    if notes.len() == 0 {
        return true;
    }
    notes[place_of(array, key, notes.len())].above > 0
}

// Doubles the places where there are fewer than two for each entry up to this one, and where memory for them is there.
fn widen(notes: &mut Vec<Note>, entry: usize)
    ensures { (keys : List ArrayKey) → AreNoted notes.old.items keys → AreNoted notes.new.items keys }
{
    let count = notes.len();
    if count / 2 <= entry {
        grow(notes, count.saturating_mul(2).max(FEW));
        put_all_anew(notes, count);
    }
}

// Adds places up to `count`, where memory for them is there.
fn grow(notes: &mut Vec<Note>, count: usize)
    ensures { (keys : List ArrayKey) → AreNoted notes.old.items keys → AreNoted notes.new.items keys }
{
    let _grown = notes.resize(count, NONE);
}

// Takes what is noted at the first places to where it has its place now.
fn put_all_anew(notes: &mut Vec<Note>, count: usize)
    ensures { (keys : List ArrayKey) → AreNoted notes.old.items keys → AreNoted notes.new.items keys }
{
    let upto = count.min(notes.len());
    for at in 0..upto {
        put_anew(notes, at);
    }
}

// Takes what is noted at a place to where it has its place now.
fn put_anew(notes: &mut Vec<Note>, at: usize)
    requires { at < length notes.old.items }
    ensures size { length notes.new.items ≡ length notes.old.items }
    ensures kept { (keys : List ArrayKey) → AreNoted notes.old.items keys → AreNoted notes.new.items keys }
{
    let own = notes[at];
    if own.above > 0 {
        notes[at] = NONE;
        let place = free_place(notes, own.array as usize, own.key);
        notes[place] = own;
    }
}
