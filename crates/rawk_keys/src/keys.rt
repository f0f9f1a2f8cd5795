//! A list of keys of arrays, in which one is found by its bytes.

ghost use Rattle.std.specs.Prelude.{◌≡◌, ◌<◌, ◌≤◌, ◌++◌, ◌∷◌, [], IfOk, IfSome, IsTrue, ◌↔◌, MatchOption, OnErr, OnOk, Some, length, slice_get, slice_range};
ghost use Rattle.std.proofs.Common.{get_or};
ghost use Rattle.rawk_value.specs.Values.{text_of};
ghost use Rattle.rawk_value.specs.declared.value.Value.TheVariants.{Number};
ghost use Rattle.rawk_keys.specs.declared.keys.KeyRange.{KeyRange};
ghost use Rattle.rawk_keys.specs.ArrayKey.{HasEntry, IsAbsent, IsLastOf, ArrayKey, array_key};
ghost use Rattle.rawk_keys.specs.Hash.{hash_of};
ghost use Rattle.rawk_keys.specs.Series.{IsRun};
ghost use Rattle.rawk_keys.specs.KeysLaid.{AreWithin, AreLaid, keys_of};

use crate::chains::{Chains, short};
use crate::hash::{hash, seeded_basis};
use crate::notes::{Note, note_apart, noted_entry};
use crate::series::{Run, Series, begin, entries_from_one, entry_of, has_series, lengthen};
use std::alloc::{AllocError, Global};
use std::marker::Model;

/// Where a key stands in the text of all keys: from `start` up to `end`, each below 2^32.
#[derive(Clone, Copy)]
pub struct KeyRange {
    pub start: u32,
    pub end: u32,
}

/// Keys of arrays, each with its array's number, in the order in which they were added.
///
/// The keys' bytes stand in one text. One set of chains leads from a hash to the keys that have it, another from an array to its keys.
/// Which keys share a hash depends on a seed, which no contract sees.
#[derive(Drop)]
pub struct Keys {
    basis: usize,
    text: Vec<u8>,
    spans: Vec<KeyRange>,
    by_hash: Chains,
    by_array: Chains,
    // A series of each array, by its number; an array that has none is past the end, or has one of no entries.
    series: Vec<Series>,
    // Entries of keys that are numbers.
    notes: Vec<Note>,
}

impl Model for Keys {
    ghost use Rattle.std.specs.Prelude.{List};
    ghost use Rattle.rawk_keys.specs.ArrayKey.{ArrayKey};

    ghost Value = { List ArrayKey };

    ghost use Rattle.rawk_keys.specs.KeysLaid.{keys_of};
    ghost use Rattle.rawk_keys.specs.Series.{AreKept};

    ghost view = { λ n. keys_of n.text.items n.by_array n.spans.items };

    ghost invariant = { λ n. AreKept n.basis n.text.items n.spans.items n.by_hash n.by_array n.series.items n.notes.items };
}

impl Keys {
    /// No keys, found by hashes with this seed. It takes no memory.
    pub fn new(alloc: Global, seed: u64) -> Self
        ensures { result ≡ [] }
    {
        none_from(alloc, seeded_basis(seed))
    }

    /// No keys, found by hashes with the same seed. It takes no memory.
    pub fn new_like(alloc: Global, other: &Self) -> Self
        ensures { result ≡ [] }
    {
        none_from(alloc, other.basis)
    }

    /// How many keys there are.
    pub fn len(&self) -> usize
        ensures { result ≡ length self.now }
    {
        self.spans.len()
    }

    /// The key of an entry.
    pub fn key(&self, number: usize) -> &[u8]
        requires { number < length self.now }
        ensures { (entry : ArrayKey) → slice_get self.now number ≡ Some entry → result.now ≡ entry.key }
    {
        key_bytes(&self.text, &self.spans, &self.by_array, number)
    }

    /// The array of an entry.
    pub fn array(&self, number: usize) -> usize
        requires { number < length self.now }
        ensures { (entry : ArrayKey) → slice_get self.now number ≡ Some entry → result ≡ entry.array }
    {
        array_of(&self.text, &self.spans, &self.by_array, number)
    }

    /// The number of an entry, if it is there.
    pub fn find(&self, array: usize, key: &[u8]) -> Option<usize>
        ensures { let entry = array_key array key.now in MatchOption result (IsAbsent entry self.now) (λ i. slice_get self.now i ≡ Some entry) }
    {
        find_in(
            self.basis,
            &self.text,
            &self.spans,
            &self.by_hash,
            &self.by_array,
            array,
            key,
            hash(self.basis, array, key),
        )
    }

    /// The number of an entry, which is added where it is missing, with one hash. It fails as `add` does; then nothing has changed.
    #[inline(never)]
    pub fn entry(&mut self, alloc: Global, array: usize, key: &[u8]) -> Result<usize, AllocError>
        ensures there { IfOk result (λ i. slice_get self.new i ≡ Some (array_key array key.now)) }
        ensures added { HasEntry (array_key array key.now) self.old self.new }
        ensures err { OnErr result (self.new ≡ self.old) }
    {
        let hash = hash(self.basis, array, key);
        if let Some(number) = find_in(
            self.basis,
            &self.text,
            &self.spans,
            &self.by_hash,
            &self.by_array,
            array,
            key,
            hash,
        ) {
            return Ok(number);
        }
        let number = self.spans.len();
        add_key(
            alloc,
            self.basis,
            &mut self.text,
            &mut self.spans,
            &mut self.by_hash,
            &mut self.by_array,
            array,
            key,
            hash,
        )?;
        Ok(number)
    }

    /// The number of the entry of a number's key, where it stands in the array's series: no search, and `None` says nothing of the keys.
    #[inline(always)]
    pub fn in_series(&self, array: usize, key: i64) -> Option<usize>
        ensures { IfSome result (λ i. slice_get self.now i ≡ Some (array_key array (text_of (Number key)))) }
    {
        entry_of(&self.series, array, key)
    }

    /// The entry of a number's key, where it is noted: no search, and `None` says nothing of the keys.
    #[inline(always)]
    pub fn noted(&self, array: usize, key: i64) -> Option<usize>
        ensures { IfSome result (λ i. slice_get self.now i ≡ Some (array_key array (text_of (Number key)))) }
    {
        noted_entry(&self.notes, array, key)
    }

    /// The entries of an array's keys from 1 on, as far as they are known to stand one behind another: no search, and a run of none says nothing of the keys.
    #[inline(always)]
    pub fn from_one(&self, array: usize) -> Run
        ensures { IsRun array result self.now }
    {
        entries_from_one(&self.series, array)
    }

    /// Notes the entry of a number's key that was just added: the key behind the last one of the array's series, at the entry behind the last one, lengthens it, and else key 1 begins it
    /// anew, and so does any number of 32 bits where the series has one key at most. Nothing is seen of it; where memory is refused, nothing is noted.
    pub fn note(&mut self, array: usize, key: i64, entry: usize)
        requires { slice_get self.old entry ≡ Some (array_key array (text_of (Number key))) }
        ensures { self.new ≡ self.old }
    {
        if !lengthen(&mut self.series, array, key, entry) {
            begin(&mut self.series, array, key, entry);
        }
    }

    /// The same of one that was found: what neither begins the first series of the array nor lengthens it is noted for itself, over another number's note that stood in its place.
    pub fn note_found(&mut self, array: usize, key: i64, entry: usize)
        requires { slice_get self.old entry ≡ Some (array_key array (text_of (Number key))) }
        ensures { self.new ≡ self.old }
    {
        if !has_series(&self.series, array) {
            begin(&mut self.series, array, key, entry);
        } else if !lengthen(&mut self.series, array, key, entry) {
            note_apart(&mut self.notes, array, key, entry);
        }
    }

    /// The last entry of an array.
    pub fn latest(&self, array: usize) -> Option<usize>
        ensures { IsLastOf array self.now (length self.now) result }
    {
        latest_of(&self.text, &self.spans, &self.by_array, array)
    }

    /// The nearest earlier entry of the same array as this one.
    pub fn earlier(&self, number: usize) -> Option<usize>
        requires { number < length self.now }
        ensures { (entry : ArrayKey) → slice_get self.now number ≡ Some entry → IsLastOf entry.array self.now number result }
    {
        earlier_of(&self.text, &self.spans, &self.by_array, number)
    }

    /// Adds an entry. It fails where memory is refused, and where 32 bits do not hold its array, how many entries there are, or how many bytes all keys have;
    /// then nothing has changed.
    pub fn add(&mut self, alloc: Global, array: usize, key: &[u8]) -> Result<(), AllocError>
        ensures did { OnOk result (self.new ≡ self.old ++ array_key array key.now ∷ []) }
        ensures err { OnErr result (self.new ≡ self.old) }
    {
        add_key(
            alloc,
            self.basis,
            &mut self.text,
            &mut self.spans,
            &mut self.by_hash,
            &mut self.by_array,
            array,
            key,
            hash(self.basis, array, key),
        )
    }
}

/// No keys, with hashes from a basis on.
fn none_from(alloc: Global, basis: usize) -> Keys
    ensures { result ≡ [] }
{
    Keys {
        basis,
        text: Vec::new(alloc),
        spans: Vec::new(alloc),
        by_hash: Chains::new(alloc),
        by_array: Chains::new(alloc),
        series: Vec::new(alloc),
        notes: Vec::new(alloc),
    }
}

/// A range, where 32 bits hold its ends.
fn range_of(start: usize, end: usize) -> Result<KeyRange, AllocError>
    ensures { IfOk result (λ range. range ≡ record { start = start; end = end }) }
{
    let start = short(start)?;
    let end = short(end)?;
    Ok(KeyRange { start, end })
}

/// Adds an entry, whose hash is given. Where a label is refused, the key's bytes stand in the text for no entry.
#[inline(always)]
fn add_key(
    alloc: Global,
    basis: usize,
    text: &mut Vec<u8>,
    spans: &mut Vec<KeyRange>,
    by_hash: &mut Chains,
    by_array: &mut Chains,
    array: usize,
    key: &[u8],
    hash: usize,
) -> Result<(), AllocError>
    requires laid { AreLaid basis text.old.items spans.old.items by_hash.old by_array.old }
    requires hash { hash ≡ hash_of basis array key.now }
    ensures did { OnOk result (keys_of text.new.items by_array.new spans.new.items ≡ keys_of text.old.items by_array.old spans.old.items ++ array_key array key.now ∷ []) }
    ensures err { OnErr result (keys_of text.new.items by_array.new spans.new.items ≡ keys_of text.old.items by_array.old spans.old.items) }
    ensures array_key { AreLaid basis text.new.items spans.new.items by_hash.new by_array.new }
{
    let start = text.len();
    spans.reserve(1)?;
    text.extend_from_slice(key)?;
    let end = text.len();
    let span = range_of(start, end)?;
    add_labels(alloc, by_hash, by_array, hash, array)?;
    spans.push_reserved(span);
    Ok(())
}

/// Adds the labels of an entry to both lists, or to none.
#[inline(always)]
fn add_labels(
    alloc: Global,
    by_hash: &mut Chains,
    by_array: &mut Chains,
    hash: usize,
    array: usize,
) -> Result<(), AllocError>
    ensures hashes { OnOk result (by_hash.new ≡ by_hash.old ++ hash ∷ []) }
    ensures arrays { OnOk result (by_array.new ≡ by_array.old ++ array ∷ []) }
    ensures same_hashes { OnErr result (by_hash.new ≡ by_hash.old) }
    ensures same_arrays { OnErr result (by_array.new ≡ by_array.old) }
{
    add_label(alloc, by_hash, hash, by_hash.len())?;
    match add_label(alloc, by_array, array, array) {
        Ok(()) => Ok(()),
        Err(refused) => {
            by_hash.drop_newest();
            Err(refused)
        }
    }
}

/// Adds a label, with more chains than `wanted` where memory for them is there.
#[inline(always)]
fn add_label(
    alloc: Global,
    chains: &mut Chains,
    label: usize,
    wanted: usize,
) -> Result<(), AllocError>
    ensures did { OnOk result (chains.new ≡ chains.old ++ label ∷ []) }
    ensures err { OnErr result (chains.new ≡ chains.old) }
{
    if wanted >= chains.chain_count() {
        let _spread = chains.spread(alloc, wanted.saturating_add(1));
    }
    chains.push(alloc, label)
}

/// The bytes of a span.
fn key_at<'a>(text: &'a [u8], spans: &[KeyRange], number: usize) -> &'a [u8]
    requires within { AreWithin text.now spans.now }
    requires there { number < length spans.now }
    ensures { (d : KeyRange) → let s = get_or spans.now number d in result.now ≡ slice_range text.now s.start s.end }
{
    let span = spans[number];
    part(text, span.start as usize, span.end as usize)
}

fn part(text: &[u8], start: usize, end: usize) -> &[u8]
    requires ordered { start ≤ end }
    requires within { end ≤ length text.now }
    ensures { result.now ≡ slice_range text.now start end }
{
    &text[start..end]
}

/// The key of an entry.
fn key_bytes<'a>(text: &'a [u8], spans: &[KeyRange], by_array: &Chains, number: usize) -> &'a [u8]
    requires within { AreWithin text.now spans.now }
    requires sizes { length by_array.now ≡ length spans.now }
    requires there { number < length (keys_of text.now by_array.now spans.now) }
    ensures { (entry : ArrayKey) → slice_get (keys_of text.now by_array.now spans.now) number ≡ Some entry → result.now ≡ entry.key }
{
    key_at(text, spans, number)
}

/// The array of an entry. The keys are read by the clauses alone.
fn array_of(text: &[u8], spans: &[KeyRange], by_array: &Chains, number: usize) -> usize
    requires sizes { length by_array.now ≡ length spans.now }
    requires there { number < length (keys_of text.now by_array.now spans.now) }
    ensures { (entry : ArrayKey) → slice_get (keys_of text.now by_array.now spans.now) number ≡ Some entry → result ≡ entry.array }
{
    by_array.label(number)
}

fn same_bytes(left: &[u8], right: &[u8]) -> bool
    ensures { IsTrue result ↔ (left.now ≡ right.now) }
{
    left == right
}

/// Whether this is the entry.
fn is_key(
    text: &[u8],
    spans: &[KeyRange],
    by_array: &Chains,
    number: usize,
    array: usize,
    key: &[u8],
) -> bool
    requires within { AreWithin text.now spans.now }
    requires sizes { length by_array.now ≡ length spans.now }
    requires there { number < length spans.now }
    ensures { IsTrue result ↔ (slice_get (keys_of text.now by_array.now spans.now) number ≡ Some (array_key array key.now)) }
{
    if by_array.label(number) == array {
        return same_bytes(key_at(text, spans, number), key);
    }
    false
}

/// The number of an entry, whose hash is given.
#[inline(always)]
fn find_in(
    basis: usize,
    text: &[u8],
    spans: &[KeyRange],
    by_hash: &Chains,
    by_array: &Chains,
    array: usize,
    key: &[u8],
    hash: usize,
) -> Option<usize>
    requires laid { AreLaid basis text.now spans.now by_hash.now by_array.now }
    requires hash { hash ≡ hash_of basis array key.now }
    ensures { let entry = array_key array key.now in let keys = keys_of text.now by_array.now spans.now in MatchOption result (IsAbsent entry keys) (λ i. slice_get keys i ≡ Some entry) }
{
    let mut at = by_hash.latest(hash);
    while let Some(number) = at {
        if is_key(text, spans, by_array, number, array, key) {
            return Some(number);
        }
        at = by_hash.earlier(number);
    }
    None
}

/// The last entry of an array.
fn latest_of(text: &[u8], spans: &[KeyRange], by_array: &Chains, array: usize) -> Option<usize>
    requires { length by_array.now ≡ length spans.now }
    ensures { let keys = keys_of text.now by_array.now spans.now in IsLastOf array keys (length keys) result }
{
    by_array.latest(array)
}

/// The nearest earlier entry of the same array. The keys are read by the clauses alone.
fn earlier_of(text: &[u8], spans: &[KeyRange], by_array: &Chains, number: usize) -> Option<usize>
    requires sizes { length by_array.now ≡ length spans.now }
    requires there { number < length (keys_of text.now by_array.now spans.now) }
    ensures { let keys = keys_of text.now by_array.now spans.now in (entry : ArrayKey) → slice_get keys number ≡ Some entry → IsLastOf entry.array keys number result }
{
    by_array.earlier(number)
}
