//! Keys of which each stands once, found by their bytes.

ghost use Rattle.std.specs.Prelude.{◌≡◌, ◌<◌, [], IfOk, IfSome, Some, length, slice_get};
ghost use Rattle.rawk_keys.specs.ArrayKey.{ArrayKey, array_key};
ghost use Rattle.rawk_names.specs.Table.{AreOnce, numbered, place_of};

use rawk_keys::Keys;
use std::alloc::{AllocError, Global};
use std::marker::Model;

/// Names with a number beside each, in the order in which they came, each once.
#[derive(Drop)]
pub struct Table {
    keys: Keys,
}

impl Model for Table {
    ghost use Rattle.std.specs.Prelude.{List};
    ghost use Rattle.rawk_keys.specs.ArrayKey.{ArrayKey};
    ghost use Rattle.rawk_names.specs.Table.{AreOnce};

    ghost Value = { List ArrayKey };

    ghost view = { λ t. t.keys };

    ghost invariant = { λ t. AreOnce t.keys };
}

impl Table {
    /// No names. It takes no memory.
    pub fn new(alloc: Global) -> Self
        ensures { result ≡ [] }
    {
        Table {
            keys: Keys::new(alloc, 0),
        }
    }

    /// How many names there are.
    pub fn len(&self) -> usize
        ensures { result ≡ length self.now }
    {
        self.keys.len()
    }

    /// The place of a name.
    pub fn find(&self, group: usize, word: &[u8]) -> Option<usize>
        ensures value { result ≡ place_of (array_key group word.now) self.now }
        ensures within { IfSome result (λ place. place < length self.now) }
    {
        find_in(&self.keys, group, word)
    }

    /// The place of a name, which is added where it does not stand yet. It fails where memory is refused.
    pub fn number(&mut self, alloc: Global, group: usize, word: &[u8]) -> Result<usize, AllocError>
        ensures { IfOk result (λ number. (number, self.new) ≡ numbered (array_key group word.now) self.old) }
    {
        number_or_add(alloc, &mut self.keys, group, word)
    }

    /// The name at a place.
    pub fn word(&self, place: usize) -> &[u8]
        requires { place < length self.now }
        ensures { (entry : ArrayKey) → slice_get self.now place ≡ Some entry → result.now ≡ entry.key }
    {
        self.keys.key(place)
    }
}

fn find_in(keys: &Keys, group: usize, word: &[u8]) -> Option<usize>
    requires { AreOnce keys.now }
    ensures value { result ≡ place_of (array_key group word.now) keys.now }
    ensures within { IfSome result (λ place. place < length keys.now) }
{
    keys.find(group, word)
}

fn number_or_add(
    alloc: Global,
    keys: &mut Keys,
    group: usize,
    word: &[u8],
) -> Result<usize, AllocError>
    requires { AreOnce keys.old }
    ensures did { IfOk result (λ number. (number, keys.new) ≡ numbered (array_key group word.now) keys.old) }
    ensures once { AreOnce keys.new }
{
    match find_in(keys, group, word) {
        Some(place) => Ok(place),
        None => {
            let place = keys.len();
            keys.add(alloc, group, word)?;
            Ok(place)
        }
    }
}
