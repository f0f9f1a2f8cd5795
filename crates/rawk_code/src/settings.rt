//! First values from outside the program.

ghost use Rattle.std.specs.Prelude.{◌≡◌, [], ◌∷◌, ◌++◌, IfOk, OnOk, OnErr};

use rawk_value::Bytes;
use std::alloc::{AllocError, Global};
use std::marker::Model;

/// The name of a global, and the text that it has at first.
#[derive(Drop)]
pub struct FirstValue {
    pub name: Bytes,
    pub text: Bytes,
}

/// First values in their order, which contracts see as a list: a later one of the same name counts. Beside them stands the seed of
/// the hashes by which keys of arrays are found. No contract sees it, since no answer depends on it.
#[derive(Drop)]
pub struct Settings {
    alloc: Global,
    seed: u64,
    items: Vec<FirstValue>,
}

impl Model for Settings {
    ghost use Rattle.std.specs.Prelude.{List};
    ghost use Rattle.rawk_code.specs.declared.settings.FirstValue.{FirstValue};

    ghost Value = { List FirstValue };

    ghost view = { λ s. s.items.items };
}

impl Settings {
    /// No first values, and the seed 0. It takes no memory.
    pub fn new(alloc: Global) -> Self
        ensures { result ≡ [] }
    {
        Settings {
            alloc,
            seed: 0,
            items: Vec::new(alloc),
        }
    }

    /// One more first value, behind the others (POSIX awk, Options, `-v`). It fails where memory is refused, and then nothing changes.
    pub fn assign(&mut self, name: &[u8], text: &[u8]) -> Result<(), AllocError>
        ensures ok { OnOk result (self.new ≡ self.old ++ (record { name = name.now; text = text.now }) ∷ []) }
        ensures err { OnErr result (self.new ≡ self.old) }
    {
        let value = first_value(self.alloc, name, text)?;
        self.items.push(value)?;
        Ok(())
    }

    /// Sets the seed.
    pub fn set_seed(&mut self, seed: u64)
        ensures { self.new ≡ self.old }
    {
        self.seed = seed;
    }

    /// The seed.
    pub fn seed(&self) -> u64 {
        self.seed
    }

    /// Each of them, in their order.
    pub fn as_slice(&self) -> &[FirstValue]
        ensures { result.now ≡ self.now }
    {
        self.items.as_slice()
    }
}

// Copies of a name and a text.
fn first_value(alloc: Global, name: &[u8], text: &[u8]) -> Result<FirstValue, AllocError>
    ensures { IfOk result (λ value. value ≡ record { name = name.now; text = text.now }) }
{
    Ok(FirstValue {
        name: Bytes::from_slice(alloc, name)?,
        text: Bytes::from_slice(alloc, text)?,
    })
}
