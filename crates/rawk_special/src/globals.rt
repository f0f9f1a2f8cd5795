//! A program's globals: the special variables, and behind them those of its own names.

ghost use Rattle.std.specs.Prelude.{◌≡◌, position};
ghost use Rattle.std.specs.Str.{bytes_eq};
ghost use Rattle.rawk_special.specs.Special.{global_number, global_name};

use crate::special::{COUNT, special_name, special_number};
use rawk_value::Bytes;

/// The place of a name among a program's own names.
fn own_place(names: &[Bytes], name: &[u8]) -> Option<usize>
    ensures { result ≡ position (bytes_eq name.now) names.now }
{
    names.iter().position(|own| name == own.as_slice())
}

/// The number of a global of a program with these names of its own, by its name, if it has one. It looks at each name in turn,
/// and takes no memory.
#[tactic(auto, unfolding(crate::specs::Special::special_number))]
pub fn global_number(names: &[Bytes], name: &[u8]) -> Option<usize>
    ensures { result ≡ global_number names.now name.now }
{
    match special_number(name) {
        Some(number) => Some(number),
        None => match own_place(names, name) {
            Some(place) => Some(COUNT + place),
            None => None,
        },
    }
}

/// The name of a global of a program with these names of its own, by its number; it is empty for a number that none has.
pub fn global_name(names: &[Bytes], number: usize) -> &[u8]
    ensures { result.now ≡ global_name names.now number }
{
    if number < COUNT {
        return special_name(number);
    }
    match names.get(number - COUNT) {
        Some(name) => name.as_slice(),
        None => b"",
    }
}
