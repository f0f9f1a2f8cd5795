//! Which global names are arrays'.

ghost use Rattle.std.specs.Prelude.{◌≡◌};
ghost use Rattle.std.specs.List.{position};
ghost use Rattle.std.specs.Str.{bytes_eq};
ghost use Rattle.rawk_tree.specs.Kinds.{is_array, kind_at, names_array};

use crate::tree::{Kind, Program};
use rawk_value::Bytes;

impl Program {
    /// Whether a name is that of a global array. It looks at each name in turn, and takes no memory.
    pub fn is_array(&self, name: &[u8]) -> bool
        ensures { result ≡ names_array self.now.names.items self.now.kinds.items name.now }
    {
        is_array(kind_at(&self.kinds, place_of(&self.names, name)))
    }
}

/// The place of a name among these.
fn place_of(names: &[Bytes], name: &[u8]) -> Option<usize>
    ensures { result ≡ position (bytes_eq name.now) names.now }
{
    names.iter().position(|own| name == own.as_slice())
}

/// What the global at a place is.
fn kind_at(kinds: &[Kind], place: Option<usize>) -> Option<Kind>
    ensures { result ≡ kind_at kinds.now place }
{
    match place {
        Some(place) => kinds.get(place).copied(),
        None => None,
    }
}

/// Whether this is an array's.
fn is_array(kind: Option<Kind>) -> bool
    ensures { result ≡ is_array kind }
{
    match kind {
        Some(Kind::Array) => true,
        Some(Kind::Scalar) => false,
        None => false,
    }
}
