//! Sets of bytes.

ghost use Rattle.std.specs.Prelude.{◌/◌, ◌%◌, ◌↔◌, IsTrue};
ghost use Rattle.rawk_ere_tree.specs.ByteSets.{IsIn};

/// A set of bytes: a bit for each, the byte `b` at the bit `b % 64` of the word `b / 64`.
pub type ByteSet = [u64; 4];

/// Whether the byte is in the set.
pub fn is_in(byte: u8, set: &ByteSet) -> bool
    ensures { IsTrue result ↔ IsIn byte set.now }
{
    (set[(byte / 64) as usize] >> (byte % 64)) % 2 == 1
}
