//! Sets of bytes that are made.

ghost use Rattle.std.specs.Prelude.{◌≡◌, ◌<◌, ◌≤◌, ◌/◌, ◌%◌};
ghost use Rattle.rawk_ere_tree.specs.ByteSets.{IsIn, HasAlso, IsSetOf};

use rawk_ere_tree::byte_set::{ByteSet, is_in};

/// Adds a byte.
pub fn add(set: &mut ByteSet, byte: u8)
    ensures { HasAlso set.old set.new (λ b. b ≡ byte) }
{
    set[(byte / 64) as usize] |= 1 << (byte % 64);
}

/// Adds the bytes from the first to the second.
pub fn add_range(set: &mut ByteSet, low: u8, high: u8)
    requires { low ≤ high }
    ensures { HasAlso set.old set.new (λ b. (low ≤ b) × (b ≤ high)) }
{
    for byte in low as usize..high as usize + 1 {
        add(set, byte as u8);
    }
}

/// No byte.
pub fn empty() -> ByteSet
    ensures { IsSetOf (λ _. ⊥) result }
{
    [0, 0, 0, 0]
}

/// One byte.
pub fn of_byte(byte: u8) -> ByteSet
    ensures { IsSetOf (λ b. b ≡ byte) result }
{
    let mut set = empty();
    add(&mut set, byte);
    set
}

/// Every byte.
pub fn all() -> ByteSet
    ensures { IsSetOf (λ _. Unit {0}) result }
{
    let mut set = empty();
    add_range(&mut set, 0, 255);
    set
}

/// The bytes that are not in the set.
pub fn complement(set: &ByteSet) -> ByteSet
    ensures { IsSetOf (λ b. IsIn b set.now → ⊥) result }
{
    let mut others = empty();
    for byte in 0..256usize {
        if !is_in(byte as u8, set) {
            add(&mut others, byte as u8);
        }
    }
    others
}
