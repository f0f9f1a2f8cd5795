//! Marks of bytes, which many bytes can be asked for at once.

ghost use Rattle.std.specs.Prelude.{◌≡◌, ℕ, ◌<◌, slice_index};
ghost use Rattle.std.specs.Int.{bit_at};
ghost use Rattle.rawk_ere_begins.specs.Filters.{HasMark, KeepsMarks, marks_of};

/// Up to eight marks for each byte: those that stand both at its low and at its high four bits. So a byte may have a mark that
/// it was not given.
#[derive(Clone, Copy)]
pub struct Nibbles {
    /// The marks at the low four bits, a mark a bit.
    pub low: [u8; 16],
    /// The marks at the high four bits.
    pub high: [u8; 16],
}

/// Adds a mark at an index.
fn add(table: &mut [u8; 16], index: usize, mark: usize)
    requires index { index < 16 }
    requires mark { mark < 8 }
    ensures keeps { (k i : ℕ) → bit_at (slice_index table.old k) i ≡ 1 → bit_at (slice_index table.new k) i ≡ 1 }
    ensures has { bit_at (slice_index table.new index) mark ≡ 1 }
{
    table[index] |= 1 << mark;
}

impl Nibbles {
    /// No marks.
    pub fn none() -> Nibbles {
        Nibbles {
            low: [0; 16],
            high: [0; 16],
        }
    }

    /// Gives a byte one of the marks 0 to 7.
    pub fn give(&mut self, byte: u8, mark: usize)
        requires { mark < 8 }
        ensures keeps { KeepsMarks self.old self.new }
        ensures has { HasMark self.new byte mark }
    {
        add(&mut self.low, (byte % 16) as usize, mark);
        add(&mut self.high, (byte / 16) as usize, mark);
    }

    /// The marks of a byte.
    #[inline(always)]
    pub fn of(&self, byte: u8) -> u8
        ensures { result ≡ marks_of self.now byte }
    {
        self.low[(byte % 16) as usize] & self.high[(byte / 16) as usize]
    }
}
