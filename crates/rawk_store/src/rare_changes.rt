//! What a step changed in the parts that few steps change.

ghost use Rattle.std.specs.Prelude.{◌≡◌};
ghost use Rattle.rawk_store.specs.Saving.{saved_in_part};

use rawk_arrays::ArraysGroup;
use rawk_cells::Appended;
use rawk_frames::{KeysLeftGroup, RangesGroup};

/// What a step changed in keys that are left and in ranges, which fewest steps change.
#[derive(Drop)]
pub struct RareGroup {
    pub keys: KeysLeftGroup,
    pub ranges: RangesGroup,
}

/// What a step changed in arrays, and in the rarest parts if in these at all.
#[derive(Drop)]
pub struct FewGroup {
    pub arrays: ArraysGroup,
    pub rare: Option<Box<RareGroup>>,
}

/// What came behind the text of a global, where a long one grew in place, and what a step changed in the parts that few steps change, if in these at all.
#[derive(Drop)]
pub struct RareChanges {
    pub grown: Option<Box<Appended>>,
    pub few: Option<Box<FewGroup>>,
}

impl RareChanges {
    /// How many old values of elements it holds, also where an element was not there, and of a text that grew in place. It takes no memory.
    pub fn saved(&self) -> usize
        ensures { result ≡ saved_in_part self.now }
    {
        let elements = match &self.few {
            None => 0,
            Some(few) => few.arrays.slots.entries.len(),
        };
        match &self.grown {
            None => elements,
            Some(_) => elements + 1,
        }
    }
}
