//! How many old values are kept.

ghost use Rattle.rawk_history.specs.Saving.{Counts, saved_in_groups, saved_in_others};

use rawk_store::{Group, RareChanges};

/// How many old values groups hold together. It takes no memory, looks at each group, and stays at the greatest number of 128 bits.
pub fn saved_in_groups(groups: &[Group]) -> u128
    ensures { Counts (saved_in_groups groups.now) result }
{
    let mut count: u128 = 0;
    for group in groups {
        count = count.saturating_add(group.saved() as u128);
    }
    count
}

/// How many old values of elements, and of texts that grew in place, are held together. It takes no memory, looks at each, and stays at the greatest number of 128 bits.
pub(crate) fn saved_in_others(all: &[RareChanges]) -> u128
    ensures { Counts (saved_in_others all.now) result }
{
    let mut count: u128 = 0;
    for others in all {
        count = count.saturating_add(others.saved() as u128);
    }
    count
}
