//! Pairs in the order of their keys: the oldest first.

ghost use Rattle.std.specs.Prelude.{IsPermutation};
ghost use Rattle.dfr_folder.specs.Sorting.{AreOldestFirst, HaveInstantsInOrder};

use crate::name::Key;

/// Puts pairs, each a key and a size, into the order of their keys: by the dates and times of day
/// that these say, then by their numbers.
pub fn sort_oldest_first(pairs: &mut [(Key, u64)])
    ensures same { IsPermutation pairs.old pairs.new }
    ensures oldest { AreOldestFirst pairs.new }
    ensures instants { HaveInstantsInOrder pairs.new }
{
    pairs.sort_unstable_by_key(|(key, _)| *key);
}
