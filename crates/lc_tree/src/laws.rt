//! Laws: functions without code, whose contracts are theorems about the definitions that other contracts cite.
ghost use Rattle.std.specs.Prelude.{◌≡◌};
ghost use Rattle.lc_tree.specs.Listing.{max_entries};
ghost use Rattle.lc_tree.specs.OneAnswer.{ListsOnce};

use crate::listing::MAX_ENTRIES;

/// The law that `MAX_ENTRIES` equals `max_entries`, the limit that contracts cite.
pub fn the_limit_is_this_number()
    ensures { MAX_ENTRIES ≡ max_entries }
{}

/// The law that listing a path of a tree in memory has only one possible result, one listing or one error, unless an allocation fails.
pub fn trees_of_memory_list_once()
    ensures { ListsOnce }
{}
