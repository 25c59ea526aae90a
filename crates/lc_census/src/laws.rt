//! Laws: theorems about the definitions that the contracts cite. Each law is the contract of a function that does nothing.
ghost use Rattle.std.specs.Prelude.{◌≡◌, List, ℕ};
ghost use Rattle.lc_census.specs.Cutting.{HasOneCutting};
ghost use Rattle.lc_census.specs.Limits.{max_turns};

use crate::counting::MAX_TURNS;

/// The law that bytes can be cut into lines in exactly one way.
pub fn bytes_have_one_cutting()
    ensures { (bytes : List ℕ) → HasOneCutting bytes }
{}

/// The law that the constant `MAX_TURNS` equals `max_turns`, the limit in the definitions that the contracts cite.
pub fn the_limit_is_this_number()
    ensures { MAX_TURNS ≡ max_turns }
{}
