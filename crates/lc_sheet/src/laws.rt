//! Laws that tie constants to definitions.

ghost use Rattle.std.specs.Prelude.{◌≡◌};
ghost use Rattle.lc_sheet.specs.Keys.{keys, report_keys};

use crate::key::{KEYS, REPORT_KEYS};

/// The law that `KEYS` and `REPORT_KEYS` are the keys that the definitions list.
pub fn keys_are_listed()
    ensures fixed { KEYS ≡ keys }
    ensures of_reports { REPORT_KEYS ≡ report_keys }
{}
