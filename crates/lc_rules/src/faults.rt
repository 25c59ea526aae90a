//! The errors of reading a file of rules.

ghost use Rattle.std.specs.Prelude.{◌≡◌, ◌↔◌, ◌<◌, length, IsTrue};
ghost use Rattle.lc_rules.specs.Limits.{max_rule_bytes};
ghost use Rattle.lc_rules.specs.declared.faults.RuleFault.TheVariants.{Memory};

use std::alloc::AllocError;
use std::error::Error;
use std::fmt;

/// The greatest number of bytes of an ignore file or an attribute file.
pub const MAX_RULE_BYTES: usize = 1_048_576;

/// Returns whether a file has more than `MAX_RULE_BYTES` bytes.
pub(crate) fn is_too_long(bytes: &[u8]) -> bool
    ensures { IsTrue result ↔ (max_rule_bytes < length bytes.now) }
{
    bytes.len() > MAX_RULE_BYTES
}

/// Why an ignore file or an attribute file was not read.
#[derive(Clone, Copy, Debug)]
pub enum RuleFault {
    /// The file has more than `MAX_RULE_BYTES` bytes. Its length is tested before anything is allocated.
    TooLong,
    Memory,
}

impl fmt::Display for RuleFault {
    fn fmt<W: fmt::Write>(&self, f: &mut fmt::Formatter<W>) -> fmt::Result {
        f.write_str(match self {
            RuleFault::TooLong => "the rules are too long",
            RuleFault::Memory => "out of memory",
        })
    }
}

impl Error for RuleFault {}

impl From<AllocError> for RuleFault {
    ghost from_gives = { λ _ fault. fault ≡ Memory };

    fn from(_refused: AllocError) -> RuleFault {
        RuleFault::Memory
    }
}
