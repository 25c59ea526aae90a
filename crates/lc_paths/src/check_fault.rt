//! The errors of checking or explaining paths.

ghost use Rattle.std.specs.Prelude.{◌≡◌};
ghost use Rattle.lc_paths.specs.CheckFaults.{input_fault, rules_fault, print_fault};
ghost use Rattle.lc_paths.specs.declared.check_fault.CheckFault.TheVariants.{Memory};

use lc_io::{PrintFault, WholeFault};
use lc_rules::RuleFault;
use std::alloc::AllocError;
use thiserror::Error;

/// Why the result of checking or explaining paths was not written, or was written only in part. An explanation never returns
/// `RulesTooLong`.
#[derive(Debug, Clone, Copy, PartialEq, Eq, Error)]
pub enum CheckFault {
    /// A read of the input failed.
    #[error("cannot read input")]
    Read,
    /// The input has over [`MAX_INPUT`](crate::MAX_INPUT) bytes.
    #[error("input too long")]
    InputTooLong,
    /// The rules that come with the paths have over [`MAX_RULE_BYTES`](lc_rules::MAX_RULE_BYTES) bytes. Only a check that reads rules and
    /// paths from one input returns this error.
    #[error("rules too long")]
    RulesTooLong,
    /// An allocation failed. If the text is written as it is made, a prefix of the text may have been written.
    #[error("out of memory")]
    Memory,
    /// A write failed, or accepted nothing. What was written is a prefix of the text.
    #[error("cannot write")]
    Write,
}

impl From<AllocError> for CheckFault {
    ghost from_gives = { λ _ fault. fault ≡ Memory };

    fn from(_refused: AllocError) -> CheckFault {
        CheckFault::Memory
    }
}

impl From<WholeFault> for CheckFault {
    ghost from_gives = { λ whole fault. fault ≡ input_fault whole };

    fn from(fault: WholeFault) -> CheckFault {
        match fault {
            WholeFault::Read => CheckFault::Read,
            WholeFault::TooLong => CheckFault::InputTooLong,
            WholeFault::Memory => CheckFault::Memory,
        }
    }
}

impl From<RuleFault> for CheckFault {
    ghost from_gives = { λ rule fault. fault ≡ rules_fault rule };

    fn from(fault: RuleFault) -> CheckFault {
        match fault {
            RuleFault::TooLong => CheckFault::RulesTooLong,
            RuleFault::Memory => CheckFault::Memory,
        }
    }
}

impl From<PrintFault> for CheckFault {
    ghost from_gives = { λ print fault. fault ≡ print_fault print };

    fn from(fault: PrintFault) -> CheckFault {
        match fault {
            PrintFault::Write => CheckFault::Write,
            PrintFault::Memory => CheckFault::Memory,
        }
    }
}
