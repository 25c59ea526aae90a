//! Why the program stops with an error, and the line that it then writes to standard error.

ghost use Rattle.std.specs.Prelude.{◌≡◌, IfOk, IsErr};
ghost use Rattle.std.specs.Cow.{cow_str_bytes};
ghost use Rattle.lc_program.specs.Causes.{HasNumber, cause_line, check_cause, join_cause, print_cause, rules_cause, unread_paths_line};
ghost use Rattle.lc_program.specs.Causes.{unread_attributes_line, walk_cause};
ghost use Rattle.lc_program.specs.declared.cause.Cause.TheVariants.{Memory};

use crate::unread_reason::UnreadReason;
use lc_io::PrintFault;
use lc_level::RulesFileFault;
use lc_paths::CheckFault;
use lc_reports::JoinFault;
use lc_walk::WalkFault;
use std::alloc::{AllocError, AllocFailed, Global};
use std::borrow::CowStr;

/// Why the program stops with an error. Each cause has a line for standard error, and the exit status is 3.
#[derive(Drop)]
pub enum Cause {
    /// An allocation failed.
    Memory,
    /// A walk found more directories than its limit.
    TooManyDirs,
    /// An entry of a counted directory has a path that is too long or too deep.
    TooDeep,
    /// The directories that the workers (threads) found do not form a tree. The error is at the directory with this number on the board,
    /// the table of directories that all workers share. This error never occurs.
    Torn(u32),
    /// The worker (thread) with this number keeps a record of its events. This record differs from the record on the board, the table of
    /// directories that all workers share. This error never occurs.
    Mismatch(u32),
    /// The rule file that the command line names could not be read.
    UnreadRules,
    /// The rules have too many bytes.
    RulesTooLong,
    /// The attribute file that the command line names could not be read. The field has the reason, if the system gives one.
    UnreadAttributes(Option<UnreadReason>),
    /// The attribute file has too many bytes.
    AttributesTooLong,
    /// The list of paths that the command line names could not be read. The field has the reason, if the system gives one.
    UnreadPaths(Option<UnreadReason>),
    /// The list of paths has too many bytes.
    PathsTooLong,
    /// The list of paths is empty, or has a path that no entry can have. The text is the line for standard error. The line names the list
    /// and, if the list is not empty, the wrong path.
    BadPaths(String),
    /// Standard input could not be read.
    UnreadInput,
    /// Standard input has too many bytes.
    InputTooLong,
    /// Two paths of a count lead to the same directory, or one counted directory lies in another. The text is the line for standard error,
    /// which names both directories.
    Nested(String),
    /// One of several directories, or a directory of a comparison, has too many directories, or a path that is too long or too deep. Or the
    /// directory of an explanation is none. The text is the line for standard error, which names the directory.
    InDirectory(String),
    /// A report, or a directory of a comparison, can't be read or used, or an option chooses files but both sides are reports. The text is
    /// the line for standard error, which says what is wrong and where.
    InReport(String),
    /// No column is in every report, and the command line names no columns.
    NoSharedColumn,
    /// A sum over several reports does not fit its type.
    SumsTooLarge,
    /// The answer, help or the version could not be written.
    Unwritten,
}

/// Returns the line about a list of paths that could not be read.
fn unread_paths_line(why: Option<UnreadReason>) -> &'static str
    ensures { result.now ≡ unread_paths_line why }
{
    match why {
        None | Some(UnreadReason::Other) => "lc: cannot read paths\n",
        Some(UnreadReason::Missing) => "lc: cannot read paths: no such file or directory\n",
        Some(UnreadReason::Denied) => "lc: cannot read paths: permission denied\n",
        Some(UnreadReason::IsDirectory) => "lc: cannot read paths: is a directory\n",
        Some(UnreadReason::IsFile | UnreadReason::NotDirectory) => {
            "lc: cannot read paths: not a directory\n"
        }
    }
}

/// Returns the line about an attribute file that could not be read.
fn unread_attributes_line(why: Option<UnreadReason>) -> &'static str
    ensures { result.now ≡ unread_attributes_line why }
{
    match why {
        None | Some(UnreadReason::Other) => "lc: cannot read attributes\n",
        Some(UnreadReason::Missing) => "lc: cannot read attributes: no such file or directory\n",
        Some(UnreadReason::Denied) => "lc: cannot read attributes: permission denied\n",
        Some(UnreadReason::IsDirectory) => "lc: cannot read attributes: is a directory\n",
        Some(UnreadReason::IsFile | UnreadReason::NotDirectory) => {
            "lc: cannot read attributes: not a directory\n"
        }
    }
}

impl Cause {
    /// Makes the line for standard error, with its line feed. Only a line with a number allocates memory.
    pub(crate) fn line(&self, alloc: Global) -> Result<CowStr<'_>, AllocError>
        ensures line { IfOk result (λ line. cow_str_bytes line ≡ cause_line self.now) }
        ensures refused { IsErr result → HasNumber self.now }
    {
        let line = match self {
            Cause::Memory => "lc: out of memory\n",
            Cause::TooManyDirs => "lc: too many directories\n",
            Cause::TooDeep => "lc: path too deep\n",
            Cause::Torn(number) => {
                let line = format!(in alloc; "lc: internal: directory {number} torn\n")?;
                return Ok(CowStr::Owned(line));
            }
            Cause::Mismatch(worker) => {
                let line = format!(in alloc; "lc: internal: worker {worker} mismatch\n")?;
                return Ok(CowStr::Owned(line));
            }
            Cause::UnreadRules => "lc: cannot read rules\n",
            Cause::RulesTooLong => "lc: rules too long\n",
            Cause::UnreadAttributes(why) => {
                return Ok(CowStr::Borrowed(unread_attributes_line(*why)));
            }
            Cause::UnreadPaths(why) => return Ok(CowStr::Borrowed(unread_paths_line(*why))),
            Cause::AttributesTooLong => "lc: attributes too long\n",
            Cause::PathsTooLong => "lc: paths too long\n",
            Cause::BadPaths(line)
            | Cause::Nested(line)
            | Cause::InDirectory(line)
            | Cause::InReport(line) => return Ok(CowStr::Borrowed(line.as_str())),
            Cause::NoSharedColumn => "lc: no column is in every report: count with --files\n",
            Cause::UnreadInput => "lc: cannot read input\n",
            Cause::InputTooLong => "lc: input too long\n",
            Cause::SumsTooLarge => "lc: sums too large\n",
            Cause::Unwritten => "lc: cannot write\n",
        };
        Ok(CowStr::Borrowed(line))
    }
}

impl From<AllocError> for Cause {
    ghost from_gives = { λ _ cause. cause ≡ Memory };

    fn from(_refused: AllocError) -> Cause {
        Cause::Memory
    }
}

impl<T: Drop> From<AllocFailed<T>> for Cause {
    ghost from_gives = { λ _ cause. cause ≡ Memory };

    fn from(_refused: AllocFailed<T>) -> Cause {
        Cause::Memory
    }
}

impl From<RulesFileFault> for Cause {
    ghost from_gives = { λ rules cause. cause ≡ rules_cause rules };

    fn from(fault: RulesFileFault) -> Cause {
        match fault {
            RulesFileFault::Read => Cause::UnreadRules,
            RulesFileFault::TooLong => Cause::RulesTooLong,
            RulesFileFault::Memory => Cause::Memory,
        }
    }
}

impl From<CheckFault> for Cause {
    ghost from_gives = { λ check cause. cause ≡ check_cause check };

    fn from(fault: CheckFault) -> Cause {
        match fault {
            CheckFault::Read => Cause::UnreadInput,
            CheckFault::InputTooLong => Cause::InputTooLong,
            CheckFault::RulesTooLong => Cause::RulesTooLong,
            CheckFault::Memory => Cause::Memory,
            CheckFault::Write => Cause::Unwritten,
        }
    }
}

impl From<WalkFault> for Cause {
    ghost from_gives = { λ walk cause. cause ≡ walk_cause walk };

    fn from(fault: WalkFault) -> Cause {
        match fault {
            WalkFault::Memory => Cause::Memory,
            WalkFault::TooManyDirs => Cause::TooManyDirs,
            WalkFault::TooDeep => Cause::TooDeep,
            WalkFault::Torn(number) => Cause::Torn(number),
            WalkFault::Mismatch(worker) => Cause::Mismatch(worker),
        }
    }
}

impl From<JoinFault> for Cause {
    ghost from_gives = { λ join cause. cause ≡ join_cause join };

    fn from(fault: JoinFault) -> Cause {
        match fault {
            JoinFault::Memory => Cause::Memory,
            JoinFault::TooLarge => Cause::SumsTooLarge,
        }
    }
}

impl From<PrintFault> for Cause {
    ghost from_gives = { λ print cause. cause ≡ print_cause print };

    fn from(fault: PrintFault) -> Cause {
        match fault {
            PrintFault::Memory => Cause::Memory,
            PrintFault::Write => Cause::Unwritten,
        }
    }
}
