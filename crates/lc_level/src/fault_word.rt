//! The words by which reports name errors.

ghost use Rattle.std.specs.Prelude.{◌≡◌};
ghost use Rattle.lc_level.specs.FaultWords.{fault_word, fault_word_of};

use lc_tree::ReadFault;

/// Why a listing or a file could not be read, or that a path of `--only` is absent, as a word in reports.
#[derive(Clone, Copy, Debug, Drop, PartialEq, Eq)]
pub enum FaultWord {
    /// A directory could not be listed, a file could not be opened, or a read failed.
    Read,
    /// A listing has a name that is not UTF-8, or a name that no entry can have, such as `a/b`.
    Name,
    /// A listing has a name twice.
    Twice,
    /// A listing has too many entries.
    Many,
    /// An ignore file or an attribute file is too long.
    Long,
    /// All allowed reads of a file were made, and the file did not end.
    Endless,
    /// A path of `--only` does not exist, or is under something that is no directory or that the tree does not enter.
    Absent,
}

impl FaultWord {
    /// Returns the word for the error of listing a directory. A failed allocation has no word, because a walk without enough memory makes
    /// no report.
    pub fn of(fault: ReadFault) -> Option<FaultWord>
        ensures { result ≡ fault_word_of fault }
    {
        match fault {
            ReadFault::Failed => Some(FaultWord::Read),
            ReadFault::Unnamed => Some(FaultWord::Name),
            ReadFault::BadName => Some(FaultWord::Name),
            ReadFault::Twice => Some(FaultWord::Twice),
            ReadFault::TooMany => Some(FaultWord::Many),
            ReadFault::Memory => None,
        }
    }

    /// Returns the word that is printed, such as `read`.
    pub fn as_str(self) -> &'static str
        ensures { result.now ≡ fault_word self }
    {
        match self {
            FaultWord::Read => "read",
            FaultWord::Name => "name",
            FaultWord::Twice => "twice",
            FaultWord::Many => "many",
            FaultWord::Long => "long",
            FaultWord::Endless => "endless",
            FaultWord::Absent => "absent",
        }
    }
}
