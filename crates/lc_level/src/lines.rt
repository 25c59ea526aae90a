//! The lines of a report: counted files, errors and skipped entries.
ghost use Rattle.std.specs.Prelude.{◌≡◌, ℕ, List, IfOk};
ghost use Rattle.lc_level.specs.FaultLines.{fault_below};
ghost use Rattle.lc_level.specs.Level.{file_below, skipped_below};

use crate::fault_word::FaultWord;
use crate::file_attributes::FileAttributes;
use crate::paths::path_in;
use crate::reason::Reason;
use lc_census::Count;
use lc_rules::TextState;
use lc_tree::Kind;
use std::alloc::{AllocError, Global};
use std::marker::Model;
use std::sync::Arc;

/// A line of a report: a counted file, an error or a skipped entry, with its path. The path is relative to a directory or to the top of a
/// tree.
pub trait Line: Sized {
    ghost path_of: { Self → List ℕ };

    ghost below_of: { List ℕ → Self → Self };

    /// Returns the path of the line.
    fn path(&self) -> &[u8]
        ensures { result.now ≡ path_of self.now };

    /// Makes a copy of the line, with `directory` joined before its path.
    fn below(&self, alloc: Global, directory: &[u8]) -> Result<Self, AllocError>
        ensures { IfOk result (λ line. line ≡ below_of directory.now self.now) };
}

/// A counted file.
#[derive(Debug, Drop)]
pub struct FileLine {
    /// The path of the file, relative to a directory or to the top of a tree.
    pub path: Vec<u8>,
    /// The states of attributes for the file.
    pub attributes: Arc<FileAttributes, Global>,
    /// The numbers of the file's lines, blank lines and bytes, and its line ends.
    pub count: Count,
}

impl Model for FileLine {
    ghost use Rattle.std.specs.Arc.{arc_value};
    ghost use Rattle.lc_level.specs.Level.{FileLineModel};

    ghost Value = { FileLineModel };

    ghost view = { λ f. record {
      path = f.path.items;
      text = (arc_value f.attributes).text;
      asked = (arc_value f.attributes).asked;
      count = f.count;
    } };
}

impl FileLine {
    /// Returns the state of the attribute `text` for the file.
    pub fn text(&self) -> TextState
        ensures { result ≡ self.now.text }
    {
        self.attributes.text
    }
}

// A list of many files takes this much memory for each, its path aside.
const _: () = prove!(size_of::<FileLine>() == 64);

impl Line for FileLine {
    ghost path_of = { λ f. f.path };

    ghost below_of = { file_below };

    fn path(&self) -> &[u8] {
        &self.path
    }

    fn below(&self, alloc: Global, directory: &[u8]) -> Result<FileLine, AllocError> {
        Ok(FileLine {
            path: path_in(alloc, directory, &self.path)?,
            attributes: Arc::try_clone(&self.attributes)?,
            count: self.count,
        })
    }
}

/// A file or a directory that was not counted, or a path of `--only` that is absent, and why.
#[derive(Debug, Drop)]
pub struct FaultLine {
    /// The path, relative to a directory or to the top of a tree. The path is empty if the error is about this directory or the top itself.
    pub path: Vec<u8>,
    /// Why the file or directory was not counted.
    pub word: FaultWord,
}

impl Model for FaultLine {
    ghost use Rattle.lc_level.specs.FaultLines.{FaultLineModel};

    ghost Value = { FaultLineModel };

    ghost view = { λ f. record { path = f.path.items; word = f.word } };
}

impl Line for FaultLine {
    ghost path_of = { λ f. f.path };

    ghost below_of = { fault_below };

    fn path(&self) -> &[u8] {
        &self.path
    }

    fn below(&self, alloc: Global, directory: &[u8]) -> Result<FaultLine, AllocError> {
        Ok(FaultLine {
            path: path_in(alloc, directory, &self.path)?,
            word: self.word,
        })
    }
}

/// A skipped entry of a listed directory, and why it was skipped.
#[derive(Debug, Drop)]
pub struct SkippedLine {
    /// The path of the entry, relative to a directory or to the top of a tree.
    pub path: Vec<u8>,
    /// Whether the entry is a file, a directory or something else.
    pub kind: Kind,
    /// The first reason that holds for the entry.
    pub reason: Reason,
}

impl Model for SkippedLine {
    ghost use Rattle.lc_level.specs.Level.{SkippedLineModel};
    ghost use Rattle.lc_level.specs.Reasons.{reason_model};

    ghost Value = { SkippedLineModel };

    ghost view = { λ l. record { path = l.path.items; kind = l.kind; reason = reason_model l.reason } };
}

impl Line for SkippedLine {
    ghost path_of = { λ l. l.path };

    ghost below_of = { skipped_below };

    fn path(&self) -> &[u8] {
        &self.path
    }

    fn below(&self, alloc: Global, directory: &[u8]) -> Result<SkippedLine, AllocError> {
        Ok(SkippedLine {
            path: path_in(alloc, directory, &self.path)?,
            kind: self.kind,
            reason: self.reason.copy(alloc)?,
        })
    }
}
