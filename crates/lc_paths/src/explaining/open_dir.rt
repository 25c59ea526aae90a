//! Directories that were opened to explain a path below them.

ghost use Rattle.std.specs.Prelude.{◌≡◌, IfSome};
ghost use Rattle.lc_level.specs.RuleReads.{text_items};
ghost use Rattle.lc_tree.specs.Listing.{IsListing};
ghost use Rattle.lc_paths.specs.Explanations.OpenDirs.{kind_in};
ghost use Rattle.lc_paths.specs.Explanations.DirStacks.{IsRestBelow};

use lc_level::{Entered, Job, RuleTexts, entry_named, relative_to};
use lc_tree::{Entry, Kind};
use std::marker::Model;

/// About how many bytes of memory an opened directory takes, besides its entries, its path and the texts of its rule files.
const DIRECTORY_BYTES: usize = 512;

/// About how many bytes of memory an entry takes besides its name.
const ENTRY_BYTES: usize = 64;

/// About how many bytes of memory each byte of a directory's path takes: the path is stored twice, and each name of the path makes the
/// stack longer.
const PATH_BYTES: usize = 6;

/// About how many bytes of memory each byte of a rule file takes: the byte itself, and its part of the rules that were read.
const TEXT_BYTES: usize = 16;

/// Returns about how many bytes of memory these entries take.
fn size_of_entries(entries: &[Entry]) -> usize {
    let mut size = 0_usize;
    for entry in entries {
        size = size
            .saturating_add(ENTRY_BYTES)
            .saturating_add(entry.name.len());
    }
    size
}

/// Returns about how many bytes of memory a rule file takes, if there is one.
fn size_of_text(text: &Option<Vec<u8>>) -> usize {
    match text {
        Some(bytes) => bytes.len().saturating_mul(TEXT_BYTES),
        None => 0,
    }
}

/// A directory that was opened: its entries, the texts of its rule files, and its job, whose chains have these files.
#[derive(Drop)]
pub(crate) struct OpenDir {
    pub(crate) job: Job,
    pub(crate) entries: Vec<Entry>,
    pub(crate) info: Option<Vec<u8>>,
    pub(crate) own: Option<Vec<u8>>,
    // The memory that it takes, about, in bytes.
    size: usize,
}

impl Model for OpenDir {
    ghost use Rattle.lc_level.specs.RuleReads.{text_items};
    ghost use Rattle.lc_tree.specs.Listing.{IsListing};
    ghost use Rattle.lc_paths.specs.Explanations.OpenDirs.{OpenDirModel};

    ghost Value = { OpenDirModel };

    ghost view = { λ w. record { job = w.job; entries = w.entries.items; info = text_items w.info; own = text_items w.own } };

    ghost invariant = { λ w. IsListing w.entries.items };
}

impl OpenDir {
    /// Stores what a level reader found when it entered a directory.
    pub(crate) fn new(entered: Entered) -> OpenDir
        requires { IsListing entered.entries.items }
        ensures { result ≡ record {
          job = entered.job;
          entries = entered.entries.items;
          info = text_items entered.texts.info;
          own = text_items entered.texts.own;
        } }
    {
        let Entered {
            job,
            entries,
            texts,
        } = entered;
        let RuleTexts { info, own } = texts;
        let size = DIRECTORY_BYTES
            .saturating_add(job.path().len().saturating_mul(PATH_BYTES))
            .saturating_add(size_of_entries(&entries))
            .saturating_add(size_of_text(&info))
            .saturating_add(size_of_text(&own));
        OpenDir {
            job,
            entries,
            info,
            own,
            size,
        }
    }

    /// Returns about how many bytes of memory the directory takes.
    pub(crate) fn size(&self) -> usize {
        self.size
    }

    /// Returns the kind of the entry with a name, if there is one.
    pub(crate) fn kind(&self, name: &[u8]) -> Option<Kind>
        ensures { result ≡ kind_in self.now.entries name.now }
    {
        match entry_named(&self.entries, name) {
            Some(entry) => Some(entry.kind),
            None => None,
        }
    }

    /// Returns the rest of a path below this directory, if the path is below it.
    pub(crate) fn rest_of<'p>(&self, path: &'p [u8]) -> Option<&'p [u8]>
        ensures { IfSome result (λ rest. IsRestBelow self.now path.now rest.now) }
    {
        let directory = self.job.path();
        relative_to(directory, path)
    }
}
