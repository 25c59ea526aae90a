//! The two rule files of one directory: an ignore file and an attribute file.
ghost use Rattle.std.specs.Prelude.{◌≡◌};
ghost use Rattle.lc_level.specs.RulePairs.{ReadsBoth, pair_asked};

use crate::FaultSite;
use crate::level_reader::LevelReader;
use crate::open_fault::OpenFault;
use crate::scratch::Scratch;
use lc_rules::{AttrFile, IgnoreFile};
use lc_tree::{Listing, Tree};
use std::alloc::Global;
use std::sync::Arc;

/// The ignore file and the attribute file of a directory, each if it was read.
#[derive(Drop)]
pub(crate) struct RulePair {
    pub(crate) rules: Option<Arc<IgnoreFile, Global>>,
    pub(crate) attributes: Option<Arc<AttrFile, Global>>,
}

/// Both rule files of a directory, each if it was read, and the bytes of the ignore file if the reader's options say to keep texts.
#[derive(Drop)]
pub(crate) struct PairRead {
    pub(crate) files: RulePair,
    pub(crate) text: Option<Vec<u8>>,
}

impl PairRead {
    /// Returns the value that means that neither file was read.
    pub(crate) fn none() -> PairRead
        ensures { result ≡ record { files = record { rules = None; attributes = None }; text = None } }
    {
        PairRead {
            files: RulePair {
                rules: None,
                attributes: None,
            },
            text: None,
        }
    }
}

/// The name of a rule file, and the site that is reported if the file can't be read.
#[derive(Clone, Copy)]
pub(crate) struct RuleName<'a> {
    pub(crate) name: &'a [u8],
    pub(crate) site: FaultSite,
}

/// The two files to read in a directory: the ignore file `rules` and the attribute file. The attribute file may define macros only if `top`
/// is set. The ignore file is not read if `no_ignore` is set.
#[derive(Clone, Copy)]
pub(crate) struct PairNames<'a> {
    pub(crate) rules: RuleName<'a>,
    pub(crate) attributes: RuleName<'a>,
    pub(crate) top: bool,
    pub(crate) no_ignore: bool,
}

impl<T: Tree> LevelReader<'_, T> {
    /// Reads the two files with these names in the directory of `scratch.path`, first the ignore file, unless `names.no_ignore` is set.
    pub(crate) fn read_pair(
        &self,
        listing: &Listing,
        names: PairNames,
        scratch: &mut Scratch,
    ) -> Result<PairRead, OpenFault>
        ensures same { scratch.new.path.directory ≡ scratch.old.path.directory }
        ensures read { ReadsBoth (T.gives self.now.tree.now)
            (pair_asked names.entry self.now.options.texts scratch.old.path.directory listing.now) result }
    {
        let rules = match self.ignore_file(names.no_ignore, listing, names.rules.name, scratch) {
            Ok(read) => read,
            Err(content_fault) => return Err(content_fault.at(names.rules.site)),
        };
        let attributes = match self.attribute_file(
            listing,
            names.attributes.name,
            names.top,
            scratch,
        ) {
            Ok(file) => file,
            Err(content_fault) => return Err(content_fault.at(names.attributes.site)),
        };
        let files = RulePair {
            rules: rules.file,
            attributes,
        };
        Ok(PairRead {
            files,
            text: rules.text,
        })
    }
}
