//! Reading the rule files of a directory.
ghost use Rattle.std.specs.Prelude.{◌≡◌, ◌&&◌, not, None, Some, IfOk};
ghost use Rattle.lc_glob.specs.Path.{path_in};
ghost use Rattle.lc_rules.specs.AttrLines.{attribute_file_of};
ghost use Rattle.lc_level.specs.EntryLooks.{has_file};
ghost use Rattle.lc_level.specs.RuleReads.{text_items, text_if, IsRead, IsParsed, IsIgnoreRead};

pub(crate) mod chains;
pub(crate) mod git_info;
pub(crate) mod rule_pair;
pub(crate) mod rule_text;

use crate::content_fault::ContentFault;
use crate::entry_looks::has_file;
use crate::level_reader::LevelReader;
use crate::scratch::Scratch;
use lc_rules::{AttrFile, IgnoreFile, RuleFault};
use lc_tree::{Listing, Tree};
use std::alloc::{AllocError, Global};
use std::sync::Arc;

/// An ignore file, if it exists, and its bytes if the reader's options say to keep texts.
#[derive(Drop)]
pub(crate) struct IgnoreRead {
    pub(crate) file: Option<Arc<IgnoreFile, Global>>,
    pub(crate) text: Option<Vec<u8>>,
}

impl IgnoreRead {
    /// Returns the value that means that no ignore file was read.
    fn none() -> IgnoreRead
        ensures { result ≡ record { file = None; text = None } }
    {
        IgnoreRead {
            file: None,
            text: None,
        }
    }
}

impl<T: Tree> LevelReader<'_, T> {
    /// Returns a copy of a file's bytes, if the reader's options say to keep texts.
    fn text_of(&self, bytes: &[u8]) -> Result<Option<Vec<u8>>, AllocError>
        ensures { IfOk result (λ text. text_items text ≡ text_if self.now.options.texts (Some bytes.now)) }
    {
        if !self.options.texts {
            return Ok(None);
        }
        Ok(Some(bytes.to_vec(self.alloc)?))
    }

    /// Reads the file with this name in the directory of `scratch.path` into `scratch.rules`. Returns whether the listing has the file.
    fn read_named(
        &self,
        listing: &Listing,
        name: &[u8],
        scratch: &mut Scratch,
    ) -> Result<bool, ContentFault>
        ensures same { scratch.new.path.directory ≡ scratch.old.path.directory }
        ensures read { IsRead (T.gives self.now.tree.now (path_in scratch.old.path.directory name.now))
            (has_file name.now listing.now) result scratch.new.rules.items }
    {
        if !has_file(listing, name) {
            return Ok(false);
        }
        let Ok(()) = scratch.path.set_name(name) else {
            return Err(ContentFault::Memory);
        };
        self.read_rules(
            scratch.path.as_slice(),
            &mut scratch.buffer,
            &mut scratch.rules,
        )?;
        Ok(true)
    }

    /// Reads the ignore file with this name in the directory of `scratch.path`, if the listing has the file and `no_ignore` is not set.
    pub(crate) fn ignore_file(
        &self,
        no_ignore: bool,
        listing: &Listing,
        name: &[u8],
        scratch: &mut Scratch,
    ) -> Result<IgnoreRead, ContentFault>
        ensures same { scratch.new.path.directory ≡ scratch.old.path.directory }
        ensures read { IsIgnoreRead self.now.options.texts (T.gives self.now.tree.now (path_in scratch.old.path.directory name.now))
            (not no_ignore && has_file name.now listing.now) result }
    {
        if no_ignore || !self.read_named(listing, name, scratch)? {
            return Ok(IgnoreRead::none());
        }
        let file = match IgnoreFile::read(self.alloc, &scratch.rules) {
            Ok(file) => file,
            Err(RuleFault::TooLong) => unreachable!(),
            Err(RuleFault::Memory) => return Err(ContentFault::Memory),
        };
        let Ok(file) = Arc::new(self.alloc, file) else {
            return Err(ContentFault::Memory);
        };
        match self.text_of(&scratch.rules) {
            Ok(text) => Ok(IgnoreRead {
                file: Some(file),
                text,
            }),
            Err(_) => Err(ContentFault::Memory),
        }
    }

    /// Reads the attribute file with this name in the directory of `scratch.path`, if the listing has the file. The file may define macros
    /// only if `top` is set.
    pub(crate) fn attribute_file(
        &self,
        listing: &Listing,
        name: &[u8],
        top: bool,
        scratch: &mut Scratch,
    ) -> Result<Option<Arc<AttrFile, Global>>, ContentFault>
        ensures same { scratch.new.path.directory ≡ scratch.old.path.directory }
        ensures read { IsParsed (T.gives self.now.tree.now (path_in scratch.old.path.directory name.now)) (has_file name.now listing.now)
            (attribute_file_of top) result }
    {
        if !self.read_named(listing, name, scratch)? {
            return Ok(None);
        }
        if let Some(named) = self.options.named {
            named.note(&scratch.rules);
        }
        match AttrFile::read(self.alloc, &scratch.rules, top) {
            Ok(file) => match Arc::new(self.alloc, file) {
                Ok(file) => Ok(Some(file)),
                Err(_) => Err(ContentFault::Memory),
            },
            Err(RuleFault::TooLong) => unreachable!(),
            Err(RuleFault::Memory) => Err(ContentFault::Memory),
        }
    }
}
