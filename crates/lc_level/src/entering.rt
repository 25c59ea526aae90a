//! Entering a directory: listing it, and reading its rule files whole.
ghost use Rattle.std.specs.Prelude.{◌≡◌, ◌&&◌, IfOk, OnOk, true, codes};
ghost use Rattle.lc_level.specs.EntryLooks.{has_dir};
ghost use Rattle.lc_level.specs.Enters.{EntersLevel};
ghost use Rattle.lc_level.specs.GitInfo.{ReadsGit};
ghost use Rattle.lc_level.specs.RuleFiles.{Pair, is_top, extended};
ghost use Rattle.lc_level.specs.RulePairs.{AreFilesOf, own_asked, ReadsBoth};
ghost use Rattle.lc_tree.specs.Trees.{Lists};

use crate::FaultSite;
use crate::job::Job;
use crate::level_reader::LevelReader;
use crate::open_fault::OpenFault;
use crate::rule_files::chains::{attributes_below, ignore_below};
use crate::rule_files::rule_pair::{PairNames, PairRead, RuleName, RulePair};
use crate::scratch::Scratch;
use lc_tree::{Entry, Listing, ReadFault, Tree};
use std::alloc::AllocError;

/// The bytes of the ignore files that are read for one directory. A field is `None` if the file was not read, or if
/// `ReaderOptions::texts` is `false`.
#[derive(Drop)]
pub struct RuleTexts {
    /// The bytes of `.git/info/exclude`. This file is read only for the top directory of a tree.
    pub info: Option<Vec<u8>>,
    /// The bytes of the directory's own `.gitignore`.
    pub own: Option<Vec<u8>>,
}

/// A directory whose listing and rule files were read.
#[derive(Drop)]
pub struct Entered {
    /// The job of the directory: its path, and its chains of rule files, which include the directory's own rule files.
    pub job: Job,
    /// The entries of the directory, in the order of their names.
    pub entries: Vec<Entry>,
    /// The texts of the directory's ignore files.
    pub texts: RuleTexts,
}

impl<T: Tree> LevelReader<'_, T> {
    /// Reads the rule files of `.git/info` if the directory is the top. For any other directory, reads nothing.
    fn read_info(
        &self,
        no_ignore: bool,
        directory: &[u8],
        listing: &Listing,
        scratch: &mut Scratch,
    ) -> Result<PairRead, OpenFault>
        ensures { ReadsGit (T.lists self.now.tree.now) (T.gives self.now.tree.now) no_ignore self.now.options.texts
            (is_top directory.now && has_dir (codes ".git") listing.now) result }
    {
        if !directory.is_empty() {
            return Ok(PairRead::none());
        }
        self.read_git_info(no_ignore, listing, scratch)
    }

    /// Reads a directory's own `.gitignore`, unless `no_ignore` is set, and `.gitattributes`. On success `scratch` has the path of this
    /// directory.
    fn read_own(
        &self,
        no_ignore: bool,
        directory: &[u8],
        listing: &Listing,
        scratch: &mut Scratch,
    ) -> Result<PairRead, OpenFault>
        ensures at { OnOk result (scratch.new.path.directory ≡ directory.now) }
        ensures read { ReadsBoth (T.gives self.now.tree.now) (own_asked no_ignore self.now.options.texts directory.now listing.now) result }
    {
        let Ok(()) = scratch.path.enter(directory) else {
            return Err(OpenFault::Memory);
        };
        let names = PairNames {
            rules: RuleName {
                name: b".gitignore",
                site: FaultSite::Gitignore,
            },
            attributes: RuleName {
                name: b".gitattributes",
                site: FaultSite::Gitattributes,
            },
            top: directory.is_empty(),
            no_ignore,
        };
        self.read_pair(listing, names, scratch)
    }

    /// Returns the job with these rule files added to its chains: the files of `.git/info`, and the directory's own.
    fn with_files(&self, job: &Job, info: RulePair, own: RulePair) -> Result<Job, AllocError>
        ensures path { IfOk result (λ k. k.path ≡ job.now.path) }
        ensures files { IfOk result (λ k. (i o : Pair) → AreFilesOf true info i → AreFilesOf (is_top job.now.path) own o
            → k ≡ extended job.now (record { info = i; own = o })) }
    {
        let depth = job.depth();
        let ignore = ignore_below(self.alloc, job.ignore(), info.rules, depth, own.rules)?;
        let attributes = attributes_below(
            self.alloc,
            job.attributes(),
            info.attributes,
            depth,
            own.attributes,
        )?;
        job.with_chains(self.alloc, ignore, attributes)
    }

    /// Like `enter`, but takes the listing of the job's directory as an argument.
    pub(crate) fn enter_listed(
        &self,
        job: &Job,
        listing: Result<Listing, ReadFault>,
        scratch: &mut Scratch,
    ) -> Result<Entered, OpenFault>
        requires { Lists (T.lists self.now.tree.now job.now.path) listing }
        ensures at { IfOk result (λ e. scratch.new.path.directory ≡ e.job.path) }
        ensures enters { EntersLevel (T.lists self.now.tree.now) (T.gives self.now.tree.now) job.now self.now.options.texts result }
    {
        let path = job.path();
        let no_ignore = job.no_ignore();
        let listing = self.listed_for(path, listing, FaultSite::Directory)?;
        let info = self.read_info(no_ignore, path, &listing, scratch)?;
        let own = self.read_own(no_ignore, path, &listing, scratch)?;
        let Ok(inside) = self.with_files(job, info.files, own.files) else {
            return Err(OpenFault::Memory);
        };
        let texts = RuleTexts {
            info: info.text,
            own: own.text,
        };
        Ok(Entered {
            job: inside,
            entries: listing.into_entries(),
            texts,
        })
    }

    /// Lists the directory of a job and reads its rule files, up to the first error. On success `scratch` holds the path of the directory.
    pub fn enter(&self, job: &Job, scratch: &mut Scratch) -> Result<Entered, OpenFault>
        ensures at { IfOk result (λ e. scratch.new.path.directory ≡ e.job.path) }
        ensures enters { EntersLevel (T.lists self.now.tree.now) (T.gives self.now.tree.now) job.now self.now.options.texts result }
    {
        let listing = self.tree.list(self.alloc, job.path());
        self.enter_listed(job, listing, scratch)
    }
}
