//! Divides the entries of a directory into files to count, directories to visit, and entries to skip. Whether an entry is
//! skipped depends on its name and kind, the directory's rules, and the filters.
ghost use Rattle.std.specs.Prelude.{◌≡◌, ◌≤◌, true, false, length, nat_lt, option_map};
ghost use Rattle.std.specs.Option.{option_or};
ghost use Rattle.lc_glob.specs.Path.{depth_of, max_depth, max_path};
ghost use Rattle.lc_level.specs.Classified.{IsChild, LeavesOut, ClassifiesFile, ClassifiesDirectory, ClassifiesOther, ClassifiesEntry};
ghost use Rattle.lc_level.specs.Classified.{ClassifiesAll};
ghost use Rattle.lc_level.specs.Level.{include_reason, reason_at, job_at};
ghost use Rattle.lc_level.specs.Reasons.{reason_ref_model};
ghost use Rattle.lc_level.specs.Filters.{include_rules, patterns_for};

use crate::OpenFault;
use crate::job::Job;
use crate::level_reader::LevelReader;
use crate::lines::SkippedLine;
use crate::narrowing::included::is_included;
use crate::path_buffer::PathBuffer;
use crate::reason::ReasonRef;
use lc_glob::path::is_too_deep;
use lc_rules::IgnoreFile;
use lc_tree::{Entry, Kind, OtherKind, Tree};
use std::alloc::Global;
use std::marker::Model;

/// The files to count, the directories to visit, and the skipped entries. Each of these lists is in the order of the listing.
#[derive(Drop)]
pub(crate) struct Classified {
    pub(crate) files: Vec<Vec<u8>>,
    pub(crate) children: Vec<ChildDirectory>,
    pub(crate) skipped: Vec<SkippedLine>,
}

/// A directory that is to be visited.
#[derive(Drop)]
pub struct ChildDirectory {
    /// The name of the directory in its parent.
    pub name: Vec<u8>,
    /// The job of the directory: its path, and two chains: the ignore files and the attribute files that apply in its parent.
    pub job: Job,
}

impl Model for ChildDirectory {
    ghost use Rattle.std.specs.Prelude.{ℕ, List};
    ghost use Rattle.lc_level.specs.Job.{JobModel};

    ghost Value = { List ℕ × JobModel };

    ghost view = { λ c. (c.name.items, c.job) };
}

/// Returns the job of a child directory, unless its path has too many segments for a walk.
fn child_job(alloc: Global, job: &Job, path: &[u8]) -> Result<Job, OpenFault>
    requires { length path.now ≤ max_path }
    ensures { IsChild job.now path.now result }
{
    if is_too_deep(path) {
        return Err(OpenFault::TooDeep);
    }
    match job.at(alloc, path) {
        Ok(job) => Ok(job),
        Err(_) => Err(OpenFault::Memory),
    }
}

impl<T: Tree> LevelReader<'_, T> {
    /// Adds an entry to the skipped entries, if the reader's options say to keep skipped entries.
    fn leave_out(
        &self,
        name: Vec<u8>,
        kind: Kind,
        reason: ReasonRef,
        found: &mut Classified,
    ) -> Result<(), OpenFault>
        ensures { LeavesOut self.now.options.left_out (reason_ref_model reason.entry) name.items kind found.old found.new result }
    {
        if !self.options.left_out {
            return Ok(());
        }
        let Ok(reason) = reason.to_reason(self.alloc) else {
            return Err(OpenFault::Memory);
        };
        match found.skipped.push(SkippedLine {
            path: name,
            kind,
            reason,
        }) {
            Ok(()) => Ok(()),
            Err(_) => Err(OpenFault::Memory),
        }
    }

    /// Adds a file to the files to count, or to the skipped entries. If `patterns` is not `None`, the file is skipped unless one of the
    /// patterns matches it.
    fn classify_file(
        &self,
        job: &Job,
        patterns: Option<&IgnoreFile>,
        name: Vec<u8>,
        path: &[u8],
        found: &mut Classified,
    ) -> Result<(), OpenFault>
        ensures { ClassifiesFile self.now.options.left_out
            (option_or (reason_at self.now.filters.now job.now path.now false)
            (include_reason (option_map (λ p. p.now) patterns.entry) path.now))
            name.items found.old found.new result }
    {
        match self.reason_at(job, path, false) {
            Ok(None) => {}
            Ok(Some(reason)) => return self.leave_out(name, Kind::File, reason, found),
            Err(_) => return Err(OpenFault::Memory),
        }
        if !is_included(patterns, path) {
            return self.leave_out(name, Kind::File, ReasonRef::NotIncluded, found);
        }
        match found.files.push(name) {
            Ok(()) => Ok(()),
            Err(_) => Err(OpenFault::Memory),
        }
    }

    /// Adds a directory to the directories to visit, or to the skipped entries.
    fn classify_directory(
        &self,
        job: &Job,
        name: Vec<u8>,
        path: &[u8],
        found: &mut Classified,
    ) -> Result<(), OpenFault>
        requires { length path.now ≤ max_path }
        ensures { ClassifiesDirectory self.now.options.left_out (reason_at self.now.filters.now job.now path.now true)
            (nat_lt max_depth (depth_of path.now)) (name.items, job_at job.now path.now) found.old found.new result }
    {
        match self.reason_at(job, path, true) {
            Ok(None) => {}
            Ok(Some(reason)) => return self.leave_out(name, Kind::Dir, reason, found),
            Err(_) => return Err(OpenFault::Memory),
        }
        let job = child_job(self.alloc, job, path)?;
        match found.children.push(ChildDirectory { name, job }) {
            Ok(()) => Ok(()),
            Err(_) => Err(OpenFault::Memory),
        }
    }

    /// Adds an entry that is neither a file nor a directory to the skipped entries, if the reader's options say to keep skipped entries.
    fn classify_other(
        &self,
        job: &Job,
        what: OtherKind,
        name: Vec<u8>,
        path: &[u8],
        found: &mut Classified,
    ) -> Result<(), OpenFault>
        ensures { ClassifiesOther self.now.options.left_out (reason_at self.now.filters.now job.now path.now false) what name.items
            found.old found.new result }
    {
        if !self.options.left_out {
            return Ok(());
        }
        match self.reason_at(job, path, false) {
            Ok(None) => self.leave_out(name, Kind::Other(what), ReasonRef::OtherKind(what), found),
            Ok(Some(reason)) => self.leave_out(name, Kind::Other(what), reason, found),
            Err(_) => Err(OpenFault::Memory),
        }
    }

    /// Adds one entry to the files to count, to the directories to visit, or to the skipped entries, and moves its name there. If
    /// `patterns` is not `None`, a file is skipped unless one of the patterns matches it.
    fn classify_entry(
        &self,
        job: &Job,
        patterns: Option<&IgnoreFile>,
        entry: Entry,
        path: &mut PathBuffer,
        found: &mut Classified,
    ) -> Result<(), OpenFault>
        requires at { path.old.directory ≡ job.now.path }
        requires patterns { option_map (λ p. p.now) patterns ≡ patterns_for (include_rules self.now.filters.now) job.now.path }
        ensures same { path.new.directory ≡ path.old.directory }
        ensures entry { ClassifiesEntry self.now.options.left_out self.now.filters.now job.now entry found.old found.new result }
    {
        if entry.name.as_slice() == b".git".as_slice() {
            return self.leave_out(entry.name, entry.kind, ReasonRef::Git, found);
        }
        path.set_short(&entry.name)?;
        match entry.kind {
            Kind::File => self.classify_file(job, patterns, entry.name, path.as_slice(), found),
            Kind::Dir => self.classify_directory(job, entry.name, path.as_slice(), found),
            Kind::Other(what) => self.classify_other(job, what, entry.name, path.as_slice(), found),
        }
    }

    /// Divides all entries into files to count, directories to visit, and skipped entries. Each of these lists is in the order of the
    /// listing.
    pub(crate) fn classify_all(
        &self,
        job: &Job,
        entries: Vec<Entry>,
        path: &mut PathBuffer,
    ) -> Result<Classified, OpenFault>
        requires at { path.old.directory ≡ job.now.path }
        ensures same { path.new.directory ≡ path.old.directory }
        ensures all { ClassifiesAll self.now.options.left_out self.now.filters.now job.now entries.items result }
    {
        let mut found = Classified {
            files: Vec::new(self.alloc),
            children: Vec::new(self.alloc),
            skipped: Vec::new(self.alloc),
        };
        let patterns = self.filters.include_in(job.path());
        for entry in entries {
            self.classify_entry(job, patterns, entry, path, &mut found)?;
        }
        Ok(found)
    }
}
