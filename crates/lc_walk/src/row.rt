//! The row that a worker adds to the board for a directory: what the worker found there.
ghost use Rattle.std.specs.Prelude.{◌≡◌, IfOk, IfErr};
ghost use Rattle.lc_walk.specs.RowParts.{listed_in};

use crate::broken_cause::BrokenCause;
use crate::served_job::ServedJob;
use lc_level::{FaultLine, FaultSite, FaultWord, FileLine, SkippedLine};
use std::alloc::Global;
use std::marker::Model;

/// A child directory that a worker posted to the board for any worker to claim: the directory's name, and its number on the board.
#[derive(Drop)]
pub struct Child {
    pub name: Vec<u8>,
    pub number: u32,
}

impl Model for Child {
    ghost use Rattle.lc_walk.specs.RowViews.{ChildModel};

    ghost Value = { ChildModel };

    ghost view = { λ c. record { name = c.name.items; number = c.number } };
}

/// The parts of a `ListedRow`: what a worker found in a directory that it listed.
#[derive(Drop)]
pub struct ListedParts {
    /// The directory that was listed.
    pub job: ServedJob,
    /// The number of entries of the directory, skipped entries included. With `--only`, entries that the paths of `--only` do not select
    /// are not counted.
    pub entries: u32,
    /// The counted files, in the order of their names, if the report lists them.
    pub files: Vec<FileLine>,
    /// The errors: the requested paths that are absent, then the files that could not be counted, in the order of their names.
    pub faults: Vec<FaultLine>,
    /// The skipped entries, in the order of their names, if the report lists them.
    pub skipped: Vec<SkippedLine>,
    /// The child directories that were posted for any worker to claim, in the order of their names.
    pub children: Vec<Child>,
}

impl Model for ListedParts {
    ghost use Rattle.lc_walk.specs.RowViews.{ListedRowModel};

    ghost Value = { ListedRowModel };

    ghost view = { λ r. record {
      job = r.job;
      entries = r.entries;
      files = r.files.items;
      faults = r.faults.items;
      skipped = r.skipped.items;
      children = r.children.items;
    } };
}

/// The stored parts of a listed directory's row. Most rows have no file, error, skipped entry or child to store, and take no room for them.
#[derive(Drop)]
enum RowParts {
    Bare { job: ServedJob, entries: u32 },
    Full(Box<ListedParts, Global>),
}

impl RowParts {
    /// Stores `parts`. If an allocation fails, returns the job in `parts` as the error.
    fn new(alloc: Global, parts: ListedParts) -> Result<RowParts, ServedJob>
        ensures kept { IfOk result (λ k. listed_in k ≡ parts) }
        ensures job { IfErr result (λ j. j ≡ parts.job) }
    {
        if parts.files.is_empty()
            && parts.faults.is_empty()
            && parts.skipped.is_empty()
            && parts.children.is_empty()
        {
            let ListedParts { job, entries, .. } = parts;
            return Ok(RowParts::Bare { job, entries });
        }
        match Box::new(alloc, parts) {
            Ok(parts) => Ok(RowParts::Full(parts)),
            Err(refused) => Err(refused.value.job),
        }
    }
}

/// The row that a worker adds for a directory that it listed. The row has the size of one pointer, so that it takes little room on a board.
#[derive(Drop)]
pub struct ListedRow {
    parts: Box<RowParts, Global>,
}

impl Model for ListedRow {
    ghost use Rattle.std.specs.Box.{box_value};
    ghost use Rattle.lc_walk.specs.RowParts.{listed_in};
    ghost use Rattle.lc_walk.specs.RowViews.{ListedRowModel};

    ghost Value = { ListedRowModel };

    ghost view = { λ r. listed_in (box_value r.parts) };
}

impl ListedRow {
    /// Makes the row that has `parts`. If an allocation fails, returns the job in `parts` as the error.
    pub fn new(alloc: Global, parts: ListedParts) -> Result<ListedRow, ServedJob>
        ensures row { IfOk result (λ r. r ≡ parts) }
        ensures job { IfErr result (λ j. j ≡ parts.job) }
    {
        let parts = RowParts::new(alloc, parts)?;
        match Box::new(alloc, parts) {
            Ok(parts) => Ok(ListedRow { parts }),
            Err(refused) => match refused.value {
                RowParts::Bare { job, .. } => Err(job),
                RowParts::Full(parts) => Err(Box::into_inner(parts).job),
            },
        }
    }

    /// Returns the directory that was listed.
    pub fn job(&self) -> &ServedJob
        ensures { result.now ≡ self.now.job }
    {
        match &*self.parts {
            RowParts::Bare { job, .. } => job,
            RowParts::Full(parts) => &parts.job,
        }
    }

    /// Returns the number of entries of the directory, skipped entries included. With `--only`, entries that the paths of `--only` do not
    /// select are not counted.
    pub fn entries(&self) -> u32
        ensures { result ≡ self.now.entries }
    {
        match &*self.parts {
            RowParts::Bare { entries, .. } => *entries,
            RowParts::Full(parts) => parts.entries,
        }
    }

    /// Returns the counted files, in the order of their names, if the report lists them.
    pub fn files(&self) -> &[FileLine]
        ensures { result.now ≡ self.now.files }
    {
        match &*self.parts {
            RowParts::Bare { .. } => &[],
            RowParts::Full(parts) => &parts.files,
        }
    }

    /// Returns the errors: the requested paths that are absent, then the files that could not be counted, in the order of their names.
    pub fn faults(&self) -> &[FaultLine]
        ensures { result.now ≡ self.now.faults }
    {
        match &*self.parts {
            RowParts::Bare { .. } => &[],
            RowParts::Full(parts) => &parts.faults,
        }
    }

    /// Returns the skipped entries, in the order of their names, if the report lists them.
    pub fn skipped(&self) -> &[SkippedLine]
        ensures { result.now ≡ self.now.skipped }
    {
        match &*self.parts {
            RowParts::Bare { .. } => &[],
            RowParts::Full(parts) => &parts.skipped,
        }
    }

    /// Returns the child directories that were posted for any worker to claim, in the order of their names.
    pub fn children(&self) -> &[Child]
        ensures { result.now ≡ self.now.children }
    {
        match &*self.parts {
            RowParts::Bare { .. } => &[],
            RowParts::Full(parts) => &parts.children,
        }
    }
}

/// The row that a worker adds for a directory whose listing or rule files could not be read.
#[derive(Drop)]
pub struct FaultedRow {
    pub job: ServedJob,
    pub site: FaultSite,
    pub word: FaultWord,
}

/// The row that a worker adds for a directory if it does not finish the work there.
#[derive(Drop)]
pub struct BrokenRow {
    pub job: ServedJob,
    pub cause: BrokenCause,
}

/// What a worker found in a directory, or why the worker did not finish the work there. The worker adds this row to the board, the table of
/// directories that threads share.
#[derive(Drop)]
pub enum Row {
    Listed(ListedRow),
    Faulted(FaultedRow),
    Broken(BrokenRow),
}
