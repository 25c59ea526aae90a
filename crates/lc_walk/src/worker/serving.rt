//! The work on a directory that a worker has claimed. At the end, the worker adds a row to the board: what it found in the directory.
ghost use Rattle.std.specs.Prelude.{◌≡◌, [], if◌then◌else◌};
ghost use Rattle.lc_board.specs.Pass.{after_give};
ghost use Rattle.lc_level.specs.Opens.{IsOpened};
ghost use Rattle.lc_level.specs.TreeAnswers.{MayAnswer};
ghost use Rattle.lc_walk.specs.BoardPasses.{HoldsClaim, IsFree, IsPassOf};
ghost use Rattle.lc_walk.specs.Serving.{HoldsJob, BreaksOff, WorksOn, Serves};
ghost use Rattle.lc_walk.specs.WalkOptions.{asked_by};
ghost use Rattle.lc_walk.specs.declared.row.Row.TheVariants.{Broken};

use crate::broken_cause::BrokenCause;
use crate::row::{BrokenRow, FaultedRow, ListedParts, ListedRow, Row};
use crate::served_job::ServedJob;
use crate::tally::Tally;
use crate::worker::Worker;
use crate::worker::adding::add_files;
use lc_board::Shared;
use lc_level::{CountedFiles, FileLine, Job, OpenFault, Opened, Scratch};
use lc_tree::Tree;
use std::alloc::AllocError;
use std::sync::Wait;
use std::thread::Threads;

impl<B: Shared<Job, Row>, T: Tree, W: Threads + Wait + Sync> Worker<'_, '_, B, T, W> {
    /// Ends the worker's claim of a directory with the row `Row::Broken`. Returns `Err` if the cause is `BrokenCause::Memory`.
    fn break_off(
        &self,
        pass: &mut B::Pass,
        job: ServedJob,
        cause: BrokenCause,
    ) -> Result<(), AllocError>
        requires { IsPassOf B.owns B.Pass.view self.now.board.now HoldsClaim pass.old }
        ensures pass { IsPassOf B.owns B.Pass.view self.now.board.now IsFree pass.new }
        ensures mine { B.Pass.view pass.new ≡ after_give (B.Pass.view pass.old) (Broken (record { job = job; cause = cause })) }
        ensures memory { BreaksOff cause result }
    {
        self.board
            .give(self.rt, pass, Row::Broken(BrokenRow { job, cause }));
        match cause {
            BrokenCause::Memory => Err(AllocError),
            BrokenCause::TooManyDirs | BrokenCause::TooDeep => Ok(()),
        }
    }

    /// Returns the counted files of a directory if the report lists files, and an empty list otherwise.
    fn if_asked(&self, files: Vec<FileLine>) -> Vec<FileLine>
        ensures { result.items ≡ (if self.now.options.now.lists.files then files.items else []) }
    {
        if self.options.lists.files {
            return files;
        }
        Vec::new(self.alloc)
    }

    /// Works on a claimed directory that was opened, and ends the claim with a row. It posts the child directories before it counts the
    /// files, so that other workers need not wait for the count.
    fn serve_opened(
        &self,
        pass: &mut B::Pass,
        job: ServedJob,
        opened: Opened,
        scratch: &mut Scratch,
        tally: &mut Tally,
    ) -> Result<(), AllocError>
        requires pass { IsPassOf B.owns B.Pass.view self.now.board.now (HoldsJob job) pass.old }
        requires opened { IsOpened (T.lists self.now.reader.tree.now) (T.gives self.now.reader.tree.now) self.now.options.now.lists.left_out
            (asked_by self.now.options.now).filters job opened }
        requires scratch { scratch.old.path.directory ≡ opened.job.path }
        ensures pass { IsPassOf B.owns B.Pass.view self.now.board.now IsFree pass.new }
        ensures serves { Serves (asked_by self.now.options.now)
            (MayAnswer (T.lists self.now.reader.tree.now) (T.gives self.now.reader.tree.now))
            (B.Pass.view pass.old) (B.Pass.view pass.new) tally.old tally.new result }
    {
        let Opened {
            job: inside,
            files,
            children,
            skipped,
            absent,
            entries,
        } = opened;
        let children = match self.post_children(pass, children) {
            Ok(children) => children,
            Err(cause) => return self.break_off(pass, job, cause),
        };
        let Ok(found) = self
            .reader
            .count_divided(&self.threads(), &inside, files, absent, scratch)
        else {
            return self.break_off(pass, job, BrokenCause::Memory);
        };
        let Ok(()) = add_files(tally, &found.files) else {
            return self.break_off(pass, job, BrokenCause::Memory);
        };
        let CountedFiles { files, faults } = found;
        let parts = ListedParts {
            job,
            entries,
            files: self.if_asked(files),
            faults,
            skipped,
            children,
        };
        match ListedRow::new(self.alloc, parts) {
            Ok(row) => {
                self.board.give(self.rt, pass, Row::Listed(row));
                Ok(())
            }
            Err(job) => self.break_off(pass, job, BrokenCause::Memory),
        }
    }

    /// Opens a claimed directory, works on it, and ends the claim with a row. Returns `Err` if an allocation failed. The row says so too.
    fn serve(
        &self,
        pass: &mut B::Pass,
        job: Job,
        scratch: &mut Scratch,
        tally: &mut Tally,
    ) -> Result<(), AllocError>
        requires { IsPassOf B.owns B.Pass.view self.now.board.now (HoldsJob job) pass.old }
        ensures pass { IsPassOf B.owns B.Pass.view self.now.board.now IsFree pass.new }
        ensures serves { Serves (asked_by self.now.options.now)
            (MayAnswer (T.lists self.now.reader.tree.now) (T.gives self.now.reader.tree.now))
            (B.Pass.view pass.old) (B.Pass.view pass.new) tally.old tally.new result }
    {
        match self.reader.open_in_parts(&self.threads(), &job, scratch) {
            Ok(opened) => {
                let job = ServedJob::of(job);
                self.serve_opened(pass, job, opened, scratch, tally)
            }
            Err(OpenFault::Faulted(site, word)) => {
                let job = ServedJob::of(job);
                self.board.fault(self.rt, pass, Row::Faulted(FaultedRow { job, site, word }));
                Ok(())
            }
            Err(OpenFault::Memory) => {
                self.break_off(pass, ServedJob::of(job), BrokenCause::Memory)
            }
            Err(OpenFault::TooDeep) => {
                self.break_off(pass, ServedJob::of(job), BrokenCause::TooDeep)
            }
        }
    }

    /// Works on a claimed directory, and ends the claim with a row. If an allocation fails, the tally becomes `None`. Without a tally or
    /// scratch buffers, the directory's row is `Row::Broken`, since the walk will make no report.
    pub(crate) fn serve_or_break_off(
        &self,
        pass: &mut B::Pass,
        job: Job,
        scratch: &mut Option<Scratch>,
        tally: &mut Option<Tally>,
    )
        requires { IsPassOf B.owns B.Pass.view self.now.board.now (HoldsJob job) pass.old }
        ensures pass { IsPassOf B.owns B.Pass.view self.now.board.now IsFree pass.new }
        ensures goes_on { WorksOn (asked_by self.now.options.now)
            (MayAnswer (T.lists self.now.reader.tree.now) (T.gives self.now.reader.tree.now))
            (B.Pass.view pass.old) (B.Pass.view pass.new) tally.old tally.new }
    {
        let served = if let Some(scratch) = scratch
            && let Some(tally) = tally
        {
            self.serve(pass, job, scratch, tally)
        } else {
            self.break_off(pass, ServedJob::of(job), BrokenCause::Memory)
        };
        if served.is_err() {
            *tally = None;
        }
    }
}
