//! A run: the walk of a tree, and the table of its report.

ghost use Rattle.std.specs.Prelude.{◌≡◌, string_bytes};
ghost use Rattle.lc_walk.specs.WalkOptions.{AreWithinLimits};
ghost use Rattle.lc_walk.specs.Walks.{Walks};
ghost use Rattle.lc_program.specs.Replies.{printed_answer};
ghost use Rattle.lc_program.specs.ReportTexts.{showing_of};
ghost use Rattle.lc_program.specs.Runs.{AnswersRun, table_fault};
ghost use Rattle.lc_rows.specs.WalkedReports.{ListsFilesFor};
ghost use Rattle.lc_program.specs.declared.runs.RunFault.TheVariants.{Walk};

use crate::answer::Answer;
use crate::showing::table;
use lc_io::{PrintFault, Sink};
use lc_sheet::ReportOptions;
use lc_tree::Tree;
use lc_walk::{Options, Report, WalkFault, walk};
use std::alloc::Global;
use std::sync::Wait;
use std::thread::Threads;
use thiserror::Error;

/// Why a table was not written, or not completely.
#[derive(Debug, Clone, Copy, PartialEq, Eq, Error)]
pub enum RunFault {
    /// The walk returned no report. Nothing was written.
    #[error("the walk gave no report")]
    Walk(WalkFault),
    /// There is no memory for the text. Nothing was written.
    #[error("out of memory")]
    Memory,
    /// A write failed, or accepted nothing. The bytes that were written are a prefix of the table.
    #[error("cannot write")]
    Write,
}

/// A report whose table was written.
#[derive(Drop)]
pub struct Printed {
    /// The report, without the files that do not meet the conditions.
    pub report: Report,
    /// An error line for each path that the output `Paths` lacks: without `-0`, each path with a line feed.
    pub refused: String,
}

impl Printed {
    /// Returns what is known of the answer whose table this is, with these lines for standard error.
    pub(crate) fn answer(&self, fail_if_any: bool, told: String) -> Answer
        ensures { result ≡ printed_answer fail_if_any self.now.report (string_bytes self.now.refused) (string_bytes told) }
    {
        Answer {
            has_faults: !self.report.faults.is_empty() || !self.refused.is_empty(),
            fails: fail_if_any && self.report.totals.files > 0,
            told,
        }
    }
}

impl From<WalkFault> for RunFault {
    ghost from_gives = { λ walk fault. fault ≡ Walk walk };

    fn from(fault: WalkFault) -> RunFault {
        RunFault::Walk(fault)
    }
}

impl From<PrintFault> for RunFault {
    ghost from_gives = { λ print fault. fault ≡ table_fault print };

    fn from(fault: PrintFault) -> RunFault {
        match fault {
            PrintFault::Write => RunFault::Write,
            PrintFault::Memory => RunFault::Memory,
        }
    }
}

/// Walks a tree, drops from its report the files that do not meet the conditions, and writes the table of the remaining report ([`table`]).
/// Returns the remaining report, and the lines about paths that the text lacks.
///
/// If the table has rows by directories or attributes, the function requires that `options` request the list of files. A condition on a
/// number or an attribute is tested on the files in this list.
///
/// ```
/// let tree = SysTree::new(&rt, rt.alloc(), "src", FileSystems::All)?;
/// let table = TableOptions { output: Output::Text(Format::Tsv), by: Columns::ALL, sort: None, top: None, files: false, share: false };
/// let shown = ReportOptions { table, conditions: &[], attributes: &[], title: b"src", chosen: b"", end: PathEnd::LineFeed };
/// let printed = run(&rt, rt.alloc(), &tree, &options, shown, &mut out)?;
/// assert!(printed.report.faults.is_empty());
/// ```
pub fn run<T: Tree, R: Threads + Wait + Sync, O: Sink>(
    rt: &R,
    alloc: Global,
    tree: &T,
    options: &Options<'_>,
    shown: ReportOptions<'_>,
    out: &mut O,
) -> Result<Printed, RunFault>
    requires limits { AreWithinLimits options.now }
    requires files { ListsFilesFor options.now shown.table }
    ensures { AnswersRun O.may_take (Walks (T.lists tree.now) (T.gives tree.now) options.now)
        (showing_of shown.entry) out.old result out.new }
{
    let mut report = walk(rt, alloc, tree, options)?;
    let refused = table(alloc, &mut report, shown, out)?;
    Ok(Printed { report, refused })
}
