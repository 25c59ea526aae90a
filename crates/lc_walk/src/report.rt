//! The report of a walk.
//!
//! - `findings`: what a walk found besides the sums over its files
//! - `assembly`: making the report from the rows that the workers added to the board, one row for each directory
//! - `row_lines`: making the report's lines of files, errors and skipped entries from the rows
//! - `tree_check`: checking that the rows make one tree of directories
ghost use Rattle.std.specs.Prelude.{map};
ghost use Rattle.std.specs.List.Sorted.{IsPermutation, IsSortedByKey};
ghost use Rattle.lc_walk.specs.Report.{IsReport};
ghost use Rattle.lc_tree.specs.ByteOrder.{bytes_cmp, AreApart, AreInOrder};

mod assembly;
mod findings;
mod row_lines;
mod tree_check;

use crate::options::ReportLists;
use crate::tally::{ClassSums, Sums, Tally, TallyRow};
pub use assembly::assemble;
pub use findings::Findings;
use lc_level::Line;
pub use lc_level::{FaultLine, FileLine, SkippedLine};
use lc_sheet::Columns;

/// The report of a walk.
#[derive(Debug, Drop)]
pub struct Report {
    /// The sums over the counted files: a row for each combination of extension, state of the attribute `text` and class of line ends that
    /// some file has. This combination is the row's key, and the rows are in the order of their keys.
    pub rows: Vec<TallyRow>,
    /// The columns that rows are grouped by. The rows of a walk's report are grouped by all columns. In a column that rows are not grouped
    /// by, each row has a placeholder: no extension, the state `Unspecified`, or no line ends.
    pub columns: Columns,
    /// The sums over all counted files.
    pub totals: Sums,
    /// The sums over the counted text files, and over the counted binary files.
    pub classes: ClassSums,
    /// The number of directories whose listing and rule files were read, the top included.
    pub directories: u64,
    /// The number of entries of the listed directories, skipped entries included. With `--only`, entries that the paths of `--only` do not
    /// select are not counted.
    pub entries: u64,
    /// Which optional lists the report has.
    pub lists: ReportLists,
    /// The counted files in order of their paths' bytes, if the report lists them.
    pub files: Vec<FileLine>,
    /// The errors in order of their paths' bytes.
    pub faults: Vec<FaultLine>,
    /// The skipped entries in order of their paths' bytes, if the report lists them.
    pub skipped: Vec<SkippedLine>,
}

impl Report {
    /// Makes a report from a tally and findings. It sorts the tally's rows by their keys, and each list of the findings by its paths. It
    /// sorts in place and allocates nothing.
    ///
    /// ```
    /// let report = Report::new(tally, lists, findings);
    /// assert_eq!(report.lists, lists);
    /// ```
    pub fn new(tally: Tally, lists: ReportLists, findings: Findings) -> Report
        ensures { IsReport tally lists findings result }
    {
        let Findings {
            directories,
            entries,
            mut files,
            mut faults,
            mut skipped,
        } = findings;
        sort_lines(&mut files);
        sort_lines(&mut faults);
        sort_lines(&mut skipped);
        let totals = tally.totals();
        let rows = tally.into_rows();
        let Some(classes) = ClassSums::of(&rows) else {
            unreachable!()
        };
        Report {
            rows,
            columns: Columns::ALL,
            totals,
            classes,
            directories,
            entries,
            lists,
            files,
            faults,
            skipped,
        }
    }
}

/// Sorts lines by the bytes of their paths, in place.
///
/// ```
/// sort_lines(&mut report.files);
/// ```
pub fn sort_lines<L: Line>(lines: &mut Vec<L>)
    ensures same { IsPermutation lines.old.items lines.new.items }
    ensures order { IsSortedByKey L.path_of bytes_cmp lines.new.items }
    ensures strict { AreApart (map L.path_of lines.old.items) → AreInOrder (map L.path_of lines.new.items) }
{
    lines.sort_unstable_by(|a, b| a.path().cmp(b.path()));
}
