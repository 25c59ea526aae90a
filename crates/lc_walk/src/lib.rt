//! The walk over a directory tree: its workers, what each worker finds, and the report of the whole walk. The workers share a board of
//! `lc_board`, on which each directory has a number. A worker claims a directory, posts its child directories for any worker to claim, and
//! adds a row to the board: what the worker found in the directory.
//!
//! - `row`: the row that a worker adds to the board for a directory
//! - `served_job`: what a row keeps of a job. A job is what a worker needs to visit a directory
//! - `broken_cause`: why a worker stopped before it had finished the work on a directory
//! - `tally`: the sums over the files of each extension, state of the attribute `text` and class of line ends
//! - `report`: the report of a walk, made from the rows of all directories
//! - `worker`: one worker
//! - `workers`: running all workers at the same time
//! - `closing`: the end of a walk
//! - `walking`: the whole walk
//! - `walk_fault`: why a walk returns no report
//! - `options`: the options of a walk
//! - `laws`: theorems about the definitions that contracts cite
#![tactic(auto)]

mod broken_cause;
mod closing;
mod laws;
mod options;
mod report;
mod row;
mod served_job;
mod tally;
mod walk_fault;
mod walking;
mod worker;
mod workers;

pub use broken_cause::BrokenCause;
pub use closing::finish;
pub use laws::{
    a_part_is_the_whole_filtered, a_report_has_no_order, a_tally_has_no_order,
    all_that_is_found_is_given, entries_are_accounted_for, included_files_are_the_whole_filtered,
    lawful_in_part_is_lawful, paths_stand_once, reports_are_by_given_answers,
    reports_of_memory_are_those_of_its_node, rows_are_the_walk_of_one_tree,
    rows_are_the_walk_of_their_tree, the_rule_of_a_line_ignores_it, totals_of_a_report_add_up,
    walk_examples_hold,
};
pub use options::{Options, ReportLists};
pub use report::{FaultLine, FileLine, Findings, Report, SkippedLine, assemble, sort_lines};
pub use row::{BrokenRow, Child, FaultedRow, ListedParts, ListedRow, Row};
pub use served_job::ServedJob;
pub use tally::{
    ClassSums, KeyRef, Sums, Tally, TallyRow, added_up, eol_rank, extension, sums_of_rows,
    text_rank,
};
pub use walk_fault::WalkFault;
pub use walking::{walk, walk_first, walk_on};
pub use worker::{StopReason, Worker, WorkerResult};
