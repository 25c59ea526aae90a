//! The comparison of two reports: the rows and the files in which the reports differ, and the sheet of the comparison.
//!
//! - `options`: the options of a comparison
//! - `merge`: merging two sorted lists
//! - `changed_row`: a row with the sums of both reports
//! - `rows`: the rows of both reports, paired by their keys
//! - `file_change`: the files that the two reports have at one path
//! - `file_refs`: the files of one report, in the order of their paths
//! - `files`: the files of both reports, paired by their paths
//! - `kept_changes`: the parts of two reports whose files changed in given ways
//! - `sorting`: the order of rows and of files
//! - `sums`: the sums over the rows of a comparison
//! - `kinds`: the value of a row, of a line of sums or of a file in each column
//! - `columns`: the columns of rows, of sums and of files in each format
//! - `shown_changes`: what a comparison shows, and its sheet
//! - `laws`: theorems about the definitions that the contracts cite
#![tactic(auto)]

mod changed_row;
mod columns;
mod file_change;
mod file_refs;
mod files;
mod kept_changes;
mod kinds;
mod laws;
mod merge;
mod options;
mod rows;
mod shown_changes;
mod sorting;
mod sums;

pub use changed_row::ChangedRow;
pub use file_change::FileChange;
pub use kept_changes::keep_changes;
pub use kinds::{ChangedSums, ChangedTotals, Changes, FileChanges};
pub use laws::{
    a_report_does_not_differ_from_itself, old_numbers_and_changes_add_up_to_new_ones,
    reports_are_compared_in_one_way, rows_of_a_comparison_are_those_of_tables,
};
pub use options::ChangeOptions;
pub use shown_changes::{ChangeSheet, ShownChanges};
