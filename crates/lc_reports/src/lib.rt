//! Reports of several trees, or of parts of one tree: putting a name in front of a report's paths, joining several reports into one, and
//! the sum of reports that were read.
//!
//! - `naming`: putting a name in front of the paths of a report
//! - `joining`: joining several reports into one
//! - `gathered`: gathering the numbers of several reports, and their lines of files, errors and skipped entries
//! - `line_order`: the order of a report's errors, and the order of its skipped entries
//! - `join_fault`: why several reports can't be joined
//! - `summing`: summing reports, or finding out why they can't be summed
//! - `sum_fault`: why reports are not summed
//! - `part`: a report with its name
//! - `needs`: what a sum needs of each report
//! - `columns`, `lists`: refusing reports that lack a needed column or a needed list
//! - `paths`: refusing reports that list two files with the same path
//! - `laws`: theorems about the definitions that contracts cite
#![tactic(auto)]

mod columns;
mod gathered;
mod join_fault;
mod joining;
mod laws;
mod line_order;
mod lists;
mod naming;
mod needs;
mod part;
mod paths;
mod sum_fault;
mod summing;

pub use join_fault::JoinFault;
pub use joining::joined;
pub use laws::{
    a_joined_report_has_no_grouping, a_joined_report_has_no_order, a_sum_has_no_order,
    names_change_no_number, reports_are_joined_in_one_way,
    rules_of_a_named_report_are_in_named_files, totals_of_a_joined_report_add_up,
};
pub use naming::named;
pub use needs::Needs;
pub use part::Part;
pub use sum_fault::SumFault;
pub use summing::summed;
