//! Reading the reports that `lc count --format json` printed.
//!
//! - `reading`: reading the reports in a text
//! - `cutter`: cutting a text after each JSON object
//! - `object`: reading the JSON object of a report, member by member
//! - `top_member`: finding a member of a report by its name
//! - `lists`: the lists of a report, which are read line by line
//! - `rows`, `file_lines`: reading the rows and the listed files of a report
//! - `states`: reading the states of attributes that a file has
//! - `skipped_lines`, `fault_lines`: reading the skipped entries and the errors of a report
//! - `lines`: reading values, such as paths, that occur in the lines of several lists
//! - `rule_places`: finding the file that a rule was read from, by its path
//! - `sums`, `numbers_of`: reading sums, and all members of a report that are not lists
//! - `building`: making a report from the members of its JSON object
//! - `kept_files`: the rows and the files of a report that was read
//! - `adding`: comparing the sums over parts of a report with the report's total
//! - `members`, `member_name`: the members of a JSON object, and their names
//! - `values`, `numbers`: reading numbers, texts and bytes
//! - `words`: finding the kind of line end, the error or the state that a word names
//! - `read_fault`: why no report is read
#![tactic(auto)]

mod adding;
mod building;
mod cutter;
mod fault_lines;
mod file_lines;
mod kept_files;
mod lines;
mod lists;
mod member_name;
mod members;
mod numbers;
mod numbers_of;
mod object;
mod read_fault;
mod reading;
mod rows;
mod rule_places;
mod skipped_lines;
mod states;
mod sums;
mod top_member;
mod values;
mod words;

pub use member_name::MemberName;
pub use read_fault::{NoReport, Part, ReadFault};
pub use reading::read_reports;
