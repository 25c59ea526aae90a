//! The sheet of a report: what every format shows of the report, as sections of lines with a value in each column. The crate also has the
//! options of a table.
//!
//! - `attribute_column`: the columns of Git attributes, and their names
//! - `key`: the keys by which rows are grouped, such as the extension
//! - `column`: the columns of a sheet
//! - `value`: the value of a line in a column
//! - `form`: what rows are grouped by, in which column a line of sums has its name, and what shares are computed from
//! - `lines`: the trait of a kind of lines, such as rows or files
//! - `section`: lines of one kind, and the columns in which they are shown
//! - `sheet`: the sections of a report, or of a comparison of two reports
//! - `table_options`: the format of a table, its columns, its order, and where it is cut
//! - `condition`: conditions on files, such as `lines>1000`
//! - `change_kinds`: what became of files from an old report to a new one
//! - `laws`: laws that tie constants to definitions
#![tactic(auto)]

mod attribute_column;
mod change_kinds;
mod column;
mod condition;
mod form;
mod key;
mod laws;
mod lines;
mod section;
mod sheet;
mod table_options;
mod value;

pub use attribute_column::{AttributeColumn, attribute_of};
pub use change_kinds::ChangeKinds;
pub use column::{Column, Compared, Number, Side};
pub use condition::{Comparison, Condition, Test, needs_files};
pub use form::{Form, Shares};
pub use key::{KEYS, Key, REPORT_KEYS};
pub use laws::keys_are_listed;
pub use lines::Lines;
pub use section::Section;
pub use sheet::Sheet;
pub use table_options::{Columns, Format, Order, Output, ReportOptions, TableOptions};
pub use value::{Value, flag_word};
