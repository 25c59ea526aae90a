//! The part of the program `lc` that does not depend on the host. It carries out a command line, reads directories and files through the
//! trait `System`, and writes to streams.
//!
//! - `running`: the function `program`, which runs the program
//! - `system`: the trait `System`: the directories and files that a command line names
//! - `unread_reason`: why a directory or a file could not be read
//! - `repository`: the repository above a directory
//! - `streams`: the streams of the program, and which of them are terminals
//! - `attributes`: the attributes that the command line names, as columns and as words to look for
//! - `answering`, `answer`: answering each request, and what is known of an answer
//! - `checking`: answering `lc check`
//! - `counting`: answering `lc count`
//! - `explaining`: answering `lc explain`
//! - `summing`: answering `lc sum`
//! - `comparing`: answering `lc diff`
//! - `filters`: the options of a command line that decide which entries are skipped
//! - `rules_file`: the rules of a file that a command line names
//! - `path_list`: the paths in the file of `--only-from`
//! - `named_texts`: the texts of files that a command line names, or of standard input
//! - `report_files`: reading the reports that a command line names
//! - `report_lines`: the lines on standard error about reports that can't be read or added up
//! - `finding`: the report of the counted directories
//! - `nested`: refusing to count a directory that lies in another counted directory
//! - `sides`: the two sides of a comparison, which are directories or reports
//! - `choices`: refusing comparisons by what their sides are
//! - `runs`: the walk of a tree, and the table of its report
//! - `showing`: making and writing the text of a report
//! - `ending`, `cause`: how the program ends, and why it stops with an error
//! - `typed`: the arguments that the program reads, by those that were typed
//! - `telling`: writing help, the version, and why the program stops or refuses its arguments
//! - `introducing`: the line on standard error that says what the program reads from a terminal
//! - `faults`: the lines on standard error about what a count or a sum could not read
//! - `side_faults`: the lines on standard error about paths that could not be read on either side of a comparison
//! - `unlisted`: the lines on standard error about a directory that could not be read
//! - `unnamed`: the lines on standard error about attributes that no attribute file names, and about a list without paths
//! - `unmatched`, `meant`: the lines on standard error about patterns that can match nothing, or may mean something else
//! - `heading`, `chosen`: the heading of a picture or a tree, and the words for which files are shown
//! - `hints`: the hint on standard error that rules in the directories above a counted directory were not read
//! - `commands`: the commands that the lines on standard error suggest
#![tactic(auto)]

mod answer;
mod answering;
mod attributes;
mod cause;
mod checking;
mod choices;
mod chosen;
mod commands;
mod comparing;
mod counting;
mod ending;
mod explaining;
mod faults;
mod filters;
mod finding;
mod heading;
mod hints;
mod introducing;
mod meant;
mod named_texts;
mod nested;
mod path_list;
mod report_files;
mod report_lines;
mod repository;
mod rules_file;
mod running;
mod runs;
mod showing;
mod side_faults;
mod sides;
mod streams;
mod summing;
mod system;
mod telling;
mod typed;
mod unlisted;
mod unmatched;
mod unnamed;
mod unread_reason;

pub use cause::Cause;
pub use ending::Ending;
pub use repository::Repository;
pub use running::program;
pub use runs::{Printed, RunFault, run};
pub use showing::{report_text, table};
pub use streams::{Streams, Terminals};
pub use system::System;
pub use telling::{give_up, misuse};
pub use unread_reason::UnreadReason;
