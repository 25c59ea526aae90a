//! One directory: its listing, its rule files, and what happens to its entries.
//!
//! - `job`: a directory to be visited
//! - `filters`: what decides, besides a tree's own rules, which entries are skipped
//! - `level_reader`: the type whose methods open directories and count files
//! - `listing`: listing a directory
//! - `entering`: listing a directory and reading its rule files
//! - `opening`: entering a directory and deciding which of its entries are skipped
//! - `rule_files`: reading the rule files of a directory, and adding them to its chains (the rule files that apply there)
//! - `entry_looks`: searching the entries of a directory
//! - `classify`: dividing entries into files to count, directories to visit, and entries to skip
//! - `skip_reason`, `reason`: why an entry is skipped
//! - `narrowing`: which entries the paths of `--only` select
//! - `named_attributes`: which attributes a tree's attribute files name
//! - `counting`: counting the files of a directory
//! - `threads`: counting the files of a directory with several threads
//! - `file_attributes`: the states of attributes that a counted file has
//! - `files`: opening one file, to count it or to read it as rules
//! - `lines`: the files, errors and skipped entries of a report
//! - `paths`: joining a directory's path and an entry's name, and making a path relative to a directory
//! - `scratch`: the buffers of a worker
//! - `path_buffer`: a buffer for the path of one entry at a time
//! - `open_fault`: why a directory contributes none of its entries to a walk
//! - `fault_site`: which file or directory could not be read
//! - `content_fault`: why a file could not be read or counted
//! - `fault_word`: the words by which a report names errors
//! - `laws`: theorems, such as that opening a directory and counting its files give what the definitions state about the directory
#![tactic(auto)]

mod classify;
mod content_fault;
mod counting;
mod entering;
mod entry_looks;
mod fault_site;
mod fault_word;
mod file_attributes;
mod files;
mod filters;
mod job;
mod laws;
mod level_reader;
mod lines;
mod listing;
mod named_attributes;
mod narrowing;
mod open_fault;
mod opening;
mod path_buffer;
mod paths;
mod reason;
mod rule_files;
mod scratch;
mod skip_reason;
mod threads;

pub use classify::ChildDirectory;
pub use counting::CountedFiles;
pub use entering::{Entered, RuleTexts};
pub use entry_looks::entry_named;
pub use fault_site::FaultSite;
pub use fault_word::FaultWord;
pub use file_attributes::{AttributeState, FileAttributes, SharedAttributes};
pub use filters::Filters;
pub use job::Job;
pub use laws::{
    a_node_is_one_tree, files_of_memory_are_read_once, level_examples_hold,
    one_answer_is_one_level, trees_of_memory_give_one, work_is_a_level,
};
pub use level_reader::{LevelReader, ReaderOptions};
pub use lines::{FaultLine, FileLine, Line, SkippedLine};
pub use named_attributes::NamedAttributes;
pub use narrowing::only_paths::OnlyPaths;
pub use open_fault::OpenFault;
pub use opening::Opened;
pub use paths::{path_in, relative_to};
pub use reason::Reason;
pub use rule_files::rule_text::{RuleText, RulesFileFault, read_rule_text};
pub use scratch::Scratch;
pub use threads::spare_threads::SpareThreads;
