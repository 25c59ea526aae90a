//! The command line, which clap reads.
//!
//! - `request`: the request that the arguments make, or why they make none
//! - `first_word`: what the first argument means
//! - `count`: the arguments of `lc count`
//! - `sum`: the arguments of `lc sum`
//! - `diff`: the arguments of `lc diff`
//! - `check`: the arguments of `lc check`
//! - `explain`: the arguments of `lc explain`
//! - `table`: the options of the table that a command prints
//! - `walk_request`: the options that say how to count directories
//! - `filter_request`: the options that decide which entries are skipped
//! - `directories`: the arguments DIR of `lc count`
//! - `paths`: the paths of `--only`
//! - `reports`: the arguments REPORT of `lc sum`
//! - `attributes`: the attributes that `--by` and `--where` name
//! - `conditions`: the conditions of `--where` and `--no-binary`
//! - `condition_text`: the text of one condition
//! - `changes`: the conditions of `--where` on `change`
//! - `repeated`: the values of options that may be used several times
//! - `numbers`: the values of `--depth` and `--top`
//! - `limits`: the greatest values of the options that take numbers
//! - `combinations`: options that can't be combined
//! - `options_table`: the table of options
//! - `option_row`: the type of a row of the table of options
//! - `option_texts`: the texts that help, completions and suggestions show about the options
//! - `arguments`: clap's arguments, made from the table of options
//! - `subcommand`: the commands, as clap parses their arguments
//! - `help`: the texts of help and of the version
//! - `error_text`: the texts of usage errors
//! - `refusals`: escaping the texts of usage errors for a terminal
//! - `naming`: checking that the help of a command names each argument of the command, and that a usage error names an argument
//! - `suggestions`: commands that refused arguments may have meant
//! - `other_tools`: options and words of other tools, and what they may have meant
//! - `near`: names of commands and options that are close to a typed word
#![tactic(auto)]

mod arguments;
mod attributes;
mod changes;
mod check;
mod combinations;
mod condition_text;
mod conditions;
mod count;
mod diff;
mod directories;
mod error_text;
mod explain;
mod filter_request;
mod first_word;
mod help;
mod limits;
mod naming;
mod near;
mod numbers;
mod option_row;
mod option_texts;
mod options_table;
mod other_tools;
mod paths;
mod refusals;
mod repeated;
mod reports;
mod request;
mod subcommand;
mod suggestions;
mod sum;
mod table;
mod walk_request;

pub use check::CheckRequest;
pub use count::CountRequest;
pub use diff::DiffRequest;
pub use directories::unslashed;
pub use explain::ExplainRequest;
pub use filter_request::FilterRequest;
pub use first_word::{count_words, may_be_directory};
pub use limits::{MAX_DIRS, MAX_THREADS};
pub use option_row::{Commands, Completes, Kind, OptionRow};
pub use option_texts::OptionTexts;
pub use options_table::options;
pub use repeated::lines_text;
pub use reports::NamedReport;
pub use request::{ParseExit, Request};
pub use sum::SumRequest;
pub use table::TableRequest;
pub use walk_request::WalkRequest;
