//! The rules of a tree: ignore files, attribute files, and chains of these files. The rules decide whether a path is ignored, and which
//! state an attribute has for a path.
//!
//! The formats are those of gitignore(5) and gitattributes(5); `docs/RULES.md` explains each rule of these formats.
//!
//! - `ignore_line`: reading a line of an ignore file as a rule
//! - `ignore_file`: an ignore file
//! - `ignore_chain`: the chain of the ignore files that apply to a path
//! - `matchable`: which lines give a rule that can match a path
//! - `attr_line`: reading a line of an attribute file
//! - `attr_words`, `last_word`: the words of a line of an attribute file, from either end
//! - `attr_quotes`: the quoted patterns of attribute files
//! - `assignment`: an attribute's name, and the state that a line assigns to it
//! - `attr_file`: an attribute file
//! - `line_table`, `macro_table`: the lines and the macros of an attribute file
//! - `attr_chain`: the chain of the attribute files that apply to a path
//! - `known_macros`: the macros that a chain of attribute files knows
//! - `resolver`: deciding the state of one attribute
//! - `states`: the states of attributes
//! - `lines`: splitting a file of rules into lines
//! - `chain_files`: the files of a chain
//! - `paths`: paths relative to the directory of a rule file
//! - `directories_above`: the last rule that matches each directory above a path
//! - `verdicts`: whether a rule ignores or includes a path
//! - `rule_source`: the file that a rule was read from
//! - `faults`: why a file can't be read as rules
//! - `laws`: theorems about the rules of ignore files, and about the rule that decides whether a path is ignored
#![tactic(auto)]

mod assignment;
mod attr_chain;
mod attr_file;
mod attr_line;
mod attr_quotes;
mod attr_words;
mod chain_files;
mod directories_above;
mod faults;
mod ignore_chain;
mod ignore_file;
mod ignore_line;
mod known_macros;
mod last_word;
mod laws;
mod line_table;
mod lines;
mod macro_table;
mod matchable;
mod paths;
mod resolver;
mod rule_source;
mod states;
mod verdicts;

pub use attr_chain::AttrChain;
pub use attr_file::AttrFile;
pub use attr_words::is_attribute_name;
pub use directories_above::DirectoriesAbove;
pub use faults::{MAX_RULE_BYTES, RuleFault};
pub use ignore_chain::Chain;
pub use ignore_file::IgnoreFile;
pub use ignore_line::{Rule, text_of_line};
pub use laws::{
    rules_stand_on_their_lines, the_command_line_decides, the_last_match_decides,
    the_lowest_file_is_overridden, what_cannot_match_gives_nothing,
};
pub use lines::Lines;
pub use matchable::can_match;
pub use resolver::decides_by_equations;
pub use rule_source::RuleSource;
pub use states::{State, TextState};
pub use verdicts::Verdict;
