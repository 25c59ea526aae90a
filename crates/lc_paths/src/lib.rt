//! Checks and explanations of paths: which rule of one file, or of a whole tree, ignores or includes each path.
//!
//! - `checking`: checks of paths by the rules of one file, a line for each path
//! - `explaining`: explanations of the paths of a tree, a line for each path
//! - `paths`: the paths of an input or of arguments
//! - `answer_line`: the output line for a path
//! - `style`: choosing how paths are escaped: for a program or for a terminal
//! - `input`: reading an input that has a path on each line
//! - `check_fault`: the errors of checking or explaining paths
//! - `outcome`: whether a text that was written names a directory or a file that could not be read
//! - `laws`: theorems about the definitions that the contracts cite
#![tactic(auto)]

mod answer_line;
mod check_fault;
mod checking;
mod explaining;
mod input;
mod laws;
mod outcome;
mod paths;
mod style;

pub use check_fault::CheckFault;
pub use checking::{check, check_explained, check_joined, check_text};
pub use explaining::{ExplainOptions, MAX_KEPT, explain, explain_words};
pub use input::{MAX_INPUT, read_input};
pub use laws::{entries_are_explained_as_decided, the_rule_gives_the_word};
pub use outcome::Outcome;
pub use style::{PathFormat, PathStyle, push_styled};
