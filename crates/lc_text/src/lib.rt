//! How paths and names are printed, and which file has a rule: for all crates that print them.
//!
//! - `escaping`: escaping paths for a program
//! - `visible`: escaping paths for a terminal
//! - `quoting`: quoting a text as one argument of a shell
//! - `places`: the file that has a rule
//! - `name`: printing a path or an extension with a fixed text before and after it
//! - `lines`: splitting an input into its paths
//! - `path_line`: reading a line of an input as a path
//! - `laws`: theorems about the definitions that the contracts cite
#![tactic(auto)]

mod escaping;
mod laws;
mod lines;
mod name;
mod path_line;
mod places;
mod quoting;
mod visible;

pub use escaping::{escape, push_escaped, push_path};
pub use laws::{a_shell_reads_what_was_quoted, dots_before_a_path_are_dropped};
pub use lines::{PathEnd, split_path};
pub use name::{Name, push_name, push_visible_name};
pub use path_line::{is_bad_path, is_top, split_slash, undotted};
pub use places::{source_directory, source_name};
pub use quoting::push_quoted;
pub use visible::{push_visible, push_visible_path};
