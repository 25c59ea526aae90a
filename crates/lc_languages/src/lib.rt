//! The languages of files, by their names.
//!
//! - `list`: the list of languages that the program carries
//! - `languages`: looking a name up in a list
//! - `report_languages`: giving the files of a report their languages
#![tactic(auto)]

mod languages;
mod list;
mod report_languages;

pub use languages::Languages;
pub use list::LANGUAGES;
pub use report_languages::in_languages;
