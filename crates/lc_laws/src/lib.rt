//! Laws that relate counts, explanations and checks to each other, and reports to their printed texts.
//!
//! - `laws`: a count agrees with an explanation of the same tree, and with a check by the `.gitignore` of the top directory. Other laws are
//!   about a slash at the end of a directory's path, about `--no-ignore` and about `--include`.
//! - `printed_laws`: the sheet of a report (its lines to print) has what the laws in `lc_formats` about printed texts require. No printed
//!   share of a total is over 100.0 per cent. The text of a plain table is written from the report alone.
//! - `reading_laws`: a report is the same after it was printed as JSON and read again
#![tactic(auto)]

mod laws;
mod printed_laws;
mod reading_laws;

pub use laws::{
    counts_are_as_checked, counts_are_as_explained,
    errors_and_skipped_entries_are_those_of_included_files, explanations_are_by_given_answers,
    no_ignore_file_of_the_tree_skips_an_entry, one_answer_is_one_explanation,
    slashes_of_directories_say_nothing,
};
pub use printed_laws::{
    plain_tables_follow_from_reports, printed_shares_are_at_most_the_whole,
    sheets_of_reports_are_readable, sheets_of_reports_have_records,
};
pub use reading_laws::reports_read_back;
