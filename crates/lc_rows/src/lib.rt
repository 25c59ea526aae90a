//! What a table shows of a report: its rows and files, summed, sorted and cut, and the sheet that the formats print.
//!
//! - `shown`: the rows of a table, summed over the columns that the table lacks, and sorted
//! - `shown_row`, `row_key`: a row of a table, and its key
//! - `states`: the order of states of attributes
//! - `parts`, `adding_up`: the files or rows that a row of a table adds up, and adding these up
//! - `directories`: the directories that hold files, and how their paths are cut
//! - `directory_tree`, `depth_first`: the rows of a tree of directories, and their order
//! - `files`: the files that a table lists, sorted
//! - `cut`: the first rows or files of a table, and the sums over the other rows
//! - `kept`: the part of a report that meets some conditions, or that has marked files
//! - `kinds`: the value of a row, a file or another line in each column of a sheet
//! - `values`: values of columns that several kinds of lines share
//! - `words`: the words that are printed of a skipped entry
//! - `columns`: the columns of each section of a sheet in each format
//! - `shown_sheet`: the shown part of a report, and its sheet
//! - `laws`, `sheet_laws`: theorems about the rows of a table, and about the sheet of a report
//! - `kept_laws`: theorems about the part of a report that meets some conditions
#![tactic(auto)]

mod adding_up;
mod columns;
mod cut;
mod depth_first;
mod directories;
mod directory_tree;
mod files;
mod kept;
mod kept_laws;
mod kinds;
mod laws;
mod parts;
mod row_key;
mod sheet_laws;
mod shown;
mod shown_row;
mod shown_sheet;
mod states;
mod values;
mod words;

pub use columns::{first_key, push_attributes, push_if, push_keys};
pub use cut::split_at_top;
pub use directories::{directory_at, level_of, name_of, own_part};
pub use directory_tree::tree_rows;
pub use files::{number_of, sort_files};
pub use kept::{keep, keep_marked};
pub use kept_laws::{
    conditions_have_no_order, conditions_keep_totals, no_condition_keeps_all,
    opposite_conditions_add_up,
};
pub use kinds::{Faults, Files, NamedSums, Rows, Skipped, Totals};
pub use laws::{
    a_directory_is_its_files_and_its_children, classes_add_up_to_all_rows,
    directories_of_names_are_their_first_segments, each_file_is_in_one_row,
    rows_of_a_directory_are_the_sums_of_its_files, rows_of_a_tree_are_the_sums_of_what_is_below,
    shown_rows_are_the_summed_ones, shown_rows_keep_the_totals, sorted_files_are_the_files,
    the_first_files_are_the_largest, what_is_cut_off_adds_up, whole_keys_add_up_to_themselves,
};
pub use row_key::RowKeyRef;
pub use sheet_laws::{
    classes_of_a_sheet_add_up, files_of_a_sheet_are_the_first,
    no_line_of_a_sheet_is_over_its_whole, rows_of_a_sheet_add_up, sheets_of_walks_add_up,
};
pub use shown::{added_rows, number_in, shown_rows};
pub use shown_row::ShownRow;
pub use shown_sheet::{ReportSheet, Shown};
