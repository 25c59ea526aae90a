//! The formats in which a sheet is printed: what is shown of a report, or of a comparison of two reports. A format uses the values, columns
//! and sections of a sheet, but not the reports that the sheet is made from.
//!
//! - `sheet_text`: the text of a sheet in a format
//! - `tsv`: the text of a sheet as lines of fields, with tabs between the fields
//! - `csv_sheet`: the text of a sheet as CSV
//! - `csv_records`: a CSV text, written record by record
//! - `json_sheet`: the text of a sheet as JSON
//! - `json_lists`, `json_values`: lines and sections as JSON, and their values
//! - `json_sides`: a line of a comparison as JSON
//! - `json_writer`: a JSON text, written a token at a time
//! - `joined`: joining the bytes of a name with what is printed before and after them, in CSV and JSON
//! - `markdown`: the text of a sheet as Markdown
//! - `markdown_line`, `markdown_escape`: the lines of a Markdown table, and the escaping of texts in its cells
//! - `table`: the text of a sheet in human-readable columns
//! - `section_lines`, `widths`: the lines of a section in these columns, and the width of each column
//! - `cells`, `cell_text`: the cells of a line in a human-readable table, and the texts of their values
//! - `paths`: the paths of a sheet, for other programs
//! - `tree_lines`: lines of a tree, each with a number, its share and a bar before it
//! - `numbers`: numbers as digits, with and without commas
//! - `shares`: shares in per cent, and bars
//! - `csv_laws`: the law that CSV reads back as the printed records
//! - `markdown_laws`: the law that no name in a Markdown table acts as markup
//! - `table_laws`: laws of human-readable columns, numbers, shares and changes
#![tactic(auto)]

mod cell_text;
mod cells;
mod csv_laws;
mod csv_records;
mod csv_sheet;
mod joined;
mod json_lists;
mod json_sheet;
mod json_sides;
mod json_values;
mod json_writer;
mod markdown;
mod markdown_escape;
mod markdown_laws;
mod markdown_line;
mod numbers;
mod paths;
mod section_lines;
mod shares;
mod sheet_text;
mod table;
mod table_laws;
mod tree_lines;
mod tsv;
mod widths;

pub use csv_laws::csv_reads_back;
pub use markdown_laws::markdown_has_no_markup_of_names;
pub use numbers::push_number;
pub use paths::{PathsText, paths_text};
pub use sheet_text::text;
pub use table::table_text;
pub use table_laws::{
    bars_are_as_long_as_their_cells, changes_add_up_to_new_numbers,
    changes_in_per_cent_are_of_old_numbers, lines_end_without_blanks, lines_of_a_part_are_as_wide,
    numbers_with_commas_read_back, shares_are_of_the_whole,
};
pub use tree_lines::{TreeLine, tree_text};
