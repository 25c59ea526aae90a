//! The picture of a tree: a page of HTML with the sums of a report, a bar chart of its extensions, and boxes of directories and files.
//!
//! - `report_page`: the page of a report
//! - `report_tree`: the tree of a report, as lines for a terminal
//! - `tree_marks`: the lines of a tree, and the marks that draw it
//! - `head`: what was counted, and the sums over all files
//! - `faults`: the errors at the top of a page
//! - `chart`, `cells`: the bar chart of a sheet, and the cells of its lines
//! - `boxes`, `drawn_box`: the boxes of directories and files, each inside the box of the directory above it
//! - `directory_box`, `file_box`: which directories and which files have boxes
//! - `small_directories`: the directories that are too small for boxes of their own
//! - `rests`: the boxes of the rests of directories: of the child directories and the files that have no boxes of their own
//! - `layout`, `strips`: in which strip of its parent a box is, and the numbers of strips
//! - `box_names`: the names of boxes
//! - `legend`: the extensions that have colours of their own
//! - `chains`: directories that are one box with the only box in them
//! - `largest_first`, `places`: the order of boxes
//! - `colours`, `kinds`: the colours of extensions and of boxes
//! - `scale`: which number a picture draws, such as lines, and the sum of that number over all files
//! - `sums`, `percents`: sums as text, such as `lines 7, files 1`, and shares as text
//! - `escaping`: texts, names and paths, escaped for HTML
//! - `style`: the parts of a page that are the same for every report
//! - `laws`: theorems about the definitions that the contracts cite
#![tactic(auto)]

mod box_names;
mod boxes;
mod cells;
mod chains;
mod chart;
mod colours;
mod directory_box;
mod drawn_box;
mod escaping;
mod faults;
mod file_box;
mod head;
mod kinds;
mod largest_first;
mod laws;
mod layout;
mod legend;
mod percents;
mod places;
mod report_page;
mod report_tree;
mod rests;
mod scale;
mod small_directories;
mod strips;
mod style;
mod sums;
mod tree_marks;

pub use laws::{
    a_box_opens_inside_that_of_its_parent, a_chain_is_its_last_directory,
    a_directory_is_its_boxes_and_its_rest, a_page_shows_each_directory_once, boxes_are_nested,
    large_files_have_boxes, larger_boxes_come_first, names_are_never_markup, names_change_no_tag,
    rows_have_the_colours_of_their_extensions, strips_are_the_boxes_in_a_box,
};
pub use report_page::page;
pub use report_tree::tree;
