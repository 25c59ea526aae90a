//! Parts that the test crates share: readers, writers and trees whose behaviour is known, and functions that read or write text.
//!
//! - `readers`: readers whose contracts determine what they return
//! - `writers`: a writer whose contract determines what it accepts
//! - `trees`: trees that pass calls on to another tree
//! - `sketch`: trees in memory, made from a text that lists their entries
//! - `sketch_table`: trees in memory, made from a constant table
//! - `request`: what a user requests, read from options as on a command line
//! - `lines`: words for what a walk finds, in which tests write their expected results
//! - `cases`: cases as text, which programs read and print with their answers
#![tactic(auto)]

pub mod cases;
mod lines;
pub mod readers;
mod request;
mod sketch;
mod sketch_table;
pub mod trees;
pub mod writers;

pub use lines::{
    cut, eol_of_word, has_words, push_faults, push_kind, push_name, push_reason, push_skipped,
    text_of_word,
};
pub use request::Asked;
pub use sketch::{numbered_files, tree};
pub use sketch_table::Sketch;
