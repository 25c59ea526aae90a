//! The program `lc_cases` reads cases of patterns, rules, paths and command lines, each with the expected answer. It prints each case that
//! has another answer, with this answer, and how many cases it has read.
//!
//! - `patterns`: matching patterns with paths
//! - `paths`: names and paths, and how they are printed
//! - `streams`: printing to writers that are interrupted or full
//! - `ignored`: ignore files, and the rules that decide
//! - `attributes`: attribute files, and the states of attributes
//! - `command_lines`: arguments, and the requests that they make
//! - `requests`: requests as text
//! - `levels`: trees in memory, and what a walk does with the entries of a directory
//! - `checks`: checks of paths by rules, and explanations of the paths of a tree
#![tactic(auto)]

mod attributes;
mod checks;
mod command_lines;
mod ignored;
mod levels;
mod paths;
mod patterns;
mod requests;
mod streams;

use lc_tests::cases::{answered, begins_with, columns_of, kind_of, slices_of};
use lc_tree::Node;
use std::alloc::{AllocError, Global};
use std::io::{self, ErrorKind};

/// Appends the answer of a case. Returns false if there is no such kind of cases, or if it has other columns. `top` is the tree that a case
/// of the kind `tree` makes for the cases after it.
fn push_answer(
    text: &mut String,
    alloc: Global,
    top: &mut Node,
    kind: &str,
    columns: &[&[u8]],
) -> Result<bool, AllocError> {
    Ok(
        patterns::push_answer(text, alloc, kind, columns)?
            || paths::push_answer(text, alloc, kind, columns)?
            || streams::push_answer(text, alloc, kind, columns)?
            || ignored::push_answer(text, alloc, kind, columns)?
            || attributes::push_answer(text, alloc, kind, columns)?
            || command_lines::push_answer(text, alloc, kind, columns)?
            || levels::push_answer(text, alloc, top, kind, columns)?
            || checks::push_answer(text, alloc, top, kind, columns)?,
    )
}

/// Returns a case with its answer.
fn answer(alloc: Global, top: &mut Node, kind: &str, case: &str) -> io::Result<String> {
    let columns = columns_of(alloc, case)?;
    let columns = slices_of(alloc, &columns)?;
    let mut text = String::new(alloc);
    if push_answer(&mut text, alloc, top, kind, &columns)? {
        return Ok(answered(alloc, case, text.trim_end_matches(' '))?);
    }
    Err(io::Error::from(ErrorKind::InvalidInput))
}

fn main(rt: HostRuntime) -> io::Result<()> {
    let input = io::read_to_string(rt.alloc(), rt.stdin())?;
    let mut top = Node::Closed;
    let mut at: usize = 0;
    for line in input.lines() {
        if let Some(kind) = kind_of(line) {
            let (case, _) = line.split_once(" =>").unwrap_or((line, ""));
            let text = answer(rt.alloc(), &mut top, kind, case)?;
            if !begins_with(input.get(at..).unwrap_or(""), &text) {
                println!(rt; "{text}")?;
            }
        }
        at = at.saturating_add(line.len()).saturating_add(1);
    }
    let count = input.lines().filter(|line| kind_of(line).is_some()).count();
    println!(rt; "{count} cases")
}
