//! The directories of a count, as in `lc count src ../lib`.

ghost use Rattle.std.specs.Prelude.{◌≡◌, IfOk, is_some, map, not};
ghost use Rattle.std.specs.List.{list_any};
ghost use Rattle.std.specs.Str.{bytes_eq};
ghost use Rattle.clap.specs.Matches.{found_of};
ghost use Rattle.clap.specs.Walk.{rows_of};
ghost use Rattle.lc_arguments.specs.Directories.{are_distinct, or_default, unslashed};
ghost use Rattle.lc_arguments.specs.{Explained.AnswersDirectories, Words.directories_read};

use crate::request::{ParseExit, unfit_word};
use clap::ArgMatches;
use std::alloc::{AllocError, Global};

/// Returns the path of a directory without the slashes at the path's end. The path `/` becomes empty.
///
/// ```
/// assert!(rt; unslashed("../lib//") == b"../lib");
/// assert!(rt; unslashed("/").is_empty());
/// ```
pub fn unslashed(directory: &str) -> &[u8]
    ensures { result.now ≡ unslashed directory.now }
{
    let mut left = directory.as_bytes();
    'slashes: while let Some(rest) = left.strip_suffix(b"/") {
        left = rest;
    }
    left
}

/// Returns whether one of these directories has the path `name`, apart from slashes at the directory's end.
fn is_among(name: &[u8], directories: &[&str]) -> bool
    ensures { result ≡ list_any (bytes_eq name.now) (map (λ d. unslashed d.now) directories.now) }
{
    for directory in directories {
        if name == unslashed(directory) {
            return true;
        }
    }
    false
}

/// Finds the first directory that occurs again later in the list, apart from slashes at its end.
fn given_twice<'w>(directories: &[&'w str]) -> Option<&'w str>
    ensures { is_some result ≡ not (are_distinct (map (λ d. unslashed d.now) directories.now)) }
{
    let mut rest = directories;
    'rest: while let [directory, others @ ..] = rest {
        if is_among(unslashed(directory), others) {
            return Some(directory);
        }
        rest = others;
    }
    None
}

/// Returns a copy of the words, or `default` alone if there are no words.
pub(crate) fn or_default<'w>(
    alloc: Global,
    words: &[&'w str],
    default: &'w str,
) -> Result<Vec<&'w str>, AllocError>
    ensures { IfOk result (λ all. map (λ word. word.now) all.items ≡ or_default default.entry.now (map (λ word. word.now) words.now)) }
{
    if words.is_empty() {
        return Ok(vec![in alloc; default]?);
    }
    words.to_vec(alloc)
}

/// Reads the directories from clap's values, in their order. If clap has none, the only directory is `.`, the current directory.
pub(crate) fn directories_in<'w>(
    alloc: Global,
    matches: &ArgMatches<'w>,
) -> Result<Vec<&'w str>, ParseExit>
    ensures { AnswersDirectories (directories_read (rows_of (found_of matches.now))) result }
{
    let words = matches.get_strs("DIR").unwrap_or(&[]);
    let Ok(directories) = or_default(alloc, words, ".") else {
        return Err(ParseExit::Memory);
    };
    match given_twice(&directories) {
        None => Ok(directories),
        Some(directory) => {
            let why = " is given twice: each directory is counted once";
            Err(unfit_word(alloc, "", directory, why))
        }
    }
}
