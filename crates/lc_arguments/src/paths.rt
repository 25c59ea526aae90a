//! The paths of `--only`, as in `--only src --only doc`.

ghost use Rattle.std.specs.Prelude.{◌≡◌, codes, map};
ghost use Rattle.clap.specs.Matches.{found_of};
ghost use Rattle.clap.specs.Walk.{rows_of};
ghost use Rattle.lc_arguments.specs.Explained.{AnswersPaths};
ghost use Rattle.lc_arguments.specs.Words.{is_bad_part, part_of, texts_read};

use crate::request::{ParseExit, refused};
use clap::ArgMatches;
use lc_text::{is_bad_path, is_top, split_slash, undotted};
use std::alloc::Global;

/// Returns the path that a value of `--only` names: without any `./` at its beginning and without a slash at its end.
fn part_of(word: &str) -> &[u8]
    ensures { result.now ≡ part_of word.now }
{
    let (path, _) = split_slash(undotted(word.as_bytes()));
    path
}

/// Returns whether a path is neither the path of an entry nor `.`, which names DIR itself.
fn is_bad_part(path: &[u8]) -> bool
    ensures { result ≡ is_bad_part path.now }
{
    is_bad_path(path) && !is_top(path)
}

/// Reads the values of `--only`, and refuses a value that is no path relative to DIR. The paths have no `./` at their beginning and no
/// slash at their end, and DIR itself is `.`.
fn paths_of<'w>(alloc: Global, words: &[&'w str]) -> Result<Vec<&'w [u8]>, ParseExit>
    ensures { AnswersPaths (map (λ word. word.now) words.now) result }
{
    let mut paths = Vec::new(alloc);
    for word in words {
        let path = part_of(word);
        if is_bad_part(path) {
            return Err(refused(
                alloc,
                "only",
                word,
                ": expected a path relative to DIR, such as src/lib",
            ));
        }
        let Ok(()) = paths.push(path) else {
            return Err(ParseExit::Memory);
        };
    }
    Ok(paths)
}

/// Reads the paths from clap's values, in their order.
pub(crate) fn paths_in<'w>(
    alloc: Global,
    matches: &ArgMatches<'w>,
) -> Result<Vec<&'w [u8]>, ParseExit>
    ensures { AnswersPaths (texts_read (codes "only") (rows_of (found_of matches.now))) result }
{
    let words = matches.get_strs("only").unwrap_or(&[]);
    paths_of(alloc, words)
}
