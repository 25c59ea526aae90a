//! The hint on standard error that rules in the directories above a counted directory were not read.

ghost use Rattle.std.specs.Prelude.{◌≡◌, map, option_map, string_bytes, IfOk};
ghost use Rattle.std.specs.List.{AllZip, list_all};
ghost use Rattle.lc_program.specs.Commands.{is_typed};
ghost use Rattle.lc_program.specs.Hints.{IsHintFor, first_above, hint, hint_alone, hint_of, hint_with_command, paths_in};

use crate::commands::{is_typed, push_count};
use crate::repository::Repository;
use crate::system::System;
use lc_text::push_visible;
use std::alloc::{AllocError, Global};

/// Returns the paths of the directories that lie in the repository with the top directory `top`. Each path is relative to `top`.
fn paths_in<'r>(
    alloc: Global,
    top: &str,
    repositories: &'r [Option<Repository>],
) -> Result<Vec<&'r str>, AllocError>
    ensures { IfOk result (λ paths. map (λ path. path.now) paths.items ≡ paths_in top.now repositories.now) }
{
    let mut paths = Vec::new(alloc);
    let mut rest = repositories;
    'repositories: while let Some((repository, others)) = rest.split_first() {
        if let Some(repository) = repository {
            if repository.top.as_str() == top {
                paths.push(repository.path.as_str())?;
            }
        }
        rest = others;
    }
    Ok(paths)
}

fn are_typed(alloc: Global, paths: &[&str]) -> Result<bool, AllocError>
    ensures { IfOk result (λ typed. typed ≡ list_all is_typed (map (λ path. path.now) paths.now)) }
{
    for path in paths {
        if !is_typed(alloc, path)? {
            return Ok(false);
        }
    }
    Ok(true)
}

fn hint_with_command(
    alloc: Global,
    above: &Repository,
    paths: &[&str],
) -> Result<String, AllocError>
    ensures { IfOk result (λ text. string_bytes text ≡ hint_with_command above.now (map (λ path. path.now) paths.now)) }
{
    let mut text = String::from_str(alloc, "lc: rules above ")?;
    text.push_str(&above.path)?;
    text.push_str(" were not read; ")?;
    push_count(&mut text, paths, &above.top)?;
    text.push_str(" reads them\n")?;
    Ok(text)
}

fn hint_alone(alloc: Global, directory: &str) -> Result<String, AllocError>
    ensures { IfOk result (λ text. string_bytes text ≡ hint_alone directory.now) }
{
    let mut text = String::from_str(alloc, "lc: rules above ")?;
    push_visible(&mut text, directory.as_bytes())?;
    text.push_str(" were not read\n")?;
    Ok(text)
}

/// Makes the hint about a directory in a repository. The hint shows a command with all directories that lie in this repository, unless the
/// command can't be typed as it is shown.
fn hint_line(
    alloc: Global,
    directory: &str,
    above: &Repository,
    all: &[Option<Repository>],
) -> Result<String, AllocError>
    ensures { IfOk result (λ text. string_bytes text ≡ hint directory.now above.now (paths_in (string_bytes above.now.top) all.now)) }
{
    let paths = paths_in(alloc, &above.top, all)?;
    if are_typed(alloc, &paths)? && is_typed(alloc, &above.top)? {
        hint_with_command(alloc, above, &paths)
    } else {
        hint_alone(alloc, directory)
    }
}

/// Returns the first directory that lies in a repository, with that repository.
fn first_above<'a>(
    directories: &[&'a str],
    repositories: &'a [Option<Repository>],
) -> Option<(&'a str, &'a Repository)>
    ensures { option_map (λ a. (a.0.now, a.1.now)) result ≡ first_above (map (λ d. d.now) directories.now) repositories.entry.now }
{
    let mut rest = repositories;
    for directory in directories {
        let (repository, others) = rest.split_first()?;
        if let Some(repository) = repository {
            return Some((directory, repository));
        }
        rest = others;
    }
    None
}

/// Makes the hint about the first element of `directories` that lies in a repository. The text is empty if none does.
fn hint_above(
    alloc: Global,
    directories: &[&str],
    all: &[Option<Repository>],
) -> Result<String, AllocError>
    ensures { IfOk result (λ text. string_bytes text ≡ hint_of all.now (first_above (map (λ d. d.now) directories.now) all.now)) }
{
    match first_above(directories, all) {
        Some((directory, above)) => hint_line(alloc, directory, above, all),
        None => Ok(String::new(alloc)),
    }
}

/// Queries the system for the repository in which each directory lies.
fn repositories_above<Y: System>(
    alloc: Global,
    system: &Y,
    directories: &[&str],
) -> Result<Vec<Option<Repository>>, AllocError>
    ensures { IfOk result (λ above. AllZip (Y.lies system.now) (map (λ d. d.now) directories.now) above.items) }
{
    let mut repositories = Vec::with_capacity(alloc, directories.len())?;
    for directory in directories {
        repositories.push(system.repository_above(alloc, directory))?;
    }
    Ok(repositories)
}

/// Makes the hint that rules in the directories above a counted directory were not read, if one of the counted directories lies in a
/// repository, below the repository's top. Only a terminal gets the hint.
pub(crate) fn hint_for<Y: System>(
    alloc: Global,
    system: &Y,
    stderr_is_terminal: bool,
    directories: &[&str],
) -> Result<String, AllocError>
    ensures { IfOk result (λ text. IsHintFor (Y.lies system.now) stderr_is_terminal (map (λ d. d.now) directories.now)
        (string_bytes text)) }
{
    if !stderr_is_terminal {
        return Ok(String::new(alloc));
    }
    let all = repositories_above(alloc, system, directories)?;
    let text = hint_above(alloc, directories, &all)?;
    Ok(text)
}
