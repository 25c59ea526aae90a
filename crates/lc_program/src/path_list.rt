//! The paths that the file of `--only-from` lists.

ghost use Rattle.std.specs.Prelude.{◌≡◌, ℕ, List, map, string_bytes, IfOk};
ghost use Rattle.std.specs.Borrow.{Bor};
ghost use Rattle.std.specs.List.{list_any};
ghost use Rattle.lc_text.specs.PathLines.{is_top};
ghost use Rattle.lc_program.specs.Causes.{bad_path_line, no_path_line};
ghost use Rattle.lc_program.specs.PathLists.{AnswersListed, AnswersNamed, AnswersWanted, GivesList, IsListCause};
ghost use Rattle.lc_program.specs.PathLists.{emptied_line, is_bad_listed, paths_wanted};
ghost use Rattle.lc_program.specs.Styles.{end_for};

use crate::cause::Cause;
use crate::checking::path_end;
use crate::named_texts::named_text;
use crate::system::System;
use lc_arguments::WalkRequest;
use lc_io::{Source, WholeFault};
use lc_text::{PathEnd, is_bad_path, is_top, push_visible, split_path, split_slash, undotted};
use std::alloc::{AllocError, Global};

/// The greatest number of bytes of a list of paths.
const MAX_LIST: u32 = 268_435_456;

/// Returns why the list of paths that a command line names could not be read.
fn list_cause<Y: System>(alloc: Global, system: &Y, file: Option<&str>, fault: WholeFault) -> Cause
    ensures { IsListCause (Y.unreads system.now) file.entry fault result }
{
    match fault {
        WholeFault::Read => match file {
            None | Some("-") => Cause::UnreadPaths(None),
            Some(name) => Cause::UnreadPaths(system.why_unread(alloc, name)),
        },
        WholeFault::TooLong => Cause::PathsTooLong,
        WholeFault::Memory => Cause::Memory,
    }
}

/// Reads the list of paths that a command line names, in a file or in the input for `-`, or returns why it could not be read.
pub(crate) fn list_of<Y: System, S: Source>(
    alloc: Global,
    system: &Y,
    file: Option<&str>,
    input: &mut S,
) -> Result<Vec<u8>, Cause>
    ensures { GivesList S.may_give (Y.holds system.now) (Y.unreads system.now) file.entry input.old result input.new }
{
    let Some(name) = file else {
        return Ok(Vec::new(alloc));
    };
    match named_text(alloc, system, MAX_LIST, name, input) {
        Ok(list) => Ok(list),
        Err(fault) => Err(list_cause(alloc, system, file, fault)),
    }
}

fn bad_path_line(alloc: Global, file: &str, path: &[u8]) -> Result<String, AllocError>
    ensures { IfOk result (λ line. string_bytes line ≡ bad_path_line file.now path.now) }
{
    let mut line = String::from_str(alloc, "lc: bad path in ")?;
    push_visible(&mut line, file.as_bytes())?;
    line.push_str(": ")?;
    push_visible(&mut line, path)?;
    line.push_str("\n")?;
    Ok(line)
}

fn no_path_line(alloc: Global, file: &str) -> Result<String, AllocError>
    ensures { IfOk result (λ line. string_bytes line ≡ no_path_line file.now) }
{
    let mut line = String::from_str(alloc, "lc: no path in ")?;
    push_visible(&mut line, file.as_bytes())?;
    line.push_str("\n")?;
    Ok(line)
}

/// Returns whether a path of the list can't be counted: it is neither the counted directory itself nor a path that an entry can have.
fn is_bad_listed(path: &[u8]) -> bool
    ensures { result ≡ is_bad_listed path.now }
{
    !is_top(path) && is_bad_path(path)
}

/// Splits a list into its paths, and drops any `./` at the beginning of each and a slash at its end.
fn paths_of<'l>(
    alloc: Global,
    file: &str,
    end: PathEnd,
    list: &'l [u8],
) -> Result<Vec<&'l [u8]>, Cause>
    ensures { AnswersListed file.now end list.now result }
{
    let mut paths = Vec::new(alloc);
    let mut rest = list;
    'paths: while !rest.is_empty() {
        let (line, others) = split_path(end, rest);
        let (path, _) = split_slash(undotted(line));
        if is_bad_listed(path) {
            return Err(Cause::BadPaths(bad_path_line(alloc, file, line)?));
        }
        paths.push(path)?;
        rest = others;
    }
    Ok(paths)
}

/// Returns the paths of `--only`, followed by the paths that the file of `--only-from` lists.
fn named_paths<'w: 'l, 'l>(
    alloc: Global,
    only: &[&'w [u8]],
    file: Option<&str>,
    end: PathEnd,
    list: &'l [u8],
) -> Result<Vec<&'l [u8]>, Cause>
    ensures { AnswersNamed (map (λ path. path.now) only.now) file.entry end list.now result }
{
    let mut named = Vec::new(alloc);
    for path in only {
        named.push(*path)?;
    }
    let Some(file) = file else {
        return Ok(named);
    };
    let listed = paths_of(alloc, file, end, list)?;
    named.extend_from_slice(&listed)?;
    Ok(named)
}

/// Returns whether one of these paths is the counted directory itself.
fn has_top(paths: &[&[u8]]) -> bool
    ensures { result ≡ list_any (λ (path : Bor (List ℕ)). is_top path.now) paths.now }
{
    paths.iter().any(|path| is_top(path))
}

/// Returns the paths to count: the paths of the command line and of the list that it names. The result is `None`, which means all of the
/// directory, if the command line names neither, or if one of the paths is the counted directory itself.
pub(crate) fn wanted_paths<'w: 'l, 'l>(
    alloc: Global,
    walk: &WalkRequest<'w>,
    list: &'l [u8],
) -> Result<Option<Vec<&'l [u8]>>, Cause>
    ensures { AnswersWanted (map (λ path. path.now) walk.now.only.items) walk.now.only_from (end_for walk.now.null) list.now result }
{
    if walk.only.is_empty() && walk.only_from.is_none() {
        return Ok(None);
    }
    let end = path_end(walk.null);
    let paths = named_paths(alloc, &walk.only, walk.only_from, end, list)?;
    if has_top(&paths) {
        return Ok(None);
    }
    Ok(Some(paths))
}

/// Makes the line that says that the file of `--only-from` has no path, if nothing is counted for this reason. The line is empty otherwise.
pub(crate) fn emptied_line(
    alloc: Global,
    file: Option<&str>,
    wanted: &Option<Vec<&[u8]>>,
) -> Result<String, AllocError>
    ensures { IfOk result (λ line. string_bytes line ≡ emptied_line file.entry (paths_wanted wanted.now)) }
{
    match (file, wanted) {
        (Some(file), Some(paths)) if paths.is_empty() => no_path_line(alloc, file),
        _ => Ok(String::new(alloc)),
    }
}
