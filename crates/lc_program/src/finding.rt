//! Makes the report of a count: the report of a single directory, or the sum of the reports of several directories.

ghost use Rattle.std.specs.Prelude.{◌≡◌, ◌⊎◌, true, map, string_bytes, IfErr, IfOk};
ghost use Rattle.std.specs.List.{AllZip};
ghost use Rattle.lc_program.specs.Counts.{names_of};
ghost use Rattle.lc_program.specs.Finds.{EndsAmong, EndsIn, Finds, FindsNone, HasLine, IsCauseIn, IsWalkedBelow, JoinsNone};
ghost use Rattle.lc_program.specs.Finds.{FindsFor, FindsNoneFor, JoinsWalks, line_in};
ghost use Rattle.lc_program.specs.WalkRequests.{entered_by};
ghost use Rattle.lc_program.specs.declared.cause.Cause.TheVariants.{Memory};
ghost use Rattle.lc_walk.specs.WalkOptions.{AreWithinLimits};
ghost use Rattle.lc_walk.specs.Walks.{Walks};

use crate::attributes::with_languages;
use crate::cause::Cause;
use crate::system::System;
use lc_arguments::{CountRequest, WalkRequest, unslashed};
use lc_reports::{joined, named};
use lc_sheet::AttributeColumn;
use lc_text::push_visible;
use lc_tree::FileSystems;
use lc_walk::{Options, Report, WalkFault, walk_first};
use std::alloc::{AllocError, Global};
use std::sync::Wait;
use std::thread::Threads;

/// How many directories the first boards of all walks of a command have numbers for, all together: as many as two walks have by default.
/// Making them takes a few thousandths of a second.
const FIRST_NUMBERS: u32 = 131_072;

/// Returns how many directories the first board of each walk has numbers for, if a command walks this many directories.
pub(crate) fn first_numbers(walks: usize) -> u32 {
    let walks = u32::try_from(walks).unwrap_or(u32::MAX).max(1);
    (FIRST_NUMBERS / walks).max(64)
}

/// Walks the directory with this name, first with a board for `first` directories, and returns the report.
pub(crate) fn walk_of<R: Threads + Wait + Sync + AllocGlobal, Y: System>(
    rt: &R,
    system: &Y,
    directory: &str,
    entered: FileSystems,
    options: &Options<'_>,
    first: u32,
) -> Result<Report, WalkFault>
    requires limits { AreWithinLimits options.now }
    ensures { Walks (Y.Tree.lists (Y.tree system.now directory.now entered)) (Y.Tree.gives (Y.tree system.now directory.now entered))
        options.now result }
{
    let Ok(tree) = system.tree(rt.alloc(), directory, entered) else {
        return Err(WalkFault::Memory);
    };
    walk_first(rt, rt.alloc(), &tree, options, first)
}

/// Makes the line that names one of several directories, and says why its walk ended without a report.
fn line_in(alloc: Global, directory: &str, why: &str) -> Result<String, AllocError>
    ensures { IfOk result (λ line. string_bytes line ≡ line_in directory.now why.now) }
{
    let mut line = String::from_str(alloc, "lc: ")?;
    push_visible(&mut line, directory.as_bytes())?;
    line.push_str(": ")?;
    line.push_str(why)?;
    line.push_str("\n")?;
    Ok(line)
}

fn named_cause(alloc: Global, directory: &str, why: &str) -> Cause
    ensures { HasLine (line_in directory.now why.now) result ⊎ (result ≡ Memory) }
{
    match line_in(alloc, directory, why) {
        Ok(line) => Cause::InDirectory(line),
        Err(AllocError) => Cause::Memory,
    }
}

/// Makes the cause that says why the walk of one of several directories ended without a report.
pub(crate) fn cause_in(alloc: Global, directory: &str, fault: WalkFault) -> Cause
    ensures { IsCauseIn directory.now fault result }
{
    match fault {
        WalkFault::TooManyDirs => named_cause(alloc, directory, "too many directories"),
        WalkFault::TooDeep => named_cause(alloc, directory, "path too deep"),
        WalkFault::Memory | WalkFault::Torn(_) | WalkFault::Mismatch(_) => Cause::from(fault),
    }
}

/// Walks one of several directories, and puts the directory's name in front of the paths of its report.
fn walk_below<R: Threads + Wait + Sync + AllocGlobal, Y: System>(
    rt: &R,
    system: &Y,
    directory: &str,
    entered: FileSystems,
    options: &Options<'_>,
    first: u32,
) -> Result<Report, Cause>
    requires limits { AreWithinLimits options.now }
    ensures found { IfOk result (IsWalkedBelow
        (λ d. Walks (Y.Tree.lists (Y.tree system.now d entered)) (Y.Tree.gives (Y.tree system.now d entered)) options.now) directory.now) }
    ensures none { IfErr result (EndsIn
        (λ d. Walks (Y.Tree.lists (Y.tree system.now d entered)) (Y.Tree.gives (Y.tree system.now d entered)) options.now) directory.now) }
{
    match walk_of(rt, system, directory, entered, options, first) {
        Ok(report) => {
            let report = named(rt.alloc(), unslashed(directory), report)?;
            Ok(report)
        }
        Err(fault) => Err(cause_in(rt.alloc(), directory, fault)),
    }
}

/// Walks several directories, one after another, and puts each directory's name in front of the paths of its report.
fn walks_below<R: Threads + Wait + Sync + AllocGlobal, Y: System>(
    rt: &R,
    system: &Y,
    directories: &[&str],
    entered: FileSystems,
    options: &Options<'_>,
) -> Result<Vec<Report>, Cause>
    requires limits { AreWithinLimits options.now }
    ensures found { IfOk result (λ reports. AllZip (IsWalkedBelow
        (λ d. Walks (Y.Tree.lists (Y.tree system.now d entered)) (Y.Tree.gives (Y.tree system.now d entered)) options.now))
        (map (λ d. d.now) directories.now) reports.items) }
    ensures none { IfErr result (EndsAmong
        (λ d. Walks (Y.Tree.lists (Y.tree system.now d entered)) (Y.Tree.gives (Y.tree system.now d entered)) options.now)
        (map (λ d. d.now) directories.now)) }
{
    let mut reports = Vec::with_capacity(rt.alloc(), directories.len())?;
    let first = first_numbers(directories.len());
    for directory in directories {
        reports.push(walk_below(rt, system, directory, entered, options, first)?)?;
    }
    Ok(reports)
}

/// Returns the file systems whose directories a walk may enter.
pub(crate) fn entered_by(asked: &WalkRequest<'_>) -> FileSystems
    ensures { result ≡ entered_by asked.now }
{
    if asked.one_file_system {
        FileSystems::One
    } else {
        FileSystems::All
    }
}

/// Counts several directories. Each directory's name is put in front of the paths of its report, and the reports are added up.
fn found_in_all<R: Threads + Wait + Sync + AllocGlobal, Y: System>(
    rt: &R,
    system: &Y,
    directories: &[&str],
    entered: FileSystems,
    options: &Options<'_>,
) -> Result<Report, Cause>
    requires limits { AreWithinLimits options.now }
    ensures found { IfOk result (JoinsWalks
        (λ d. Walks (Y.Tree.lists (Y.tree system.now d entered)) (Y.Tree.gives (Y.tree system.now d entered)) options.now)
        (map (λ d. d.now) directories.now)) }
    ensures none { IfErr result (JoinsNone
        (λ d. Walks (Y.Tree.lists (Y.tree system.now d entered)) (Y.Tree.gives (Y.tree system.now d entered)) options.now)
        (map (λ d. d.now) directories.now)) }
    ensures files { IfOk result (λ report. options.now.lists.files ≡ true → report.lists.files ≡ true) }
{
    let reports = walks_below(rt, system, directories, entered, options)?;
    let report = joined(rt.alloc(), reports)?;
    Ok(report)
}

/// Counts one or more directories. The report of a single directory is that of its walk, without the directory's name in front of paths.
fn found_in<R: Threads + Wait + Sync + AllocGlobal, Y: System>(
    rt: &R,
    system: &Y,
    directories: &[&str],
    entered: FileSystems,
    options: &Options<'_>,
) -> Result<Report, Cause>
    requires limits { AreWithinLimits options.now }
    ensures found { IfOk result (Finds
        (λ d. Walks (Y.Tree.lists (Y.tree system.now d entered)) (Y.Tree.gives (Y.tree system.now d entered)) options.now)
        (map (λ d. d.now) directories.now)) }
    ensures none { IfErr result (FindsNone
        (λ d. Walks (Y.Tree.lists (Y.tree system.now d entered)) (Y.Tree.gives (Y.tree system.now d entered)) options.now)
        (map (λ d. d.now) directories.now)) }
    ensures files { IfOk result (λ report. options.now.lists.files ≡ true → report.lists.files ≡ true) }
{
    if directories.len() != 1 {
        return found_in_all(rt, system, directories, entered, options);
    }
    let first = first_numbers(1);
    let report = walk_of(rt, system, directories[0], entered, options, first)?;
    Ok(report)
}

/// Counts the directories that the command line names. The files have languages, if one of the columns shows these.
pub(crate) fn found<R: Threads + Wait + Sync + AllocGlobal, Y: System>(
    rt: &R,
    system: &Y,
    asked: &CountRequest<'_>,
    columns: &[AttributeColumn],
    options: &Options<'_>,
) -> Result<Report, Cause>
    requires limits { AreWithinLimits options.now }
    ensures found { IfOk result (FindsFor
        (λ d. Walks (Y.Tree.lists (Y.tree system.now d (entered_by asked.now.walk)))
        (Y.Tree.gives (Y.tree system.now d (entered_by asked.now.walk))) options.now)
        columns.now (names_of asked.now)) }
    ensures none { IfErr result (FindsNoneFor
        (λ d. Walks (Y.Tree.lists (Y.tree system.now d (entered_by asked.now.walk)))
        (Y.Tree.gives (Y.tree system.now d (entered_by asked.now.walk))) options.now)
        (names_of asked.now)) }
    ensures files { IfOk result (λ report. options.now.lists.files ≡ true → report.lists.files ≡ true) }
{
    let entered = entered_by(&asked.walk);
    let report = found_in(rt, system, &asked.directories, entered, options)?;
    let report = with_languages(rt.alloc(), report, columns)?;
    Ok(report)
}
