//! Putting a name in front of the paths of a report.
ghost use Rattle.std.specs.Prelude.{◌≡◌, ◌+◌, ℕ, List, IfOk, map};
ghost use Rattle.lc_level.specs.Reasons.{reason_model};
ghost use Rattle.lc_reports.specs.Named.{IsNamed, named_depth, named_fault, named_file, named_path, named_reason, named_skipped};
ghost use Rattle.lc_reports.specs.Named.{named_source};

use lc_glob::path::depth_of;
use lc_level::Reason;
use lc_rules::RuleSource;
use lc_walk::{FaultLine, FileLine, Report, SkippedLine};
use std::alloc::{AllocError, Global};

/// A line of a report. A name can be put in front of the line's path.
trait PathLine: Sized {
    ghost named_of: { List ℕ → Self → Self };

    /// Returns this line with the name in front of its path.
    fn with_name(self, alloc: Global, name: &[u8]) -> Result<Self, AllocError>
        ensures { IfOk result (λ line. line ≡ named_of name.now self) };
}

impl PathLine for FileLine {
    ghost named_of = { named_file };

    fn with_name(self, alloc: Global, name: &[u8]) -> Result<FileLine, AllocError> {
        Ok(FileLine {
            path: named_path(alloc, name, &self.path)?,
            attributes: self.attributes,
            count: self.count,
        })
    }
}

impl PathLine for FaultLine {
    ghost named_of = { named_fault };

    fn with_name(self, alloc: Global, name: &[u8]) -> Result<FaultLine, AllocError> {
        Ok(FaultLine {
            path: named_path(alloc, name, &self.path)?,
            word: self.word,
        })
    }
}

impl PathLine for SkippedLine {
    ghost named_of = { named_skipped };

    fn with_name(self, alloc: Global, name: &[u8]) -> Result<SkippedLine, AllocError> {
        Ok(SkippedLine {
            path: named_path(alloc, name, &self.path)?,
            kind: self.kind,
            reason: named_reason(name, self.reason)?,
        })
    }
}

/// Returns a path with a name and a slash in front. The empty path becomes the name, or `/` if the name is empty.
fn named_path(alloc: Global, name: &[u8], path: &[u8]) -> Result<Vec<u8>, AllocError>
    ensures { IfOk result (λ named. named.items ≡ named_path name.now path.now) }
{
    let mut named = name.to_vec(alloc)?;
    if !path.is_empty() || name.is_empty() {
        named.push(b'/')?;
    }
    named.extend_from_slice(path)?;
    Ok(named)
}

/// Returns the number of segments that a name in front adds to a path. It fails for a name of 2^32 segments or more.
fn named_depth(name: &[u8]) -> Result<u32, AllocError>
    ensures { IfOk result (λ depth. depth ≡ named_depth name.now) }
{
    // The empty name has one segment, an empty one.
    let depth = if name.is_empty() { 1 } else { depth_of(name) };
    u32::try_from(depth).map_err(|_| AllocError)
}

/// Returns the depth of a directory after the name was put in front of its path. It fails if the depth does not fit its type.
fn deeper(name: &[u8], depth: u32) -> Result<u32, AllocError>
    ensures { IfOk result (λ sum. sum ≡ named_depth name.now + depth) }
{
    let above = named_depth(name)?;
    match above.checked_add(depth) {
        Some(sum) => Ok(sum),
        None => Err(AllocError),
    }
}

fn named_source(name: &[u8], source: RuleSource) -> Result<RuleSource, AllocError>
    ensures { IfOk result (λ named. named ≡ named_source name.now source) }
{
    match source {
        RuleSource::InfoExclude(depth) => Ok(RuleSource::InfoExclude(deeper(name, depth)?)),
        RuleSource::Gitignore(depth) => Ok(RuleSource::Gitignore(deeper(name, depth)?)),
        RuleSource::ExcludeFrom | RuleSource::CommandLine => Ok(source),
    }
}

fn named_reason(name: &[u8], reason: Reason) -> Result<Reason, AllocError>
    ensures { IfOk result (λ named. reason_model named ≡ named_reason name.now (reason_model reason)) }
{
    match reason {
        Reason::Rule { source, line } => Ok(Reason::Rule {
            source: named_source(name, source)?,
            line,
        }),
        other => Ok(other),
    }
}

/// Returns these lines in the same order, each with the name in front of its path.
fn named_lines<L: PathLine + Drop>(
    alloc: Global,
    name: &[u8],
    lines: Vec<L>,
) -> Result<Vec<L>, AllocError>
    ensures { IfOk result (λ named. named.items ≡ map (L.named_of name.now) lines.items) }
{
    let mut named = Vec::with_capacity(alloc, lines.len())?;
    for line in lines {
        named.push(line.with_name(alloc, name)?)?;
    }
    Ok(named)
}

/// Puts a name and a slash in front of each path of a report. If an entry is skipped by a rule, the path of the rule's file also gets the
/// name and the slash. The empty path becomes the name. Rules of `--exclude` and `--exclude-from`, and all numbers, stay as they are.
///
/// For the directory `/` the name is empty: the paths of its report then begin with a slash, and the empty path becomes `/`. For a name of
/// 2^32 segments or more, the call returns the error of a failed allocation.
///
/// ```
/// let report = named(alloc, b"../lib", report)?; // x.c is ../lib/x.c
/// ```
pub fn named(alloc: Global, name: &[u8], report: Report) -> Result<Report, AllocError>
    ensures { IfOk result (IsNamed name.now report) }
{
    let Report {
        rows,
        columns,
        totals,
        classes,
        directories,
        entries,
        lists,
        files,
        faults,
        skipped,
    } = report;
    Ok(Report {
        rows,
        columns,
        totals,
        classes,
        directories,
        entries,
        lists,
        files: named_lines(alloc, name, files)?,
        faults: named_lines(alloc, name, faults)?,
        skipped: named_lines(alloc, name, skipped)?,
    })
}
