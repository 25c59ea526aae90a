//! The sides of a comparison: directories that are counted, and reports that are read.

ghost use Rattle.std.specs.Prelude.{◌≡◌, true, IfOk};
ghost use Rattle.lc_program.specs.Sides.{CountsSide, GivesSide, GivesSides, IsSide, ReadsSide, side_by};
ghost use Rattle.lc_program.specs.Systems.{may_of};
ghost use Rattle.lc_walk.specs.WalkOptions.{AreWithinLimits};

use crate::attributes::with_languages;
use crate::cause::Cause;
use crate::faults::has_path;
use crate::finding::{cause_in, entered_by, first_numbers, walk_of};
use crate::report_files::read_one;
use crate::report_lines::{cause_of_sum, unread_cause};
use crate::system::System;
use crate::unread_reason::UnreadReason;
use lc_arguments::WalkRequest;
use lc_io::Source;
use lc_reports::{Needs, summed};
use lc_sheet::AttributeColumn;
use lc_walk::{Options, Report};
use std::alloc::{AllocError, Global};
use std::sync::Wait;
use std::thread::Threads;

/// What a side of a comparison is.
#[derive(Clone, Copy)]
pub(crate) enum Side {
    /// A directory, which is counted.
    Directory,
    /// Standard input, or a name that is no directory's: reports are read.
    Report,
    /// A name that nothing has.
    Missing,
}

impl Side {
    /// Returns what a side is if a directory of its name can't be listed for this reason, or can.
    fn by_reason(why: Option<UnreadReason>) -> Side
        ensures { result ≡ side_by why }
    {
        match why {
            None | Some(UnreadReason::Denied | UnreadReason::IsDirectory | UnreadReason::Other) => {
                Side::Directory
            }
            Some(UnreadReason::IsFile | UnreadReason::NotDirectory) => Side::Report,
            Some(UnreadReason::Missing) => Side::Missing,
        }
    }

    /// Queries the system, and returns what the side with this name is. The side `-` is standard input.
    pub(crate) fn of<Y: System>(alloc: Global, system: &Y, name: &str) -> Result<Side, AllocError>
        ensures { IfOk result (IsSide (Y.unlists system.now) name.now) }
    {
        if name == "-" {
            return Ok(Side::Report);
        }
        let why = system.why_unlisted(alloc, name)?;
        Ok(Side::by_reason(why))
    }
}

/// How the sides of a comparison are counted or read.
#[derive(Clone, Copy)]
pub(crate) struct SideOptions<'o> {
    /// The part of the command line that is about walks.
    pub(crate) walk: &'o WalkRequest<'o>,
    /// The options of the walk of a side that is a directory.
    pub(crate) options: &'o Options<'o>,
    /// The columns of attributes and of languages.
    pub(crate) attributes: &'o [AttributeColumn],
    /// The columns and lists that the report of a side must have.
    pub(crate) needs: Needs,
}

/// Counts a side that is a directory. If the directory itself could not be listed, this is an error.
fn counted_side<R: Threads + Wait + Sync + AllocGlobal, Y: System>(
    rt: &R,
    system: &Y,
    name: &str,
    how: SideOptions<'_>,
) -> Result<Report, Cause>
    requires limits { AreWithinLimits how.options.now }
    ensures counts { CountsSide (may_of Y.Tree.Tree Y.System system.now)
        how.entry.walk.now how.entry.options.now how.entry.attributes.now name.now result }
    ensures files { IfOk result (λ report. how.entry.options.now.lists.files ≡ true → report.lists.files ≡ true) }
{
    let report = match walk_of(
        rt,
        system,
        name,
        entered_by(how.walk),
        how.options,
        first_numbers(2),
    ) {
        Ok(report) => report,
        Err(fault) => return Err(cause_in(rt.alloc(), name, fault)),
    };
    if has_path(&[], &report.faults) {
        let why = system.why_unlisted(rt.alloc(), name)?;
        return Err(unread_cause(rt.alloc(), name, why));
    }
    let report = with_languages(rt.alloc(), report, how.attributes)?;
    Ok(report)
}

/// Reads a side that is one or more reports in a file or in the input, and adds the reports up.
fn read_side<Y: System, S: Source>(
    alloc: Global,
    system: &Y,
    name: &str,
    how: SideOptions<'_>,
    input: &mut S,
) -> Result<Report, Cause>
    ensures reads { ReadsSide (may_of Y.Tree.Tree Y.System system.now)
        S.may_give how.entry.attributes.now how.entry.needs name.now input.old result input.new }
    ensures files { IfOk result (λ report. how.entry.needs.files ≡ true → report.lists.files ≡ true) }
{
    let parts = read_one(alloc, system, how.attributes, name, input)?;
    match summed(alloc, parts, how.needs) {
        Ok(sum) => Ok(sum),
        Err(fault) => Err(cause_of_sum(alloc, fault)),
    }
}

/// Counts a side that is a directory, and reads any other side as reports.
fn report_of<R: Threads + Wait + Sync + AllocGlobal, Y: System, S: Source>(
    rt: &R,
    system: &Y,
    side: Side,
    name: &str,
    how: SideOptions<'_>,
    input: &mut S,
) -> Result<Report, Cause>
    requires limits { AreWithinLimits how.options.now }
    requires lists { how.options.now.lists.files ≡ how.needs.files }
    ensures gives { GivesSide (may_of Y.Tree.Tree Y.System system.now)
        S.may_give how.entry.walk.now how.entry.options.now how.entry.attributes.now
        how.entry.needs side name.now input.old result input.new }
    ensures files { IfOk result (λ report. how.entry.needs.files ≡ true → report.lists.files ≡ true) }
{
    match side {
        Side::Directory => counted_side(rt, system, name, how),
        Side::Report | Side::Missing => read_side(rt.alloc(), system, name, how, input),
    }
}

/// Counts or reads both sides of a comparison, the old side first.
pub(crate) fn both_sides<R: Threads + Wait + Sync + AllocGlobal, Y: System, S: Source>(
    rt: &R,
    system: &Y,
    sides: (Side, Side),
    names: (&str, &str),
    how: SideOptions<'_>,
    input: &mut S,
) -> Result<(Report, Report), Cause>
    requires limits { AreWithinLimits how.options.now }
    requires lists { how.options.now.lists.files ≡ how.needs.files }
    ensures gives { GivesSides (may_of Y.Tree.Tree Y.System system.now)
        S.may_give how.entry.walk.now how.entry.options.now how.entry.attributes.now
        how.entry.needs sides names.entry.0.now names.entry.1.now input.old result input.new }
    ensures files { IfOk result (λ both. how.entry.needs.files ≡ true → (both.0.lists.files ≡ true) × (both.1.lists.files ≡ true)) }
{
    let old = report_of(rt, system, sides.0, names.0, how, input)?;
    let new = report_of(rt, system, sides.1, names.1, how, input)?;
    Ok((old, new))
}
