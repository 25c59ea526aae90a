//! Refuses comparisons by what their sides are: if neither exists, and if neither is a directory, but the command line has an option that
//! chooses files of a directory, such as `--exclude`.

ghost use Rattle.std.specs.Prelude.{◌≡◌, ◌++◌, option_map, string_bytes, IfOk, OnOk};
ghost use Rattle.lc_program.specs.Choices.{AcceptsSides, AnswersRefusal, are_reports, choice_line, first_choice, missing_lines, refusal_of};

use crate::cause::Cause;
use crate::report_lines::{cause_with, origin_of};
use crate::sides::Side;
use crate::system::System;
use crate::unlisted::unexplained_line;
use crate::unread_reason::UnreadReason;
use lc_arguments::{DiffRequest, WalkRequest};
use lc_text::push_visible;
use std::alloc::{AllocError, Global};

/// Returns an option of the command line that chooses files of a directory, if there is one.
fn first_choice(walk: &WalkRequest<'_>) -> Option<&'static str>
    ensures { option_map (λ option. option.now) result ≡ first_choice walk.now }
{
    let filters = &walk.filters;
    if filters.exclude_from.is_some() {
        Some("--exclude-from")
    } else if filters.attributes_from.is_some() {
        Some("--attributes-from")
    } else if !filters.exclude.is_empty() {
        Some("--exclude")
    } else if !filters.include.is_empty() {
        Some("--include")
    } else if filters.no_ignore {
        Some("--no-ignore")
    } else if filters.archive {
        Some("--archive")
    } else if !filters.without.is_empty() {
        Some("--without")
    } else if !walk.only.is_empty() {
        Some("--only")
    } else if walk.only_from.is_some() {
        Some("--only-from")
    } else if walk.one_file_system {
        Some("--one-file-system")
    } else {
        None
    }
}

/// Appends the words that say that both sides are reports.
fn push_reports(line: &mut String, old: &str, new: &str) -> Result<(), AllocError>
    ensures { OnOk result (string_bytes line.new ≡ string_bytes line.old ++ are_reports old.now new.now) }
{
    push_visible(line, origin_of(old).as_bytes())?;
    line.push_str(" and ")?;
    push_visible(line, origin_of(new).as_bytes())?;
    line.push_str(" are reports\n")
}

/// Makes the line that says that an option chooses files of a directory, but both sides are reports.
fn choice_line(alloc: Global, option: &str, old: &str, new: &str) -> Result<String, AllocError>
    ensures { IfOk result (λ line. string_bytes line ≡ choice_line option.now old.now new.now) }
{
    let mut line = String::from_str(alloc, "lc: ")?;
    line.push_str(option)?;
    line.push_str(" chooses files of a directory, and ")?;
    push_reports(&mut line, old, new)?;
    Ok(line)
}

/// Makes the lines that say that a side is missing, and how commits are compared.
fn missing_lines(alloc: Global, old: &str) -> Result<String, AllocError>
    ensures { IfOk result (λ lines. string_bytes lines ≡ missing_lines old.now) }
{
    let mut lines = unexplained_line(alloc, old, Some(UnreadReason::Missing))?;
    lines.push_str(
        "lc: to compare a commit: git worktree add --detach ../old COMMIT && lc diff ../old .\n",
    )?;
    Ok(lines)
}

/// Returns an error if a comparison of what these sides are is refused: neither exists, and their names may be those of commits; or an
/// option chooses files of a directory, and neither is one.
fn refuse_sides(alloc: Global, asked: &DiffRequest<'_>, sides: (Side, Side)) -> Result<(), Cause>
    ensures { AnswersRefusal (refusal_of asked.now.walk asked.now.old.now asked.now.new.now sides) result }
{
    match sides {
        (Side::Missing, Side::Missing) => Err(cause_with(missing_lines(alloc, asked.old))),
        (Side::Directory, _) | (_, Side::Directory) => Ok(()),
        _ => match first_choice(&asked.walk) {
            None => Ok(()),
            Some(option) => Err(cause_with(choice_line(alloc, option, asked.old, asked.new))),
        },
    }
}

/// Queries the system, and returns what the sides of a comparison are, unless the comparison is refused.
pub(crate) fn accepted_sides<Y: System>(
    alloc: Global,
    system: &Y,
    asked: &DiffRequest<'_>,
) -> Result<(Side, Side), Cause>
    ensures { AcceptsSides (Y.unlists system.now) asked.now result }
{
    let old = Side::of(alloc, system, asked.old)?;
    let new = Side::of(alloc, system, asked.new)?;
    refuse_sides(alloc, asked, (old, new))?;
    Ok((old, new))
}
