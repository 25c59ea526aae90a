//! The heading of a picture or a tree: a title, and which files are shown.

ghost use Rattle.std.specs.Prelude.{◌≡◌, ◌++◌, [], IfOk, OnOk, decimal, map};
ghost use Rattle.lc_arguments.specs.Reports.{report_model};
ghost use Rattle.lc_program.specs.Headings.{HasTitle, IsCountTitle, IsDirectoryTitle, are_named, chosen_in, chosen_in_sum, names_in};
ghost use Rattle.lc_program.specs.Headings.{sum_title, title_of_sum};

use crate::chosen::{push_conditions, push_part, push_walk};
use crate::system::System;
use lc_arguments::{CountRequest, NamedReport, SumRequest};
use lc_rows::name_of;
use lc_sheet::AttributeColumn;
use std::alloc::{AllocError, Global};

/// The heading of a picture or a tree. Other outputs have none.
#[derive(Drop)]
pub(crate) struct Heading {
    /// What was counted or summed, in a few words.
    pub(crate) title: Vec<u8>,
    /// Which files are shown, such as `where ext=.c, without build/`, or nothing if no option chooses files.
    pub(crate) chosen: Vec<u8>,
}

impl Heading {
    fn none(alloc: Global) -> Heading
        ensures title { result.title.items ≡ [] }
        ensures chosen { result.chosen.items ≡ [] }
    {
        Heading {
            title: Vec::new(alloc),
            chosen: Vec::new(alloc),
        }
    }
}

/// Makes the title of one directory: the last name of its canonical path, or the directory as it was typed.
fn directory_title<Y: System>(
    alloc: Global,
    system: &Y,
    directory: &str,
) -> Result<Vec<u8>, AllocError>
    ensures { IfOk result (λ title. IsDirectoryTitle (Y.stands system.now) directory.now title.items) }
{
    let Some(path) = system.canonical(alloc, directory)? else {
        return directory.as_bytes().to_vec(alloc);
    };
    let name = name_of(path.as_bytes());
    if name.is_empty() {
        return directory.as_bytes().to_vec(alloc);
    }
    name.to_vec(alloc)
}

/// Makes the title of a count: that of its directory, or how many directories it counts.
fn count_title<Y: System>(
    alloc: Global,
    system: &Y,
    directories: &[&str],
) -> Result<Vec<u8>, AllocError>
    ensures { IfOk result (λ title. IsCountTitle (Y.stands system.now) directories.now title.items) }
{
    let count = directories.len();
    if count == 1 {
        return directory_title(alloc, system, directories[0]);
    }
    let text = format!(in alloc; "{count} directories")?;
    Ok(text.into_bytes())
}

/// Makes the heading of a count, if it draws boxes.
pub(crate) fn count_heading<Y: System>(
    alloc: Global,
    system: &Y,
    asked: &CountRequest<'_>,
    columns: &[AttributeColumn],
) -> Result<Heading, AllocError>
    ensures title { IfOk result (λ h. HasTitle (Y.stands system.now) asked.now h.title.items) }
    ensures chosen { IfOk result (λ h. h.chosen.items ≡ chosen_in columns.now asked.now) }
{
    if !asked.table.draws_boxes() {
        return Ok(Heading::none(alloc));
    }
    let title = count_title(alloc, system, &asked.directories)?;
    let mut chosen = Vec::new(alloc);
    push_conditions(alloc, &mut chosen, columns, &asked.conditions)?;
    push_walk(&mut chosen, &asked.walk)?;
    Ok(Heading { title, chosen })
}

fn are_named(reports: &[NamedReport<'_>]) -> bool
    ensures { result ≡ are_named (map report_model reports.now) }
{
    for typed in reports {
        if typed.name.is_none() {
            return false;
        }
    }
    true
}

/// Appends the names of reports, with commas between them.
fn push_names(text: &mut Vec<u8>, reports: &[NamedReport<'_>]) -> Result<(), AllocError>
    ensures { OnOk result (text.new.items ≡ names_in text.old.items (map report_model reports.now)) }
{
    for typed in reports {
        if let Some(name) = typed.name {
            push_part(text, b"", name.as_bytes())?;
        }
    }
    Ok(())
}

/// Makes the title of a sum: the names of its reports, or how many reports it adds up.
fn sum_title(alloc: Global, reports: &[NamedReport<'_>]) -> Result<Vec<u8>, AllocError>
    ensures { IfOk result (λ title. title.items ≡ sum_title (map report_model reports.now)) }
{
    if are_named(reports) {
        let mut text = Vec::new(alloc);
        push_names(&mut text, reports)?;
        return Ok(text);
    }
    let count = reports.len();
    let text = if count == 1 {
        String::from_str(alloc, "1 report")?
    } else {
        format!(in alloc; "{count} reports")?
    };
    Ok(text.into_bytes())
}

/// Makes the heading of a sum, if it draws boxes.
pub(crate) fn sum_heading(
    alloc: Global,
    asked: &SumRequest<'_>,
    columns: &[AttributeColumn],
) -> Result<Heading, AllocError>
    ensures title { IfOk result (λ h. h.title.items ≡ title_of_sum asked.now) }
    ensures chosen { IfOk result (λ h. h.chosen.items ≡ chosen_in_sum columns.now asked.now) }
{
    if !asked.table.draws_boxes() {
        return Ok(Heading::none(alloc));
    }
    let title = sum_title(alloc, &asked.reports)?;
    let mut chosen = Vec::new(alloc);
    push_conditions(alloc, &mut chosen, columns, &asked.conditions)?;
    Ok(Heading { title, chosen })
}
