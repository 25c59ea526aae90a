//! The lines on standard error about what a count or a sum could not read.

ghost use Rattle.std.specs.Prelude.{◌≡◌, ◌++◌, map, string_bytes, IfOk, OnOk};
ghost use Rattle.lc_level.specs.FaultLines.{FaultLineModel};
ghost use Rattle.lc_program.specs.Commands.{or_here};
ghost use Rattle.lc_program.specs.Faults.{AreFaultLines, AreTopLines, IsTopLine, each_line, fault_rows, has_path};
ghost use Rattle.lc_program.specs.Faults.{inside, is_inside};
ghost use Rattle.lc_program.specs.Faults.{lines_by, lines_if, number_line, number_text, top_path, unread_line};

use crate::system::System;
use crate::unlisted::uncounted_line;
use lc_arguments::unslashed;
use lc_sheet::{Format, Output};
use lc_text::push_visible;
use lc_walk::FaultLine;
use std::alloc::{AllocError, Global};

fn push_unread(text: &mut String, path: &[u8]) -> Result<(), AllocError>
    ensures { OnOk result (string_bytes text.new ≡ string_bytes text.old ++ unread_line path.now) }
{
    text.push_str("lc: cannot read ")?;
    push_visible(text, path)?;
    text.push_str("\n")
}

/// Returns a path, or a dot if the path is empty, which is the path of the counted directory itself.
pub(crate) fn or_here(path: &[u8]) -> &[u8]
    ensures { result.now ≡ or_here path.now }
{
    if path.is_empty() { b"." } else { path }
}

/// Makes a line for each path that could not be read.
fn each_line(alloc: Global, faults: &[&FaultLine]) -> Result<String, AllocError>
    ensures { IfOk result (λ text. string_bytes text ≡ each_line (map (λ f. f.now) faults.now)) }
{
    let mut text = String::new(alloc);
    for fault in faults {
        push_unread(&mut text, or_here(&fault.path))?;
    }
    Ok(text)
}

/// Makes the beginning of the line with the number of paths that could not be read.
fn number_text(alloc: Global, count: usize) -> Result<String, AllocError>
    ensures { IfOk result (λ text. string_bytes text ≡ number_text count) }
{
    if count == 1 {
        return String::from_str(alloc, "lc: 1 path could not be read: see ");
    }
    format!(in alloc; "lc: {count} paths could not be read: see ")
}

/// Makes the line with the number of paths that could not be read, and with the place where the answer lists them.
fn number_line(alloc: Global, place: &str, count: usize) -> Result<String, AllocError>
    ensures { IfOk result (λ text. string_bytes text ≡ number_line place.now count) }
{
    let mut text = number_text(alloc, count)?;
    text.push_str(place)?;
    text.push_str("\n")?;
    Ok(text)
}

/// Returns the words that name the lines in which a table lists this many paths that could not be read.
fn fault_rows(count: usize) -> &'static str
    ensures { result.now ≡ fault_rows count }
{
    if count == 1 {
        "the line that begins with fault"
    } else {
        "the lines that begin with fault"
    }
}

/// Makes the lines about the paths in the counted directories that could not be read.
fn lines_by(alloc: Global, output: Output, faults: &[&FaultLine]) -> Result<String, AllocError>
    ensures { IfOk result (λ text. string_bytes text ≡ lines_by output (map (λ f. f.now) faults.now)) }
{
    match output {
        Output::Picture | Output::Tree | Output::Paths | Output::Text(Format::Csv) => {
            each_line(alloc, faults)
        }
        Output::Text(Format::Tsv) => number_line(alloc, fault_rows(faults.len()), faults.len()),
        Output::Text(Format::Table | Format::Markdown) => {
            number_line(alloc, "the list of faults", faults.len())
        }
        Output::Text(Format::Json) => number_line(alloc, "faults", faults.len()),
    }
}

/// Makes the lines about the paths in the counted directories that could not be read, or none if all were read.
pub(crate) fn lines_if(
    alloc: Global,
    output: Output,
    faults: &[&FaultLine],
) -> Result<String, AllocError>
    ensures { IfOk result (λ text. string_bytes text ≡ lines_if output (map (λ f. f.now) faults.now)) }
{
    if faults.is_empty() {
        Ok(String::new(alloc))
    } else {
        lines_by(alloc, output, faults)
    }
}

/// Returns the path that a report has for an error of a counted directory itself: an empty path if it is the only directory, and otherwise
/// its name.
fn top_path<'w>(directories: &[&str], directory: &'w str) -> &'w [u8]
    ensures { result.now ≡ top_path (map (λ d. d.now) directories.now) directory.now }
{
    if directories.len() == 1 {
        return &[];
    }
    let name = unslashed(directory);
    if name.is_empty() { b"/" } else { name }
}

pub(crate) fn has_path(path: &[u8], faults: &[FaultLine]) -> bool
    ensures { result ≡ has_path path.now faults.now }
{
    faults.iter().any(|fault| fault.path.as_slice() == path)
}

/// Returns whether an error is about a path inside the counted directories, and not about one of these directories itself.
fn is_inside(directories: &[&str], fault: &FaultLine) -> bool
    ensures { result ≡ is_inside (map (λ d. d.now) directories.now) fault.now }
{
    for directory in directories {
        if fault.path.as_slice() == top_path(directories, directory) {
            return false;
        }
    }
    true
}

/// Collects the errors about paths inside the counted directories, without errors about these directories themselves.
pub(crate) fn inside<'f>(
    alloc: Global,
    directories: &[&str],
    faults: &'f [FaultLine],
) -> Result<Vec<&'f FaultLine>, AllocError>
    ensures { IfOk result (λ kept. map (λ f. f.now) kept.items ≡ inside (map (λ d. d.now) directories.now) faults.now) }
{
    let mut kept = Vec::new(alloc);
    for fault in faults {
        if is_inside(directories, fault) {
            kept.push(fault)?;
        }
    }
    Ok(kept)
}

/// Makes the line that says that a counted directory itself could not be listed, and why if the system gives a reason. The line is empty if
/// the directory was listed.
fn top_line<Y: System>(
    alloc: Global,
    system: &Y,
    directories: &[&str],
    directory: &str,
    faults: &[FaultLine],
) -> Result<String, AllocError>
    ensures { IfOk result (λ line. IsTopLine (Y.unlists system.now) (map (λ d. d.now) directories.now) faults.now
        (has_path (top_path (map (λ d. d.now) directories.now) directory.now) faults.now) directory.now (string_bytes line)) }
{
    if !has_path(top_path(directories, directory), faults) {
        return Ok(String::new(alloc));
    }
    let why = system.why_unlisted(alloc, directory)?;
    uncounted_line(alloc, directory, why)
}

/// Makes the lines about the counted directories that could not be listed.
fn top_lines<Y: System>(
    alloc: Global,
    system: &Y,
    directories: &[&str],
    faults: &[FaultLine],
) -> Result<String, AllocError>
    ensures { IfOk result (λ text. AreTopLines (Y.unlists system.now) (map (λ d. d.now) directories.now) faults.now
        (map (λ d. d.now) directories.now) (string_bytes text)) }
{
    let mut text = String::new(alloc);
    for directory in directories {
        let line = top_line(alloc, system, directories, directory, faults)?;
        text.push_str(&line)?;
    }
    Ok(text)
}

/// Makes the lines about what a count could not read. Each counted directory that could not be listed has a line. For CSV, HTML, trees and
/// paths, each unread path inside the directories has a line too. For any other format, one line says where the output lists these paths.
pub(crate) fn fault_lines<Y: System>(
    alloc: Global,
    system: &Y,
    directories: &[&str],
    output: Output,
    faults: &[FaultLine],
) -> Result<String, AllocError>
    ensures { IfOk result (λ text. AreFaultLines (Y.unlists system.now) (map (λ d. d.now) directories.now) output faults.now
        (string_bytes text)) }
{
    if faults.is_empty() {
        return Ok(String::new(alloc));
    }
    let mut text = top_lines(alloc, system, directories, faults)?;
    let inside = inside(alloc, directories, faults)?;
    let others = lines_if(alloc, output, &inside)?;
    text.push_str(&others)?;
    Ok(text)
}
