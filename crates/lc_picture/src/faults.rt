//! The errors at the top of a page.

ghost use Rattle.std.specs.Prelude.{◌≡◌, ◌++◌, OnOk, take};
ghost use Rattle.lc_picture.specs.Faults.{fault_line, fault_lines, faults_begin, faults_end, faults_listed, faults_part};
ghost use Rattle.lc_picture.specs.Faults.{more_faults, more_line};
ghost use Rattle.lc_picture.specs.Pieces.{text_of};

use crate::escaping::{push_html, push_path};
use crate::sums::push_count;
use lc_walk::FaultLine;
use std::alloc::AllocError;

/// The greatest number of errors that a page lists.
const FAULTS_LISTED: usize = 100;

fn push_fault(text: &mut Vec<u8>, fault: &FaultLine, made: &mut String) -> Result<(), AllocError>
    ensures { OnOk result (text.new.items ≡ text.old.items ++ text_of (fault_line fault.now)) }
{
    text.extend_from_slice(b"<li>")?;
    push_path(text, &fault.path, made)?;
    text.extend_from_slice(b": ")?;
    push_html(text, fault.word.as_str().as_bytes())?;
    text.extend_from_slice(b"</li>\n")?;
    Ok(())
}

fn push_fault_lines(
    text: &mut Vec<u8>,
    faults: &[FaultLine],
    made: &mut String,
) -> Result<(), AllocError>
    ensures { OnOk result (text.new.items ≡ text.old.items ++ text_of (fault_lines faults.now)) }
{
    for fault in faults {
        push_fault(text, fault, made)?;
    }
    Ok(())
}

fn push_more_line(text: &mut Vec<u8>, n: usize, made: &mut String) -> Result<(), AllocError>
    ensures { OnOk result (text.new.items ≡ text.old.items ++ text_of (more_line n)) }
{
    text.extend_from_slice(b"<li>and ")?;
    push_count(text, n as u128, made)?;
    text.extend_from_slice(b" more</li>\n")?;
    Ok(())
}

/// Appends how many errors the page does not list, if it does not list all of them.
fn push_more(
    text: &mut Vec<u8>,
    listed: usize,
    all: usize,
    made: &mut String,
) -> Result<(), AllocError>
    ensures { OnOk result (text.new.items ≡ text.old.items ++ text_of (more_faults listed all)) }
{
    if listed < all {
        push_more_line(text, all - listed, made)?;
    }
    Ok(())
}

/// Returns the errors that a page lists.
fn first_faults(faults: &[FaultLine]) -> &[FaultLine]
    ensures { result.now ≡ take faults_listed faults.now }
{
    &faults[..faults.len().min(FAULTS_LISTED)]
}

fn push_faults_begin(text: &mut Vec<u8>, all: usize, made: &mut String) -> Result<(), AllocError>
    ensures { OnOk result (text.new.items ≡ text.old.items ++ text_of (faults_begin all)) }
{
    text.extend_from_slice(b"<p>What could not be read is not in the picture. Errors: ")?;
    push_count(text, all as u128, made)?;
    text.extend_from_slice(b"</p>\n<ul>\n")?;
    Ok(())
}

fn push_faults_end(text: &mut Vec<u8>, all: usize, made: &mut String) -> Result<(), AllocError>
    ensures { OnOk result (text.new.items ≡ text.old.items ++ text_of (faults_end all)) }
{
    push_more(text, FAULTS_LISTED, all, made)?;
    text.extend_from_slice(b"</ul>\n")?;
    Ok(())
}

/// Appends how many errors a report has, and a list of the first of them. Appends nothing if there are no errors.
pub(crate) fn push_faults(
    text: &mut Vec<u8>,
    faults: &[FaultLine],
    made: &mut String,
) -> Result<(), AllocError>
    ensures { OnOk result (text.new.items ≡ text.old.items ++ text_of (faults_part faults.now)) }
{
    if faults.is_empty() {
        return Ok(());
    }
    push_faults_begin(text, faults.len(), made)?;
    push_fault_lines(text, first_faults(faults), made)?;
    push_faults_end(text, faults.len(), made)?;
    Ok(())
}
