//! The lines on standard error about paths that could not be read on either side of a comparison.

ghost use Rattle.std.specs.Prelude.{◌≡◌, ◌++◌, string_bytes, IfOk, OnOk};
ghost use Rattle.lc_program.specs.SideFaults.{fault_line, lines_of, side_lines};

use crate::faults::or_here;
use crate::report_lines::origin_of;
use lc_text::push_visible;
use lc_walk::FaultLine;
use std::alloc::{AllocError, Global};

/// The name of a side of a comparison, and its errors.
#[derive(Clone, Copy)]
pub(crate) struct SideFaults<'f> {
    /// The name of the side on the command line.
    pub(crate) name: &'f str,
    /// The errors of the side: the paths that could not be read.
    pub(crate) faults: &'f [FaultLine],
}

fn push_fault(text: &mut String, name: &str, fault: &FaultLine) -> Result<(), AllocError>
    ensures { OnOk result (string_bytes text.new ≡ string_bytes text.old ++ fault_line name.now fault.now) }
{
    text.push_str("lc: ")?;
    push_visible(text, name.as_bytes())?;
    text.push_str(": cannot read ")?;
    push_visible(text, or_here(&fault.path))?;
    text.push_str("\n")?;
    Ok(())
}

/// Makes a line for each path of a side that could not be read.
fn side_lines(alloc: Global, name: &str, faults: &[FaultLine]) -> Result<String, AllocError>
    ensures { IfOk result (λ text. string_bytes text ≡ side_lines name.now faults.now) }
{
    let mut text = String::new(alloc);
    for fault in faults {
        push_fault(&mut text, name, fault)?;
    }
    Ok(text)
}

/// Makes a line for each path of a comparison's sides that could not be read, first the paths of the old side, and then those of the new
/// side. No format of the output lists them.
pub(crate) fn lines_of(
    alloc: Global,
    old: SideFaults<'_>,
    new: SideFaults<'_>,
) -> Result<String, AllocError>
    ensures { IfOk result (λ text. string_bytes text
        ≡ lines_of old.entry.name.now old.entry.faults.now new.entry.name.now new.entry.faults.now) }
{
    let mut text = side_lines(alloc, origin_of(old.name), old.faults)?;
    let more = side_lines(alloc, origin_of(new.name), new.faults)?;
    text.push_str(&more)?;
    Ok(text)
}
