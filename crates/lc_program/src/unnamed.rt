//! The lines on standard error about attributes that no attribute file names, and about a list without paths.

ghost use Rattle.std.specs.Prelude.{◌≡◌, ◌++◌, string_bytes, IfOk, OnOk};
ghost use Rattle.lc_level.specs.NamedAttributes.{noted};
ghost use Rattle.lc_program.specs.Unnamed.{AreRemarks, AreUnnamedLines, names_in, unnamed_line, unnamed_lines_of};

use lc_level::NamedAttributes;
use lc_text::push_visible;
use std::alloc::{AllocError, Global};

fn push_unnamed(text: &mut String, attribute: &[u8]) -> Result<(), AllocError>
    ensures { OnOk result (string_bytes text.new ≡ string_bytes text.old ++ unnamed_line attribute.now) }
{
    text.push_str("lc: no attribute file names ")?;
    push_visible(text, attribute)?;
    text.push_str("\n")?;
    Ok(())
}

fn lines_of(alloc: Global, attributes: &[Vec<u8>]) -> Result<String, AllocError>
    ensures { IfOk result (λ text. string_bytes text ≡ unnamed_lines_of attributes.now) }
{
    let mut text = String::new(alloc);
    for attribute in attributes {
        push_unnamed(&mut text, attribute)?;
    }
    Ok(text)
}

/// Makes a line for each attribute of the command line that no attribute file names.
fn unnamed_lines(alloc: Global, named: &NamedAttributes) -> Result<String, AllocError>
    ensures { IfOk result (λ text. AreUnnamedLines (noted named.now) (string_bytes text)) }
{
    let attributes = named.unnamed(alloc)?;
    let text = lines_of(alloc, &attributes)?;
    Ok(text)
}

/// The remarks about the options of a walk.
#[derive(Clone, Copy)]
pub(crate) struct WalkRemarks<'r> {
    /// The line that says that the file of `--only-from` has no path, if nothing is counted for this reason. Otherwise the text is empty.
    pub(crate) emptied: &'r str,
    /// The attributes of the command line, and which of them an attribute file names. `None` if no directory was walked.
    pub(crate) named: Option<&'r NamedAttributes>,
}

impl<'r> WalkRemarks<'r> {
    /// Makes the lines: that of a list without paths, and one for each attribute of the command line that no attribute file names.
    pub(crate) fn lines(self, alloc: Global) -> Result<String, AllocError>
        ensures { IfOk result (λ text. AreRemarks self.entry.emptied.now (names_in self.entry.named) (string_bytes text)) }
    {
        let unnamed = match self.named {
            Some(named) => unnamed_lines(alloc, named)?,
            None => String::new(alloc),
        };
        let text = [self.emptied, unnamed.as_str()].concat(alloc)?;
        Ok(text)
    }
}
