//! Attribute files.

ghost use Rattle.std.specs.Prelude.{◌≡◌, ◌↔◌, ◌<◌, ◌≤◌, length, IfOk};
ghost use Rattle.lc_rules.specs.AttrLines.{attribute_file_of};
ghost use Rattle.lc_rules.specs.Limits.{max_rule_bytes};

use crate::attr_line::{AttrLine, read_line};
use crate::attr_words::trimmed;
use crate::faults::{RuleFault, is_too_long};
use crate::line_table::LineTable;
use crate::lines::without_mark;
use crate::macro_table::MacroTable;
use lc_glob::cut_at_first;
use std::alloc::{AllocError, Global};
use std::marker::Model;

/// An attribute file, such as a `.gitattributes`: its macros and its lines with a pattern, each in the order of the file.
#[derive(Drop)]
pub struct AttrFile {
    is_top: bool,
    macros: MacroTable,
    lines: LineTable,
}

impl Model for AttrFile {
    ghost use Rattle.lc_rules.specs.AttrLines.{AttrFileModel};

    ghost Value = { AttrFileModel };

    ghost view = { λ f. record { is_top = f.is_top; macros = f.macros; lines = f.lines.lines } };
}

impl AttrFile {
    /// Reads the bytes of an attribute file. Any bytes are an attribute file, if there are at most `MAX_RULE_BYTES` of them. If `top` is
    /// true, the file may define macros. `top` is true for the files of a tree's top directory and of `.git/info`.
    pub fn read(alloc: Global, bytes: &[u8], top: bool) -> Result<AttrFile, RuleFault>
        ensures ok { IfOk result (λ file. file ≡ attribute_file_of top bytes.now) }
        ensures too_long { (result ≡ Err RuleFault.TooLong) ↔ (max_rule_bytes < length bytes.now) }
    {
        if is_too_long(bytes) {
            return Err(RuleFault::TooLong);
        }
        let file = read_file(alloc, bytes, top)?;
        Ok(file)
    }

    /// Returns whether the file may define macros: `top` was true when the file was read.
    pub fn is_top(&self) -> bool
        ensures { result ≡ self.now.is_top }
    {
        self.is_top
    }

    pub(crate) fn macros(&self) -> &MacroTable
        ensures { result.now ≡ self.now.macros }
    {
        &self.macros
    }

    pub(crate) fn lines(&self) -> &LineTable
        ensures { result.now.lines ≡ self.now.lines }
    {
        &self.lines
    }
}

fn read_file(alloc: Global, bytes: &[u8], top: bool) -> Result<AttrFile, AllocError>
    requires { length bytes.now ≤ max_rule_bytes }
    ensures { IfOk result (λ file. file ≡ attribute_file_of top bytes.now) }
{
    let text = without_mark(bytes);
    let mut macros = MacroTable::new(alloc);
    let mut lines = LineTable::new(alloc, text)?;
    let mut left = Some(text);
    'lines: while let Some(rest) = left {
        let (whole, others) = cut_at_first(b'\n', rest);
        let line = trimmed(whole);
        let start = text.len() - rest.len() + (whole.len() - line.len());
        match read_line(alloc, top, line)? {
            None => {}
            Some(AttrLine::Macro(found)) => macros.push(alloc, found)?,
            Some(AttrLine::Pattern(found)) => lines.push(alloc, &found, start as u32)?,
        }
        left = others;
    }
    lines.shrink_to_fit();
    Ok(AttrFile {
        is_top: top,
        macros,
        lines,
    })
}
