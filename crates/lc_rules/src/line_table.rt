//! The lines of an attribute file that have a pattern.

ghost use Rattle.std.specs.Prelude.{◌≡◌, ◌<◌, ◌∷◌, [], ◌++◌, true, false, ℕ, List, length, map, IfOk, OnOk};
ghost use Rattle.lc_rules.specs.Models.{macro_model, pattern_line_model, seen_halves};
ghost use Rattle.lc_rules.specs.KnownMacros.{known_macros, macros_for, some_matters};
ghost use Rattle.lc_rules.specs.LineNames.{assigns_name, lines_name, has_name, NameNone};
ghost use Rattle.lc_rules.specs.WrittenLines.{LineTableModel, assigned, halves, line_at, line_from, patterns_in, with_line};
ghost use Rattle.lc_rules.specs.WrittenLines.{without_lines, written_line};

use crate::attr_line::{PatternLine, split_line};
use crate::attr_words::split_assignment;
use crate::known_macros::{KnownMacros, macros_in};
use crate::macro_table::Macro;
use crate::resolver::Query;
use lc_glob::{Pattern, PatternSet, cut_at_first};
use std::alloc::{AllocError, Global};
use std::collections::BTreeSet;
use std::marker::Model;

/// The lines of an attribute file that have a pattern, in order, and the names that they assign. A file whose names can't decide an
/// attribute is skipped whole.
///
/// A line is stored as its pattern and the index in the text at which the line begins, so a short line takes few bytes of memory. Its
/// assignments are read from the text when they are needed.
#[derive(Drop)]
pub(crate) struct LineTable {
    text: Vec<u8>,
    /// The index in `text` at which each line begins.
    starts: Vec<u32>,
    patterns: PatternSet,
    names: BTreeSet<Vec<u8>>,
}

impl Model for LineTable {
    ghost use Rattle.std.specs.Prelude.{◌≡◌};
    ghost use Rattle.lc_rules.specs.LineNames.{HasNames};
    ghost use Rattle.lc_rules.specs.WrittenLines.{LineTableModel, lines_in, patterns_in};

    ghost Value = { LineTableModel };

    ghost view = { λ t. record { text = t.text.items; lines = lines_in t.text.items t.starts.items } };

    ghost invariant = { λ t. HasNames (lines_in t.text.items t.starts.items) t.names
        × (t.patterns ≡ patterns_in (lines_in t.text.items t.starts.items)) };
}

impl LineTable {
    /// Makes a table for the text of an attribute file. The table has no lines yet.
    pub(crate) fn new(alloc: Global, text: &[u8]) -> Result<LineTable, AllocError>
        ensures { IfOk result (λ table. table ≡ without_lines text.now) }
    {
        Ok(LineTable {
            text: text.to_vec(alloc)?,
            starts: Vec::new(alloc),
            patterns: PatternSet::new(alloc),
            names: BTreeSet::new(alloc),
        })
    }

    /// Adds a line to the table. `start` is the index in the text at which the line begins.
    pub(crate) fn push(
        &mut self,
        alloc: Global,
        line: &PatternLine,
        start: u32,
    ) -> Result<(), AllocError>
        requires { pattern_line_model line.now ≡ written_line self.old.text start }
        ensures { OnOk result (self.new ≡ with_line self.old (pattern_line_model line.now)) }
    {
        add_names(alloc, &mut self.names, line.assignments)?;
        let pattern = Pattern::read(alloc, line.pattern.as_slice())?;
        self.starts.reserve(1)?;
        self.patterns.push(&pattern)?;
        self.starts.push_reserved(start);
        Ok(())
    }

    /// Frees the memory that was reserved for more lines.
    pub(crate) fn shrink_to_fit(&mut self)
        ensures { self.new ≡ self.old }
    {
        self.starts.shrink_to_fit();
        self.patterns.shrink_to_fit();
    }

    /// Returns the patterns of the lines, in the same order.
    pub(crate) fn patterns(&self) -> &PatternSet
        ensures { result.now ≡ patterns_in self.now.lines }
    {
        &self.patterns
    }

    /// Returns the bytes that hold the assignments of the line at an index of the table. Skipping the line's pattern allocates memory if
    /// the pattern is quoted.
    pub(crate) fn assignments_at<'a>(
        &'a self,
        alloc: Global,
        index: usize,
    ) -> Result<&'a [u8], AllocError>
        requires { index < length self.now.lines }
        ensures { IfOk result (λ words. assigned words.now ≡ (line_at self.now.lines index).assigns) }
    {
        match self.line_from(alloc, self.starts[index])? {
            Some(line) => Ok(line.assignments),
            None => Ok(&[]),
        }
    }

    /// Splits the line that begins at index `start` of the text into its pattern and the bytes that hold its assignments.
    fn line_from<'a>(
        &'a self,
        alloc: Global,
        start: u32,
    ) -> Result<Option<PatternLine<'a>>, AllocError>
        ensures { IfOk result (λ r. seen_halves r ≡ halves (line_from self.now.text start)) }
    {
        let text = self.text.as_slice();
        let start = (start as usize).min(text.len());
        let (line, _) = cut_at_first(b'\n', &text[start..]);
        split_line(alloc, line)
    }

    /// Returns whether some line may decide the attribute of a query, by the attribute's name or by a macro.
    pub(crate) fn can_decide(&self, query: Query) -> bool
        ensures { result ≡ false → some_matters (macros_for query.entry) query.entry.name.now self.now.lines ≡ false }
    {
        self.may_name(query.name) || self.may_name_some(query.macros)
    }

    fn may_name(&self, name: &[u8]) -> bool
        ensures { result ≡ false → lines_name self.now.lines name.now ≡ false }
    {
        self.names.contains(name)
    }

    /// Returns whether some line may assign one of these macros, or the built-in macro `binary`.
    fn may_name_some(&self, macros: KnownMacros) -> bool
        ensures { result ≡ false → NameNone self.now.lines (known_macros macros.entry) }
    {
        if self.may_name(b"binary") {
            return true;
        }
        if self.may_name_some_in(macros_in(macros.lowest)) {
            return true;
        }
        if self.may_name_some_in(macros_in(macros.top)) {
            return true;
        }
        self.may_name_some_in(macros_in(macros.info))
    }

    /// Returns whether some line may assign one of these macros. If the macros outnumber the table's names, returns true without a search.
    fn may_name_some_in(&self, defined: &[Macro]) -> bool
        ensures { result ≡ false → NameNone self.now.lines (map macro_model defined.now) }
    {
        if defined.len() > self.names.len() {
            return true;
        }
        for found in defined {
            if self.may_name(found.name.as_slice()) {
                return true;
            }
        }
        false
    }
}

/// Reads the assignments in these bytes, and adds their names to a set.
fn add_names(alloc: Global, names: &mut BTreeSet<Vec<u8>>, words: &[u8]) -> Result<(), AllocError>
    ensures keeps { (name : List ℕ) → has_name names.old name ≡ true → has_name names.new name ≡ true }
    ensures adds { OnOk result
        ((name : List ℕ) → assigns_name (assigned words.now) name ≡ true → has_name names.new name ≡ true) }
{
    let mut rest = words;
    'words: while let Some((assignment, others)) = split_assignment(rest) {
        add_name(alloc, names, assignment.name)?;
        rest = others;
    }
    Ok(())
}

/// Adds a name to a set, unless the set already has the name.
fn add_name(alloc: Global, names: &mut BTreeSet<Vec<u8>>, name: &[u8]) -> Result<(), AllocError>
    ensures keeps { (other : List ℕ) → has_name names.old other ≡ true → has_name names.new other ≡ true }
    ensures adds { OnOk result (has_name names.new name.now ≡ true) }
{
    if names.contains(name) {
        return Ok(());
    }
    let added = name.to_vec(alloc)?;
    names.insert(added)?;
    Ok(())
}
