//! A line about a file in a comparison: what the old and the new report have at one path.

ghost use Rattle.std.specs.{Prelude.{◌≡◌, option_map}};
ghost use Rattle.lc_changes.specs.{FileChanges.{are_same_counts, changed_path, compared_key, either_file, file_change, is_changed}};
ghost use Rattle.lc_changes.specs.{FileChanges.side_number, ChangeValues.change_word, KeptChanges.keeps_change};

use lc_rows::{RowKeyRef, number_of, split_at_top};
use lc_sheet::{ChangeKinds, Number};
use lc_walk::FileLine;
use std::marker::Model;

/// A line about a file in a comparison: what the old and the new report have at one path.
#[derive(Drop)]
pub struct FileChange<'a> {
    /// The old report's file at the path, or `None` if the report has no file there.
    pub old_file: Option<&'a FileLine>,
    /// The new report's file at the path, or `None` if the report has no file there.
    pub new_file: Option<&'a FileLine>,
}

impl<'a> Model for FileChange<'a> {
    ghost use Rattle.std.specs.Prelude.{option_map};
    ghost use Rattle.lc_changes.specs.FileChanges.{FileChangeModel};

    ghost Value = { FileChangeModel };

    ghost view = { λ c. record { old_file = option_map (λ f. f.now) c.old_file; new_file = option_map (λ f. f.now) c.new_file } };
}

/// Returns what is compared of a file beside its numbers. Of the states of attributes, only the first ones are.
fn compared_key(attributes: u8, file: &FileLine) -> RowKeyRef<'_>
    ensures { result ≡ compared_key attributes file.entry.now }
{
    let (states, _) = split_at_top(Some(u32::from(attributes)), &file.attributes.asked);
    RowKeyRef {
        directory: None,
        attributes: states,
        extension: None,
        text: file.text(),
        eol: file.count.eol,
    }
}

/// Returns whether two files are alike in all but their paths and the states of attributes after the first ones.
fn are_same_counts(attributes: u8, a: &FileLine, b: &FileLine) -> bool
    ensures { result ≡ are_same_counts attributes a.now b.now }
{
    let key = compared_key(attributes, a);
    key.compare(&compared_key(attributes, b)).is_eq()
        && a.count.lines == b.count.lines
        && a.count.blank == b.count.blank
        && a.count.bytes == b.count.bytes
}

/// Returns a number of a file in one report, or 0 if the report lacks the file.
pub(crate) fn side_number(number: Number, file: Option<&FileLine>) -> u128
    ensures { result ≡ side_number number (option_map (λ f. f.now) file.entry) }
{
    match file {
        None => 0,
        Some(file) => u128::from(number_of(number, file)),
    }
}

impl<'a> FileChange<'a> {
    /// Returns the file of the new report, or the file of the old report if the new report lacks the file.
    pub(crate) fn either(&self) -> Option<&'a FileLine>
        ensures { option_map (λ f. f.now) result ≡ either_file self.now }
    {
        match self.new_file {
            None => self.old_file,
            Some(file) => Some(file),
        }
    }

    /// Returns the path of the file.
    pub(crate) fn path(&self) -> &'a [u8]
        ensures { result.now ≡ changed_path self.now }
    {
        match self.either() {
            None => &[],
            Some(file) => &file.path,
        }
    }

    /// Returns whether the file is in one report alone, or differs between the reports, also in one of its first `attributes` attributes.
    pub(crate) fn is_changed(&self, attributes: u8) -> bool
        ensures { result ≡ is_changed attributes self.now }
    {
        match (self.old_file, self.new_file) {
            (Some(old), Some(new)) => !are_same_counts(attributes, old, new),
            (None, None) => false,
            _ => true,
        }
    }

    /// Returns whether what became of the file from the old report to the new one is among these kinds. The first `attributes` attributes
    /// are compared.
    pub(crate) fn is_among(&self, kinds: ChangeKinds, attributes: u8) -> bool
        ensures { result ≡ keeps_change kinds attributes self.now }
    {
        match (self.old_file, self.new_file) {
            (None, _) => kinds.added,
            (Some(_), None) => kinds.removed,
            (Some(old), Some(new)) => {
                if are_same_counts(attributes, old, new) {
                    kinds.same
                } else {
                    kinds.changed
                }
            }
        }
    }

    /// Returns the word for what became of the file from the old report to the new one: `added`, `removed` or `changed`.
    pub(crate) fn word(&self) -> &'static str
        ensures { result.now ≡ change_word self.now.old_file self.now.new_file }
    {
        match (self.old_file, self.new_file) {
            (None, _) => "added",
            (Some(_), None) => "removed",
            (Some(_), Some(_)) => "changed",
        }
    }

    /// Returns by how much a number of the file changed, up or down. A report without the file counts 0.
    pub(crate) fn change(&self, number: Number) -> u128
        ensures { result ≡ file_change number self.now }
    {
        let old = side_number(number, self.old_file);
        old.abs_diff(side_number(number, self.new_file))
    }
}
