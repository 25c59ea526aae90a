//! A row of the tally: the sums over the files of one key.
ghost use Rattle.std.specs.Prelude.{◌≡◌, IfOk, option_map};
ghost use Rattle.std.specs.Option.{option_cmp};
ghost use Rattle.std.specs.Ordering.{nat_cmp};
ghost use Rattle.std.specs.Cmp.Lexicographic.{slice_cmp};
ghost use Rattle.lc_walk.specs.Key.{key_cmp};
ghost use Rattle.lc_walk.specs.Sums.{plus, IsInRange};

use crate::tally::key::{KeyRef, eol_rank, text_rank};
use crate::tally::sums::Sums;
use lc_census::Eol;
use lc_rules::TextState;
use std::alloc::{AllocError, Global};
use std::cmp::Ordering;
use std::marker::Model;

/// The sums over the files that have one extension, one state of the attribute `text` and one class of line ends.
#[derive(Debug, Drop)]
pub struct TallyRow {
    /// The bytes after the last dot of the files' names, as `extension` returns them, or none.
    pub ext: Option<Vec<u8>>,
    /// The state of the attribute `text` of the files.
    pub text: TextState,
    /// How the files' lines end.
    pub eol: Eol,
    /// The number of files.
    pub files: u64,
    /// The sum of the files' lines.
    pub lines: u128,
    /// The sum of the files' blank lines.
    pub blank: u128,
    /// The sum of the files' bytes.
    pub bytes: u128,
}

impl Model for TallyRow {
    ghost use Rattle.std.specs.Prelude.{option_map};
    ghost use Rattle.lc_walk.specs.TallyRows.{TallyRowModel};

    ghost Value = { TallyRowModel };

    ghost view = { λ a. record {
      key = record { extension = option_map (λ v. v.items) a.ext; text = a.text; eol = a.eol };
      sums = record { files = a.files; lines = a.lines; blank = a.blank; bytes = a.bytes };
    } };
}

impl TallyRow {
    pub(crate) fn new(alloc: Global, key: &KeyRef<'_>, sums: Sums) -> Result<TallyRow, AllocError>
        ensures { IfOk result (λ r. r ≡ record { key = key.now; sums = sums }) }
    {
        Ok(TallyRow {
            ext: key.extension.map(|bytes| bytes.to_vec(alloc)).transpose()?,
            text: key.text,
            eol: key.eol,
            files: sums.files,
            lines: sums.lines,
            blank: sums.blank,
            bytes: sums.bytes,
        })
    }

    /// Returns the sums over the row's files.
    pub fn sums(&self) -> Sums
        ensures { result ≡ self.now.sums }
    {
        Sums {
            files: self.files,
            lines: self.lines,
            blank: self.blank,
            bytes: self.bytes,
        }
    }

    /// Returns the key of the row.
    pub fn key(&self) -> KeyRef<'_>
        ensures { result ≡ self.now.key }
    {
        KeyRef {
            extension: self.ext.as_deref(),
            text: self.text,
            eol: self.eol,
        }
    }

    /// Makes a copy of the row and its extension.
    pub fn copy(&self, alloc: Global) -> Result<TallyRow, AllocError>
        ensures { IfOk result (λ r. r ≡ self.now) }
    {
        TallyRow::new(alloc, &self.key(), self.sums())
    }

    /// Compares the row's key with another key, in the order of keys that `Tally` describes.
    #[tactic(auto, unfolding(crate::specs::Key::key_cmp))]
    pub fn compare(&self, key: &KeyRef<'_>) -> Ordering
        ensures { result ≡ key_cmp self.now.key key.now }
    {
        compare_extensions(&self.ext, key.extension)
            .then(text_rank(self.text).cmp(&text_rank(key.text)))
            .then(eol_rank(self.eol).cmp(&eol_rank(key.eol)))
    }

    /// Adds these sums to the row's sums. The sums of a tally are never too large to be added.
    pub(crate) fn absorb(&mut self, more: Sums)
        ensures key { self.new.key ≡ self.old.key }
        ensures sums { IsInRange (plus self.old.sums more) → self.new.sums ≡ plus self.old.sums more }
    {
        self.files = self.files.saturating_add(more.files);
        self.lines = self.lines.saturating_add(more.lines);
        self.blank = self.blank.saturating_add(more.blank);
        self.bytes = self.bytes.saturating_add(more.bytes);
    }
}

fn compare_extensions(own: &Option<Vec<u8>>, lent: Option<&[u8]>) -> Ordering
    ensures { result ≡ option_cmp (slice_cmp nat_cmp) (option_map (λ v. v.items) own.now) (option_map (λ s. s.now) lent.entry) }
{
    own.as_deref().cmp(&lent)
}
