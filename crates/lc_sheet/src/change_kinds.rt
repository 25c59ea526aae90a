//! What became of files from an old report to a new one.

ghost use Rattle.std.specs.Prelude.{◌≡◌};
ghost use Rattle.lc_sheet.specs.ChangeKinds.{are_all_changes};

/// What became of files from an old report to a new one, as `--where change=added,changed` names it. Files of the other kinds are dropped
/// from both reports.
#[derive(Debug, Clone, Copy, PartialEq, Eq)]
pub struct ChangeKinds {
    /// Whether files that only the new report has are kept.
    pub added: bool,
    /// Whether files that differ between the reports are kept.
    pub changed: bool,
    /// Whether files that only the old report has are kept.
    pub removed: bool,
    /// Whether files that do not differ between the reports are kept.
    pub same: bool,
}

impl ChangeKinds {
    /// All kinds, so that no file is dropped.
    pub const ALL: ChangeKinds = ChangeKinds {
        added: true,
        changed: true,
        removed: true,
        same: true,
    };

    /// Returns whether files of all kinds are kept.
    pub fn are_all(self) -> bool
        ensures { result ≡ are_all_changes self }
    {
        self.added && self.changed && self.removed && self.same
    }
}
