//! The sums over some counted files.
ghost use Rattle.std.specs.Prelude.{◌≡◌, true, MatchOption};
ghost use Rattle.lc_walk.specs.Sums.{plus, one_file, no_files, IsInRange, IsModest};

use lc_census::Count;

/// The sums over some counted files. The sums over fewer than 2^63 files never overflow.
#[derive(Clone, Copy, Debug, Drop, PartialEq, Eq)]
pub struct Sums {
    /// The number of files.
    pub files: u64,
    /// The sum of the files' lines.
    pub lines: u128,
    /// The sum of the files' blank lines.
    pub blank: u128,
    /// The sum of the files' bytes.
    pub bytes: u128,
}

impl Sums {
    /// Returns the sums over no files.
    pub fn none() -> Sums
        ensures { result ≡ no_files }
    {
        Sums {
            files: 0,
            lines: 0,
            blank: 0,
            bytes: 0,
        }
    }

    /// Returns the sums over one file.
    pub(crate) fn one(count: Count) -> Sums
        ensures { result ≡ one_file count }
    {
        Sums {
            files: 1,
            lines: u128::from(count.lines),
            blank: u128::from(count.blank),
            bytes: u128::from(count.bytes),
        }
    }

    /// Returns whether there are at most 2^63 files, with at most 2^64 - 1 lines, blank lines and bytes for each file on average.
    pub(crate) fn is_modest(&self) -> bool
        ensures { result ≡ true → IsModest self.now }
    {
        let most = u128::from(self.files) * u128::from(u64::MAX);
        self.files <= 1 << 63 && self.lines <= most && self.blank <= most && self.bytes <= most
    }

    /// Returns these sums with `more` added, or `None` if a sum does not fit its type.
    ///
    /// ```
    /// let both = one.checked_add(other)?;
    /// ```
    pub fn checked_add(self, more: Sums) -> Option<Sums>
        ensures { MatchOption result (IsInRange (plus self more) → ⊥) (λ sums. sums ≡ plus self more) }
    {
        Some(Sums {
            files: self.files.checked_add(more.files)?,
            lines: self.lines.checked_add(more.lines)?,
            blank: self.blank.checked_add(more.blank)?,
            bytes: self.bytes.checked_add(more.bytes)?,
        })
    }

    /// Returns these sums with `more` added. Each sum must fit its type.
    pub(crate) fn add(self, more: Sums) -> Sums
        requires { IsInRange (plus self more) }
        ensures { result ≡ plus self more }
    {
        Sums {
            files: self.files + more.files,
            lines: self.lines + more.lines,
            blank: self.blank + more.blank,
            bytes: self.bytes + more.bytes,
        }
    }
}
