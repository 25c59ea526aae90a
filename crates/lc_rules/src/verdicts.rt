//! The verdict of a rule on a path: ignored, included, or no rule.

/// The verdict of the last rule that matches a path. It is about the path alone: a path under an ignored directory is skipped, whatever its
/// own verdict is.
#[derive(Clone, Copy, Debug, PartialEq, Eq)]
pub enum Verdict {
    Ignored,
    /// Included by a negated rule.
    Included,
    NoRule,
}
