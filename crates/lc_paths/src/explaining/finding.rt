//! The explanation of one path, before it is printed.

ghost use Rattle.std.specs.Prelude.{◌≡◌, ℕ, Some, None};
ghost use Rattle.lc_level.specs.Reasons.{reason_model};
ghost use Rattle.lc_rules.specs.declared.rule_source.RuleSource.{RuleSource};
ghost use Rattle.lc_paths.specs.Explanations.Explained.{CitedRule, said_for};
ghost use Rattle.lc_paths.specs.Explanations.Findings.{decided, decision_word, explanation_of};

use lc_level::{FaultSite, FaultWord, Reason};
use lc_rules::RuleSource;

/// The file of a rule, and the number of its line there, from 1.
#[derive(Clone, Copy, Debug)]
pub(crate) struct RulePlace {
    pub(crate) source: RuleSource,
    pub(crate) line: u32,
}

/// A directory that could not be opened: its path, and the error.
#[derive(Clone, Copy, Debug)]
pub(crate) struct DirectoryFault<'a> {
    pub(crate) directory: &'a [u8],
    pub(crate) site: FaultSite,
    pub(crate) word: FaultWord,
}

/// What a rule decides about a path.
#[derive(Clone, Copy, Debug)]
pub(crate) enum Decision {
    /// The rule ignores the highest ignored directory above the path.
    Below,
    /// The rule is the last that matches the path, and ignores it.
    Ignored,
    /// The rule is the last that matches the path, and includes it again.
    Included,
}

impl Decision {
    pub(crate) fn word(self) -> &'static str
        ensures { result.now ≡ decision_word self }
    {
        match self {
            Decision::Below => "below",
            Decision::Ignored => "ignored",
            Decision::Included => "included",
        }
    }
}

/// The explanation of one path.
#[derive(Debug, Drop)]
pub(crate) enum Finding<'a> {
    /// No entry of a tree can have this path, or the path has over 4,096 bytes.
    Bad,
    /// A directory above the path could not be opened.
    Fault(DirectoryFault<'a>),
    /// A rule ignores or includes the path, or ignores a directory above the path. The fields are what the rule decides, and its place.
    Ruled(Decision, RulePlace),
    /// No rule matches the path, and a walk does not skip it.
    NoRule,
    /// A walk skips the path, or a directory above it, for this reason. The reason is not a rule.
    Skipped(Reason),
}

/// The finding for a path, with the cache's number of the stack of directories above the path, if any directory was opened.
#[derive(Debug, Drop)]
pub(crate) struct Found<'a> {
    pub(crate) finding: Finding<'a>,
    pub(crate) to: Option<usize>,
}

impl<'a> Found<'a> {
    /// Makes the result for a path below the directories of the stack with this number.
    pub(crate) fn on(at: usize, finding: Finding<'a>) -> Found<'a>
        ensures { result ≡ record { finding = finding.entry; to = Some at } }
    {
        Found {
            finding,
            to: Some(at),
        }
    }

    /// Makes the result for a path for which no directory was opened.
    pub(crate) fn on_none(finding: Finding<'a>) -> Found<'a>
        ensures { result ≡ record { finding = finding.entry; to = None } }
    {
        Found { finding, to: None }
    }
}

impl<'a> Finding<'a> {
    /// Makes the finding for a path that is skipped, or that is below a skipped directory. If the reason is a rule, that rule makes this
    /// decision.
    pub(crate) fn skipped(reason: Reason, decision: Decision) -> Finding<'a>
        ensures { (cite : RuleSource → ℕ → CitedRule) → explanation_of cite result
            ≡ said_for cite (decided decision) (reason_model reason) }
    {
        match reason.rule() {
            Some((source, line)) => Finding::Ruled(decision, RulePlace { source, line }),
            None => Finding::Skipped(reason),
        }
    }
}
