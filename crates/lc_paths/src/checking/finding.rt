//! What the rules of a file decide about a path.

ghost use Rattle.std.specs.Prelude.{◌≡◌, option_map};
ghost use Rattle.lc_paths.specs.Checks.CheckText.{verdict_word};
ghost use Rattle.lc_paths.specs.Checks.Findings.{finding_word, finding_rule};

use lc_rules::{Rule, Verdict};

fn verdict_word(verdict: Verdict) -> &'static str
    ensures { result.now ≡ verdict_word verdict }
{
    match verdict {
        Verdict::Ignored => "ignored",
        Verdict::Included => "included",
        Verdict::NoRule => "none",
    }
}

/// What the rules of a file decide about a path: the first variant that holds.
#[derive(Clone, Copy)]
pub(crate) enum Finding<'a> {
    /// No entry of a tree can have this path, or the path has over 4,096 bytes.
    Bad,
    /// A directory above the path is ignored. This rule ignores the highest such directory.
    Below(&'a Rule),
    /// The last rule that matches the path, if any does.
    Decided(Option<&'a Rule>),
}

impl<'a> Finding<'a> {
    pub(crate) fn word(self) -> &'static str
        ensures { result.now ≡ finding_word self.entry }
    {
        match self {
            Finding::Bad => "bad",
            Finding::Below(_) => "below",
            Finding::Decided(None) => verdict_word(Verdict::NoRule),
            Finding::Decided(Some(rule)) => verdict_word(rule.verdict()),
        }
    }

    /// Returns the rule from which the word of the finding follows, if there is one.
    pub(crate) fn rule(self) -> Option<&'a Rule>
        ensures { option_map (λ r. r.now) result ≡ finding_rule self.entry }
    {
        match self {
            Finding::Bad => None,
            Finding::Below(rule) => Some(rule),
            Finding::Decided(rule) => rule,
        }
    }
}
