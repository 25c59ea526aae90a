//! The reasons for which entries are skipped.

ghost use Rattle.std.specs.Prelude.{◌≡◌, IfOk, option_map};
ghost use Rattle.lc_level.specs.Reasons.{reason_model, reason_ref_model};
ghost use Rattle.lc_level.specs.ReasonWords.{attribute_of, reason_word, rule_of};

use lc_rules::RuleSource;
use lc_tree::OtherKind;
use std::alloc::{AllocError, Global};

/// Why an entry is skipped: the first of these reasons that holds.
#[derive(Debug, Drop)]
pub enum Reason {
    /// The entry is named `.git`.
    Git,
    /// The last rule that matches the entry ignores it. `source` is the file or the option that has the rule. `line` is the number of the
    /// rule's line there; the first line has number 1.
    Rule { source: RuleSource, line: u32 },
    /// An attribute of the entry has the state that a word of `Filters::without` requires. The value is this word, `ATTR` or `ATTR=VALUE`.
    Attribute(Vec<u8>),
    /// The entry is a file, and no pattern of the filters includes it.
    NotIncluded,
    /// The entry is neither a file that is read nor a directory that is entered.
    OtherKind(OtherKind),
}

impl Reason {
    /// Makes a copy of the reason, which has its own memory.
    pub fn copy(&self, alloc: Global) -> Result<Reason, AllocError>
        ensures { IfOk result (λ r. reason_model r ≡ reason_model self.now) }
    {
        match self {
            Reason::Git => Ok(Reason::Git),
            Reason::Rule { source, line } => Ok(Reason::Rule {
                source: *source,
                line: *line,
            }),
            Reason::Attribute(word) => Ok(Reason::Attribute(word.to_vec(alloc)?)),
            Reason::NotIncluded => Ok(Reason::NotIncluded),
            Reason::OtherKind(what) => Ok(Reason::OtherKind(*what)),
        }
    }

    /// Returns the word by which reports name the reason, such as `rule`.
    pub fn word(&self) -> &'static str
        ensures { result.now ≡ reason_word (reason_model self.now) }
    {
        match self {
            Reason::Git => "git",
            Reason::Rule { .. } => "rule",
            Reason::Attribute(_) => "attribute",
            Reason::NotIncluded => "include",
            Reason::OtherKind(OtherKind::Special) => "other",
            Reason::OtherKind(OtherKind::Mounted) => "filesystem",
        }
    }

    /// Returns the source of the rule and the number of its line, if a rule is the reason.
    pub fn rule(&self) -> Option<(RuleSource, u32)>
        ensures { result ≡ rule_of (reason_model self.now) }
    {
        match self {
            Reason::Rule { source, line } => Some((*source, *line)),
            _ => None,
        }
    }

    /// Returns the word that names the attribute, `ATTR` or `ATTR=VALUE`, if an attribute is the reason.
    pub fn attribute(&self) -> Option<&[u8]>
        ensures { option_map (λ word. word.now) result ≡ attribute_of (reason_model self.entry.now) }
    {
        match self {
            Reason::Attribute(word) => Some(word),
            _ => None,
        }
    }
}

/// Like [`Reason`], but borrows the word of an attribute.
#[derive(Clone, Copy, Debug)]
pub(crate) enum ReasonRef<'a> {
    Git,
    Rule { source: RuleSource, line: u32 },
    Attribute(&'a [u8]),
    NotIncluded,
    OtherKind(OtherKind),
}

impl ReasonRef<'_> {
    /// Returns the reason as a [`Reason`], with its own copy of an attribute's word.
    pub(crate) fn to_reason(self, alloc: Global) -> Result<Reason, AllocError>
        ensures { IfOk result (λ r. reason_model r ≡ reason_ref_model self.entry) }
    {
        match self {
            ReasonRef::Git => Ok(Reason::Git),
            ReasonRef::Rule { source, line } => Ok(Reason::Rule { source, line }),
            ReasonRef::Attribute(word) => Ok(Reason::Attribute(word.to_vec(alloc)?)),
            ReasonRef::NotIncluded => Ok(Reason::NotIncluded),
            ReasonRef::OtherKind(what) => Ok(Reason::OtherKind(what)),
        }
    }
}
