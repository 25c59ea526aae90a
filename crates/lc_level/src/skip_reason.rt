//! Deciding why an entry is skipped. The rules, the filters, and the entry's name and kind decide.
ghost use Rattle.std.specs.Prelude.{◌≡◌, IfOk, option_map};
ghost use Rattle.lc_glob.specs.Path.{path_in};
ghost use Rattle.lc_level.specs.Level.{rule_reason, reason_at, reason_for};
ghost use Rattle.lc_level.specs.Reasons.{reason_model, reason_ref_model};
ghost use Rattle.lc_rules.specs.IgnoreChains.{rules_in};
ghost use Rattle.lc_rules.specs.Verdicts.{last_match};

use crate::job::Job;
use crate::level_reader::LevelReader;
use crate::narrowing::included::is_included;
use crate::reason::{Reason, ReasonRef};
use lc_rules::Verdict;
use lc_tree::Kind;
use std::alloc::AllocError;

/// Returns the last ignore rule that matches a path as a reason, if this rule ignores the path.
fn ignored_by(job: &Job, path: &[u8], is_dir: bool) -> Option<ReasonRef<'static>>
    ensures { option_map reason_ref_model result ≡ rule_reason (last_match (rules_in job.now.ignore) path.now is_dir) }
{
    let (source, rule) = job.last_match(path, is_dir)?;
    match rule.verdict() {
        Verdict::Ignored => Some(ReasonRef::Rule {
            source,
            line: rule.line(),
        }),
        Verdict::Included | Verdict::NoRule => None,
    }
}

impl<'t, T> LevelReader<'t, T> {
    /// Returns why the rules or the filters skip a path, if they do. Memory is allocated only for the macros of attributes.
    pub(crate) fn reason_at(
        &self,
        job: &Job,
        path: &[u8],
        is_dir: bool,
    ) -> Result<Option<ReasonRef<'t>>, AllocError>
        ensures { IfOk result (λ r. option_map reason_ref_model r ≡ reason_at self.now.filters.now job.now path.now is_dir) }
    {
        if let Some(reason) = ignored_by(job, path, is_dir) {
            return Ok(Some(reason));
        }
        match self.filters.first_met(self.alloc, job, path, is_dir)? {
            Some(word) => Ok(Some(ReasonRef::Attribute(word))),
            None => Ok(None),
        }
    }

    /// Returns why the rules of `job`, or the filters, skip the entry `name`, or `None` if there is no reason to skip the entry. `path` is
    /// the entry's path. A walk skips entries by the job that `enter` returns.
    pub fn reason(
        &self,
        job: &Job,
        name: &[u8],
        path: &[u8],
        kind: Kind,
    ) -> Result<Option<Reason>, AllocError>
        requires { path.now ≡ path_in job.now.path name.now }
        ensures { IfOk result (λ r. option_map reason_model r ≡ reason_for self.now.filters.now job.now name.now kind) }
    {
        if name == b".git".as_slice() {
            return Ok(Some(Reason::Git));
        }
        if let Some(reason) = self.reason_at(job, path, kind.is_dir())? {
            return Ok(Some(reason.to_reason(self.alloc)?));
        }
        match kind {
            Kind::File => Ok(if is_included(self.filters.include_in(job.path()), path) {
                None
            } else {
                Some(Reason::NotIncluded)
            }),
            Kind::Dir => Ok(None),
            Kind::Other(what) => Ok(Some(Reason::OtherKind(what))),
        }
    }
}
