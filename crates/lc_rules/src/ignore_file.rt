//! Ignore files.

ghost use Rattle.std.specs.Prelude.{◌≡◌, ◌↔◌, ◌<◌, ◌≤◌, [], length, option_map, IfOk, IsTrue};
ghost use Rattle.std.specs.List.{list_any};
ghost use Rattle.lc_glob.specs.Above.{has_nested_wildcards};
ghost use Rattle.lc_rules.specs.IgnoreRules.{patterns_of, rules_of};
ghost use Rattle.lc_rules.specs.Verdicts.{at_depth, last_match, verdict_of};
ghost use Rattle.lc_rules.specs.Limits.{max_rule_bytes};
ghost use Rattle.lc_rules.specs.declared.rule_source.RuleSource.TheVariants.{Gitignore};

use crate::faults::{RuleFault, is_too_long};
use crate::ignore_line::{Rule, read_rule};
use crate::lines::Lines;
use crate::verdicts::Verdict;
use lc_glob::{Candidate, PatternSet};
use std::alloc::{AllocError, Global};
use std::marker::Model;

/// An ignore file, such as a `.gitignore`: its rules in the order of its lines, each with its pattern.
///
/// A rule takes 20 bytes of memory besides its pattern. Most patterns take no more bytes than their text has.
#[derive(Drop)]
pub struct IgnoreFile {
    rules: Vec<Rule>,
    patterns: PatternSet,
}

impl Model for IgnoreFile {
    ghost use Rattle.std.specs.Prelude.{◌≡◌, List};
    ghost use Rattle.lc_rules.specs.IgnoreRules.{patterns_of, RuleModel};

    ghost Value = { List RuleModel };

    ghost view = { λ f. f.rules.items };

    ghost invariant = { λ f. f.patterns ≡ patterns_of f.rules.items };
}

impl IgnoreFile {
    /// Reads the bytes of an ignore file. Any bytes are an ignore file, if there are at most `MAX_RULE_BYTES` of them.
    pub fn read(alloc: Global, bytes: &[u8]) -> Result<IgnoreFile, RuleFault>
        ensures ok { IfOk result (λ file. file ≡ rules_of bytes.now) }
        ensures too_long { (result ≡ Err RuleFault.TooLong) ↔ (max_rule_bytes < length bytes.now) }
    {
        if is_too_long(bytes) {
            return Err(RuleFault::TooLong);
        }
        let (rules, patterns) = read_rules(alloc, bytes)?;
        Ok(IgnoreFile { rules, patterns })
    }

    pub(crate) fn rules(&self) -> &[Rule]
        ensures { result.now ≡ self.now }
    {
        &self.rules
    }

    /// Returns the number of rules, including those whose pattern can't be read and matches nothing.
    pub fn len(&self) -> usize
        ensures { result ≡ length self.now }
    {
        self.rules.len()
    }

    /// Returns whether the file has no rule.
    pub fn is_empty(&self) -> bool
        ensures { IsTrue result ↔ (self.now ≡ []) }
    {
        self.rules.is_empty()
    }

    /// Returns the patterns of the rules, in the same order.
    pub(crate) fn patterns(&self) -> &PatternSet
        ensures { result.now ≡ patterns_of self.now }
    {
        &self.patterns
    }

    /// Returns whether some rule's pattern has nested wildcards (`lc_glob::Pattern::has_nested_wildcards`), so that matching one directory
    /// after another repeats work. If so, matching all directories above a path costs less with `DirectoriesAbove`.
    pub fn has_nested_wildcards(&self) -> bool
        ensures { result ≡ list_any has_nested_wildcards (patterns_of self.now) }
    {
        self.patterns.has_nested_wildcards()
    }

    /// Returns the verdict of this file's rules alone on a path below the file's directory.
    pub fn verdict(&self, path: &[u8], is_dir: bool) -> Verdict
        ensures { result ≡ verdict_of (at_depth 0 self.now) path.now is_dir }
    {
        match self.last_match(path, is_dir) {
            Some(rule) => rule.verdict(),
            None => Verdict::NoRule,
        }
    }

    /// Returns the last of the file's rules that match a path below the file's directory.
    ///
    /// ```
    /// let file = IgnoreFile::read(alloc, b"*.log\n\n!keep.log\n")?;
    /// assert!(rt; file.last_match(b"keep.log", false).map(|rule| rule.line()) == Some(3));
    /// ```
    pub fn last_match(&self, path: &[u8], is_dir: bool) -> Option<&Rule>
        ensures { option_map (λ r. (Gitignore 0, r.now)) result ≡ last_match (at_depth 0 self.now) path.now is_dir }
    {
        let count = self.patterns.len();
        let candidate = Candidate::for_patterns(path, count);
        let index = self.patterns.last_match(&candidate, is_dir, count)?;
        Some(&self.rules[index])
    }
}

/// Reads the rules of a file's lines, and their patterns.
fn read_rules(alloc: Global, bytes: &[u8]) -> Result<(Vec<Rule>, PatternSet), AllocError>
    requires { length bytes.now ≤ max_rule_bytes }
    ensures rules { IfOk result (λ r. r.0.items ≡ rules_of bytes.now) }
    ensures patterns { IfOk result (λ r. r.1 ≡ patterns_of r.0.items) }
{
    let mut rules = Vec::new(alloc);
    let mut patterns = PatternSet::new(alloc);
    let mut number = 1;
    let mut rest = Lines::of(bytes);
    'lines: while let Some((line, others)) = rest.split_first() {
        if let Some((rule, pattern)) = read_rule(alloc, number, line)? {
            rules.push(rule)?;
            patterns.push(&pattern)?;
        }
        number += 1;
        rest = others;
    }
    rules.shrink_to_fit();
    patterns.shrink_to_fit();
    Ok((rules, patterns))
}
