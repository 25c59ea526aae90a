//! Matching one path after another with the rules of a file.
//!
//! Paths often come in runs that have the same directories above them. The rules are matched with these directories once for each run.

ghost use Rattle.std.specs.Prelude.{◌≡◌, ℕ, ◌<◌, ◌≤◌, length, take, option_map, false, IfSome, MatchOption};
ghost use Rattle.lc_paths.specs.Checks.CheckText.{file_verdict, is_ignored, is_ignored_parent, IsClearTo, path_word};
ghost use Rattle.lc_paths.specs.Checks.ExplainedText.{path_rule};
ghost use Rattle.lc_text.specs.PathLines.{is_bad_path};
ghost use Rattle.lc_paths.specs.Checks.Findings.{finding_word, finding_rule, ignoring_rule, IsIgnoringAbove};

use crate::checking::finding::Finding;
use lc_glob::path::depth_of;
use lc_rules::{DirectoriesAbove, IgnoreFile, Rule, Verdict};
use lc_text::is_bad_path;
use memchr::memchr;

/// If a path has at most this many names, the directories above the path are matched one by one, even if a pattern has nested wildcards.
/// Names that are known from the previous path are not counted.
const FEW_NAMES: usize = 2;

/// If a path has at most this many names and no pattern has nested wildcards, the directories above the path are matched one by one. With
/// more names, most rules match all directories together sooner than one after another.
const SOME_NAMES: usize = 8;

/// Returns the number of bytes that two paths share at their beginning.
fn shared_len(one: &[u8], other: &[u8]) -> usize
    ensures within_one { result ≤ length one.now }
    ensures within_other { result ≤ length other.now }
    ensures shared { take result one.now ≡ take result other.now }
{
    let mut shared = 0;
    'bytes: while shared < one.len() && shared < other.len() && one[shared] == other[shared] {
        shared += 1;
    }
    shared
}

fn is_ignored(verdict: Verdict) -> bool
    ensures { result ≡ is_ignored verdict }
{
    matches!(verdict, Verdict::Ignored)
}

/// Returns the rule that ignores a directory, if it is ignored.
fn ignoring<'a>(rules: &'a IgnoreFile, directory: &[u8]) -> Option<&'a Rule>
    ensures { option_map (λ r. r.now) result ≡ ignoring_rule rules.now directory.now }
{
    let rule = rules.last_match(directory, true)?;
    if is_ignored(rule.verdict()) {
        Some(rule)
    } else {
        None
    }
}

/// Returns the rule that ignores the directory whose path is the first `len` bytes of a path, if a rule does. If all directories above the
/// path were matched together, `above` has the rule; `place` is the number of directories above this one.
fn ignoring_among<'a>(
    rules: &'a IgnoreFile,
    above: Option<&DirectoriesAbove<'a>>,
    place: usize,
    path: &[u8],
    len: usize,
) -> Option<&'a Rule>
    requires within { len ≤ length path.now }
    requires above { IfSome above (λ a. (a.now.rules ≡ rules.now) × (a.now.path ≡ path.now)) }
    ensures { option_map (λ r. r.now) result ≡ ignoring_rule rules.now (take len path.now) }
{
    let Some(above) = above else {
        return ignoring(rules, &path[..len]);
    };
    let rule = above.last_match(place, len)?;
    if is_ignored(rule.verdict()) {
        Some(rule)
    } else {
        None
    }
}

/// Returns the finding for a path. `above` is the rule that ignores the highest ignored directory above the path, if one is ignored.
fn found_below<'a>(
    rules: &'a IgnoreFile,
    above: Option<&'a Rule>,
    path: &[u8],
    is_dir: bool,
) -> Finding<'a>
    requires good { is_bad_path path.now ≡ false }
    requires above { IsIgnoringAbove rules.now path.now above }
    ensures word { finding_word result ≡ path_word (file_verdict rules.now) path.now is_dir }
    ensures rule { finding_rule result ≡ path_rule rules.now path.now is_dir }
{
    match above {
        Some(rule) => Finding::Below(rule),
        None => Finding::Decided(rules.last_match(path, is_dir)),
    }
}

/// The rules of a file, the directory that was matched last, and the rule that ignores this directory, if one does.
#[derive(Drop)]
pub(crate) struct Checker<'a> {
    rules: &'a IgnoreFile,
    directory: &'a [u8],
    excluded_by: Option<&'a Rule>,
    /// `FEW_NAMES` if a pattern has nested wildcards, or else `SOME_NAMES`.
    few_names: usize,
    // no directory above this one is ignored, and the rule is the one that ignores this one
    ghost clear: { (k : ℕ) → k < length directory.now → is_ignored_parent (file_verdict rules.now) directory.now k ≡ false },
    ghost told: { 0 < length directory.now → option_map (λ r. r.now) excluded_by ≡ ignoring_rule rules.now directory.now },
}

impl<'a> Checker<'a> {
    /// Makes a checker that has matched no directory yet.
    pub(crate) fn new(rules: &'a IgnoreFile) -> Self
        ensures { result.rules.now ≡ rules.now }
    {
        Checker {
            rules,
            directory: &[],
            excluded_by: None,
            few_names: if rules.has_nested_wildcards() {
                FEW_NAMES
            } else {
                SOME_NAMES
            },
        }
    }

    /// Returns the finding for a path.
    pub(crate) fn find(&mut self, path: &'a [u8], is_dir: bool) -> Finding<'a>
        ensures word { finding_word result ≡ path_word (file_verdict self.old.rules.now) path.now is_dir }
        ensures rule { finding_rule result ≡ path_rule self.old.rules.now path.now is_dir }
        ensures rules { self.new.rules.now ≡ self.old.rules.now }
    {
        if is_bad_path(path) {
            return Finding::Bad;
        }
        let Some(known) = self.clear_len(path) else {
            return found_below(self.rules, self.excluded_by, path, is_dir);
        };
        if depth_of(&path[known..]) > self.few_names {
            return self.find_at_once(path, is_dir, known);
        }
        let above = self.ignoring_from(path, known, None, 0);
        found_below(self.rules, above, path, is_dir)
    }

    /// Like `find`, but matches the path together with all directories above it. No directory that ends in its first `known` bytes is
    /// ignored.
    #[inline(never)]
    fn find_at_once(&mut self, path: &'a [u8], is_dir: bool, known: usize) -> Finding<'a>
        requires good { is_bad_path path.now ≡ false }
        requires known { IsClearTo (file_verdict self.old.rules.now) path.now known }
        ensures word { finding_word result ≡ path_word (file_verdict self.old.rules.now) path.now is_dir }
        ensures rule { finding_rule result ≡ path_rule self.old.rules.now path.now is_dir }
        ensures rules { self.new.rules.now ≡ self.old.rules.now }
    {
        let above = DirectoriesAbove::of(self.rules, path, is_dir);
        let place = path[..known].iter().filter(|b| **b == b'/').count();
        match self.ignoring_from(path, known, Some(&above), place) {
            Some(rule) => Finding::Below(rule),
            None => Finding::Decided(above.last_match_of_path()),
        }
    }

    /// Returns a number of bytes at the path's beginning in which no ignored directory ends. Returns `None` if the directory that was
    /// matched last is ignored and is above the path.
    fn clear_len(&self, path: &[u8]) -> Option<usize>
        ensures { MatchOption result (IsIgnoringAbove self.now.rules.now path.now self.now.excluded_by)
            (λ len. IsClearTo (file_verdict self.now.rules.now) path.now len) }
    {
        let shared = shared_len(self.directory, path);
        if shared == 0
            || shared < self.directory.len()
            || shared == path.len()
            || path[shared] != b'/'
        {
            return Some(shared);
        }
        if self.excluded_by.is_some() {
            return None;
        }
        Some(shared + 1)
    }

    /// Returns the rule that ignores the highest ignored directory above the path, if one is ignored. No ignored directory ends in the
    /// first `known` bytes. Without `above`, the other directories are matched here one by one. With `above`, all were matched together,
    /// and `place` directories end in the first `known` bytes.
    fn ignoring_from(
        &mut self,
        path: &'a [u8],
        known: usize,
        above: Option<&DirectoriesAbove<'a>>,
        place: usize,
    ) -> Option<&'a Rule>
        requires known { IsClearTo (file_verdict self.old.rules.now) path.now known }
        requires above { IfSome above (λ a. (a.now.rules ≡ self.old.rules.now) × (a.now.path ≡ path.now)) }
        ensures above { IsIgnoringAbove self.old.rules.now path.now result }
        ensures rules { self.new.rules.now ≡ self.old.rules.now }
    {
        let mut at = known;
        let mut place = place;
        'directories: while let Some(len) = memchr(b'/', &path[at..]) {
            let excluded_by = ignoring_among(self.rules, above, place, path, at + len);
            *self = Checker {
                rules: self.rules,
                directory: &path[..at + len],
                excluded_by,
                few_names: self.few_names,
            };
            if excluded_by.is_some() {
                return excluded_by;
            }
            at += len + 1;
            place = place.saturating_add(1);
        }
        None
    }
}
