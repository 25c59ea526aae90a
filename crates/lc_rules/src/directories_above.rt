//! Finding, for each directory above a path, the last rule of an ignore file that matches the directory, in one pass over the file's rules.

ghost use Rattle.std.specs.Prelude.{◌≡◌, ◌<◌, ◌≤◌, ◌-◌, ◌&&◌, ◌||◌, ℕ, true, false, not, IsTrue, Option, None, Some};
ghost use Rattle.std.specs.Prelude.{IfSome, cond, length, take, option_map, slice_index_or};
ghost use Rattle.std.specs.Borrow.{Bor};
ghost use Rattle.std.specs.Option.{option_or};
ghost use Rattle.lc_glob.specs.Above.{names_of};
ghost use Rattle.lc_glob.specs.Path.{segments_of};
ghost use Rattle.lc_rules.specs.Above.{AreDecided, AreCut, AreFound, IsOwn};
ghost use Rattle.lc_rules.specs.IgnoreRules.{RuleModel};
ghost use Rattle.lc_rules.specs.Verdicts.{at_depth, last_match};
ghost use Rattle.lc_rules.specs.declared.rule_source.RuleSource.TheVariants.{Gitignore};

use crate::ignore_file::IgnoreFile;
use crate::ignore_line::Rule;
use lc_glob::cut_at_first;
use lc_glob::path::MAX_DEPTH;
use std::marker::Model;

/// Finds the last rule of an ignore file that matches a path, and the last rule that matches each directory above the path.
///
/// The rules are matched from the last to the first, each with all directories in one pass, until the highest ignored directory is known.
/// Some directories are matched alone, when `last_match` is called for them: the directories below the highest ignored directory, and
/// directories with a path of `MAX_DEPTH` names or more.
///
/// ```
/// let file = IgnoreFile::read(alloc, b"**/b/\n!/a\n")?;
/// let above = DirectoriesAbove::of(&file, b"a/b/c", false);
/// assert!(rt; above.last_match(1, 3).map(|rule| rule.line()) == Some(1));
/// ```
#[derive(Drop)]
pub struct DirectoriesAbove<'a> {
    file: &'a IgnoreFile,
    path: &'a [u8],
    is_dir: bool,
    /// For each directory above the path, the highest first, the length of the directory's path.
    ends: [usize; MAX_DEPTH],
    /// For each directory above the path, the highest first, the last rule that matches it. Only the first `count` are known.
    found: [Option<&'a Rule>; MAX_DEPTH],
    /// The number of directories above the path, from the highest down, whose rule is known.
    count: usize,
    /// Whether the whole path was matched together with the directories. This is false if the path has over `MAX_DEPTH` names.
    is_whole: bool,
    /// The last rule that matches the path itself, if `is_whole`: `None` if not known, `Some(None)` if no rule matches.
    own: Option<Option<&'a Rule>>,
    ghost within: { count ≤ 256 },
    ghost decided: { (k : ℕ) → k < count → option_map (λ r. (Gitignore 0, r.now)) (slice_index_or found k None)
        ≡ last_match (at_depth 0 file.now) (take (slice_index_or ends k 0) path.now) true },
    ghost own_decided: { IsTrue is_whole → (o : Option (Bor RuleModel)) → own ≡ Some o
        → option_map (λ r. (Gitignore 0, r.now)) o ≡ last_match (at_depth 0 file.now) path.now is_dir },
}

impl<'a> Model for DirectoriesAbove<'a> {
    ghost use Rattle.lc_rules.specs.Above.{AboveModel};

    ghost Value = { AboveModel };

    ghost view = { λ above. record { rules = above.file.now; path = above.path.now; is_dir = above.is_dir } };
}

impl<'a> DirectoriesAbove<'a> {
    /// Matches the rules of a file with a path and all directories above it. `is_dir` is true if the path is a directory.
    pub fn of(file: &'a IgnoreFile, path: &'a [u8], is_dir: bool) -> Self
        ensures rules { result.rules ≡ file.now }
        ensures path { result.path ≡ path.now }
        ensures kind { result.is_dir ≡ is_dir }
    {
        let empty: &[u8] = &[];
        let mut names = [empty; MAX_DEPTH];
        let mut ends = [0; MAX_DEPTH];
        let (len, is_whole) = cut_names(path, &mut names, &mut ends);
        let mut flags = [false; MAX_DEPTH];
        let mut found = [None; MAX_DEPTH];
        let (count, own) = decide(file, &names[..len], is_dir, &mut flags[..len], &mut found);
        DirectoriesAbove {
            file,
            path,
            is_dir,
            ends,
            found,
            count,
            is_whole,
            own,
        }
    }

    /// Returns the last of the file's rules that match a directory above the path. The directory's path is the first `len` bytes of the
    /// path. `place` is the number of names before the last name in the directory's path, such as 1 for `a/b`.
    pub fn last_match(&self, place: usize, len: usize) -> Option<&'a Rule>
        requires { len ≤ length self.now.path }
        ensures { option_map (λ r. (Gitignore 0, r.now)) result ≡ last_match (at_depth 0 self.now.rules) (take len self.now.path) true }
    {
        if place < self.count && self.ends[place] == len {
            let found = &self.found[..];
            return found[place];
        }
        self.file.last_match(&self.path[..len], true)
    }

    /// Returns the last of the file's rules that match the path itself.
    pub fn last_match_of_path(&self) -> Option<&'a Rule>
        ensures { option_map (λ r. (Gitignore 0, r.now)) result ≡ last_match (at_depth 0 self.now.rules) self.now.path self.now.is_dir }
    {
        if self.is_whole {
            if let Some(own) = self.own {
                return own;
            }
        }
        self.file.last_match(self.path, self.is_dir)
    }
}

/// Writes the names of a path into `names`, as many as there is room for, and into `ends` where the directories above the last of these
/// names end. Returns the number of names written, and whether they are all names of the path.
fn cut_names<'p>(path: &'p [u8], names: &mut [&'p [u8]], ends: &mut [usize]) -> (usize, bool)
    requires same { length ends.old ≡ length names.old }
    requires room { 0 < length names.old }
    ensures names_len { length names.new ≡ length names.old }
    ensures ends_len { length ends.new ≡ length ends.old }
    ensures some { 0 < result.0 }
    ensures within { result.0 ≤ length names.old }
    ensures cut { AreCut path.now ends.new names.new (result.0 - 1) }
    ensures all { IsTrue result.1 → segments_of path.now ≡ names_of (take result.0 names.new) }
{
    let mut count = 0;
    let mut rest = path;
    'names: while count < names.len() {
        let (name, others) = cut_at_first(b'/', rest);
        names[count] = name;
        let Some(next) = others else {
            return (count + 1, true);
        };
        ends[count] = path.len() - next.len() - 1;
        count += 1;
        rest = next;
    }
    (count, false)
}

/// Finds the last rule that matches each directory above the last of these names, and the last rule that matches the path of all names.
/// Rules are tried from the last to the first, until the highest ignored directory is known, or each directory has a rule. Returns for how
/// many directories, from the highest down, the rule is known. If neither happens before the rules end, also returns the rule for the path
/// of all names.
fn decide<'a>(
    file: &'a IgnoreFile,
    names: &[&[u8]],
    is_dir: bool,
    flags: &mut [bool],
    found: &mut [Option<&'a Rule>],
) -> (usize, Option<Option<&'a Rule>>)
    requires some { 0 < length names.now }
    requires flags { length names.now ≡ length flags.old }
    requires room { length names.now ≤ length found.old }
    requires unknown { (k : ℕ) → k < length names.now → slice_index_or found.old k None ≡ None }
    ensures len { length found.new ≡ length found.old }
    ensures within { result.0 < length names.now }
    ensures decided { AreDecided file.now (names_of names.now) result.0 found.new }
    ensures own { IfSome result.1 (λ o. IsOwn file.now (names_of names.now) is_dir o) }
{
    let patterns = file.patterns();
    let above = names.len() - 1;
    let mut own = None;
    let mut rest = file.rules();
    'rules: while let Some((rule, older)) = rest.split_last() {
        let index = older.len();
        patterns.match_directories(index, names, flags);
        fill_undecided(rule, &flags[..above], found);
        let is_own = is_matched(flags[above], is_dir, patterns.is_dir_only(index));
        own = newest_match(own, rule, is_own);
        if let Some(count) = told_count(&found[..above]) {
            return (count, None);
        }
        rest = older;
    }
    (above, Some(own))
}

/// Returns whether a pattern matches a path, given whether the pattern would match a directory with that path.
fn is_matched(is_directory_matched: bool, is_dir: bool, is_dir_only: bool) -> bool
    ensures { result ≡ (is_directory_matched && (not is_dir_only || is_dir)) }
{
    is_directory_matched && (!is_dir_only || is_dir)
}

/// Returns the rule that was already found for a path. If none was found, returns this older rule if it matches the path.
fn newest_match<'a>(found: Option<&'a Rule>, rule: &'a Rule, is_matched: bool) -> Option<&'a Rule>
    ensures { option_map (λ r. r.now) result
        ≡ option_or (option_map (λ r. r.now) found.entry) (cond is_matched (Some rule.now) None) }
{
    if found.is_some() || !is_matched {
        return found;
    }
    Some(rule)
}

/// Stores a rule for each directory that the rule matches and for which no newer rule was found.
fn fill_undecided<'a>(rule: &'a Rule, flags: &[bool], found: &mut [Option<&'a Rule>])
    requires { length flags.now ≤ length found.old }
    ensures len { length found.new ≡ length found.old }
    ensures filled { (k : ℕ) → k < length flags.now → option_map (λ r. r.now) (slice_index_or found.new k None)
        ≡ option_or (option_map (λ r. r.now) (slice_index_or found.old k None))
        (cond (slice_index_or flags.now k false) (Some rule.now) None) }
{
    for k in 0..flags.len() {
        if flags[k] && found[k].is_none() {
            found[k] = Some(rule);
        }
    }
}

/// Returns the number of directories down to the highest ignored one, if a rule was found for each of these. If a rule was found for every
/// directory and none is ignored, returns the number of all.
fn told_count(found: &[Option<&Rule>]) -> Option<usize>
    ensures { IfSome result (λ count. AreFound found.now count) }
{
    for k in 0..found.len() {
        let Some(rule) = found[k] else {
            return None;
        };
        if rule.ignores() {
            return Some(k + 1);
        }
    }
    Some(found.len())
}
