//! The files that have rules: each ignore file, and the options of the command line.

ghost use Rattle.std.specs.Prelude.{◌≡◌, ◌≤◌, length};
ghost use Rattle.std.specs.List.{after_first};
ghost use Rattle.lc_glob.specs.Bytes.{slash};
ghost use Rattle.lc_glob.specs.Pieces.{is_byte};
ghost use Rattle.lc_text.specs.RulePlaces.{above, source_directory, source_name};

use lc_glob::cut_at_first;
use lc_rules::RuleSource;

fn after_slash(path: &[u8]) -> &[u8]
    ensures rest { result.now ≡ after_first (is_byte slash) path.now }
    ensures less { length result.now ≤ length path.now }
{
    match cut_at_first(b'/', path).1 {
        None => &[],
        Some(rest) => rest,
    }
}

/// Returns the first `depth` segments of a path, each followed by its slash. If `depth` is 0, the result is empty.
fn above(path: &[u8], depth: u32) -> &[u8]
    ensures { result.now ≡ above depth path.now }
{
    let mut levels = depth;
    let mut rest = path;
    'depths: while levels > 0 {
        rest = after_slash(rest);
        levels -= 1;
    }
    &path[..path.len() - rest.len()]
}

/// Returns the path of the directory that has a rule's file. The rule matches `path`, so the directory's path is the beginning of `path`.
///
/// The result ends with a slash. It is empty for a file in the tree's top directory, and for the rules of `--exclude` and `--exclude-from`.
///
/// ```
/// assert!(rt; source_directory(b"src/gen/a.c", RuleSource::Gitignore(1)) == b"src/".as_slice());
/// ```
pub fn source_directory(path: &[u8], source: RuleSource) -> &[u8]
    ensures { result.now ≡ source_directory path.now source }
{
    match source {
        RuleSource::ExcludeFrom | RuleSource::CommandLine => &[],
        RuleSource::InfoExclude(depth) | RuleSource::Gitignore(depth) => above(path, depth),
    }
}

/// Returns the name of the file that has a rule, such as `.gitignore`, or of the option, such as `--exclude`. [`source_directory`] returns
/// the file's directory.
pub fn source_name(source: RuleSource) -> &'static str
    ensures { result.now ≡ source_name source }
{
    match source {
        RuleSource::ExcludeFrom => "--exclude-from",
        RuleSource::InfoExclude(_) => ".git/info/exclude",
        RuleSource::Gitignore(_) => ".gitignore",
        RuleSource::CommandLine => "--exclude",
    }
}
