//! Finding the file that a rule was read from, by its path.

ghost use Rattle.std.specs.Prelude.{◌≡◌, ◌++◌, codes, IfSome, IsTrue};
ghost use Rattle.lc_text.specs.RulePlaces.{source_directory, source_name};

use lc_rules::RuleSource;
use lc_text::{source_directory, source_name};

/// Returns whether `file` is the path that is shown for a rule's file, if the rule has this source and decides `path`.
fn is_shown(path: &[u8], file: &[u8], source: RuleSource) -> bool
    ensures { IsTrue result → file.now ≡ source_directory path.now source ++ source_name source }
{
    let front = source_directory(path, source);
    match file.strip_prefix(front) {
        Some(rest) => rest == source_name(source).as_bytes(),
        None => false,
    }
}

/// Counts the slashes of a path.
fn slashes(file: &[u8]) -> u32 {
    let mut count: u32 = 0;
    for byte in file {
        if *byte == b'/' {
            count = count.saturating_add(1);
        }
    }
    count
}

/// Finds the source of a rule that decides a path, by the file that is shown for the rule.
pub(crate) fn source_of(path: &[u8], file: &[u8]) -> Option<RuleSource>
    ensures { IfSome result (λ source. file.now ≡ source_directory path.now source ++ source_name source) }
{
    let depth = slashes(file);
    let sources = [
        RuleSource::CommandLine,
        RuleSource::ExcludeFrom,
        RuleSource::Gitignore(depth),
        // The file's name in the directory has two slashes.
        RuleSource::InfoExclude(depth.saturating_sub(2)),
    ];
    for source in &sources {
        if is_shown(path, file, *source) {
            return Some(*source);
        }
    }
    None
}
