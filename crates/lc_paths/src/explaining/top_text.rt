//! The text of the rules that `--exclude` and `--exclude-from` give for a whole tree.

ghost use Rattle.std.specs.Prelude.{◌≡◌, []};
ghost use Rattle.lc_paths.specs.Explanations.OpenDirs.{text_or_none, text_in};

use lc_level::{Filters, RuleText};
use lc_rules::RuleSource;

fn text_or_none(text: &Option<RuleText>) -> &[u8]
    ensures { result.now ≡ text_or_none text.now }
{
    match text {
        None => &[],
        Some(text) => text.bytes(),
    }
}

/// Returns the text of the rules of `--exclude-from` or `--exclude`, or no bytes for a source that is a file of the tree.
pub(crate) fn top_text<'f>(filters: &'f Filters<'_>, source: RuleSource) -> &'f [u8]
    ensures { result.now ≡ text_in filters.entry.now [] source }
{
    match source {
        RuleSource::ExcludeFrom => text_or_none(&filters.exclude_from),
        RuleSource::CommandLine => text_or_none(&filters.exclude),
        RuleSource::InfoExclude(_) | RuleSource::Gitignore(_) => &[],
    }
}
