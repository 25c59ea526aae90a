//! What the first argument means: it names a command, or it begins a count that is typed without the word `count`.

ghost use Rattle.std.specs.Prelude.{◌≡◌, map, option_map};
ghost use Rattle.lc_arguments.specs.Naming.{may_be_directory};
ghost use Rattle.lc_arguments.specs.Words.{asked_by, begins_count, count_words, is_own_option};

use crate::option_row::Subcommand;
use std::convert::AsStr;

/// Returns whether an argument is an option for the program's own help or version.
fn is_own_option(word: &str) -> bool
    ensures { result ≡ is_own_option word.now }
{
    word == "-h" || word == "--help" || word == "-V" || word == "--version"
}

/// Returns whether a first argument begins a count that is typed without the word `count`. The argument is an option of `lc count`, or a
/// path that can be no command: `.`, `..` or one with a slash.
fn begins_count(word: &str) -> bool
    ensures { result ≡ begins_count word.now }
{
    let is_option = matches!(word.as_bytes(), [b'-', ..]) && !is_own_option(word);
    is_option || word == "." || word == ".." || word.as_bytes().contains(&b'/')
}

/// Returns the arguments of `lc count`, or `None` if the program's arguments request no count. If the first argument is `count`, the
/// function returns the arguments after it. If the first argument is an option, `.` or `..`, or has a slash, the function returns all
/// arguments. The options `-h`, `--help`, `-V` and `--version` are the program's own, and begin no count.
///
/// ```
/// assert!(rt; count_words(&["count", "src"]) == Some(["src"].as_slice()));
/// assert!(rt; count_words(&["--by", "ext"]) == Some(["--by", "ext"].as_slice()));
/// assert!(rt; count_words(&["src"]).is_none());
/// ```
pub fn count_words<'w, W: AsStr>(words: &'w [W]) -> Option<&'w [W]>
    ensures { option_map (λ rest. map W.text rest.now) result ≡ count_words (map W.text words.now) }
{
    let Some((first, rest)) = words.split_first() else {
        return None;
    };
    if first.as_str() == "count" {
        return Some(rest);
    }
    if begins_count(first.as_str()) {
        return Some(words);
    }
    None
}

/// Returns the command that arguments name, or `None` if they name none, and the arguments that are then read: those after the command's
/// name, or all arguments of a count that is typed without the word `count`, or without a command.
pub(crate) fn asked<'w, W: AsStr>(words: &'w [W]) -> (Option<Subcommand>, &'w [W])
    ensures command { result.0 ≡ (asked_by (map W.text words.now)).0 }
    ensures words { map W.text result.1.now ≡ (asked_by (map W.text words.now)).1 }
{
    let Some((first, rest)) = words.split_first() else {
        return (None, words);
    };
    if let Some(count) = count_words(words) {
        return (Some(Subcommand::Count), count);
    }
    match first.as_str() {
        "check" => (Some(Subcommand::Check), rest),
        "explain" => (Some(Subcommand::Explain), rest),
        "sum" => (Some(Subcommand::Sum), rest),
        "diff" => (Some(Subcommand::Diff), rest),
        "languages" => (Some(Subcommand::Languages), rest),
        _ => (None, words),
    }
}

/// Returns whether the first argument begins a count if it is the name of a directory. It is then no option and no command, and has no
/// slash.
///
/// ```
/// assert!(rt; may_be_directory(&["src", "doc"]));
/// assert!(rt; !may_be_directory(&["sum"]));
/// ```
pub fn may_be_directory<W: AsStr>(words: &[W]) -> bool
    ensures { result ≡ may_be_directory (map W.text words.now) }
{
    let Some((first, _)) = words.split_first() else {
        return false;
    };
    let first = first.as_str();
    asked(words).0.is_none() && !is_own_option(first) && first != "help"
}
