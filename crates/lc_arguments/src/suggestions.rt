//! If arguments are refused, suggests a command that the user may have meant. The program accepts the arguments of
//! each suggested command, except those that `command_moved` takes from the command line.

use crate::near::near_name;
use crate::option_row::Subcommand;
use crate::options_table::options;
use crate::other_tools::{
    VERSION, example_meant, is_shown_as_typed, needless, pair_meant, word_meant,
};
use lc_text::push_quoted;
use std::alloc::{AllocError, Global};
use std::convert::AsStr;

/// A count of the current directory.
const COUNT: &str = "lc count .";

/// An explanation of a path, whether or not the path exists.
const EXPLAIN: &str = "lc explain . README.md";

/// A check of paths by the ignore file that most repositories have.
const CHECK: &str = "git ls-files | lc check .gitignore";

/// A sum of one report.
const SUM: &str = "lc count --format json . | lc sum";

/// A comparison of the current directory with itself.
const DIFF: &str = "lc diff . .";

/// The list of languages.
const LANGUAGES: &str = "lc languages";

/// The commands, each with an example.
const COMMANDS: &[(&str, &str)] = &[
    ("count", COUNT),
    ("explain", EXPLAIN),
    ("check", CHECK),
    ("sum", SUM),
    ("diff", DIFF),
    ("languages", LANGUAGES),
    ("help", "lc --help"),
];

/// The advice that a usage error gives after it says what is wrong.
#[derive(Drop)]
pub(crate) struct Advice {
    /// What the user may have meant or overlooked.
    pub(crate) tip: Option<String>,
    /// A line with a command that works.
    pub(crate) example: String,
}

/// Makes advice with a command that works.
fn advise(alloc: Global, tip: Option<String>, command: &str) -> Result<Advice, AllocError> {
    Ok(Advice {
        tip,
        example: format!(in alloc; "Example: {command}")?,
    })
}

/// Returns the example of the option of `lc count` that lacks its value, which clap's message quotes as in `--by <COLUMNS>`.
fn example_of(quoted: &str) -> Option<&'static str> {
    let (option, _) = quoted.split_once(" <")?;
    for row in options() {
        if row.of.has(Subcommand::Count) && option.strip_prefix("--") == Some(row.name) {
            return Some(row.texts().example);
        }
    }
    None
}

/// Finds the command that an unknown option, or an option without a value, may have meant.
fn option_meant(option: &str) -> Option<&'static str> {
    if !option.starts_with('-') {
        return None;
    }
    let meant = word_meant(option).or(example_of(option));
    meant.or(example_meant(option))
}

/// Returns the refused argument, or the part of it, that clap's message quotes.
fn quoted(problem: &str) -> &str {
    let Some((_, rest)) = problem.split_once('\'') else {
        return "";
    };
    match rest.rsplit_once('\'') {
        Some((quoted, _)) => quoted,
        None => "",
    }
}

/// Lists the names of a command's options, each with an example. The example of an option of `lc count` is the option's own. The example of
/// an option of another command is `other`.
fn known_options(
    alloc: Global,
    command: Subcommand,
    other: &'static str,
) -> Result<Vec<(&'static str, &'static str)>, AllocError> {
    let mut known = Vec::new(alloc);
    for row in options() {
        let texts = row.texts();
        if row.of.has(command) && !texts.heading.is_empty() {
            let meant = match command {
                Subcommand::Count => texts.example,
                _ => other,
            };
            known.push((row.name, meant))?;
        }
    }
    known.push(("version", VERSION))?;
    known.push(("help", "lc --help"))?;
    Ok(known)
}

/// Makes the advice for an unknown argument. If it is a long option and a known option is close to it, the advice names the known option.
/// Otherwise the advice is `other`, an example of the command.
fn option_or(
    alloc: Global,
    unknown: &str,
    command: Subcommand,
    other: &'static str,
) -> Result<Advice, AllocError> {
    if !unknown.starts_with("--") {
        return advise(alloc, None, other);
    }
    let known = known_options(alloc, command, other)?;
    let Some((name, meant)) = near_name(alloc, unknown, &known)? else {
        return advise(alloc, None, other);
    };
    let tip = format!(in alloc; "a similar argument exists: '--{name}'")?;
    advise(alloc, Some(tip), meant)
}

/// Makes the advice for refused arguments of `lc count`: a count that the user may have meant. `problem` is clap's message.
///
/// ```
/// let problem = "error: unexpected argument '--json' found";
/// assert!(rt; count(rt.alloc(), &["--json", "."], problem)?.example.as_str() == "Example: lc count --format json .");
/// ```
fn count<W: AsStr>(alloc: Global, words: &[W], problem: &str) -> Result<Advice, AllocError> {
    if let Some(pair) = pair_meant(alloc, words)? {
        return advise(alloc, None, &pair);
    }
    let refused = quoted(problem);
    if let Some(tip) = needless(refused) {
        return advise(alloc, Some(String::from_str(alloc, tip)?), COUNT);
    }
    match option_meant(refused) {
        Some(meant) => advise(alloc, None, meant),
        None => option_or(alloc, refused, Subcommand::Count, COUNT),
    }
}

/// Makes the advice for a first argument that is neither a command nor close to one.
fn count_of(alloc: Global, word: &str) -> Result<Advice, AllocError> {
    if word.is_empty() || !is_shown_as_typed(alloc, word)? {
        return advise(alloc, None, COUNT);
    }
    let mut text = String::from_str(alloc, "To count a directory: lc count ")?;
    push_quoted(&mut text, word)?;
    Ok(Advice {
        tip: None,
        example: text,
    })
}

/// Finds the explanation that two arguments may have meant, such as `why a.log`.
fn explanation_meant<W: AsStr>(alloc: Global, words: &[W]) -> Result<Option<String>, AllocError> {
    let [word, path] = words else {
        return Ok(None);
    };
    let asks = matches!(word.as_str(), "why" | "which" | "check-ignore");
    if !asks || !is_shown_as_typed(alloc, path.as_str())? {
        return Ok(None);
    }
    let mut command = String::from_str(alloc, "lc explain . ")?;
    push_quoted(&mut command, path.as_str())?;
    Ok(Some(command))
}

fn is_among<W: AsStr>(words: &[W], name: &str) -> bool {
    for word in words {
        if word.as_str() == name {
            return true;
        }
    }
    false
}

/// Finds the command that comes after its arguments, as in `a.json b.json sum`, and makes the command with its arguments after it.
fn command_moved<W: AsStr>(alloc: Global, words: &[W]) -> Result<Option<String>, AllocError> {
    for (name, _) in COMMANDS {
        if is_among(words, name) {
            let mut command = format!(in alloc; "lc {name}")?;
            return if push_others(&mut command, alloc, words, name)? {
                Ok(Some(command))
            } else {
                Ok(None)
            };
        }
    }
    Ok(None)
}

/// Appends the arguments that are not this name, and returns whether a terminal shows all of them unchanged.
fn push_others<W: AsStr>(
    text: &mut String,
    alloc: Global,
    words: &[W],
    name: &str,
) -> Result<bool, AllocError> {
    for word in words {
        let word = word.as_str();
        if !is_shown_as_typed(alloc, word)? {
            return Ok(false);
        }
        if word != name {
            text.push_str(" ")?;
            push_quoted(text, word)?;
        }
    }
    Ok(true)
}

/// Makes the advice for arguments of which the first is no command: a command that the user may have meant.
pub(crate) fn command<W: AsStr>(alloc: Global, words: &[W]) -> Result<Advice, AllocError> {
    let first = match words {
        [first, ..] => first.as_str(),
        [] => "",
    };
    if first == "help" {
        return advise(alloc, None, "lc help count");
    }
    if let Some(meant) = word_meant(first) {
        return advise(alloc, None, meant);
    }
    if let Some(meant) = explanation_meant(alloc, words)? {
        return advise(alloc, None, &meant);
    }
    if first.starts_with("--") {
        return option_or(alloc, first, Subcommand::Count, COUNT);
    }
    let Some((name, meant)) = near_name(alloc, first, COMMANDS)? else {
        return match command_moved(alloc, words)? {
            Some(command) => advise(alloc, None, &command),
            None => count_of(alloc, first),
        };
    };
    let tip = format!(in alloc; "a similar command exists: '{name}'")?;
    advise(alloc, Some(tip), meant)
}

/// Returns the name that help shows for an option's value, such as `FILE`, if the option is one of `lc explain` that takes a value.
fn value_name(option: &str) -> Option<&'static str> {
    let name = option.strip_prefix("--").unwrap_or("");
    for row in options() {
        if row.of.has(Subcommand::Explain) && row.name == name && !row.value.is_empty() {
            return Some(row.value);
        }
    }
    None
}

/// Makes the advice for arguments of `lc explain` that lack DIR. Its tip, such as `'a' is the FILE of '--exclude-from'`, is about the last
/// argument that was read as the value of an option.
fn explain<W: AsStr>(alloc: Global, words: &[W]) -> Result<Advice, AllocError> {
    let mut taken = None;
    for pair in words.windows(2) {
        if let [option, value] = pair {
            let (option, value) = (option.as_str(), value.as_str());
            if let Some(name) = value_name(option) {
                taken = Some(format!(in alloc; "'{value}' is the {name} of '{option}'")?);
            }
        }
    }
    advise(alloc, taken, EXPLAIN)
}

/// Makes the advice for refused arguments of a command. `problem` is clap's message.
pub(crate) fn advice_for<W: AsStr>(
    alloc: Global,
    command: Subcommand,
    words: &[W],
    problem: &str,
) -> Result<Advice, AllocError> {
    let other = match command {
        Subcommand::Count => return count(alloc, words, problem),
        Subcommand::Explain if problem.starts_with("error: the following required") => {
            return explain(alloc, words);
        }
        Subcommand::Explain => EXPLAIN,
        Subcommand::Check => CHECK,
        Subcommand::Sum => SUM,
        Subcommand::Diff => DIFF,
        Subcommand::Languages => LANGUAGES,
    };
    option_or(alloc, quoted(problem), command, other)
}
