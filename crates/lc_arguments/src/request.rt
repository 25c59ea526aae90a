//! The requests that the arguments of the program make.

ghost use Rattle.std.specs.Prelude.{IfErr, IfOk, None, Some, map, string_bytes};
ghost use Rattle.clap.specs.Matches.{found_of};
ghost use Rattle.lc_arguments.specs.CommandLine.{lc_app};
ghost use Rattle.lc_arguments.specs.CountArgs.{IsCommandOf};
ghost use Rattle.lc_arguments.specs.Explained.{AnswersIn, Explains, IsRefusal};
ghost use Rattle.lc_arguments.specs.Naming.{IsNamingError, NamesArguments};
ghost use Rattle.lc_arguments.specs.Refusals.{IsMessage, IsRefusedVisibly};
ghost use Rattle.lc_arguments.specs.Words.{AnswersAsked, AnswersWords};

use crate::check::CheckRequest;
use crate::combinations::misfit;
use crate::count::CountRequest;
use crate::diff::DiffRequest;
use crate::error_text::{advised, number_refused, problem_of, range_refused, value_refused};
use crate::explain::ExplainRequest;
use crate::first_word::asked;
use crate::naming::{is_naming_error, is_text_of, with_words};
use crate::option_row::Subcommand;
use crate::refusals::{message, visible_words};
use crate::suggestions::Advice;
use crate::sum::SumRequest;
use crate::{arguments, check, count, diff, explain, help, suggestions, sum};
use clap::error::ErrorKind;
use clap::{ArgMatches, Command, Error};
use std::alloc::{AllocError, Global};
use std::convert::AsStr;

/// What the program is to do.
#[derive(Drop)]
pub enum Request<'w> {
    /// Check paths by rules, both read from standard input. This is the request if the program has no arguments.
    CheckJoined,
    /// Check the paths on standard input by the rules of a file, as in `lc check .gitignore`.
    Check(CheckRequest<'w>),
    /// Count directories, as in `lc count --files src` or `lc .`.
    Count(CountRequest<'w>),
    /// Show which rule of a directory decides whether each path is ignored, as in `lc explain . a.log`.
    Explain(ExplainRequest<'w>),
    /// Add reports, as in `lc sum a.json b.json`.
    Sum(SumRequest<'w>),
    /// Compare two directories or reports, as in `lc diff v1.json src`.
    Diff(DiffRequest<'w>),
    /// Print the list of languages, as in `lc languages`.
    Languages,
}

/// Why the program carries out no request.
#[derive(Drop)]
pub enum ParseExit {
    /// Help or the version is to be shown. The text belongs on standard output.
    Shown(String),
    /// The arguments are refused, as in `lc count --threads 17 .`. The text says why, and belongs on standard error.
    Refused(String),
    /// There is not enough memory to read the arguments.
    Memory,
}

/// The commands, in the order in which the help of `lc` lists them.
const COMMANDS: &[Subcommand] = &[
    Subcommand::Count,
    Subcommand::Sum,
    Subcommand::Diff,
    Subcommand::Check,
    Subcommand::Explain,
    Subcommand::Languages,
];

/// Makes the clap command of the program, for help, the version, and arguments without a command.
fn command<'a>(alloc: Global) -> Result<Command<'a>, AllocError>
    ensures { IfOk result (IsCommandOf lc_app) }
{
    let mut command = arguments::bare(alloc, "lc", help::LC)?
        .version(help::VERSION)
        .long_version(help::LONG_VERSION);
    let mut left = COMMANDS;
    'commands: while let Some((first, others)) = left.split_first() {
        let subcommand = first.command(alloc)?;
        command = command.subcommand(subcommand)?;
        left = others;
    }
    Ok(command)
}

/// Makes the text of an error of clap. If an argument or a value is missing, or an argument is unknown, the text has the usage of the
/// command and advice.
fn text_of(
    alloc: Global,
    error: &Error,
    usage: &str,
    advice: &Advice,
) -> Result<String, AllocError> {
    let text = format!(in alloc; "{error}")?;
    match error.kind() {
        ErrorKind::MissingRequiredArgument
        | ErrorKind::InvalidValue
        | ErrorKind::InvalidSubcommand
        | ErrorKind::UnknownArgument => advised(alloc, problem_of(&text), usage, advice),
        ErrorKind::ValueValidation => range_refused(alloc, &text),
        _ => Ok(text),
    }
}

/// Turns an error of clap into the reason why the program carries out no request.
pub(crate) fn explained(alloc: Global, error: &Error, usage: &str, advice: &Advice) -> ParseExit
    ensures { Explains error.now result }
{
    if matches!(error.kind(), ErrorKind::OutOfMemory) {
        return ParseExit::Memory;
    }
    let Ok(text) = text_of(alloc, error, usage, advice) else {
        return ParseExit::Memory;
    };
    if error.use_stderr() {
        ParseExit::Refused(text)
    } else {
        ParseExit::Shown(text)
    }
}

/// Makes the refusal of an option's value. `option` is the option's name without its hyphens.
pub(crate) fn refused(alloc: Global, option: &str, value: &str, why: &str) -> ParseExit
    ensures { IsRefusal result }
{
    match value_refused(alloc, option, value, why) {
        Ok(text) => ParseExit::Refused(text),
        Err(AllocError) => ParseExit::Memory,
    }
}

/// Makes the refusal of a value of an option whose values are the numbers from 1 to `most`.
pub(crate) fn no_number(alloc: Global, option: &str, value: &str, most: u32) -> ParseExit
    ensures { IsRefusal result }
{
    match number_refused(alloc, option, value, most) {
        Ok(text) => ParseExit::Refused(text),
        Err(AllocError) => ParseExit::Memory,
    }
}

/// Makes the refusal of options that can't be combined.
pub(crate) fn unfit(alloc: Global, why: &str) -> ParseExit
    ensures { IsRefusal result }
{
    match format!(in alloc; "error: {why}\n\nFor more information, try '--help'.\n") {
        Ok(text) => ParseExit::Refused(text),
        Err(AllocError) => ParseExit::Memory,
    }
}

/// Makes the refusal of a positional argument. The text has `before`, the argument in quotes, and `after`.
pub(crate) fn unfit_word(alloc: Global, before: &str, word: &str, after: &str) -> ParseExit
    ensures { IsRefusal result }
{
    match format!(in alloc;
        "error: {before}'{word}'{after}\n\nFor more information, try '--help'.\n"
    ) {
        Ok(text) => ParseExit::Refused(text),
        Err(AllocError) => ParseExit::Memory,
    }
}

/// Reads arguments that name no command.
fn read_others<'w, W: AsStr>(alloc: Global, words: &'w [W]) -> Result<Request<'w>, ParseExit>
    ensures { AnswersAsked None (map W.text words.entry.now) result }
{
    if words.is_empty() {
        return Ok(Request::CheckJoined);
    }
    let Ok(command) = command(alloc) else {
        return Err(ParseExit::Memory);
    };
    match command.try_get_matches_from(words) {
        // clap accepts `--`, which `count_words` reads elsewhere.
        Ok(_) => Ok(Request::CheckJoined),
        Err(error) => match suggestions::command(alloc, words) {
            Ok(advice) => Err(explained(alloc, &error, help::LC.usage, &advice)),
            Err(AllocError) => Err(ParseExit::Memory),
        },
    }
}

/// Reads the request of a command from clap's values. `misfit` then finds options that can't be combined.
fn request_in<'w>(
    alloc: Global,
    command: Subcommand,
    matches: &ArgMatches<'w>,
) -> Result<Request<'w>, ParseExit>
    ensures { AnswersIn command (found_of matches.now) result }
{
    match command {
        Subcommand::Count => count::request_in(alloc, matches),
        Subcommand::Sum => sum::request_in(alloc, matches),
        Subcommand::Diff => diff::request_in(alloc, matches),
        Subcommand::Check => Ok(check::request_in(matches)),
        Subcommand::Explain => explain::request_in(alloc, matches),
        Subcommand::Languages => Ok(Request::Languages),
    }
}

/// Reads the arguments after a command's name.
fn read_command<'w, W: AsStr>(
    alloc: Global,
    command: Subcommand,
    words: &'w [W],
) -> Result<Request<'w>, ParseExit>
    ensures { AnswersAsked (Some command) (map W.text words.entry.now) result }
{
    let matches = match command.parsed(alloc, words) {
        Ok(matches) => matches,
        Err(no) => return Err(no),
    };
    let request = match request_in(alloc, command, &matches) {
        Ok(request) => request,
        Err(no) => return Err(no),
    };
    match misfit(&request) {
        None => Ok(request),
        Some(why) => Err(unfit(alloc, why)),
    }
}

/// Reads the arguments of the program. Each command reads its own arguments, so their values are known to be in range.
fn read_words<'w, W: AsStr>(alloc: Global, words: &'w [W]) -> Result<Request<'w>, ParseExit>
    ensures { AnswersWords (map W.text words.entry.now) result }
{
    match asked(words) {
        (None, others) => read_others(alloc, others),
        (Some(command), rest) => read_command(alloc, command, rest),
    }
}

/// Makes the text of a refusal that quotes the arguments in escaped form, by reading escaped copies of them. `why` is the refusal that
/// quotes the arguments as they were typed.
fn refusal<W: AsStr>(alloc: Global, words: &[W], why: &str) -> Result<String, AllocError>
    ensures { IfOk result (λ text. IsMessage (string_bytes text)) }
{
    // The escaped arguments are refused for the same reason, and quoted in their escaped form.
    let visible = visible_words(alloc, words)?;
    match read_words(alloc, &visible) {
        Err(ParseExit::Refused(text)) => message(alloc, &text),
        _ => message(alloc, why),
    }
}

/// Makes a refusal whose first paragraph names an argument. If clap's text names none, the refusal lists all typed arguments. For `-xz`,
/// for example, clap names only one letter.
fn naming_refusal<W: AsStr>(alloc: Global, words: &[W], why: &str) -> Result<String, AllocError>
    ensures visible { IfOk result (λ text. IsMessage (string_bytes text)) }
    ensures names { IfOk result (λ text. IsNamingError (map W.text words.entry.now) (string_bytes text)) }
{
    let first = refusal(alloc, words, why)?;
    let named = is_naming_error(alloc, &first, words)?;
    if named {
        return Ok(first);
    }
    let more = with_words(alloc, &first, words)?;
    let second = message(alloc, &more)?;
    let named = is_naming_error(alloc, &second, words)?;
    if named { Ok(second) } else { Err(AllocError) }
}

impl<'w> Request<'w> {
    /// Reads the arguments after the program's name.
    ///
    /// A refusal quotes the arguments in a form that a terminal can show safely ([`push_visible`](lc_text::push_visible)).
    pub fn read<W: AsStr>(alloc: Global, words: &'w [W]) -> Result<Request<'w>, ParseExit>
        ensures answers { AnswersWords (map W.text words.entry.now) result }
        ensures visible { IfErr result IsRefusedVisibly }
        ensures names { IfErr result (NamesArguments (map W.text words.entry.now)) }
    {
        match read_words(alloc, words) {
            Ok(request) => Ok(request),
            Err(ParseExit::Refused(why)) => match naming_refusal(alloc, words, &why) {
                Ok(why) => Err(ParseExit::Refused(why)),
                Err(AllocError) => Err(ParseExit::Memory),
            },
            // clap's texts of help and of the version name what they are about, but no contract says so.
            Err(ParseExit::Shown(text)) => match is_text_of(alloc, &text, words) {
                Ok(true) => Err(ParseExit::Shown(text)),
                _ => Err(ParseExit::Memory),
            },
            Err(ParseExit::Memory) => Err(ParseExit::Memory),
        }
    }
}
